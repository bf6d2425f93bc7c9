//! The worked lines of each command.

use super::{Request, read_words};
use std::alloc::Global;
use std::test::Fail;

/// What a line asks for, or `none`.
fn asked(alloc: Global, line: &str) -> Result<String, Fail> {
    let mut words = Vec::new(alloc);
    for word in line.split(' ') {
        words.push(String::from_str(alloc, word)?)?;
    }
    let mut tags = Vec::new(alloc);
    for tag in ["span", "load", "span"] {
        tags.push(String::from_str(alloc, tag)?)?;
    }
    match read_words(alloc, &words, &tags)? {
        Some(
            Request::Decode {
                tgff,
                arch,
                geno,
                budget,
                proof_file,
            },
        ) => {
            let proof = match &proof_file {
                Some(name) => name.as_str(),
                None => "no proof",
            };
            Ok(format!(in alloc; "{tgff} {arch} {geno} {budget:?} {proof}")?)
        }
        Some(
            Request::Explore {
                tgff,
                arch,
                rounds,
                seed,
                chosen,
                proof_file,
            },
        ) => {
            let proof = match &proof_file {
                Some(name) => name.as_str(),
                None => "no proof",
            };
            Ok(format!(in alloc; "{tgff} {arch} {rounds} {seed} {chosen:?} {proof}")?)
        }
        Some(
            Request::Front {
                tgff,
                arch,
                front_file,
                proof_file,
                budget,
            },
        ) => Ok(format!(in alloc; "{tgff} {arch} {front_file} {proof_file} {budget:?}")?),
        Some(
            Request::Check {
                tgff,
                arch,
                front_file,
                proof_file,
            },
        ) => Ok(format!(in alloc; "{tgff} {arch} {front_file} {proof_file}")?),
        Some(
            Request::Make {
                number,
                arch,
                rounds,
            },
        ) => Ok(format!(in alloc; "{number} {arch} {rounds:?}")?),
        None => Ok(String::from_str(alloc, "none")?),
    }
}

#[test]
fn asks_what_each_line_says(rt: HostRuntime) -> Result<(), Fail> {
    let alloc = rt.alloc();
    for (line, expected) in [
        ("decode T A -", "T A - None no proof"),
        ("decode - A -", "- A - None no proof"),
        ("decode - A", "none"),
        ("decode T - -", "none"),
        ("decode - - -", "none"),
        ("decode  A -", "none"),
        ("decode -- - A -", "- A - None no proof"),
        ("decode T A G", "T A G None no proof"),
        ("decode T A G H", "none"),
        ("decode T A - --other P", "none"),
        ("decode T A - --proof P", "T A - None P"),
        ("decode --proof P T A -", "T A - None P"),
        ("decode T --budget 7 A --proof=P -", "T A - Some(7) P"),
        ("decode T A --proof=P -- --proof", "T A --proof None P"),
        (
            "decode T A - --proof P --budget=18446744073709551615",
            "T A - Some(18446744073709551615) P",
        ),
        (
            "decode T A - --proof P --budget 18446744073709551616",
            "none",
        ),
        ("decode T A - --budget 7", "none"),
        ("decode T A - --proof P --budget 0", "none"),
        ("decode T A - --proof P --budget 07", "none"),
        ("decode T A - --proof P --budget +7", "none"),
        ("decode T A - --proof P --budget", "none"),
        ("decode T A - --proof P --budget=", "none"),
        ("decode T A - --proof P --budget 1 --budget 1", "none"),
        ("decode T A - --proof P --proof P", "none"),
        ("decode T A - --proof -", "none"),
        ("decode T A - --proof=", "none"),
        ("decode T A - --proof T", "none"),
        ("decode T A - --proof A", "none"),
        ("decode T A G --proof G", "none"),
        ("explore T A --rounds 3 --seed 1", "T A 3 1 [] no proof"),
        (
            "explore --seed=0 - A --proof P --rounds 65536 --measure load",
            "- A 65536 0 [1] P",
        ),
        (
            "explore T A --rounds 0 --seed 18446744073709551615 --measure load,span",
            "T A 0 18446744073709551615 [0, 1] no proof",
        ),
        ("explore T A --rounds 65537 --seed 1", "none"),
        ("explore T A --rounds 03 --seed 1", "none"),
        ("explore T A --rounds 3", "none"),
        ("explore T A --seed 3", "none"),
        ("explore T --rounds 3 --seed 1", "none"),
        ("explore T - --rounds 3 --seed 1", "none"),
        ("explore T A G --rounds 3 --seed 1", "none"),
        (
            "explore T A --rounds 3 --seed 1 --measure span,span",
            "none",
        ),
        ("explore T A --rounds 3 --seed 1 --measure span,", "none"),
        ("explore T A --rounds 3 --seed 1 --measure=", "none"),
        ("explore T A --rounds 3 --seed 1 --measure time", "none"),
        ("explore T A --rounds 3 --seed 1 --measure Span", "none"),
        ("explore T A --rounds 3 --seed 1 --proof A", "none"),
        ("explore T A --rounds 3 --seed 1 --proof T", "none"),
        ("explore T A --rounds 3 --seed 1 --proof -", "none"),
        ("explore T A --rounds 3 --seed 1 --budget 1", "none"),
        ("front T A --front F --proof P", "T A F P None"),
        (
            "front --budget 3 - A --proof P --front=F",
            "- A F P Some(3)",
        ),
        ("front T A --front F", "none"),
        ("front T A --front F --proof F", "none"),
        ("front T A --front A --proof P", "none"),
        ("front T A --front - --proof P", "none"),
        ("front T A --front F --proof T", "none"),
        ("front T A --front F --proof P --budget 0", "none"),
        ("front T A G --front F --proof P", "none"),
        ("check T A F P", "T A F P"),
        ("check - A F P", "- A F P"),
        ("check - - F P", "none"),
        ("check - A - P", "none"),
        ("check - A F -", "none"),
        ("check - A F", "none"),
        ("check - A F P Q", "none"),
        ("check - A F P --budget 1", "none"),
        ("check -- - A F F", "- A F F"),
        ("make 0 --arch A", "0 A None"),
        ("make --rounds=50 --arch=A 3", "3 A Some(50)"),
        (
            "make 18446744073709551615 --arch A --rounds 65536",
            "18446744073709551615 A Some(65536)",
        ),
        ("make 18446744073709551616 --arch A", "none"),
        ("make 07 --arch A", "none"),
        ("make 7", "none"),
        ("make --arch A", "none"),
        ("make 7 8 --arch A", "none"),
        ("make 7 --arch -", "none"),
        ("make 7 --arch=", "none"),
        ("make 7 --arch A --arch B", "none"),
        ("make 7 --arch A --rounds 65537", "none"),
        ("make 7 --arch A --rounds", "none"),
        ("make 7 --arch A --seed 1", "none"),
        ("make -- 7 --arch A", "none"),
    ] {
        assert!(rt; asked(alloc, line)?.as_str() == expected);
    }
    Ok(())
}
