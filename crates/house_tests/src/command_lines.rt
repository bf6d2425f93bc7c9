//! Lines of a command with two places, an option that has to be there and one that may be missing.
use form_words::read_line;
use std::alloc::{AllocError, Global};
use std::test::Fail;

/// The values of a line at its places and of its options, or `none`.
fn values(alloc: Global, line: &str) -> Result<String, AllocError> {
    let mut words = Vec::new(alloc);
    for word in line.split(' ') {
        words.push(String::from_str(alloc, word)?)?;
    }
    let options = [("seed", true), ("budget", false)];
    let Some(found) = read_line(alloc, "explore", &["tgff", "arch"], &options, &words)? else {
        return String::from_str(alloc, "none");
    };
    let mut text = String::new(alloc);
    for id in ["tgff", "arch", "seed", "budget"] {
        text.push_str(found.get_str(id).unwrap_or("?"))?;
        text.push_str(" ")?;
    }
    Ok(text)
}

#[test]
fn a_required_and_a_free_option(rt: HostRuntime) -> Result<(), Fail> {
    let alloc = rt.alloc();
    for (line, expected) in [
        ("T A --seed 7", "T A 7 ? "),
        ("T A --seed=7 --budget 3", "T A 7 3 "),
        ("--budget 3 T --seed 7 A", "T A 7 3 "),
        ("T A --seed 7 --budget -", "T A 7 - "),
        ("T A --seed=3=4", "T A 3=4 ? "),
        ("--seed 7 -- --budget A", "--budget A 7 ? "),
        ("T A", "none"),
        ("T A --budget 3", "none"),
        ("T --seed 7", "none"),
        ("T A B --seed 7", "none"),
        ("T A --seed 7 --seed 7", "none"),
        ("T A --seed 7 --budget", "none"),
        ("T A --seed 7 --budget -1", "none"),
        ("T A --seed 7 --rounds 1", "none"),
        ("T A -s --seed 7", "none"),
        ("T A -- --seed 7", "none"),
    ] {
        let found = values(alloc, line)?;
        assert!(rt; found.as_str() == expected, "{}", line);
    }
    Ok(())
}
