//! The runs of commands of which one call on a file or on standard output fails, for each call that they make: the
//! status is that of a fault, the files that the command doesn't write are as before, and of those that it writes the ones
//! before the failed call are whole.
use desk_io::{MemoryDesk, names_are_distinct};
use dse_run::{Status, run};
use std::alloc::{AllocError, Global};
use std::process::Abort;
use std::test::Fail;

/// A task on one of two resources.
const TWO: &str = "arch 1\ntask t\nresource a\nresource b\nmap t a\nmap t b\n";

/// A genotype for it, which asks for the first option before all else.
const GENES: &str = "genotype 1\ngene 0 5 1\ngene 1 5 1\n";

/// A task without an option.
const NO_OPTION: &str = "arch 1\ntask t\n";

/// The proof that it has no valid design.
const NO_DESIGN: &str = "proof 1\np 1\n";

/// A task on one of three resources, with two objectives.
const THREE: &str =
    "arch 1\nobjective cost\nobjective energy\ntask t\nresource a cost=1\nresource b cost=4\nresource c cost=4\nmap t a energy=5\nmap t b energy=2\nmap t c energy=5\n";

/// Its front.
const FRONT: &str =
    "front 1\nobjectives cost energy\nentry 1\nbind t a 0\nalloc a\nvector 1 5\nentry 2\nbind t b 1\nalloc b\nvector 4 2\ncomplete\n";

/// A proof of it.
const PROOF: &str =
    "proof 1\nc 4 5\np 5 10 w3 w4 s + s 9 + s 11 w0 w1 s + s\nc 4 2\np 4 14 w3 w5 s + s 13 + s 15 w0 w2 s + s\nc 1 5\np 3 18 w4 w5 s + s 17 + s 19 w1 w2 s + s 1 + s 12 + s 16 + s\n";

/// What is made of the number 0.
const MADE: &str =
    "arch 1\nobjective cost\nobjective energy\nresource r0 cost=16\nresource r1 cost=98\nresource r2 cost=17\nresource r3 cost=32\nlink l0 r0 -- r1 cost=3\ntraffic l0 energy=1\nlink l1 r0 -- r2 cost=4\ntraffic l1 energy=1\nlink l2 r1 -- r3 cost=2\ntraffic l2 energy=1\nlink l3 r2 -- r3 cost=7\ntraffic l3 energy=1\nhops 4\ntask t0\ntask t1\ntask t2\ntask t3\nmessage m1 t0 -> t1 t2\nmessage m3 t1 -> t3\nmap t0 r0 time=1 energy=34\nmap t0 r1 time=10 energy=12\nmap t0 r2 time=5 energy=47\nmap t1 r0 time=16 energy=24\nmap t1 r1 time=10 energy=37\nmap t1 r2 time=11 energy=40\nmap t2 r1 time=20 energy=35\nmap t2 r2 time=9 energy=6\nmap t2 r3 time=15 energy=49\nmap t3 r3 time=10 energy=49\nmap t3 r0 time=5 energy=30\nmap t3 r1 time=12 energy=26\n";

/// What the written files have before each run.
const OLD: &str = "an older file\nof two lines and a half";

type HeldFiles = Vec<(String, Vec<u8>)>;

/// A file with this name and text.
fn file(alloc: Global, name: &str, text: &str) -> Result<(String, Vec<u8>), AllocError> {
    let name = String::from_str(alloc, name)?;
    let bytes = Vec::from_slice(alloc, text.as_bytes())?;
    Ok((name, bytes))
}

/// The files before each run, of which the commands write the last two.
fn files(alloc: Global) -> Result<HeldFiles, AllocError> {
    let mut files = Vec::new(alloc);
    files.push(file(alloc, "two", TWO)?)?;
    files.push(file(alloc, "genes", GENES)?)?;
    files.push(file(alloc, "none", NO_OPTION)?)?;
    files.push(file(alloc, "three", THREE)?)?;
    files.push(file(alloc, "F", FRONT)?)?;
    files.push(file(alloc, "P", PROOF)?)?;
    files.push(file(alloc, "front", OLD)?)?;
    files.push(file(alloc, "proof", OLD)?)?;
    Ok(files)
}

/// The words of a line.
fn words_of(alloc: Global, line: &str) -> Result<Vec<String>, AllocError> {
    let mut words = Vec::new(alloc);
    for word in line.split(' ') {
        words.push(String::from_str(alloc, word)?)?;
    }
    Ok(words)
}

/// The status of a run over these files, of which one call fails, and the desk that it leaves.
fn left(alloc: Global, line: &str, failing: u64) -> Result<(Status, MemoryDesk), AllocError> {
    let files = files(alloc)?;
    if !names_are_distinct(&files) {
        return Err(AllocError);
    }
    let mut desk = MemoryDesk::new(alloc, files, vec![in alloc; failing]?);
    let status = run(
        alloc,
        &words_of(alloc, line)?,
        &mut desk,
        &mut Vec::new(alloc),
    );
    Ok((status, desk))
}

/// Whether a file has this text.
fn has(desk: &MemoryDesk, name: &str, text: &str) -> bool {
    desk.content(name) == Some(text.as_bytes())
}

/// Whether the files that no command writes are as before.
fn keeps_the_others(desk: &MemoryDesk) -> bool {
    has(desk, "two", TWO)
        && has(desk, "genes", GENES)
        && has(desk, "none", NO_OPTION)
        && has(desk, "three", THREE)
        && has(desk, "F", FRONT)
        && has(desk, "P", PROOF)
}

/// Tries a run of which one call fails: the status, what is said, and the texts of the front file and of the proof file.
fn try_run(
    rt: &(impl Abort + AllocGlobal),
    line: &str,
    failing: u64,
    answer: (Status, &str),
    texts: (&str, &str),
) -> Result<(), Fail> {
    let (status, desk) = left(rt.alloc(), line, failing)?;
    assert!(rt; status == answer.0, "{} {}", line, failing);
    assert!(rt; desk.said() == answer.1.as_bytes(), "{} {}", line, failing);
    assert!(rt; has(&desk, "front", texts.0), "{} {}", line, failing);
    assert!(rt; has(&desk, "proof", texts.1), "{} {}", line, failing);
    assert!(rt; keeps_the_others(&desk), "{} {}", line, failing);
    Ok(())
}

/// Tries a run of which one call fails, which is a fault.
fn try_fault(
    rt: &(impl Abort + AllocGlobal),
    line: &str,
    failing: u64,
    front: &str,
    proof: &str,
) -> Result<(), Fail> {
    try_run(
        rt,
        line,
        failing,
        (Status::Fault, "fault\n"),
        (front, proof),
    )
}

#[test]
fn a_decoding_along_genes(rt: HostRuntime) -> Result<(), Fail> {
    // Five calls: `length` and `fill` of both files, and `say`.
    let line = "decode - two genes";
    for call in 1..6u64 {
        try_fault(&rt, line, call, OLD, OLD)?;
    }
    let said = "bind t a 0\nalloc a\nvector\n";
    try_run(&rt, line, 6, (Status::Done, said), (OLD, OLD))
}

#[test]
fn a_check(rt: HostRuntime) -> Result<(), Fail> {
    // Seven calls: `length` and `fill` of each file, those of `P` once the front is tested, and `say`.
    let line = "check - three F P";
    for call in 1..8u64 {
        try_fault(&rt, line, call, OLD, OLD)?;
    }
    try_run(&rt, line, 8, (Status::Done, "accepted 2\n"), (OLD, OLD))
}

#[test]
fn a_decoding_with_its_proof(rt: HostRuntime) -> Result<(), Fail> {
    // Five calls: `length` and `fill`, `start` and `append` of the proof file, and `say`.
    let line = "decode - none - --proof proof";
    for call in 1..4u64 {
        try_fault(&rt, line, call, OLD, OLD)?;
    }
    try_fault(&rt, line, 4, OLD, "")?;
    try_fault(&rt, line, 5, OLD, NO_DESIGN)?;
    try_run(&rt, line, 6, (Status::No, "none\n"), (OLD, NO_DESIGN))
}

#[test]
fn a_front_with_its_proof(rt: HostRuntime) -> Result<(), Fail> {
    // Seven calls: `length` and `fill`, `start` and `append` of the front file, then of the proof file, and `say`.
    let line = "front - three --front front --proof proof";
    for call in 1..4u64 {
        try_fault(&rt, line, call, OLD, OLD)?;
    }
    try_fault(&rt, line, 4, "", OLD)?;
    try_fault(&rt, line, 5, FRONT, OLD)?;
    try_fault(&rt, line, 6, FRONT, "")?;
    try_fault(&rt, line, 7, FRONT, PROOF)?;
    let said = "front complete 2\n";
    try_run(&rt, line, 8, (Status::Done, said), (FRONT, PROOF))
}

#[test]
fn a_made_specification(rt: HostRuntime) -> Result<(), Fail> {
    // Three calls: `start` and `append` of the written file, and `say`. No file is read.
    let line = "make 0 --arch front";
    try_fault(&rt, line, 1, OLD, OLD)?;
    try_fault(&rt, line, 2, "", OLD)?;
    try_fault(&rt, line, 3, MADE, OLD)?;
    let said = "made 0 tasks 4 messages 2 resources 4 links 4 options 12\n";
    try_run(&rt, line, 4, (Status::Done, said), (MADE, OLD))
}
