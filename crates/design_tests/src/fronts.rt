//! Fronts that are read, and printed again. Texts that are refused stand among the cases of `check`.
use super::reading::spec_of;
use result_text::{print_front, read_front};
use spec_graph::Spec;
use std::alloc::{AllocError, Global};
use std::test::Fail;

/// A task with three resources to run on, and two objectives.
const THREE_OPTIONS: &[u8] =
    b"arch 1\nobjective cost\nobjective energy\ntask t\nresource a cost=1\nresource b cost=4\n\
    resource c cost=4\nmap t a energy=5\nmap t b energy=2\nmap t c energy=5\n";

/// Whether a text is read as a front with so many entries, and printed again.
fn is_printed_again(
    alloc: Global,
    spec: &Spec,
    text: &[u8],
    entries: usize,
    complete: bool,
) -> Result<bool, AllocError> {
    let Ok(front) = read_front(alloc, spec, text) else {
        return Ok(false);
    };
    let mut printed = Vec::new(alloc);
    print_front(alloc, spec, &front, &mut printed)?;
    Ok(
        printed.as_slice() == text
            && front.entries.list().len() == entries
            && front.complete == complete,
    )
}

#[test]
fn an_entry_without_lines(rt: HostRuntime) -> Result<(), Fail> {
    let alloc = rt.alloc();
    let spec = spec_of(alloc, b"arch 1\nobjective cost\n")?;
    let text = b"front 1\nobjectives cost\nentry 1\nvector 0\ncomplete\n";
    assert!(rt; is_printed_again(alloc, &spec, text, 1, true)?);
    Ok(())
}

#[test]
fn no_objectives(rt: HostRuntime) -> Result<(), Fail> {
    let alloc = rt.alloc();
    let spec = spec_of(alloc, b"arch 1\ntask t\n")?;
    assert!(rt; is_printed_again(alloc, &spec, b"front 1\nobjectives\ncomplete\n", 0, true)?);
    Ok(())
}

#[test]
fn two_entries(rt: HostRuntime) -> Result<(), Fail> {
    let alloc = rt.alloc();
    let spec = spec_of(alloc, THREE_OPTIONS)?;
    let whole = b"front 1\nobjectives cost energy\nentry 1\nbind t a 0\nalloc a\nvector 1 5\n\
        entry 2\nbind t b 1\nalloc b\nvector 4 2\ncomplete\n";
    assert!(rt; is_printed_again(alloc, &spec, whole, 2, true)?);
    Ok(())
}

#[test]
fn two_entries_of_more(rt: HostRuntime) -> Result<(), Fail> {
    let alloc = rt.alloc();
    let spec = spec_of(alloc, THREE_OPTIONS)?;
    let open = b"front 1\nobjectives cost energy\nentry 1\nbind t a 0\nalloc a\nvector 1 5\n\
        entry 2\nbind t b 1\nalloc b\nvector 4 2\nopen\n";
    assert!(rt; is_printed_again(alloc, &spec, open, 2, false)?);
    Ok(())
}
