//! An implementation that is read, and printed again.
use super::reading::spec_of;
use result_text::{Vector, print_design, read_implementation};
use spec_graph::Spec;
use std::alloc::{AllocError, Global};
use std::test::Fail;

/// Whether a text is read as a design with these bits and a vector of 5, and printed again.
fn is_printed_again(
    alloc: Global,
    spec: &Spec,
    text: &[u8],
    bits: &[u8],
) -> Result<bool, AllocError> {
    let Ok(entry) = read_implementation(alloc, spec, text) else {
        return Ok(false);
    };
    let vector = Vector::of(alloc, &[5])?;
    let mut printed = Vec::new(alloc);
    print_design(alloc, spec, &entry.design, vector.numbers(), &mut printed)?;
    Ok(
        entry.design.bytes() == bits
            && entry.vector.numbers() == vector.numbers()
            && printed.as_slice() == text,
    )
}

#[test]
fn one_spelling(rt: HostRuntime) -> Result<(), Fail> {
    let alloc = rt.alloc();
    let spec = spec_of(
        alloc,
        b"arch 1\nobjective cost\nresource cpu0 cost=2\ntask t\nmap t cpu0 cost=3\n",
    )?;
    let text = b"bind t cpu0 0\nalloc cpu0\nvector 5\n";
    assert!(rt; is_printed_again(alloc, &spec, text, &[1, 1])?);
    Ok(())
}
