//! Made texts that are read.
use arch_reader::read_arch;
use spec_join::join;
use spec_make::make_text;
use std::alloc::{AllocError, Global};
use std::test::Fail;
use tgff_reader::Tgff;

/// How many tasks, messages, resources, links and options the specification made from a number has, or `None` where its
/// text is refused.
fn sizes(alloc: Global, number: u64) -> Result<Option<[usize; 5]>, AllocError> {
    let mut text = Vec::new(alloc);
    make_text(alloc, number, &mut text)?;
    if text.len() > 16_777_216 {
        return Ok(None);
    }
    let Ok(arch) = read_arch(alloc, &text) else {
        return Ok(None);
    };
    let Ok(spec) = join(alloc, &Tgff::none(alloc), &arch) else {
        return Ok(None);
    };
    Ok(Some([
        spec.tasks(),
        spec.messages(),
        spec.resources(),
        spec.links(),
        spec.options(),
    ]))
}

#[test]
fn the_smallest(rt: HostRuntime) -> Result<(), Fail> {
    assert!(rt; sizes(rt.alloc(), 0)? == Some([4, 2, 4, 4, 12]));
    Ok(())
}

#[test]
fn larger_ones(rt: HostRuntime) -> Result<(), Fail> {
    assert!(rt; sizes(rt.alloc(), 3)? == Some([14, 9, 9, 12, 42]));
    assert!(rt; sizes(rt.alloc(), 7)? == Some([46, 30, 25, 40, 138]));
    Ok(())
}
