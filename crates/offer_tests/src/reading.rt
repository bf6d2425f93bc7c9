//! A specification from the text of an architecture file.
use arch_reader::read_arch;
use spec_graph::Spec;
use spec_join::join;
use std::alloc::Global;
use std::test::Fail;
use tgff_reader::Tgff;

/// The specification of an architecture file without task graphs.
pub fn spec_of(alloc: Global, text: &[u8]) -> Result<Spec, Fail> {
    if text.len() > 16_777_216 {
        return Err(Fail::from("the file is too long"));
    }
    let Ok(arch) = read_arch(alloc, text) else {
        return Err(Fail::from("the file is refused"));
    };
    match join(alloc, &Tgff::none(alloc), &arch) {
        Ok(spec) => Ok(spec),
        Err(_) => Err(Fail::from("the statements are refused")),
    }
}
