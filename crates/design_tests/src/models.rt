//! A message from a resource over a hub to two others: the encoding, and the model of the one valid design.
ghost use Rattle.std.specs.Prelude.{◌≡◌, length, IfOk};
ghost use Rattle.spec_model.specs.Spec.{design_variables};

use super::reading::spec_of;
use encode_views::{design_of, model_of};
use impl_rules::{Design, first_broken};
use route_encode::encode;
use spec_graph::Spec;
use std::alloc::{AllocError, Global};
use std::process::Abort;
use std::test::Fail;

/// The design in which these variables are true.
pub fn design_with(
    rt: &impl Abort,
    alloc: Global,
    spec: &Spec,
    variables: &[u64],
) -> Result<Design, AllocError>
    ensures { IfOk result (λ design. length design ≡ design_variables spec.now) }
{
    let mut design = Design::empty(alloc, spec)?;
    for v in variables {
        assert!(rt; *v < spec.design_variables());
        design.set(*v, true);
    }
    Ok(design)
}

/// Whether a variable is true in the model of the hub's design.
fn is_true(v: u64) -> bool {
    match v {
        0..=3 | 5 | 7 | 9..=16 | 21 | 26 | 30 | 32..=35 => true,
        _ => false,
    }
}

/// The valid design in which these variables are true has the model above, of which it is the design part.
fn has_model(
    rt: &impl Abort,
    alloc: Global,
    spec: &Spec,
    variables: &[u64],
) -> Result<(), AllocError> {
    let design = design_with(rt, alloc, spec, variables)?;
    let broken = first_broken(spec, &design);
    assert!(rt; broken.is_none());
    let model = model_of(alloc, spec, &design)?;
    let mut v = 0u64;
    for bit in model.iter() {
        assert_eq!(rt; *bit, is_true(v), "{}", v);
        v = v.saturating_add(1);
    }
    assert_eq!(rt; v, 36);
    let again = design_of(alloc, spec, &model)?;
    assert_eq!(rt; again.bytes(), design.bytes());
    Ok(())
}

#[test]
fn hub(rt: HostRuntime) -> Result<(), Fail> {
    let alloc = rt.alloc();
    let spec = spec_of(
        alloc,
        b"arch 1\ntask s\ntask d\ntask e\nresource a\nresource hub\nresource b\nresource c\nlink la a -- hub\n\
        link lb hub -- b\nlink lc hub -- c\nmessage m s -> d e\nmap s a\nmap d b\nmap e c\n",
    )?;
    let set = encode(alloc, &spec)?;
    assert_eq!(rt; set.variables(), 36);
    has_model(
        &rt,
        alloc,
        &spec,
        &[0, 1, 2, 3, 5, 7, 9, 10, 11, 12, 13, 14, 15],
    )?;
    Ok(())
}
