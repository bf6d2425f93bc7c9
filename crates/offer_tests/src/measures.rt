//! What the tools measure of a design on one resource, and of one whose message goes over two links.
ghost use Rattle.std.specs.Prelude.{◌≡◌, length, IfOk};
ghost use Rattle.spec_model.specs.Spec.{design_variables};

use super::reading::spec_of;
use evaluators::{Evaluator, HopSum, Lateness, Makespan, PeakLoad};
use impl_rules::{Design, first_broken};
use spec_graph::Spec;
use std::alloc::{AllocError, Global};
use std::process::Abort;
use std::test::Fail;

/// The design with these variables.
fn design_with(
    rt: &impl Abort,
    alloc: Global,
    spec: &Spec,
    variables: &[u64],
) -> Result<Design, AllocError>
    ensures { IfOk result (λ design. length design ≡ design_variables spec.now) }
{
    let mut design = Design::empty(alloc, spec)?;
    for v in variables {
        assert!(rt; *v < spec.design_variables());
        design.set(*v, true);
    }
    Ok(design)
}

/// What a tool in a box, which has this name and wasn't called yet, measures of a design, which has to be valid.
fn measured(
    rt: &impl Abort,
    alloc: Global,
    mut tool: Box<dyn Evaluator>,
    tag: &str,
    spec: &Spec,
    design: &Design,
) -> Result<u64, AllocError>
    requires bits { length design.now ≡ design_variables spec.now }
    requires uncalled { calls tool ≡ 0 }
{
    let broken = first_broken(spec, design);
    assert!(rt; broken.is_none());
    assert_eq!(rt; tool.tag(), tag);
    tool.measure(alloc, spec, design)
}

/// When the last task of a valid design ends.
fn makespan(rt: &impl Abort, alloc: Global, spec: &Spec, design: &Design) -> Result<u64, AllocError>
    requires { length design.now ≡ design_variables spec.now }
{
    let tool = Box::new(alloc, Makespan::new())?;
    measured(rt, alloc, tool, "makespan", spec, design)
}

/// How late a task of a valid design ends at most.
fn lateness(rt: &impl Abort, alloc: Global, spec: &Spec, design: &Design) -> Result<u64, AllocError>
    requires { length design.now ≡ design_variables spec.now }
{
    let tool = Box::new(alloc, Lateness::new())?;
    measured(rt, alloc, tool, "lateness", spec, design)
}

/// What the messages of a valid design carry over links.
fn hopsum(rt: &impl Abort, alloc: Global, spec: &Spec, design: &Design) -> Result<u64, AllocError>
    requires { length design.now ≡ design_variables spec.now }
{
    let tool = Box::new(alloc, HopSum::new())?;
    measured(rt, alloc, tool, "hopsum", spec, design)
}

/// How long the busiest resource of a valid design is busy.
fn peakload(rt: &impl Abort, alloc: Global, spec: &Spec, design: &Design) -> Result<u64, AllocError>
    requires { length design.now ≡ design_variables spec.now }
{
    let tool = Box::new(alloc, PeakLoad::new())?;
    measured(rt, alloc, tool, "peakload", spec, design)
}

/// The values of the four tools are these.
fn are_values(
    rt: &impl Abort,
    alloc: Global,
    spec: &Spec,
    design: &Design,
    values: [u64; 4],
) -> Result<(), AllocError>
    requires { length design.now ≡ design_variables spec.now }
{
    assert_eq!(rt; makespan(rt, alloc, spec, design)?, values[0]);
    assert_eq!(rt; lateness(rt, alloc, spec, design)?, values[1]);
    assert_eq!(rt; hopsum(rt, alloc, spec, design)?, values[2]);
    assert_eq!(rt; peakload(rt, alloc, spec, design)?, values[3]);
    Ok(())
}

#[test]
fn one_resource(rt: HostRuntime) -> Result<(), Fail> {
    let alloc = rt.alloc();
    let spec = spec_of(
        alloc,
        b"arch 1\nobjective energy scale 10\nobjective price\nclock scale 1\nresource pe0 price=33\n\
        task 0.t0_0\ntask 0.t0_1\ntask 1.t1_0\nmessage 0.a0_0 0.t0_0 -> 0.t0_1\n\
        map 0.t0_0 pe0 time=48.5 energy=1.23457e-05\nmap 0.t0_1 pe0 time=10 energy=2\n\
        map 1.t1_0 pe0 time=48.5 energy=1.23457e-05\ndeadline 0.t0_1 200\n",
    )?;
    let design = design_with(&rt, alloc, &spec, &[0, 1, 2, 3])?;
    assert_eq!(rt; makespan(&rt, alloc, &spec, &design)?, 1070);
    Ok(())
}

#[test]
fn two_links(rt: HostRuntime) -> Result<(), Fail> {
    let alloc = rt.alloc();
    let spec = spec_of(
        alloc,
        b"arch 1\ntask s\ntask w\nresource a\nresource b\nresource c\nlink l1 a -- b\nlink l2 b -- c\nhops 2\n\
        delay 3\nmessage m s -> w\nmap s a time=5\nmap w c time=4\ndeadline w 12\n",
    )?;
    let design = design_with(&rt, alloc, &spec, &[0, 1, 2, 4, 6, 7, 8, 9, 10])?;
    are_values(&rt, alloc, &spec, &design, [15, 3, 2, 5])?;
    Ok(())
}
