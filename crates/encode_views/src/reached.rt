//! Which resources a message reaches in so many hops.
//!
//! There is a row of bits for each number of hops. The first is marked by a scan of the options, each later one by a
//! scan of the arcs that leave the resources of the row before it.

ghost use Rattle.std.specs.Prelude.{◌≡◌, ◌+◌, ◌<◌, false, length, map, slice_index_or, IfOk};
ghost use Rattle.spec_model.specs.Spec.{below, bits_of, message_at, design_variables};
ghost use Rattle.encode_views.specs.Reached.{is_chosen_for, leaves_from, reached_row, next_row};

use impl_rules::Design;
use spec_graph::{ArcNo, MsgNo, OptNo, Spec, TaskNo};
use std::alloc::{AllocError, Global};
use std::marker::Model;

/// A bit for each resource.
#[derive(Drop)]
pub struct Row {
    bits: Vec<bool>,
}

impl Model for Row {
    ghost use Rattle.std.specs.Prelude.{List, Bool};

    ghost Value = { List Bool };

    ghost view = { λ r. r.bits.items };
}

impl Row {
    /// The bit of a resource.
    pub fn has(&self, r: usize) -> bool
        ensures { result ≡ slice_index_or self.now r false }
    {
        match self.bits.get(r) {
            Some(bit) => *bit,
            None => false,
        }
    }
}

/// Whether an option is a task's and chosen.
fn is_chosen_for(spec: &Spec, design: &Design, t: TaskNo, o: OptNo) -> bool
    requires bits { length design.now ≡ design_variables spec.now }
    requires option { o.0 < length spec.now.options }
    ensures { result ≡ is_chosen_for spec.now (bits_of design.now) t.0 o.0 }
{
    if spec.option(o).task == t {
        return design.get(o.0 as u64);
    }
    false
}

/// The resources that the sender of a message is on.
fn starts(alloc: Global, spec: &Spec, design: &Design, m: MsgNo) -> Result<Row, AllocError>
    requires bits { length design.now ≡ design_variables spec.now }
    requires message { m.0 < length spec.now.messages }
    ensures { IfOk result (λ row. row ≡ reached_row spec.now (bits_of design.now) m.0 0) }
{
    let sender = spec.sender(m);
    let mut bits = vec![in alloc; false; spec.resources()]?;
    for o in 0..spec.options() as u32 {
        if is_chosen_for(spec, design, sender, OptNo(o)) {
            bits[spec.option(OptNo(o)).resource.0 as usize] = true;
        }
    }
    Ok(Row { bits })
}

/// Whether a message uses an arc that leaves one of the resources.
fn leaves_from(spec: &Spec, design: &Design, m: MsgNo, before: &Row, a: ArcNo) -> bool
    requires bits { length design.now ≡ design_variables spec.now }
    requires message { m.0 < length spec.now.messages }
    requires arc { a.0 < length spec.now.arcs }
    ensures { result ≡ leaves_from spec.now (bits_of design.now) m.0 before.now a.0 }
{
    if before.has(spec.arc(a).tail.0 as usize) {
        return design.get(spec.arc_variable(m, a));
    }
    false
}

/// The resources that a message reaches from some by one hop.
fn onward(
    alloc: Global,
    spec: &Spec,
    design: &Design,
    m: MsgNo,
    before: &Row,
) -> Result<Row, AllocError>
    requires bits { length design.now ≡ design_variables spec.now }
    requires message { m.0 < length spec.now.messages }
    ensures { IfOk result (λ row. row ≡ next_row spec.now (bits_of design.now) m.0 before.now) }
{
    let mut bits = vec![in alloc; false; spec.resources()]?;
    for a in 0..spec.arcs() as u32 {
        if leaves_from(spec, design, m, before, ArcNo(a)) {
            bits[spec.arc(ArcNo(a)).head.0 as usize] = true;
        }
    }
    Ok(Row { bits })
}

/// The resources that a message reaches in each number of hops up to its limit.
pub fn rows_of(
    alloc: Global,
    spec: &Spec,
    design: &Design,
    m: MsgNo,
) -> Result<Vec<Row>, AllocError>
    requires bits { length design.now ≡ design_variables spec.now }
    requires message { m.0 < length spec.now.messages }
    ensures { IfOk result (λ rows. rows.items ≡ map (reached_row spec.now (bits_of design.now) m.0) (below ((message_at spec.now m.0).limit + 1))) }
{
    spec.facts();
    let mut rows = Vec::new(alloc);
    rows.push(starts(alloc, spec, design, m)?)?;
    for t in 0..spec.hop_limit(m) as usize {
        let next = onward(alloc, spec, design, m, &rows[t])?;
        rows.push(next)?;
    }
    Ok(rows)
}
