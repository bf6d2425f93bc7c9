//! The decoder over calls: a specification, and a solver that has its encoding.
//!
//! Between two calls the solver holds the encoding and clauses that follow from it, so that no answer depends on the calls
//! before it; the log goes on from call to call, and the clauses of its last lines are kept. After want of memory a decoder is spent, and each later call fails for want of memory too.

ghost use Rattle.std.specs.Prelude.{◌≡◌, ◌<◌, ◌+◌, [], true, false, length, min, IfOk, OnOk, OnErr};
ghost use Rattle.pb_rules.specs.Frames.{derived_count};
ghost use Rattle.spec_model.specs.Spec.{design_variables};
ghost use Rattle.encode_model.specs.Encoding.{encoding};
ghost use Rattle.ordered_solver.specs.Answers.{GoesOnDerived, new_lines};
ghost use Rattle.ordered_solver.specs.Solver.{kept_limit};
ghost use Rattle.sat_decoder.specs.Decoder.{IsLogOf, IsSolverOf};
ghost use Rattle.sat_decoder.specs.Decoding.{DecodedSays, LineCountSays, IsShown};

use crate::decoded::{Decoded, decoded_from};
use genotype::Genotype;
use ordered_solver::Solver;
use proof_log::Log;
use route_encode::encode;
use spec_graph::Spec;
use std::alloc::{AllocError, Global};
use std::marker::Model;

/// A specification, and the log of what was derived from its encoding.
#[derive(Drop)]
pub struct Decoder<'a> {
    spec: &'a Spec,
    solver: Solver,
    spent: bool,
}

impl<'a> Model for Decoder<'a> {
    ghost use Rattle.std.specs.Prelude.{◌≡◌, false};
    ghost use Rattle.sat_decoder.specs.Decoder.{DecoderValue, IsSolverOf};

    ghost Value = { DecoderValue };

    ghost view = { λ d. record { spec = d.spec.now; log = d.solver.log; spent = d.spent } };

    ghost invariant = { λ d. d.spent ≡ false → IsSolverOf d.spec.now d.solver };
}

/// Asks a solver of the specification for the first model in the genotype's order.
fn decode_by(
    alloc: Global,
    spec: &Spec,
    solver: &mut Solver,
    g: &Genotype,
    budget: u64,
) -> Result<Decoded, AllocError>
    requires solver_of { IsSolverOf spec.now solver.old }
    requires genes { length g.now ≡ design_variables spec.now }
    requires some { 0 < budget }
    ensures answer { IfOk result (DecodedSays spec.now g.now) }
    ensures count { IfOk result (LineCountSays spec.now budget (length (new_lines solver.old.log solver.new.log))) }
    ensures log { OnOk result (GoesOnDerived solver.old.log solver.new.log) }
    ensures shown { IfOk result (IsShown spec.now g.now solver.old.log solver.new.log) }
    ensures solver_of { OnOk result (IsSolverOf spec.now solver.new) }
{
    spec.facts();
    let order = g.order_of(alloc, spec.all_variables())?;
    let answer = solver.solve(alloc, &order, budget)?;
    let decoded = decoded_from(alloc, spec, answer)?;
    Ok(decoded)
}

impl<'a> Decoder<'a> {
    /// A decoder of a specification. Its log begins after the encoding, which the proof has under the ids 1, 2 and so on.
    pub fn new(alloc: Global, spec: &'a Spec) -> Result<Decoder<'a>, AllocError>
        ensures { IfOk result (λ d. d ≡ record { spec = spec.now; log = record { first = length (encoding spec.now) + 1; lines = [] }; spent = false }) }
    {
        let set = encode(alloc, spec)?;
        let solver = Solver::new(alloc, set)?;
        Ok(Decoder {
            spec,
            solver,
            spent: false,
        })
    }

    /// The first valid design in the genotype's order, or that no design is valid; or `Budget` once as many lines were
    /// derived as the budget has. The answer is the same after whatever calls. The log goes on by one derived line for
    /// each conflict. In each frame of the specification all its lines are legal, and each new one gives a clause that the
    /// encoding and the new ones before it do not absorb; where no design is valid the last one gives `0 >= 1` instead.
    /// After a design the log shows that it is the first.
    pub fn decode(
        &mut self,
        alloc: Global,
        g: &Genotype,
        budget: u64,
    ) -> Result<Decoded, AllocError>
        requires genes { length g.now ≡ design_variables self.old.spec }
        requires some { 0 < budget }
        ensures answer { IfOk result (DecodedSays self.old.spec g.now) }
        ensures count { IfOk result (LineCountSays self.old.spec budget (length (new_lines self.old.log self.new.log))) }
        ensures log { OnOk result (GoesOnDerived self.old.log self.new.log) }
        ensures shown { IfOk result (IsShown self.old.spec g.now self.old.log self.new.log) }
        ensures same { OnOk result (self.new ≡ record self.old { log = self.new.log }) }
        ensures spec { self.new.spec ≡ self.old.spec }
        ensures ready { OnOk result (self.old.spent ≡ false) }
        ensures spent { OnErr result (self.new.spent ≡ true) }
        ensures still { self.old.spent ≡ true → self.new ≡ self.old }
    {
        if self.spent {
            return Err(AllocError);
        }
        self.spent = true;
        let decoded = decode_by(alloc, self.spec, &mut self.solver, g, budget)?;
        self.spent = false;
        Ok(decoded)
    }

    /// How many clauses of earlier calls are kept: one for each line of the log, but at most 4,096.
    pub fn kept(&self) -> usize
        ensures count { self.now.spent ≡ false → result ≡ min kept_limit (derived_count self.now.log.lines) }
    {
        self.solver.kept()
    }

    /// The log. All its lines are derived ones, legal in each frame of the specification.
    pub fn log(&self) -> &Log
        ensures log { result.now ≡ self.now.log }
        ensures log_of { self.now.spent ≡ false → IsLogOf self.now.spec self.now.log }
    {
        self.solver.log()
    }

    /// The log alone. It takes no memory.
    pub fn into_log(self) -> Log
        ensures log { result ≡ self.entry.log }
        ensures log_of { self.entry.spent ≡ false → IsLogOf self.entry.spec self.entry.log }
    {
        self.solver.into_log()
    }
}
