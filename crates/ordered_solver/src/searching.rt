//! The search: descents, one after another, each but the last ending in a conflict that teaches a clause.
//!
//! Each conflict raises the trail's word, a binary number with a digit for each entry, which is 1 where the entry was
//! forced and 0 where it was decided. So there are at most as many conflicts as words. The search changes its engine
//! alone, whose clauses all stay until it has ended. The loop is that of Davis, Putnam, Logemann and Loveland, with
//! the learning of Marques-Silva and Sakallah.

ghost use Rattle.std.specs.Prelude.{◌≡◌, ◌<◌, [], length, All, IfOk, OnOk};
ghost use Rattle.ordered_solver.specs.Engines.{IsLoaded, IsIdle, HasKeptIds};
ghost use Rattle.ordered_solver.specs.Lessons.{IsFound, HasAdded, GoesOnKept};
ghost use Rattle.ordered_solver.specs.Trails.{IsVarBelow, Covers, HasValues};

use super::answer::Answer;
use super::descent::first_places;
use super::engine::Engine;
use pb_constraints::Lit;
use std::alloc::{AllocError, Global};
use trail_state::Trail;
use variable_order::Order;

/// The values of the variables.
fn values_of(alloc: Global, trail: &Trail) -> Result<Vec<bool>, AllocError>
    ensures { IfOk result (λ v. HasValues trail.now.variables trail.now.entries v.items) }
{
    let mut values = Vec::new(alloc);
    for x in 0..trail.variables() {
        values.push(trail.value(x) == Some(true))?;
    }
    Ok(values)
}

impl Engine {
    /// Searches from an empty trail, with as many conflicts as the budget has.
    pub fn search(
        &mut self,
        alloc: Global,
        order: &[Lit],
        budget: u64,
    ) -> Result<Answer, AllocError>
        requires loaded { IsLoaded self.old.store self.old.propagator self.old.trail }
        requires nothing { self.old.trail.entries ≡ [] }
        requires in_range { All (IsVarBelow self.old.trail.variables) order.now }
        requires covers { Covers order.now self.old.trail.variables }
        requires every { length order.now ≡ self.old.trail.variables }
        requires some { 0 < budget }
        ensures found { IfOk result (IsFound self.old.store self.old.log self.new.log order.now self.old.trail.variables budget) }
        ensures added { OnOk result (HasAdded self.old.store self.new.store self.old.kept.items self.new.kept.items self.old.log self.new.log) }
        ensures loaded { OnOk result (IsLoaded self.new.store self.new.propagator self.new.trail) }
        ensures variables { self.new.trail.variables ≡ self.old.trail.variables }
    {
        let mut places = first_places(alloc, self.trail.variables())?;
        let mut conflicts = 0;
        loop {
            let Some(conflict) = self.descend(order, &mut places) else {
                let _assigned = self.trail.assigned();
                return Ok(Answer::Model(values_of(alloc, &self.trail)?));
            };
            if self.trail.level() == 0 {
                self.refute(alloc, conflict)?;
                return Ok(Answer::Nothing);
            }
            self.learn(alloc, conflict)?;
            conflicts += 1;
            if conflicts == budget {
                return Ok(Answer::Budget);
            }
        }
    }

    /// Searches, and then takes everything off the trail and drops the oldest clauses.
    pub fn solve(&mut self, alloc: Global, order: &Order, budget: u64) -> Result<Answer, AllocError>
        requires idle { IsIdle self.old.store self.old.propagator self.old.trail }
        requires listed { HasKeptIds self.old.store self.old.kept.items self.old.log }
        requires every { length order.now ≡ self.old.trail.variables }
        requires some { 0 < budget }
        ensures found { IfOk result (IsFound self.old.store self.old.log self.new.log order.now self.old.trail.variables budget) }
        ensures idle { OnOk result (IsIdle self.new.store self.new.propagator self.new.trail) }
        ensures listed { OnOk result (HasKeptIds self.new.store self.new.kept.items self.new.log) }
        ensures kept { OnOk result (GoesOnKept self.old.store self.new.store self.old.log self.new.log) }
        ensures variables { OnOk result (self.new.trail.variables ≡ self.old.trail.variables) }
    {
        let answer = self.search(alloc, order.literals(), budget)?;
        self.trail.clear();
        self.propagator.back(&self.trail);
        self.drop_oldest();
        self.close_gaps();
        Ok(answer)
    }
}
