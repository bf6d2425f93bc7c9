//! Tests of hostile outsides: runs of the whole program over a desk whose calls fail, each in turn. No clause says of a run
//! which call failed, so what stands in the files after each is shown here. They stand in a crate of their own, since a
//! crate with tests is proved twice.
#![tactic(auto)]

#[cfg(test)]
mod failing_calls;
