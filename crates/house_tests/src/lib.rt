//! Tests of what no clause of the desks and the readers says: that calls which can want memory succeed where there is
//! some, and worked cases. They stand in a crate of their own, since a crate with tests is proved twice. What the readers
//! refuse is shown by the case files that the program is run on.
#![tactic(auto)]

#[cfg(test)]
mod architectures;
#[cfg(test)]
mod cells;
#[cfg(test)]
mod command_lines;
#[cfg(test)]
mod desks;
#[cfg(test)]
mod genotypes;
#[cfg(test)]
mod graphs;
#[cfg(test)]
mod lines;
#[cfg(test)]
mod proof_lines;
