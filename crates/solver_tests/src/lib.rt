//! Tests of what no clause of the solver's crates says: that calls which can want memory succeed where there is some, and
//! worked cases of each part. They stand in a crate of their own, since a crate with tests is proved twice.
#![tactic(auto)]

#[cfg(test)]
mod learning;
#[cfg(test)]
mod lives;
#[cfg(test)]
mod logs;
#[cfg(test)]
mod normal_forms;
#[cfg(test)]
mod propagation;
#[cfg(test)]
mod rules;
#[cfg(test)]
mod scanning;
#[cfg(test)]
mod solving;
#[cfg(test)]
mod stores;
#[cfg(test)]
mod trails;
