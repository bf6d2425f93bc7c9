//! Tests of what no clause of the calls on a specification says: that those which can want memory succeed where there is
//! some. Each specification is read from an architecture file, as the program does. They stand in a crate of their own,
//! since a crate with tests is proved twice.
#![tactic(auto)]

#[cfg(test)]
mod blocks;
#[cfg(test)]
mod broken;
#[cfg(test)]
mod fronts;
#[cfg(test)]
mod models;
#[cfg(test)]
mod reading;
#[cfg(test)]
mod texts;
