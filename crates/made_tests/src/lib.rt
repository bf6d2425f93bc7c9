//! Tests of what no clause says of made specifications: that one is made where there is memory, that the readers accept it,
//! and how large it is. They stand in a crate of their own, since a crate with tests is proved twice.
#![tactic(auto)]

#[cfg(test)]
mod made;
