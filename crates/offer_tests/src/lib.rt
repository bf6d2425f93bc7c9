//! Tests of what no clause says of tools that measure and of archives: that the calls which can want memory succeed where
//! there is some.
#![tactic(auto)]

#[cfg(test)]
mod archives;
#[cfg(test)]
mod lanes;
#[cfg(test)]
mod measures;
#[cfg(test)]
mod reading;
