//! What a solver answers.

/// The first model, as the values of the variables; or that there is none; or that the budget of lines is used up.
#[derive(Drop, Debug, PartialEq)]
pub enum Answer {
    /// The values of the variables in the first model.
    Model(Vec<bool>),
    /// There is no model.
    Nothing,
    /// As many clauses were learned as the budget has, and neither a model nor `0 >= 1` was found.
    Budget,
}
