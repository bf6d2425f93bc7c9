//! A statement as its words give it.

use crate::numbers::Misread;
use crate::statement::Statement;

/// A statement whose words have one of the forms. A word that is no number counts as 0 in it.
#[derive(Debug, Drop)]
pub struct Form {
    pub statement: Statement,
    pub misread: Misread,
}
