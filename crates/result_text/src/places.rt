//! Where a line of a front text stands.

/// Where the next line of a front text stands.
#[derive(Clone, Copy, Debug, PartialEq, Eq)]
pub(crate) enum Place {
    /// The first line, which is the header.
    Header,
    /// The second line, which names the objectives.
    Objectives,
    /// Where an entry begins, or the front ends.
    Between,
    /// Within an entry.
    Inside,
    /// Past the end of the front.
    Closed,
}
