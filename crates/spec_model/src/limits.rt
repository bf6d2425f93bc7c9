//! The limits of a specification, as `specs/Limits.antt` has them.

/// The most tasks.
pub const MOST_TASKS: usize = 1024;
/// The most messages.
pub const MOST_MESSAGES: usize = 2048;
/// The most resources.
pub const MOST_RESOURCES: usize = 256;
/// The most links.
pub const MOST_LINKS: usize = 1024;
/// The most options.
pub const MOST_OPTIONS: usize = 16_384;
/// The most objectives.
pub const MOST_OBJECTIVES: usize = 8;
/// The most variables of the encoding.
pub const MOST_VARIABLES: u64 = 1 << 20;
/// The most terms of the encoding.
pub const MOST_TERMS: u64 = 1 << 23;
/// The greatest weight, time, delay and quantity, and the greatest product of a traffic weight and a quantity.
pub const MOST_NUMBER: u64 = 1 << 40;
