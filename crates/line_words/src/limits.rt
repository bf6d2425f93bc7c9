//! The limits of text files, whatever their kind.

/// The most bytes of a file.
pub const MOST_FILE_BYTES: u64 = 16_777_216;

/// The most bytes of a line, its LF not among them.
pub const MOST_LINE_BYTES: usize = 65_536;

/// The most bytes of a name.
pub const MOST_NAME_BYTES: usize = 64;
