//! An architecture file that was read.

ghost use Rattle.arch_reader.specs.Arch.{AllPass};
ghost use Rattle.std.specs.Prelude.{[]};

use crate::statement::ArchLine;
use file_bricks::Items;
use std::marker::Model;

/// The statements after the header in their order, and the number past the last line.
///
/// None of them breaks a rule of the reader after the statements before it: their names are words,
/// those of objectives, resources and links that they use are declared on earlier lines, no key
/// stands twice, and their numbers are in their bounds.
#[derive(Debug, Drop)]
pub struct ArchFile {
    pub lines: Items<ArchLine>,
    pub end_line: u64,
}

impl Model for ArchFile {
    ghost use Rattle.std.specs.Prelude.{[]};
    ghost use Rattle.arch_reader.specs.Arch.{ArchValue, AllPass};

    ghost Value = { ArchValue };

    ghost view = { λ f. record { lines = f.lines; end_line = f.end_line } };

    ghost invariant = { λ f. AllPass [] f.lines };
}

impl ArchFile {
    /// That no statement breaks a rule after the statements before it: `AllPass` has this of each
    /// statement, one test by name.
    pub fn facts(&self)
        ensures { AllPass [] self.now.lines }
    {
        let _ = &self.lines;
    }
}
