//! What the definitions imply, as a function that does nothing.

ghost use Rattle.std.specs.Prelude.{◌≡◌, ◌↔◌, ℕ, List, true};
ghost use Rattle.spec_model.specs.WellFormed.{Reaches};
ghost use Rattle.tgff_reader.specs.Reaching.{reaches, messages_of};
ghost use Rattle.tgff_reader.specs.declared.file.TgffArc.{TgffArc};

/// A task is reached from another along arcs exactly where a chain of the arcs, of any length, leads from the one to the
/// other. So an arc is refused as cyclic exactly where such a chain leads back from its second task to its first one.
pub fn law_of_reaching()
    ensures { (arcs : List TgffArc) (a b : ℕ) → (reaches arcs a b ≡ true) ↔ Reaches (messages_of arcs) a b }
{}
