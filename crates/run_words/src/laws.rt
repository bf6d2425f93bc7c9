//! What the definitions imply, as a function that does nothing.

ghost use Rattle.run_words.specs.Fit.{RequestsAreFit};

/// Each request of words is fit: its budget is at least 1 and doesn't stand without a proof, files that are written are
/// apart, and an exploration has at most 65,536 rounds and chooses tools that are there, each once, by rising places.
pub fn law_of_requests()
    ensures fit { RequestsAreFit }
{}
