//! Which payloads were taken. Proofs alone read it.
ghost use Rattle.std.specs.Prelude.{◌≡◌, ℕ, List, [], ◌∷◌, ◌++◌};
ghost use Rattle.std.specs.Borrow.{ftrue};

use fg_encode::stream::StreamReader;
use std::marker::Model;

/// The payloads that a reader has answered. It takes no memory, and its calls do nothing when they run.
#[derive(Drop)]
pub(crate) struct History {
    pub ghost payloads: { List (List ℕ) },
}

impl Model for History {
    ghost also_owns = { λ _. ftrue };
}

// It owns nothing.
unsafe impl Send for History {}

impl History {
    /// Before the first payload.
    pub(crate) fn new() -> History
        ensures { result.payloads ≡ [] }
    {
        History {}
    }

    /// One payload later: that which the reader answered last.
    pub(crate) fn then(&self, _reader: &StreamReader) -> History
        ensures { result.payloads ≡ self.now.payloads ++ _reader.now.payload ∷ [] }
    {
        History {}
    }
}
