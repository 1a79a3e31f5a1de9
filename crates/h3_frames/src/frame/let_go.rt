//! Pieces that were freed: no memory has them, and contracts name them.
ghost use Rattle.std.specs.Prelude.{◌≡◌, ℕ, List, [], ◌∷◌, ◌++◌};
ghost use Rattle.std.specs.Borrow.{ftrue};

use bytes::Bytes;
use std::marker::Model;

/// The freed pieces in front of a buffer, in order. It takes no memory.
#[derive(Drop)]
pub(super) struct LetGo {
    pub(super) ghost pieces: { List (List ℕ) },
}

impl Model for LetGo {
    ghost also_owns = { λ _. ftrue };
}

impl LetGo {
    /// None.
    pub(super) fn new() -> LetGo
        ensures { result.pieces ≡ [] }
    {
        LetGo {}
    }

    /// These, and one more.
    pub(super) fn with(_before: &LetGo, _piece: &Bytes) -> LetGo
        ensures { result.pieces ≡ _before.now.pieces ++ _piece.now ∷ [] }
    {
        LetGo {}
    }
}
