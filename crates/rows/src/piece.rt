//! Texts that are written piece by piece.
ghost use Rattle.std.specs.List.{flat_map};
ghost use Rattle.std.specs.Prelude.{◌≡◌, ◌++◌, ℕ, List, IfOk, OnOk};

use std::alloc::{AllocError, Global};

/// A piece of a text.
pub(crate) trait Piece {
    ghost written: { Self → List ℕ };

    /// Writes it behind a text.
    fn push_to(&self, text: &mut Vec<u8>) -> Result<(), AllocError>
        ensures { OnOk result (text.new.items ≡ text.old.items ++ written self.now) };
}

/// Pieces one behind the other.
pub(crate) fn joined<P: Piece>(heap: Global, pieces: &[P]) -> Result<Vec<u8>, AllocError>
    ensures { IfOk result (λ v. v.items ≡ flat_map P.written pieces.now) }
{
    let mut text = Vec::new(heap);
    for piece in pieces {
        piece.push_to(&mut text)?;
    }
    Ok(text)
}
