//! Pieces of a text, one after the other.
ghost use Rattle.std.specs.Prelude.{OnOk};
ghost use Rattle.pictures.specs.Adding.{Adds, joined_pieces};

use std::alloc::AllocError;

/// Adds the pieces to the end of a text, in order.
pub fn put_all(pieces: &[&str], text: &mut Vec<u8>) -> Result<(), AllocError>
    ensures { OnOk result (Adds text.old.items text.new.items (joined_pieces pieces.now)) }
{
    for piece in pieces {
        text.extend_from_slice(piece.as_bytes())?;
    }
    Ok(())
}
