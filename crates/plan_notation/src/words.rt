//! Tokens that are written.
ghost use Rattle.std.specs.Prelude.{◌≡◌, ◌++◌, ◌∷◌, [], false, OnOk, map};
ghost use Rattle.serde_json.specs.View.{view};
ghost use Rattle.serde_json.specs.Written.{compact_text, has_float};

use crate::joined::Piece;
use serde_json::Value;
use std::alloc::{AllocError, Global};
use std::marker::Model;

/// Tokens in their order, seen as their bytes.
#[derive(Drop)]
pub(crate) struct Words {
    alloc: Global,
    pieces: Vec<Piece>,
}

impl Model for Words {
    ghost use Rattle.std.specs.Prelude.{List, ℕ, map};

    ghost Value = { List (List ℕ) };

    ghost view = { λ w. map (λ piece. piece.items) w.pieces.items };
}

impl Words {
    /// No tokens.
    pub(crate) fn new(alloc: Global) -> Words
        ensures { result ≡ [] }
    {
        Words {
            alloc,
            pieces: Vec::new(alloc),
        }
    }

    /// The tokens.
    pub(crate) fn pieces(&self) -> &[Piece]
        ensures { map (λ piece. piece.items) result.now ≡ self.now }
    {
        &self.pieces
    }

    /// Adds a word, or a mark.
    pub(crate) fn put(&mut self, name: &str) -> Result<(), AllocError>
        ensures { OnOk result (self.new ≡ self.old ++ name.now ∷ []) }
    {
        self.add(name.as_bytes())
    }

    /// Adds a token of these bytes.
    fn add(&mut self, bytes: &[u8]) -> Result<(), AllocError>
        ensures { OnOk result (self.new ≡ self.old ++ bytes.now ∷ []) }
    {
        self.pieces.push(Vec::from_slice(self.alloc, bytes)?)?;
        Ok(())
    }

    /// Adds a constant, as JSON has it.
    pub(crate) fn put_value(&mut self, value: &Value) -> Result<(), AllocError>
        ensures { OnOk result (has_float (view value.now) ≡ false
            → self.new ≡ self.old ++ compact_text (view value.now) ∷ []) }
    {
        self.pieces.push(value.to_vec(self.alloc)?)?;
        Ok(())
    }

    /// Adds these words.
    pub(crate) fn put_all(&mut self, names: &[&str]) -> Result<(), AllocError>
        ensures { OnOk result (self.new ≡ self.old ++ map (λ name. name.now) names.now) }
    {
        'names: for name in names {
            self.put(name)?;
        }
        Ok(())
    }

    /// Adds other tokens.
    pub(crate) fn append(&mut self, others: &Words) -> Result<(), AllocError>
        ensures { OnOk result (self.new ≡ self.old ++ others.now) }
    {
        'pieces: for piece in others.pieces() {
            self.add(piece)?;
        }
        Ok(())
    }
}
