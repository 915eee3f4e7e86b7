//! The names that an object in memory was asked for.
ghost use Rattle.std.specs.Prelude.{◌≡◌, [], ◌∷◌, ◌++◌, map, None, Some, MatchOption, OnOk, string_bytes};
ghost use Rattle.exec_io.specs.Asked.{Asked as AskedNames, AsksOnce, asked_so};

use std::alloc::{AllocError, Global};
use std::marker::Model;

/// The names asked for so far, in order. It tells none from the first on for which it found no
/// memory.
#[derive(Drop)]
pub struct Asked {
    names: Vec<String>,
    tells: bool,
}

impl Model for Asked {
    ghost Value = { AskedNames };

    ghost view = { λ a. asked_so a.tells a.names.items };
}

impl Asked {
    pub fn new(alloc: Global) -> Self
        ensures { result ≡ Some [] }
    {
        Asked {
            names: Vec::new(alloc),
            tells: true,
        }
    }

    /// Notes that this name is asked for.
    pub fn note(&mut self, name: &str)
        ensures { AsksOnce name.now self.old self.new }
    {
        if push_copy(&mut self.names, name).is_err() {
            self.tells = false;
        }
    }

    /// The names, where they are told.
    pub fn names(&self) -> Option<&[String]>
        ensures { MatchOption result (self.now ≡ None)
            (λ names. self.now ≡ Some (map string_bytes names.now)) }
    {
        if self.tells { Some(&self.names) } else { None }
    }
}

// Adds a name behind the others.
fn push_copy(names: &mut Vec<String>, name: &str) -> Result<(), AllocError>
    ensures { OnOk result (map string_bytes names.new.items
        ≡ map string_bytes names.old.items ++ name.now ∷ []) }
{
    let copy = String::from_str(*names.allocator(), name)?;
    names.push(copy)?;
    Ok(())
}
