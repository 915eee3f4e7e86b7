//! A shelf of texts in memory.
ghost use Rattle.std.specs.Prelude.{◌≡◌, ◌⊎◌, ◌≤◌, ◌+◌, [], map, true, false, Some, IsTrue, IsNone, IsErrOf, IfOk, IfSome, MatchOption, OnOk, length, option_copied, string_bytes, vec_len};
ghost use Rattle.exec_io.specs.Asked.{AsksOnce};
ghost use Rattle.exec_io.specs.Calls.{no_calls, is_to_fail};
ghost use Rattle.exec_io.specs.Causes.{HasShelfCause};
ghost use Rattle.exec_io.specs.Memory.{ShelfState, IsAfterRead, shelf_view, named_texts};
ghost use Rattle.exec_io.specs.Shelves.{ReadsText, are_distinct, text_of};

use crate::asked::Asked;
use crate::calls::Calls;
use crate::{Shelf, ShelfFault};
use std::alloc::Global;
use std::marker::Model;

/// A shelf of texts in memory, some of whose calls fail. It tells which names it was asked for,
/// until it finds no memory for one.
#[derive(Drop)]
pub struct MemShelf {
    names: Vec<String>,
    texts: Vec<Vec<u8>>,
    asked: Asked,
    calls: Calls,
}

impl Model for MemShelf {
    ghost Value = { ShelfState };

    ghost view = { λ s. record {
      texts = named_texts s.names.items s.texts.items;
      asked = s.asked;
      calls = s.calls;
    } };

    ghost invariant = { λ s. length s.names.items ≡ length s.texts.items };
}

impl MemShelf {
    /// A shelf on which the text at each place has the name at that place. Its calls are numbered
    /// from 1, and those that `fails` names will fail.
    pub fn new(names: Vec<String>, texts: Vec<Vec<u8>>, fails: Vec<u64>) -> Self
        requires paired { vec_len names ≡ vec_len texts }
        requires distinct { IsTrue (are_distinct (map string_bytes names.items)) }
        ensures texts { result.texts ≡ named_texts names.items texts.items }
        ensures asked { result.asked ≡ Some [] }
        ensures calls { result.calls ≡ no_calls fails.items }
    {
        let asked = Asked::new(*names.allocator());
        MemShelf {
            names,
            texts,
            asked,
            calls: Calls::new(fails),
        }
    }

    /// The names that it was asked for so far, where it tells them.
    pub fn asked(&self) -> Option<&[String]>
        ensures { MatchOption result (self.now.asked ≡ None)
            (λ names. self.now.asked ≡ Some (map string_bytes names.now)) }
    {
        self.asked.names()
    }

    fn text(&self, name: &str) -> Option<&[u8]>
        ensures { option_copied result ≡ text_of self.now.texts name.now }
    {
        for (i, entry) in self.names.iter().enumerate() {
            if entry.as_str() == name {
                return Some(&self.texts[i]);
            }
        }
        None
    }
}

impl Shelf for MemShelf {
    ghost told = { shelf_view };

    fn read(&mut self, alloc: Global, name: &str, max: usize) -> Result<Vec<u8>, ShelfFault>
        ensures text { ReadsText self.old.texts name.now max result }
        ensures most { IfOk result (λ bytes. vec_len bytes ≤ max + 1) }
        ensures same { (shelf_view self.new).texts ≡ (shelf_view self.old).texts }
        ensures asks { AsksOnce name.now self.old.asked self.new.asked }
        ensures cause { HasShelfCause self.old.calls.faults self.new.calls.faults result }

        // It fails exactly at the calls that are to fail, and where no text has the name.
        ensures listed { IsTrue (is_to_fail self.old.calls) → IsErrOf result ShelfFault.Failed }
        ensures failed { IsErrOf result ShelfFault.Failed
            → IsTrue (is_to_fail self.old.calls) ⊎ IsNone (text_of self.old.texts name.now) }
        ensures after_ok { OnOk result (IsAfterRead self.old self.new name.now false) }
        ensures after_failed { IsErrOf result ShelfFault.Failed
            → IsAfterRead self.old self.new name.now true }
        ensures after_no_memory { IsErrOf result ShelfFault.NoMemory
            → IsAfterRead self.old self.new name.now false }
    {
        self.asked.note(name);
        if self.calls.begin().is_err() {
            return Err(ShelfFault::Failed);
        }
        match self.text(name) {
            None => {
                self.calls.fail();
                Err(ShelfFault::Failed)
            }
            Some(text) => {
                let count = max.saturating_add(1).min(text.len());
                text[..count]
                    .to_vec(alloc)
                    .map_err(|_| ShelfFault::NoMemory)
            }
        }
    }
}
