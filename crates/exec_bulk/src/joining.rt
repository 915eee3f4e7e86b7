//! How what the parts of a bulk delivered comes together ([exec.bulk]).
ghost use Rattle.std.specs.Prelude.{◌≡◌};
ghost use Rattle.exec_bulk.specs.Made.{AddsParcel, AddsShare, HasNoPart, JoinsTo, JoinsInPlace, one_missing, without_numbers};

use crate::rows::numbers_at;
use exec_value::{Completion, Data, Datum, ErrorText, NUMBERS, Nums};
use home_items::Gathers;
use std::alloc::{AllocError, Global};
use std::mem;
use step_parts::Label;

/// What the parts so far come to, in the order of the row.
#[derive(Drop)]
pub(crate) enum Made {
    /// What the job made of the numbers, none of which failed; none where there is no memory for
    /// them.
    Numbers(Option<Vec<i64>>),
    /// The error of the first that failed.
    Failed(ErrorText),
    /// A part wanted memory, or isn't done.
    Want,
}

impl Gathers for Made {
    ghost adds = { AddsParcel };

    // One part more. The error of the first that failed stays.
    #[inline(always)]
    fn gather(&mut self, label: Label, done: &mut Completion) {
        drop(label);
        match self {
            Made::Numbers(Some(joined)) => match done {
                Completion::Value(values) => {
                    match joined.extend_from_slice(numbers_at(values.as_slice())) {
                        Ok(()) => {}
                        Err(_) => self.fail(done),
                    }
                }
                _ => self.fail(done),
            },
            Made::Numbers(None) => self.fail(done),
            Made::Failed(_) => {}
            Made::Want => {}
        }
    }
}

impl Made {
    /// No part yet, of a row of so many numbers.
    pub(crate) fn none(alloc: Global, room: usize) -> Made
        ensures { HasNoPart result }
    {
        match Vec::with_capacity(alloc, room) {
            Ok(numbers) => Made::Numbers(Some(numbers)),
            Err(AllocError) => Made::Numbers(None),
        }
    }

    // One part more, where there are no numbers to append. No part completes stopped.
    #[cold]
    #[inline(never)]
    fn fail(&mut self, done: &mut Completion)
        ensures { self.new ≡ without_numbers self.old done.old }
    {
        let Made::Numbers(_) = self else {
            return;
        };
        let made = match mem::replace(done, Completion::Stopped) {
            Completion::Value(_) => Made::Numbers(None),
            Completion::Error(name) => Made::Failed(name),
            Completion::Stopped => Made::Numbers(None),
            Completion::NoMemory => Made::Want,
        };
        *self = made;
    }

    /// One part more, which isn't done.
    #[cold]
    #[inline(never)]
    pub(crate) fn want(&mut self)
        ensures { self.new ≡ one_missing self.old }
    {
        if let Made::Numbers(_) = self {
            *self = Made::Want;
        }
    }

    /// Puts what they complete with together in its place: the row of the numbers, or the error.
    /// False where a part wants memory, or there is none for the row. An error is at hand, and
    /// wants none.
    #[inline(always)]
    pub(crate) fn finish(self, alloc: Global, done: &mut Completion) -> bool
        ensures made { JoinsTo self result done.new }
        ensures in_place { JoinsInPlace self result }
    {
        match self {
            Made::Numbers(Some(numbers)) => {
                if numbers.len() > NUMBERS {
                    return false;
                }
                match Nums::from_vec(numbers) {
                    Ok(row) => {
                        done.put(Completion::Value(Data::one(alloc, Datum::Row(row))));
                        true
                    }
                    Err(_) => false,
                }
            }
            Made::Numbers(None) => false,
            Made::Failed(name) => {
                done.put(Completion::Error(name));
                true
            }
            Made::Want => false,
        }
    }
}
