//! The check of a trace.
ghost use Rattle.std.specs.Prelude.{◌≡◌, ℕ, Ok, IfOk};
ghost use Rattle.replay_core.specs.Traces.{AreSound};
ghost use Rattle.replay_core.specs.Verdicts.{IsVerdict};

use crate::machine::{advance, first_state};
use std::alloc::{AllocError, Global};
use trace_text::Trace;

/// What the check of a trace says.
#[derive(Clone, Copy, Debug, PartialEq, Eq)]
pub enum Verdict {
    /// Each entry is a step, and there are so many.
    Taken(u32),
    /// This entry, from 1, is the first that isn't a step.
    Refused(u32),
}

/// Whether a trace is a list of steps, one after another from the state with which it opens. It
/// fails only for want of memory.
///
/// Where it is, each state along it is sound, and all that follows from that holds along it: no
/// operation completes twice, no callback runs after its removal, no block is given again too
/// early.
pub fn check_trace(alloc: Global, trace: &Trace) -> Result<Verdict, AllocError>
    ensures verdict { IfOk result (IsVerdict trace.now) }
    ensures sound { (n : ℕ) → result ≡ Ok (Verdict.Taken n) → AreSound trace.now }
{
    let mut state = first_state(alloc, trace.opening())?;
    let mut number = 0;
    for entry in trace.entries() {
        number += 1;
        let is_step = advance(alloc, &mut state, entry)?;
        if !is_step {
            return Ok(Verdict::Refused(number));
        }
    }
    Ok(Verdict::Taken(number))
}
