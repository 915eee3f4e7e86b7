//! Since when a fact is so.
ghost use Rattle.std.specs.Prelude.{◌<◌, length, IfOk};
ghost use Rattle.replay_core.specs.Traces.{state_at};
ghost use Rattle.step_reasons.specs.So.{IsSo};
ghost use Rattle.trace_reasons.specs.Since.{IsSince};

use crate::walk::{advance, first_state};
use replay_core::Trace;
use std::alloc::{AllocError, Global};
use step_reasons::{Fact, is_so};

/// The entry that made the fact so, which is so after the first entries of the trace, so many; 0
/// where it was so from the beginning.
pub fn since(alloc: Global, trace: &Trace, count: u32, fact: &Fact) -> Result<u32, AllocError>
    requires within { count < length trace.now.entries }
    requires so { IsSo (state_at trace.now count) fact.now }
    ensures { IfOk result (IsSince trace.now fact.now count) }
{
    let mut state = first_state(alloc, trace.opening())?;
    let mut since = 0;
    let entries = trace.entries();
    for index in 0..count {
        if !is_so(&state, fact) {
            since = index + 1;
        }
        advance(alloc, &mut state, &entries[index as usize])?;
    }
    Ok(since)
}
