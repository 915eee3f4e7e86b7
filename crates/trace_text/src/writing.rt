//! How a trace is written.
ghost use Rattle.std.specs.Prelude.{◌≡◌, IfOk};
ghost use Rattle.trace_text.specs.Texts.{trace_text};

use crate::put_line::{put_entries, put_opening};
use crate::trace::Trace;
use std::alloc::{AllocError, Global};

/// The text of a trace. It fails only for want of memory.
pub fn write_trace(alloc: Global, trace: &Trace) -> Result<Vec<u8>, AllocError>
    ensures { IfOk result (λ text. text.items ≡ trace_text trace.now) }
{
    let mut out = Vec::new(alloc);
    put_opening(trace.opening(), &mut out)?;
    put_entries(trace.entries(), &mut out)?;
    Ok(out)
}
