//! What follows for every list of calls of a lawful backend.
ghost use Rattle.pool_backends.specs.Calls.{NamesGoOutOnce, FirstComeFirstOut};

/// Whatever the calls, and in whatever order names are handed out: of each name as many were handed
/// out or are pending as were pending before or were submitted and not handed back.
pub fn names_go_out_once()
    ensures { NamesGoOutOnce }
{}

/// Where the backend was arranged Fifo, and isn't arranged anew: what was handed out, and then what
/// is pending, is what was pending, and then what was submitted and not handed back.
pub fn first_come_first_out()
    ensures { FirstComeFirstOut }
{}
