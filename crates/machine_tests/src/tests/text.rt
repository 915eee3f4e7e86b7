//! Texts that are read and written, and replayed, once each. What a check refuses is data for the
//! program (tests/cases/machine.json).

use replay_core::{Verdict, check_trace, replay};
use std::test::Fail;
use trace_text::{TraceFault, read_schedule, read_trace, write_trace};

// A parent with a stop source, and its child, in one block, with one hand.
const OPENING: &str = "exec 2 1 1 counting 1\nnode 1 plain\nnode - source\n";

const RUN: &str = "0 claim 0\n0 begin 0.1\n0 await 0.1 0\n";

#[test]
fn a_trace_is_written_as_it_was_read(rt: HostRuntime) -> Result<(), Fail> {
    let alloc = rt.alloc();
    let text = format!(in alloc; "{OPENING}0 claim 0\n0 await 0.1 0,0\n0 seal 1 0 1 0 2\n")?;
    let trace = read_trace(alloc, text.as_bytes())?;
    assert_eq!(rt; write_trace(alloc, &trace)?.as_slice(), text.as_bytes());
    Ok(())
}

#[test]
fn the_first_line_that_goes_wrong_is_told(rt: HostRuntime) -> Result<(), Fail> {
    let alloc = rt.alloc();
    let text = format!(in alloc; "{OPENING}0 enter\n0 claim 1\n")?;
    let fault = read_trace(alloc, text.as_bytes()).err();
    assert_eq!(rt; fault, Some(TraceFault::Line(5)));
    let text = format!(in alloc; "{OPENING}0 0\n0 x\n")?;
    let fault = read_schedule(alloc, text.as_bytes()).err();
    assert_eq!(rt; fault, Some(TraceFault::Line(5)));
    Ok(())
}

#[test]
fn a_schedule_gives_the_trace_that_a_check_takes(rt: HostRuntime) -> Result<(), Fail> {
    let alloc = rt.alloc();
    let text = format!(in alloc; "{OPENING}0 0\n0 0\n0 0\n")?;
    let trace = replay(alloc, &read_schedule(alloc, text.as_bytes())?)?;
    let written = write_trace(alloc, &trace)?;
    let whole = format!(in alloc; "{OPENING}{RUN}")?;
    assert_eq!(rt; written.as_slice(), whole.as_bytes());
    assert_eq!(rt; check_trace(alloc, &trace)?, Verdict::Taken(3));
    Ok(())
}
