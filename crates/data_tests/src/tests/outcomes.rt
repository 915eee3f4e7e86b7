//! A line that is cut off, one that no case of the program has, and how many writes a line takes,
//! which no clause says. What lines say else is told by tests/cases/values.json.
use exec_io::{Failed, MemSink};
use exec_value::{Completion, Outcome};
use outcome_lines::put_line;
use std::test::Fail;

#[test]
fn a_sink_that_fails_has_a_front_of_the_line(rt: HostRuntime) -> Result<(), Fail> {
    let alloc = rt.alloc();
    let mut sink = MemSink::new(alloc, 1, vec![in alloc; 3]?);
    let outcome = Outcome::BadRecord;
    assert!(rt; put_line(u64::MAX, &outcome, &mut sink) == Err(Failed));
    drop(outcome);
    assert!(rt; sink.bytes() == b"18".as_slice());
    Ok(())
}

#[test]
fn a_line_says_that_memory_ran_out(rt: HostRuntime) {
    let alloc = rt.alloc();
    let mut sink = MemSink::new(alloc, 64, Vec::new(alloc));
    let outcome = Outcome::Done(Completion::NoMemory);
    assert!(rt; put_line(1_000_000, &outcome, &mut sink) == Ok(()));
    drop(outcome);
    assert!(rt; sink.bytes() == b"1000000 out-of-memory\n".as_slice());
}

#[test]
fn a_short_line_is_one_write(rt: HostRuntime) -> Result<(), Fail> {
    let alloc = rt.alloc();
    // the second write fails
    let mut sink = MemSink::new(alloc, 4096, vec![in alloc; 2]?);
    let outcome = Outcome::BadRecord;
    assert!(rt; put_line(1, &outcome, &mut sink) == Ok(()));
    assert!(rt; put_line(2, &outcome, &mut sink) == Err(Failed));
    drop(outcome);
    assert!(rt; sink.bytes() == b"1 bad-record\n".as_slice());
    Ok(())
}
