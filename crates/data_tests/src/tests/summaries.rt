//! The line of a summary. Other summaries are told by cases of the program:
//! tests/cases/program.json.
use exec_io::MemSink;
use exec_value::{Completion, Data, Datum, Outcome, Txt};
use line_summary::{Summary, put_summary};
use std::alloc::Global;

/// Counts an outcome, which is dropped.
fn count(summary: &mut Summary, outcome: Outcome) {
    if summary.lines() < 1_000 {
        summary.count(&outcome);
    }
    drop(outcome);
}

/// The outcome of a least value.
fn least(alloc: Global) -> Outcome {
    Outcome::Done(Completion::Value(Data::one(alloc, Datum::Int(i64::MIN))))
}

#[test]
fn each_line_counts_under_its_own_name(rt: HostRuntime) {
    let alloc = rt.alloc();
    let mut summary = Summary::new();
    count(&mut summary, least(alloc));
    count(&mut summary, Outcome::BadRecord);
    count(&mut summary, Outcome::Done(Completion::Stopped));
    count(&mut summary, least(alloc));
    let overflow = Txt::short(alloc, "overflow");
    count(&mut summary, Outcome::Done(Completion::error(overflow)));
    count(&mut summary, Outcome::Done(Completion::NoMemory));
    count(&mut summary, Outcome::BadRecord);
    let mut sink = MemSink::new(alloc, 4096, Vec::new(alloc));
    assert!(rt; put_summary(&summary, &mut sink) == Ok(()));
    let line = b"records 7 values 2 errors 1 stopped 1 out-of-memory 1 bad 2 \
sum -18446744073709551616\n";
    assert!(rt; sink.bytes() == line.as_slice());
}
