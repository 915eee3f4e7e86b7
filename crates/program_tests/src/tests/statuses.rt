//! What is told of statuses, and their codes.
use super::sink;
use exec_io::MemSink;
use exec_status::{Status, conclude, note_of, refuse, tell_numbered};
use std::alloc::Global;

const CODES: &[(Status, u8)] = &[
    (Status::AllValues, 0),
    (Status::NotAllValues, 1),
    (Status::Usage, 2),
    (Status::PlanRefused, 3),
    (Status::NoMemory, 4),
    (Status::ReadFault, 5),
    (Status::WriteFault, 6),
    (Status::Limit, 7),
];

fn have_codes(rows: &[(Status, u8)]) -> bool {
    for row in rows {
        if row.0.code() != row.1 {
            return false;
        }
    }
    true
}

#[test]
fn a_status_has_a_code(rt: HostRuntime) {
    assert!(rt; have_codes(CODES));
}

const NOTES: &[(Status, &str)] = &[
    (Status::AllValues, ""),
    (Status::NotAllValues, ""),
    (Status::NoMemory, "out of memory\n"),
    (Status::ReadFault, "read fault\n"),
    (Status::WriteFault, "write fault\n"),
    (Status::Limit, "limit\n"),
];

// Whether this status is concluded as that one, with this in notes, which are then dropped.
fn concludes(mut notes: MemSink, status: Status, as_status: Status, told: &str) -> bool {
    let concluded = conclude(status, &mut notes);
    let has = notes.bytes() == told.as_bytes();
    drop(notes);
    concluded == as_status && has
}

fn all_are_told(alloc: Global, rows: &[(Status, &str)]) -> bool {
    for row in rows {
        let notes = MemSink::new(alloc, 3, Vec::new(alloc));
        if !concludes(notes, row.0, row.0, row.1) {
            return false;
        }
    }
    true
}

#[test]
fn a_status_is_told_where_it_has_a_note(rt: HostRuntime) {
    assert!(rt; all_are_told(rt.alloc(), NOTES));
}

#[test]
fn usage_has_four_lines(rt: HostRuntime) {
    let lines =
        "usage: exec_run run PLAN [--workers N] [--window W] [--order fifo|lifo] [--summary]\n\
usage: exec_run gen PLAN N [--workers N] [--window W] [--order fifo|lifo]\n\
usage: exec_run replay FILE\n\
usage: exec_run check FILE\n";
    assert!(rt; note_of(Status::Usage) == lines.as_bytes());
}

// Whether a refusal leaves a front of its text in notes, which are then dropped.
fn refuses(mut notes: MemSink) -> bool {
    refuse(b"refused\n", &mut notes);
    let told = "refused\n".as_bytes().starts_with(notes.bytes());
    drop(notes);
    told
}

// Whether notes that take so many bytes a write, and fail at this one, make a write fault of a read
// fault, with this in them; and have a front of what is refused.
fn fail_so(alloc: Global, most: usize, call: u64, told: &str) -> bool {
    let concluded = match sink(alloc, most, &[call]) {
        Ok(notes) => concludes(notes, Status::ReadFault, Status::WriteFault, told),
        Err(_) => false,
    };
    let refused = match sink(alloc, most, &[call]) {
        Ok(notes) => refuses(notes),
        Err(_) => false,
    };
    concluded && refused
}

#[test]
fn notes_that_fail_make_a_write_fault_of_what_is_concluded(rt: HostRuntime) {
    let short = fail_so(rt.alloc(), 5, 2, "read ");
    let long = fail_so(rt.alloc(), 64, 2, "read fault\n");
    assert!(rt; short && long);
}

// Whether this number is told behind `line `, or not to the end, with this in the sink.
fn tells(alloc: Global, most: usize, fails: &[u64], number: u32, told: (bool, &str)) -> bool {
    match sink(alloc, most, fails) {
        Ok(mut notes) => {
            let whole = tell_numbered(b"line ", number, &mut notes).is_ok();
            let has = notes.bytes() == told.1.as_bytes();
            drop(notes);
            whole == told.0 && has
        }
        Err(_) => false,
    }
}

#[test]
fn a_number_stands_behind_its_text(rt: HostRuntime) {
    let alloc = rt.alloc();
    let least = tells(alloc, 2, &[], 0, (true, "line 0\n"));
    let most = tells(alloc, 2, &[], 4_294_967_295, (true, "line 4294967295\n"));
    let part = tells(alloc, 64, &[3], 7, (false, "line 7"));
    assert!(rt; least && most && part);
}
