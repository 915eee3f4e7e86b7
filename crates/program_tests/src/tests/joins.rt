//! The program that joins parts, over a folder and sinks in memory: what no clause says, and each
//! fault in turn.
use super::sink;
use exec_io::MemSink;
use join_commands::{Status, join};
use part_lines::MemFolder;
use std::alloc::{AllocError, Global};

/// Files by name.
type Files<'a> = &'a [(&'a str, &'a str)];

fn folder(alloc: Global, files: Files<'_>, fails_at: u64) -> Result<MemFolder, AllocError> {
    let mut folder = MemFolder::new(alloc, fails_at);
    for (name, text) in files {
        folder.add(*name, text.as_bytes())?;
    }
    Ok(folder)
}

/// What a join is to answer, and to leave in out and notes.
#[derive(Clone, Copy)]
struct Left<'a> {
    status: Status,
    out: &'a str,
    notes: &'a str,
}

/// What these words are answered over a folder, where out takes three bytes a write.
fn answers(alloc: Global, words: &[&str], folder: &mut MemFolder, left: Left<'_>) -> bool {
    let mut out = MemSink::new(alloc, 3, Vec::new(alloc));
    let mut notes = MemSink::new(alloc, 100, Vec::new(alloc));
    let status = join(alloc, words, folder, &mut out, &mut notes);
    let printed = out.bytes() == left.out.as_bytes();
    let told = notes.bytes() == left.notes.as_bytes();
    drop(out);
    drop(notes);
    status == left.status && printed && told
}

/// Whether words are answered so over these files.
fn joins(alloc: Global, words: &[&str], files: Files<'_>, left: Left<'_>) -> bool {
    match folder(alloc, files, 0) {
        Ok(mut folder) => {
            let told = answers(alloc, words, &mut folder, left);
            drop(folder);
            told
        }
        Err(_) => false,
    }
}

/// Whether each of these words is answered so over `PARTS`.
fn all_join(alloc: Global, rows: &[(&[&str], Left<'_>)]) -> bool {
    for row in rows {
        if !joins(alloc, row.0, PARTS, row.1) {
            return false;
        }
    }
    true
}

const PARTS: &[(&str, &str)] = &[
    ("a.out", "1 value 5\n2 error big\n"),
    ("a.status", "1\n"),
    ("b.out", "1 value\n2 stopped\n"),
    ("b.status", "1"),
    ("c.out", "1 value \"x y\"\n"),
    ("c.status", "0\n"),
    ("none.out", ""),
    ("none.status", "0\n"),
    ("memory.out", "1 out-of-memory\n"),
    ("memory.status", "4\n"),
];

const LINES: &[(&[&str], Left<'_>)] = &[
    (
        &["lines", "a", "none", "b", "c"],
        Left {
            status: Status::NotAllValues,
            out: "1 value 5\n2 error big\n3 value\n4 stopped\n5 value \"x y\"\n",
            notes: "",
        },
    ),
    (
        &["lines", "c", "c"],
        Left {
            status: Status::AllValues,
            out: "1 value \"x y\"\n2 value \"x y\"\n",
            notes: "",
        },
    ),
    (
        &["lines", "none"],
        Left {
            status: Status::AllValues,
            out: "",
            notes: "",
        },
    ),
    (
        &["lines", "memory", "a"],
        Left {
            status: Status::NoMemory,
            out: "1 out-of-memory\n2 value 5\n3 error big\n",
            notes: "out of memory\n",
        },
    ),
];

#[test]
fn lines_are_numbered_on(rt: HostRuntime) {
    assert!(rt; all_join(rt.alloc(), LINES));
}

const DEALT: &[(&[&str], Left<'_>)] = &[
    (
        &["lines", "--dealt", "a", "b", "c"],
        Left {
            status: Status::NotAllValues,
            out: "1 value 5\n2 value\n3 value \"x y\"\n4 error big\n5 stopped\n",
            notes: "",
        },
    ),
    (
        &["lines", "--dealt", "a", "none"],
        Left {
            status: Status::PlanRefused,
            out: "",
            notes: "refused: a.out: line 2 wasn't dealt in turn: none.out has ended before\n",
        },
    ),
];

#[test]
fn lines_that_were_dealt_are_taken_in_turn(rt: HostRuntime) {
    assert!(rt; all_join(rt.alloc(), DEALT));
}

const NOT_WHOLE: &[(&str, &str)] = &[
    ("ok.out", "1 value 5\n"),
    ("ok.status", "0\n"),
    ("gap.out", "1 value 5\n3 value 5\n"),
    ("gap.status", "0\n"),
    ("open.out", "1 value 5\n2 value"),
    ("open.status", "0\n"),
    ("fault.out", "1 value 5\n"),
    ("fault.status", "5\n"),
    ("other.out", "1 value 5\n"),
    ("other.status", "1\n"),
    ("lost.out", "1 value 5\n"),
];

const REFUSED: &[(&str, &str)] = &[
    ("gap", "refused: gap.out: line 2 isn't that of record 2\n"),
    ("open", "refused: open.out: line 2 isn't that of record 2\n"),
    (
        "fault",
        "refused: fault.status: the status is 5, and not 0, 1 or 4\n",
    ),
    (
        "other",
        "refused: other.status: the status is 1, but the lines of other.out say 0\n",
    ),
    ("lost", "refused: lost.status: No such file or directory\n"),
];

/// Whether each of these parts is refused behind a whole one, with this note.
fn all_are_refused(alloc: Global, rows: &[(&str, &str)]) -> bool {
    for row in rows {
        let left = Left {
            status: Status::PlanRefused,
            out: "",
            notes: row.1,
        };
        if !joins(alloc, &["lines", "ok", row.0], NOT_WHOLE, left) {
            return false;
        }
    }
    true
}

#[test]
fn a_part_that_is_not_whole_is_refused(rt: HostRuntime) {
    assert!(rt; all_are_refused(rt.alloc(), REFUSED));
}

const SUMMARY: &[(&str, &str)] = &[
    (
        "a.out",
        "records 3 values 2 errors 1 stopped 0 out-of-memory 0 bad 0 sum -7\n",
    ),
    ("a.status", "1\n"),
];

const NO_SUMMARY: &[(&str, &str)] = &[("b.out", "1 value\n"), ("b.status", "0\n")];

#[test]
fn summaries_are_added(rt: HostRuntime) {
    let two = Left {
        status: Status::NotAllValues,
        out: "records 6 values 4 errors 2 stopped 0 out-of-memory 0 bad 0 sum -14\n",
        notes: "",
    };
    let added = joins(rt.alloc(), &["summary", "a", "a"], SUMMARY, two);
    let none = Left {
        status: Status::PlanRefused,
        out: "",
        notes: "refused: b.out: this isn't a summary\n",
    };
    let refused = joins(rt.alloc(), &["summary", "b"], NO_SUMMARY, none);
    assert!(rt; added && refused);
}

const READABLE: &[(&str, &str)] = &[
    ("a.out", "1 value 5\n"),
    ("a.status", "0\n"),
    (
        "sum.out",
        "records 0 values 0 errors 0 stopped 0 out-of-memory 0 bad 0 sum 0\n",
    ),
    ("sum.status", "0\n"),
];

/// How a join over a folder ends: well, or by a read fault that is told; none where otherwise.
fn ends_in(alloc: Global, words: &[&str], folder: &mut MemFolder) -> Option<Status> {
    let mut out = MemSink::new(alloc, 100, Vec::new(alloc));
    let mut notes = MemSink::new(alloc, 100, Vec::new(alloc));
    let status = join(alloc, words, folder, &mut out, &mut notes);
    let told = notes.bytes() == "read fault\n".as_bytes();
    drop(out);
    drop(notes);
    match status {
        Status::AllValues => Some(status),
        Status::ReadFault if told => Some(status),
        _ => None,
    }
}

/// The same where the folder fails at this call.
fn ends_at(alloc: Global, words: &[&str], fault: u64) -> Option<Status> {
    match folder(alloc, READABLE, fault) {
        Ok(mut folder) => {
            let ended = ends_in(alloc, words, &mut folder);
            drop(folder);
            ended
        }
        Err(_) => None,
    }
}

/// The first call of the folder that no join makes, where each one before it ends in a read fault.
fn ended_at(alloc: Global, words: &[&str]) -> u64 {
    for fault in 1..20 {
        match ends_at(alloc, words, fault) {
            Some(Status::AllValues) => return fault,
            Some(_) => {}
            None => return 0,
        }
    }
    0
}

#[test]
fn a_read_that_fails_is_a_read_fault(rt: HostRuntime) {
    let lines = ended_at(rt.alloc(), &["lines", "a"]);
    let summary = ended_at(rt.alloc(), &["summary", "sum"]);
    assert!(rt; lines > 3 && summary > 3);
}

/// Whether a join over this folder, where out fails at a write before the fourth, is a write fault.
fn answers_failing(alloc: Global, folder: &mut MemFolder, mut out: MemSink, fault: u64) -> bool {
    let mut notes = MemSink::new(alloc, 100, Vec::new(alloc));
    let status = join(alloc, &["lines", "c"], folder, &mut out, &mut notes);
    let told = notes.bytes() == "write fault\n".as_bytes();
    drop(out);
    drop(notes);
    if fault < 4 {
        status == Status::WriteFault && told
    } else {
        status == Status::AllValues
    }
}

fn is_write_fault(alloc: Global, fault: u64) -> bool {
    let Ok(mut folder) = folder(alloc, PARTS, 0) else {
        return false;
    };
    let told = match sink(alloc, 100, &[fault]) {
        Ok(out) => answers_failing(alloc, &mut folder, out, fault),
        Err(_) => false,
    };
    drop(folder);
    told
}

#[test]
fn a_write_that_fails_is_a_write_fault(rt: HostRuntime) {
    let early = is_write_fault(rt.alloc(), 1) && is_write_fault(rt.alloc(), 2);
    assert!(rt; early && is_write_fault(rt.alloc(), 3) && is_write_fault(rt.alloc(), 4));
}
