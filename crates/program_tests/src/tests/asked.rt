//! Each command asks the shelf for the file that its words name, once, and for no other.
ghost use Rattle.std.specs.Thread.{IsSync};

use super::backends::call;
use super::engine::{ADD_ONE, ALL, Given, TRACE, memory};
use exec_io::MemShelf;
use exec_recv::OpenGate;
use std::alloc::Global;
use std::sync::Wait;
use std::thread::Threads;

/// Whether a shelf was asked for this name alone, or for none.
fn was_asked(shelf: &MemShelf, name: Option<&str>) -> bool {
    match shelf.asked() {
        Some([]) => name.is_none(),
        Some([asked]) => name == Some(asked.as_str()),
        _ => false,
    }
}

/// Whether a call with these words, where the file has this text, asks for this name alone.
fn asks_for<R: Threads + Wait + Sync>(
    rt: &R,
    alloc: Global,
    words: &[&str],
    text: &str,
    name: Option<&str>,
) -> bool
    requires { IsSync R.row }
{
    let given = Given {
        text,
        input: b"5\n",
        ..ALL
    };
    match memory(alloc, given) {
        Ok(mut system) => {
            let called = call(rt, alloc, words, &OpenGate, &mut system).is_ok();
            let told = was_asked(&system.shelf, name);
            drop(system);
            called && told
        }
        Err(_) => false,
    }
}

/// Whether this holds of each of these.
fn all_ask<R: Threads + Wait + Sync>(
    rt: &R,
    alloc: Global,
    rows: &[(&[&str], &str, Option<&str>)],
) -> bool
    requires { IsSync R.row }
{
    for row in rows {
        if !asks_for(rt, alloc, row.0, row.1, row.2) {
            return false;
        }
    }
    true
}

const ROWS: &[(&[&str], &str, Option<&str>)] = &[
    (&["run", "plan.json"], ADD_ONE, Some("plan.json")),
    (&["run", "plan.json"], "{", Some("plan.json")),
    (&["run", "other.json"], ADD_ONE, Some("other.json")),
    (&["gen", "plan.json", "3"], ADD_ONE, Some("plan.json")),
    (&["check", "plan.json"], TRACE, Some("plan.json")),
    (&["replay", "plan.json"], TRACE, Some("plan.json")),
    (&["start", "plan.json"], ADD_ONE, None),
];

#[test]
fn the_shelf_is_asked_for_the_file_of_the_words(rt: HostRuntime) {
    assert!(rt; all_ask(&rt, rt.alloc(), ROWS));
}
