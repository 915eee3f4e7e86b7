//! A body of `run` that always answers want of memory is refused here: no clause says when that
//! comes, and where there is ample memory it doesn't.
ghost use Rattle.std.specs.Thread.{IsSync};

use super::engine::{ADD_ONE, AHEAD, ALL, Given, Left, TRACE, leaves};
use exec_engine::Status;
use std::alloc::Global;
use std::sync::Wait;
use std::thread::Threads;

/// Of two children one makes one hop, and the other begins eight parts.
const PLAN_G: &str = r#"{"version":1,"input":"int",
        "root":{"do":"continues_on","on":"loop",
            "child":{"do":"then","job":{"job":"sum"},
                "child":{"do":"when_all","children":[
                        {"do":"starts_on","on":"pool",
                            "child":{"do":"then","child":{"do":"input"},
                                "job":{"job":"mul","n":2}}},
                        {"do":"let_value","child":{"do":"input"},"pick":{"job":"pass"},
                            "bodies":[{"do":"just","values":[9]},
                                {"do":"then","job":{"job":"sum"},
                                    "child":{"do":"bulk",
                                        "child":{"do":"just","values":[[1,2,3]]},
                                        "job":{"job":"index"}}}]}]}}}}"#;

/// A row of numbers, to each of which one is added.
const ROWS: &str = r#"{"version":1,"input":"row",
        "root":{"do":"bulk","child":{"do":"input"},"job":{"job":"add","n":1}}}"#;

/// A text, behind which another is put.
const TEXTS: &str = r#"{"version":1,"input":"text",
        "root":{"do":"then","child":{"do":"input"},
            "job":{"job":"append","text":" and more than is kept in place"}}}"#;

/// A schedule of which `TRACE` is made.
const SCHEDULE: &str = "exec 2 1 1 counting 1\nnode 1 plain\nnode - plain\n\
    0 0\n0 0\n0 0\n0 0\n0 3\n0 0\n0 3\n0 0\n";

/// The numbers of a hundred generated records through `PLAN_G`.
const HUNDRED: &str =
    "records 100 values 100 errors 0 stopped 0 out-of-memory 0 bad 0 sum 9984100\n";

/// Whether each of these commands over such a file, with such an input, ends well with this in out.
fn all_end_well<'x, R: Threads + Wait + Sync>(
    rt: &R,
    alloc: Global,
    rows: &'x [(&'x [&'x str], &'x str, &'x str, &'x str)],
) -> bool
    requires { IsSync R.row }
{
    for row in rows {
        let given = Given {
            text: row.1,
            input: row.2.as_bytes(),
            ..ALL
        };
        let left = Left {
            status: Status::AllValues,
            out: row.3,
            notes: "",
        };
        if !leaves(rt, alloc, row.0, given, left) {
            return false;
        }
    }
    true
}

const RUN: &[&str] = &["run", "plan.json"];

const ENDS: &[(&[&str], &str, &str, &str)] = &[
    (RUN, ADD_ONE, "5\n-1\n", "1 value 6\n2 value 0\n"),
    (RUN, PLAN_G, "5\n", "1 value 19\n"),
    (RUN, ROWS, "[1,2]\n[]\n", "1 value [2,3]\n2 value []\n"),
    (
        RUN,
        TEXTS,
        "this\n",
        "1 value \"this and more than is kept in place\"\n",
    ),
    (RUN, AHEAD, "5\n", "1 value 10 6\n"),
    (&["gen", "plan.json", "100"], PLAN_G, "", HUNDRED),
    (&["check", "plan.json"], TRACE, "", "ok 8\n"),
    (&["replay", "plan.json"], SCHEDULE, "", TRACE),
];

#[test]
fn each_command_ends_well_where_there_is_memory(rt: HostRuntime) {
    assert!(rt; all_end_well(&rt, rt.alloc(), ENDS));
}
