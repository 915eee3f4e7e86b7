//! Which parts of a bulk run ([exec.bulk]), as a gate sees it, and what the bulk completes with.
ghost use Rattle.std.specs.Thread.{IsSync};

use super::completes_past;
use exec_recv::{Gate, Point};
use std::alloc::Global;
use std::cell::Cell;
use std::process::Abort;
use std::sync::Wait;

/// The eight parts of a bulk whose child is node 0: a bit for each node.
const EIGHT: u32 = 0b1_1111_1110;

/// A gate that counts the jobs that pass it, and has the bits of their nodes.
#[derive(Drop)]
struct Parts {
    jobs: Cell<u32>,
    nodes: Cell<u32>,
}

impl Gate for Parts {
    fn pass(&self, point: Point) {
        if let Point::Job { number: _, node } = point {
            self.jobs.set(self.jobs.get().saturating_add(1));
            if node < 32 {
                self.nodes.set(self.nodes.get() | 1 << node);
            }
        }
    }
}

// Which parts of the operation of the plan with this root ran, each once, where it completes with
// this line.
fn parts_of<R: Wait + Sync>(rt: &R, alloc: Global, root: &str, line: &str) -> Option<u32>
    requires sync { IsSync R.row }
{
    let gate = Parts {
        jobs: Cell::new(0),
        nodes: Cell::new(0),
    };
    let completes = completes_past(rt, alloc, &gate, root, false, line);
    let nodes = gate.nodes.get();
    if !completes || gate.jobs.get() != nodes.count_ones() {
        return None;
    }
    Some(nodes)
}

// The same of a bulk over this row.
fn parts_over<R: Wait + Sync>(
    rt: &R,
    alloc: Global,
    job: &str,
    row: &str,
    line: &str,
) -> Option<u32>
    requires sync { IsSync R.row }
{
    let made = format!(in alloc;
        r#"{{"do":"bulk","child":{{"do":"just","values":[{row}]}},"job":{job}}}"#
    );
    match made {
        Ok(root) => {
            let parts = parts_of(rt, alloc, &root, line);
            drop(root);
            parts
        }
        Err(_) => None,
    }
}

// Asserts of each row that a bulk over it completes with its line, and each of its parts runs,
// once, and no other.
fn all_run<R: Wait + Abort + Sync>(rt: &R, alloc: Global, job: &str, cases: &[(&str, u32, &str)])
    requires sync { IsSync R.row }
{
    for case in cases {
        let parts = parts_over(rt, alloc, job, case.0, case.2);
        assert!(rt; parts == Some(case.1), "{}", case.0);
    }
}

#[test]
fn a_row_has_a_part_for_each_number_and_eight_at_most(rt: HostRuntime) {
    let job = r#"{"job":"index"}"#;
    all_run(
        &rt,
        rt.alloc(),
        job,
        &[
            ("[]", 0, "1 value []\n"),
            ("[0]", 0b10, "1 value [0]\n"),
            ("[0,0,0,0,0,0,0]", 0b1111_1110, "1 value [0,1,2,3,4,5,6]\n"),
            ("[0,0,0,0,0,0,0,0]", EIGHT, "1 value [0,1,2,3,4,5,6,7]\n"),
            (
                "[0,0,0,0,0,0,0,0,0]",
                EIGHT,
                "1 value [0,1,2,3,4,5,6,7,8]\n",
            ),
            (
                "[0,0,0,0,0,0,0,0,0,0,0,0,0,0,0,0,0,0,0,0]",
                EIGHT,
                "1 value [0,1,2,3,4,5,6,7,8,9,10,11,12,13,14,15,16,17,18,19]\n",
            ),
        ],
    );
}

#[test]
fn the_least_index_that_fails_is_told_and_all_parts_run(rt: HostRuntime) {
    let job = r#"{"job":"within","lo":1,"hi":1}"#;
    all_run(
        &rt,
        rt.alloc(),
        job,
        &[
            (
                "[1,1,1,1,1,1,1,1,1,1,1,0,1,1,1,1,1,1,1,0]",
                EIGHT,
                "1 error out-of-range@11\n",
            ),
            (
                "[1,1,0,0,1,1,1,1,1,1,1,1,1,1,1,1,1,1,1,0]",
                EIGHT,
                "1 error out-of-range@2\n",
            ),
            (
                "[1,1,1,1,1,1,1,1,1,1,1,1,1,1,1,1,1,1,1,0]",
                EIGHT,
                "1 error out-of-range@19\n",
            ),
            ("[0,0,0,0,0,0,0,0,0]", EIGHT, "1 error out-of-range@0\n"),
        ],
    );
}
