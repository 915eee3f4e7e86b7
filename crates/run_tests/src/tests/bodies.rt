//! Which body of a let runs, as a gate sees it.

use super::{Lines, gives};
use exec_recv::{Gate, Point};
use std::sync::atomic::{AtomicU64, Ordering};

/// The node of the job in the third body.
const THIRD: u32 = 4;

/// A gate that counts the jobs at the third body, for record 1 and for all others.
#[derive(Drop)]
struct Counting {
    first: AtomicU64,
    others: AtomicU64,
}

impl Gate for Counting {
    fn pass(&self, point: Point) {
        if let Point::Job { number, node } = point {
            if node == THIRD {
                let count = if number == 1 {
                    &self.first
                } else {
                    &self.others
                };
                count.fetch_add(1, Ordering::SeqCst);
            }
        }
    }
}

#[test]
fn picked_body(rt: HostRuntime) {
    let gate = Counting {
        first: AtomicU64::new(0),
        others: AtomicU64::new(0),
    };
    let case = Lines {
        input: "int",
        root: r#"{"do":"let_value","child":{"do":"input"},"pick":{"job":"pass"},
            "bodies":[{"do":"just","values":[10]},{"do":"just","values":[20]},
                {"do":"then","child":{"do":"input"},"job":{"job":"mul","n":100}}]}"#,
        bytes: b"7\n-1\n1\n",
        window: 3,
        lines: b"1 value 700\n2 value 10\n3 value 20\n",
    };
    let given = gives(&rt, rt.alloc(), case, &gate);
    let first = gate.first.load(Ordering::SeqCst);
    let others = gate.others.load(Ordering::SeqCst);
    assert!(rt; given && first == 1 && others == 0);
}
