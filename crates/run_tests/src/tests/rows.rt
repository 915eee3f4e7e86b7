//! Records that are rows complete with what the plan makes of them.
use super::{Lines, gives};
use exec_recv::OpenGate;

#[test]
fn each_row_completes_with_itself(rt: HostRuntime) {
    let case = Lines {
        input: "row",
        root: r#"{"do":"starts_on","on":"loop","child":{"do":"input"}}"#,
        bytes: b"[]\n[7,-8,9]\n",
        window: 2,
        lines: b"1 value []\n2 value [7,-8,9]\n",
    };
    assert!(rt; gives(&rt, rt.alloc(), case, &OpenGate));
}
