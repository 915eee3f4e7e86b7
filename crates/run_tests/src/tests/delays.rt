//! The delays of one operation wait, whatever becomes of another.
use super::{Lines, gives};
use exec_recv::OpenGate;

/// The record `0` has one hop. Of the record `1` the shorter delay stops the longer one; if both
/// were roused, the longer one would come first, and have its value.
const ROOT: &str = r#"{"do":"let_value","child":{"do":"input"},"pick":{"job":"pass"},"bodies":[
    {"do":"starts_on","on":"loop","child":{"do":"just","values":[7]}},
    {"do":"when_all","children":[
        {"do":"stopped_as_error","child":{"do":"delay","turns":20},"error":"roused"},
        {"do":"let_value","child":{"do":"delay","turns":6},"pick":{"job":"give","values":[0]},
            "bodies":[{"do":"just_stopped"},{"do":"just","values":[8]}]}]}]}"#;

#[test]
fn the_end_of_an_operation_rouses_no_delay_of_another(rt: HostRuntime) {
    let case = Lines {
        input: "int",
        root: ROOT,
        bytes: b"0\n1\n",
        window: 2,
        lines: b"1 value 7\n2 error roused\n",
    };
    assert!(rt; gives(&rt, rt.alloc(), case, &OpenGate));
}
