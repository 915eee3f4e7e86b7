//! Plans with nodes of each kind.

use super::ADDING;

/// Further settings and a root, of each kind of node.
pub(super) const CASES: [(&str, &str); 26] = [
    ("", r#"{"do":"input"}"#),
    ("", r#"{"do":"just","values":[7]}"#),
    ("", r#"{"do":"just_error","error":"odd"}"#),
    ("", r#"{"do":"just_stopped"}"#),
    ("", r#"{"do":"read_env","query":"record"}"#),
    (r#""stop_after":1,"#, r#"{"do":"read_env","query":"stop"}"#),
    ("", ADDING),
    (
        r#""on_error":"stop","#,
        r#"{"do":"then","child":{"do":"input"},"job":{"job":"fail","error":"e"}}"#,
    ),
    (
        "",
        r#"{"do":"upon_error","child":{"do":"just_error","error":"odd"},"job":{"job":"length"}}"#,
    ),
    (
        "",
        r#"{"do":"upon_stopped","child":{"do":"just_stopped"},"job":{"job":"give","values":[0]}}"#,
    ),
    (
        "",
        r#"{"do":"stopped_as_optional","child":{"do":"just_stopped"},"of":"int"}"#,
    ),
    (
        "",
        r#"{"do":"stopped_as_error","child":{"do":"just_stopped"},"error":"halt"}"#,
    ),
    ("", r#"{"do":"schedule","on":"pool"}"#),
    (
        "",
        r#"{"do":"starts_on","on":"pool","child":{"do":"read_env","query":"record"}}"#,
    ),
    (
        "",
        r#"{"do":"continues_on","on":"loop","child":{"do":"input"}}"#,
    ),
    (
        r#""stop_after":1,"#,
        r#"{"do":"unstoppable","child":{"do":"schedule","on":"loop"}}"#,
    ),
    (
        "",
        r#"{"do":"let_value","child":{"do":"input"},"pick":{"job":"pass"},
            "bodies":[{"do":"input"},{"do":"just","values":[1]}]}"#,
    ),
    (
        "",
        r#"{"do":"let_error","child":{"do":"just_error","error":"odd"},"pick":{"job":"length"},
            "bodies":[{"do":"just","values":[1]}]}"#,
    ),
    (
        "",
        r#"{"do":"let_stopped","child":{"do":"just_stopped"},"pick":{"job":"give","values":[9]},
            "bodies":[{"do":"just","values":[1]}]}"#,
    ),
    (
        "",
        r#"{"do":"when_all","children":[{"do":"starts_on","on":"pool","child":{"do":"input"}},
                {"do":"read_env","query":"record"}]}"#,
    ),
    (
        "",
        r#"{"do":"ahead","first":{"do":"starts_on","on":"pool",
                "child":{"do":"then","child":{"do":"input"},"job":{"job":"mul","n":2}}},
            "second":{"do":"then","child":{"do":"input"},"job":{"job":"add","n":1}}}"#,
    ),
    (
        "",
        r#"{"do":"ahead","first":{"do":"just_error","error":"a"},
            "second":{"do":"just","values":[1]}}"#,
    ),
    (
        r#""on_error":"stop","#,
        r#"{"do":"ahead","first":{"do":"delay","turns":9},
            "second":{"do":"just_error","error":"e"}}"#,
    ),
    (
        r#""stop_after":1,"#,
        r#"{"do":"ahead","first":{"do":"read_env","query":"stop"},
            "second":{"do":"read_env","query":"record"}}"#,
    ),
    (
        "",
        r#"{"do":"ahead","first":{"do":"just","values":[1]},"second":{"do":"just_stopped"}}"#,
    ),
    (
        "",
        r#"{"do":"let_value","child":{"do":"ahead","first":{"do":"input"},
                "second":{"do":"just","values":[2]}},"pick":{"job":"sum"},
            "bodies":[{"do":"ahead","first":{"do":"just","values":["x"]},
                    "second":{"do":"starts_on","on":"pool","child":{"do":"input"}}}]}"#,
    ),
];
