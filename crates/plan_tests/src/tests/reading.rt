//! The numbers that the nodes of a plan file get. What is read else, and what is refused, the
//! program's own cases tell (tests/cases/plan_files.json).
use plan_builder::Plan;
use plan_reader::read_plan;
use plan_rules::Node;

// A first child comes before a second, a let's child before its bodies, and the eight parts of a
// bulk just before it, whatever the order of the keys.
const TEXT: &str = r#"{"version":2,"input":"int","root":{"do":"ahead",
        "second":{"do":"let_value","pick":{"job":"pass"},"bodies":[
            {"do":"unstoppable","child":{"do":"just","values":[[2]]}},
            {"do":"bulk","job":{"job":"neg"},"child":{"do":"just","values":[[1]]}}],
            "child":{"do":"read_env","query":"stop"}},
        "first":{"do":"starts_on","on":"loop","child":{"do":"input"}}}}"#;

// Whether the nodes of its plan have these numbers.
fn has_numbers(plan: &Plan) -> bool {
    plan.size() == 17
        && matches!(plan.node(1), Node::StartsOn { child: 0, .. })
        && matches!(plan.node(4), Node::Unstoppable { child: 3 })
        && matches!(plan.node(6), Node::Part { bulk: 14, part: 0 })
        && matches!(plan.node(15), Node::LetValue { child: 2, .. })
        && matches!(plan.node(16), Node::Ahead { first: 1, .. })
}

#[test]
fn children_have_their_numbers_before_their_parent(rt: HostRuntime) {
    let told = match read_plan(rt.alloc(), TEXT.as_bytes()) {
        Ok(plan) => {
            let told = has_numbers(&plan);
            drop(plan);
            told
        }
        Err(_) => false,
    };
    assert!(rt; told);
}
