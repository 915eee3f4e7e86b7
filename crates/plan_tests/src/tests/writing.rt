//! Canonical texts, each test named by what it shows.
use super::finished;
use exec_job::Job;
use plan_builder::{Built, Context, Plan, PlanBuilder};
use plan_reader::read_plan;
use plan_writer::{is_in_file_order, write_plan};
use std::alloc::Global;

/// Whether the plan is in the order of a file, or not, and is written as this text.
fn is_written(alloc: Global, plan: &Plan, in_order: bool, canonical: &str) -> bool {
    let ordered = matches!(is_in_file_order(alloc, plan), Ok(told) if told == in_order);
    match write_plan(alloc, plan) {
        Ok(written) => {
            let told = written.as_slice() == canonical.as_bytes();
            drop(written);
            told && ordered
        }
        Err(_) => false,
    }
}

/// Whether the plan of a text is in the order of a file and is written as this text.
fn is_read_and_written(alloc: Global, text: &str, canonical: &str) -> bool {
    match read_plan(alloc, text.as_bytes()) {
        Ok(plan) => {
            let told = is_written(alloc, &plan, true, canonical);
            drop(plan);
            told
        }
        Err(_) => false,
    }
}

#[test]
fn a_plan_of_twenty_nodes_comes_back(rt: HostRuntime) {
    let text =
        r#"{"input":"int","on_error":"stop","root":{"child":{"child":{"children":[{"child":{"child":{"do":"input"},"do":"then","job":{"job":"mul","n":-2}},"do":"starts_on","on":"pool"},{"bodies":[{"do":"just","values":[9]},{"child":{"child":{"do":"just","values":[[1,2,3]]},"do":"bulk","job":{"job":"index"}},"do":"then","job":{"job":"sum"}}],"child":{"do":"input"},"do":"let_value","pick":{"job":"pass"}}],"do":"when_all"},"do":"then","job":{"job":"sum"}},"do":"continues_on","on":"loop"},"scope":"counting","stop_after":1000000,"version":2}"#;
    assert!(rt; is_read_and_written(rt.alloc(), text, text));
}

#[test]
fn what_a_file_leaves_open_is_written(rt: HostRuntime) {
    let text = r#" { "version" : 1, "root": { "values": ["\u0041\/\u00e9 \" \\ \n\u0001"],
            "do": "just" }, "input": "text" } "#;
    let canonical =
        r#"{"input":"text","on_error":"go","root":{"do":"just","values":["A/é \" \\ \n\u0001"]},"scope":"counting","version":1}"#;
    assert!(rt; is_read_and_written(rt.alloc(), text, canonical));
}

/// A `when_all` of which the second child has the first number.
fn turned(alloc: Global, builder: &mut PlanBuilder) -> Built {
    let second = builder.schedule(Context::Pool)?;
    let input = builder.input()?;
    let first = builder.then(input, Job::Neg)?;
    builder.when_all(Vec::from_slice(alloc, &[first, second])?)
}

#[test]
fn children_are_written_in_their_order_and_not_in_that_of_their_numbers(rt: HostRuntime) {
    let alloc = rt.alloc();
    let mut builder = PlanBuilder::new(alloc);
    let root = turned(alloc, &mut builder);
    let canonical =
        r#"{"input":"int","on_error":"go","root":{"children":[{"child":{"do":"input"},"do":"then","job":{"job":"neg"}},{"do":"schedule","on":"pool"}],"do":"when_all"},"scope":"counting","version":2}"#;
    let told = match finished(builder, root) {
        Some(plan) => {
            let told = is_written(alloc, &plan, false, canonical);
            drop(plan);
            told
        }
        None => false,
    };
    assert!(rt; told);
}
