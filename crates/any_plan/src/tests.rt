//! The calls of by_example, over a source and a sink in memory.
ghost use Rattle.std.specs.Prelude.{IfOk, vec_len};
ghost use Rattle.run_workers.specs.Crews.{IsCrew};

use super::{RING_NAMES, WORKERS};
use by_example::{add_lines, add_one, run_text};
use exec_io::{MemSink, MemSource, Source};
use exec_value::{Completion, Datum};
use plan_reader::PlanFault;
use pool_backends::{Backend, RingBackend};
use run_workers::{Crew, Order};
use std::alloc::{AllocError, Global};
use std::test::Fail;

fn crew(alloc: Global) -> Result<Crew, AllocError>
    ensures { IfOk result (λ crew. IsCrew crew.workers (vec_len crew.backends)) }
{
    let mut backends: Vec<Box<dyn Backend + Send>> = Vec::new(alloc);
    for _worker in 0..WORKERS {
        backends.push(Box::new(alloc, RingBackend::new(alloc, RING_NAMES)?)?)?;
    }
    if backends.len() < WORKERS as usize {
        return Err(AllocError);
    }
    Ok(Crew {
        workers: WORKERS,
        helps: true,
        order: Order::Fifo,
        backends,
    })
}

fn source(alloc: Global, lines: &[u8]) -> Result<MemSource, AllocError> {
    Ok(MemSource::new(lines.to_vec(alloc)?, Vec::new(alloc)))
}

fn sink(alloc: Global) -> MemSink {
    MemSink::new(alloc, 4096, Vec::new(alloc))
}

/// The text of a plan of version 2 for records of this kind, with these further settings.
fn text_of(alloc: Global, input: &str, settings: &str, root: &str) -> Result<String, AllocError> {
    format!(in alloc; r#"{{"version":2,"input":"{input}",{settings}"root":{root}}}"#)
}

/// The kind of the records and the root of a plan, lines for it, and what is written for these.
const RUNS: [(&str, &str, &[u8], &[u8]); 4] = [
    (
        "int",
        r#"{"do":"then","child":{"do":"input"},"job":{"job":"mul","n":3}}"#,
        b"5\n-1\nx\n",
        b"1 value 15\n2 value -3\n3 bad-record\n",
    ),
    (
        "text",
        r#"{"do":"then","child":{"do":"input"},"job":{"job":"length"}}"#,
        b"four\n\n",
        b"1 value 4\n2 value 0\n",
    ),
    (
        "row",
        r#"{"do":"bulk","child":{"do":"input"},"job":{"job":"within","lo":0,"hi":9}}"#,
        b"[1,2,3]\n[4,70]\n",
        b"1 value [1,2,3]\n2 error out-of-range@1\n",
    ),
    (
        "int",
        r#"{"do":"ahead","first":{"do":"input"},"second":{"do":"just_stopped"}}"#,
        b"5\n",
        b"1 stopped\n",
    ),
];

#[test]
fn a_plan_that_is_read_is_run(rt: HostRuntime) -> Result<(), Fail> {
    let alloc = rt.alloc();
    for (input, root, lines, want) in RUNS {
        let text = text_of(alloc, input, "", root)?;
        let mut records = source(alloc, lines)?;
        let mut out = sink(alloc);
        let account = run_text(
            &rt,
            alloc,
            text.as_bytes(),
            crew(alloc)?,
            &mut records,
            &mut out,
        )?;
        assert!(rt; out.bytes() == want, "{text}");
        assert!(rt; !account.ending.is_lost(), "{text}");
    }
    Ok(())
}

/// Settings and a root that make no plan of ints, and why.
const REFUSED: [(&str, &str, PlanFault); 6] = [
    ("", "[", PlanFault::NotJson),
    (r#""scope":1,"#, r#"{"do":"input"}"#, PlanFault::Form),
    ("", r#"{"do":"inptu"}"#, PlanFault::UnknownName),
    (
        "",
        r#"{"do":"when_all","children":[{"do":"input"}]}"#,
        PlanFault::Limit,
    ),
    (
        "",
        r#"{"do":"then","child":{"do":"input"},"job":{"job":"length"}}"#,
        PlanFault::Kinds,
    ),
    (
        r#""scope":"simple","stop_after":1,"#,
        r#"{"do":"input"}"#,
        PlanFault::Excluded,
    ),
];

#[test]
fn a_text_that_is_no_plan_reads_and_writes_nothing(rt: HostRuntime) -> Result<(), Fail> {
    let alloc = rt.alloc();
    for (settings, root, why) in REFUSED {
        let text = text_of(alloc, "int", settings, root)?;
        let mut records = source(alloc, b"5\n")?;
        let mut out = sink(alloc);
        let crew = crew(alloc)?;
        match run_text(&rt, alloc, text.as_bytes(), crew, &mut records, &mut out) {
            Ok(_) => assert!(rt; false, "{text}"),
            Err(fault) => assert_eq!(rt; fault, why, "{text}"),
        }
        assert!(rt; out.bytes().is_empty(), "{text}");
        let mut left = [0u8; 4];
        assert_eq!(rt; records.read(&mut left)?, 2, "{text}");
    }
    Ok(())
}

#[test]
fn the_next_number_and_the_greatest(rt: HostRuntime) -> Result<(), Fail> {
    let alloc = rt.alloc();
    for (number, want) in [(5, Some(6)), (-1, Some(0)), (i64::MAX, None)] {
        match (add_one(&rt, alloc, number)?, want) {
            (Completion::Value(data), Some(next)) => {
                assert!(rt;
                    data.as_slice() == [Datum::Int(next)].as_slice(),
                    "{number}"
                )
            }
            (Completion::Error(name), None) => {
                assert!(rt; name.as_bytes() == b"overflow".as_slice(), "{number}")
            }
            _ => assert!(rt; false, "{number}"),
        }
    }
    Ok(())
}

#[test]
fn one_is_added_to_each_line(rt: HostRuntime) -> Result<(), Fail> {
    let alloc = rt.alloc();
    let mut records = source(alloc, b"5\nx\n9223372036854775807\n")?;
    let mut out = sink(alloc);
    let account = add_lines(&rt, alloc, crew(alloc)?, &mut records, &mut out)?;
    assert!(rt; out.bytes() == b"1 value 6\n2 bad-record\n3 error overflow\n".as_slice());
    assert_eq!(rt; account.tally.values(), 1);
    Ok(())
}
