//! Who runs which job, and backends that aren't lawful.
ghost use Rattle.std.specs.Prelude.{◌<◌};
ghost use Rattle.std.specs.Thread.{IsSync};
ghost use Rattle.life_rules.specs.declared.limits.TheConstants.{MOST_HANDS};

use super::crews::{
    MOST_LOOKS, ONE, RUNS, TWO, Team, Trial, all_write, comes, crew_of, four, watched, writes,
    writes_with,
};
use super::layers::agree_with;
use super::unlawful::Way;
use exec_recv::{Gate, OpenGate, Point};
use std::alloc::Global;
use std::process::Abort;
use std::sync::atomic::{AtomicU64, Ordering};
use std::sync::{Arc, Wait};
use std::thread::Threads;

/// One more than the record, on the pool.
const ON_POOL: &str = r#"{"do":"starts_on","on":"pool",
        "child":{"do":"then","child":{"do":"input"},"job":{"job":"add","n":1}}}"#;

/// Two records of it at once.
const TWO_ON_POOL: Trial<'static> = Trial {
    settings: "",
    root: ON_POOL,
    window: 2,
    count: 2,
};

/// Five hops, between the pool and the loop.
const HOPS: &str = r#"{"do":"continues_on","on":"pool",
        "child":{"do":"continues_on","on":"loop",
            "child":{"do":"continues_on","on":"pool",
                "child":{"do":"continues_on","on":"loop",
                    "child":{"do":"starts_on","on":"pool",
                        "child":{"do":"then","child":{"do":"input"},
                            "job":{"job":"add","n":1}}}}}}}"#;

/// Of two children one makes one hop, and the other begins eight parts.
const PLAN_G: &str = r#"{"do":"continues_on","on":"loop",
        "child":{"do":"then","job":{"job":"sum"},
            "child":{"do":"when_all","children":[
                    {"do":"starts_on","on":"pool",
                        "child":{"do":"then","child":{"do":"input"},"job":{"job":"mul","n":2}}},
                    {"do":"let_value","child":{"do":"input"},"pick":{"job":"pass"},
                        "bodies":[{"do":"just","values":[9]},
                            {"do":"then","job":{"job":"sum"},
                                "child":{"do":"bulk","child":{"do":"just","values":[[1,2,3]]},
                                    "job":{"job":"index"}}}]}]}}}"#;

/// A gate that holds the first job that passes it until another passes, or so many looks.
#[derive(Drop)]
struct Holding {
    most: u32,
    first: AtomicU64,
    others: AtomicU64,
    met: AtomicU64,
}

impl Holding {
    fn new(most: u32) -> Holding {
        Holding {
            most,
            first: AtomicU64::new(0),
            others: AtomicU64::new(0),
            met: AtomicU64::new(0),
        }
    }

    fn hold(&self) {
        if self.first.fetch_add(1, Ordering::SeqCst) != 0 {
            self.others.store(1, Ordering::SeqCst);
        } else if comes(&self.others, self.most) {
            self.met.store(1, Ordering::SeqCst);
        }
    }
}

impl Gate for Holding {
    fn pass(&self, point: Point) {
        if matches!(point, Point::Job { number: _, node: _ }) {
            self.hold();
        }
    }
}

/// What two records of `ON_POOL` are summed up to.
const TWO_RECORDS: &str = "records 2 values 2 errors 0 stopped 0 out-of-memory 0 bad 0 sum 23793\n";

/// Whether the two records run with this team, and their jobs met or didn't where the first is held
/// for so many looks.
fn meets<R: Threads + Wait + Sync>(rt: &R, alloc: Global, team: Team, most: u32) -> Option<bool>
    requires sync { IsSync R.row }
    requires workers { team.workers < MOST_HANDS }
{
    let gate = Holding::new(most);
    if !writes(rt, alloc, TWO_ON_POOL, team, &gate, &[TWO_RECORDS]) {
        return None;
    }
    Some(gate.met.load(Ordering::SeqCst) == 1)
}

#[test]
fn two_workers_run_two_jobs_at_once(rt: HostRuntime) {
    let met = meets(&rt, rt.alloc(), TWO, MOST_LOOKS);
    assert!(rt; met == Some(true));
}

#[test]
fn hand_0_runs_no_job_of_the_pool_where_a_worker_serves(rt: HostRuntime) {
    let met = meets(&rt, rt.alloc(), ONE, 500);
    assert!(rt; met == Some(false));
}

// The job that is held is the worker's or hand 0's, and the other runs the other job: by its name,
// or where the worker has both names by a look at its node.
#[test]
fn hand_0_runs_a_job_of_the_pool_where_it_helps(rt: HostRuntime) {
    let met = meets(&rt, rt.alloc(), Team { helps: true, ..ONE }, MOST_LOOKS);
    assert!(rt; met == Some(true));
}

/// The ways that a backend may not go.
const UNLAWFUL: [Way; 4] = [Way::Drops, Way::Repeats, Way::Invents, Way::Keeps];

#[test]
fn a_backend_that_is_not_lawful_changes_no_answer(rt: HostRuntime) {
    let line = "records 1000 values 1000 errors 0 stopped 0 out-of-memory 0 bad 0 sum 99927196\n";
    let trial = Trial {
        settings: "",
        root: PLAN_G,
        window: 8,
        count: 1000,
    };
    all_write(&rt, rt.alloc(), trial, &UNLAWFUL, line);
}

/// Forty records of `PLAN_G`, and what they are summed up to.
const FORTY: Trial<'static> = Trial {
    settings: "",
    root: PLAN_G,
    window: 8,
    count: 40,
};

const FORTY_RECORDS: &str =
    "records 40 values 40 errors 0 stopped 0 out-of-memory 0 bad 0 sum 3788604\n";

/// How many names the backends of a crew are submitted that runs these, if it does.
fn submits<R: Threads + Wait + Sync>(rt: &R, alloc: Global, way: Way) -> Option<u64>
    requires sync { IsSync R.row }
{
    let Ok(submitted) = Arc::new(alloc, AtomicU64::new(0)) else {
        return None;
    };
    let written = match watched(alloc, four(way), &submitted) {
        Some(crew) => writes_with(rt, alloc, FORTY, crew, &OpenGate, &[FORTY_RECORDS]),
        None => false,
    };
    let count = submitted.load(Ordering::SeqCst);
    drop(submitted);
    if written { Some(count) } else { None }
}

/// Asserts that it runs them so often, and each time its backends are submitted names.
fn all_submit<R: Threads + Wait + Abort + Sync>(rt: &R, alloc: Global, way: Way)
    requires sync { IsSync R.row }
{
    for _run in 0..RUNS {
        let count = submits(rt, alloc, way);
        assert!(rt; count.is_some() && count != Some(0));
    }
}

#[test]
fn each_backend_is_submitted_names(rt: HostRuntime) {
    for way in UNLAWFUL {
        all_submit(&rt, rt.alloc(), way);
    }
}

/// Whether the plan with this root gives the lines of plain evaluation with this team.
fn agrees<R: Threads + Wait + Sync>(
    rt: &R,
    alloc: Global,
    root: &str,
    window: u32,
    count: u32,
    team: Team,
) -> bool
    requires sync { IsSync R.row }
    requires workers { team.workers < MOST_HANDS }
{
    match crew_of(alloc, team) {
        Some(crew) => agree_with(rt, alloc, ("", root), window, count, crew),
        None => false,
    }
}

// Up to 16 workers have desks. More have none, and share the backends alone.
#[test]
fn seventeen_workers_give_the_lines_that_sixteen_give(rt: HostRuntime) {
    let alloc = rt.alloc();
    let sixteen = Team { workers: 16, ..TWO };
    let seventeen = Team { workers: 17, ..TWO };
    assert!(rt; agrees(&rt, alloc, PLAN_G, 8, 100, sixteen));
    assert!(rt; agrees(&rt, alloc, HOPS, 8, 100, sixteen));
    assert!(rt; agrees(&rt, alloc, PLAN_G, 8, 100, seventeen));
    assert!(rt; agrees(&rt, alloc, HOPS, 8, 100, seventeen));
}

#[test]
fn one_record_at_a_time_makes_its_hops(rt: HostRuntime) {
    let alloc = rt.alloc();
    let four = Team { workers: 4, ..TWO };
    assert!(rt; agrees(&rt, alloc, HOPS, 1, 50, four));
    assert!(rt;
        agrees(
            &rt,
            alloc,
            HOPS,
            1,
            50,
            Team {
                helps: true,
                ..four
            }
        )
    );
}
