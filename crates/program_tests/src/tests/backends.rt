//! A call of `run`, past a gate, with backends that note what they are asked for.
ghost use Rattle.std.specs.Prelude.{◌≡◌, IfOk, vec_len};
ghost use Rattle.std.specs.Thread.{IsSync};
ghost use Rattle.exec_words.specs.declared.number.TheConstants.{MOST_WORKERS};

use exec_engine::{Backend, Status, System, Tally, run};
use exec_io::{Shelf, Sink, Source};
use exec_recv::Gate;
use exec_words::MOST_WORKERS;
use life_rules::ScopeState;
use pool_backends::{Name, Order, RingBackend};
use std::alloc::{AllocError, Global};
use std::sync::atomic::{AtomicU64, Ordering};
use std::sync::{Arc, Wait};
use std::thread::Threads;

/// How many names each backend has room for.
const ROOM: u32 = 2;

/// How often all backends of a run were asked for what.
#[derive(Drop)]
struct Asked {
    fifo: AtomicU64,
    lifo: AtomicU64,
    submitted: AtomicU64,
}

/// A ring that notes what it is asked for.
#[derive(Drop)]
struct Watched {
    ring: RingBackend,
    asked: Arc<Asked, Global>,
}

impl Backend for Watched {
    ghost use Rattle.std.specs.Prelude.{false};
    ghost use Rattle.pool_backends.specs.Rings.{stock_of};

    ghost stock = { λ w. stock_of w.ring };

    ghost lawful = { λ _. false };

    fn arrange(&mut self, order: Order) {
        let _before = match order {
            Order::Fifo => self.asked.fifo.fetch_add(1, Ordering::SeqCst),
            Order::Lifo => self.asked.lifo.fetch_add(1, Ordering::SeqCst),
        };
        self.ring.arrange(order);
    }

    fn submit(&mut self, name: Name) -> Result<(), Name> {
        let _before = self.asked.submitted.fetch_add(1, Ordering::SeqCst);
        self.ring.submit(name)
    }

    fn next(&mut self) -> Option<Name> {
        self.ring.next()
    }
}

/// How the table of a run was closed.
#[derive(Clone, Copy)]
pub struct Closed {
    pub scope: ScopeState,
    pub free: u32,
    pub retired: u32,
}

/// What a tally tells.
#[derive(Clone, Copy)]
pub struct Told {
    pub values: u64,
    pub errors: u64,
    pub stopped: u64,
    pub no_memory: u64,
    pub closed: Option<Closed>,
}

/// What a call of `run` came to.
#[derive(Clone, Copy)]
pub struct Called {
    pub status: Status,
    pub tally: Told,
    /// How many backends were handed in, and how many of them weren't dropped.
    pub given: usize,
    pub left: usize,
    /// How often backends were arranged Fifo and Lifo, and were submitted a name.
    pub fifo: u64,
    pub lifo: u64,
    pub submitted: u64,
}

fn closed_of(tally: &Tally) -> Option<Closed> {
    match tally.closing() {
        Some(closing) => Some(Closed {
            scope: closing.scope(),
            free: closing.free(),
            retired: closing.retired(),
        }),
        None => None,
    }
}

fn told_by(tally: &Tally) -> Told {
    Told {
        values: tally.values(),
        errors: tally.errors(),
        stopped: tally.stopped(),
        no_memory: tally.no_memory(),
        closed: closed_of(tally),
    }
}

/// A backend that notes there what it is asked for.
fn noting(
    alloc: Global,
    asked: &Arc<Asked, Global>,
) -> Result<Box<dyn Backend + Send>, AllocError> {
    let asked = Arc::try_clone(asked)?;
    let ring = RingBackend::new(alloc, ROOM)?;
    let backend: Box<dyn Backend + Send> = Box::new(alloc, Watched { ring, asked })?;
    Ok(backend)
}

/// One for each worker that there may be.
fn all_watched(
    alloc: Global,
    asked: &Arc<Asked, Global>,
) -> Result<Vec<Box<dyn Backend + Send>>, AllocError>
    ensures { IfOk result (λ backends. vec_len backends ≡ MOST_WORKERS) }
{
    let mut backends: Vec<Box<dyn Backend + Send>> = Vec::new(alloc);
    for made in 0..MOST_WORKERS {
        backends.push(noting(alloc, asked)?)?;
    }
    Ok(backends)
}

fn none_asked(alloc: Global) -> Result<Arc<Asked, Global>, AllocError> {
    let asked = Asked {
        fifo: AtomicU64::new(0),
        lifo: AtomicU64::new(0),
        submitted: AtomicU64::new(0),
    };
    Ok(Arc::new(alloc, asked)?)
}

/// Calls `run` on this system, past this gate, with these backends and a tally of its own.
fn call_with<G: Gate + Sync, R: Threads + Wait + Sync, F: Shelf, S: Source, K: Sink, N: Sink>(
    rt: &R,
    alloc: Global,
    words: &[&str],
    gate: &G,
    system: &mut System<F, S, K, N>,
    backends: Vec<Box<dyn Backend + Send>>,
) -> (Status, Told)
    requires sync { IsSync R.row }
    requires all { vec_len backends ≡ MOST_WORKERS }
{
    let mut tally = Tally::new();
    let status = run(rt, alloc, words, system, backends, gate, &mut tally);
    let told = told_by(&tally);
    drop(tally);
    (status, told)
}

/// The same with backends of its own.
pub fn call<G: Gate + Sync, R: Threads + Wait + Sync, F: Shelf, S: Source, K: Sink, N: Sink>(
    rt: &R,
    alloc: Global,
    words: &[&str],
    gate: &G,
    system: &mut System<F, S, K, N>,
) -> Result<Called, AllocError>
    requires { IsSync R.row }
{
    let asked = none_asked(alloc)?;
    match all_watched(alloc, &asked) {
        Ok(backends) => {
            let given = Arc::strong_count(&asked) - 1;
            let (status, tally) = call_with(rt, alloc, words, gate, system, backends);
            let called = Called {
                status,
                tally,
                given,
                left: Arc::strong_count(&asked) - 1,
                fifo: asked.fifo.load(Ordering::SeqCst),
                lifo: asked.lifo.load(Ordering::SeqCst),
                submitted: asked.submitted.load(Ordering::SeqCst),
            };
            drop(asked);
            Ok(called)
        }
        Err(fault) => {
            drop(asked);
            Err(fault)
        }
    }
}
