//! The operations of a plan on the calling thread.
ghost use Rattle.std.specs.Prelude.{◌≡◌, ◌<◌, ◌≤◌, ◌^◌, true, false, None, IfOk, replicate};
ghost use Rattle.std.specs.Thread.{IsSync};
ghost use Rattle.plan_kinds.specs.Reached.{KindsMatch};
ghost use Rattle.plan_kinds.specs.Small.{IsSmall};
ghost use Rattle.plain_runs.specs.PlainWork.{plain_work, AreFree, WantsMemory};
ghost use Rattle.record_loop.specs.Works.{IsIdle};

use crate::evaluate::evaluate;
use crate::small::is_small;
use crate::started::{Started, at_block, free_block, is_free, put_block};
use exec_value::{Completion, Datum};
use plan_shape::Plan;
use record_loop::Operations;
use run_tally::{Counts, Placed};
use sig_check::check;
use std::alloc::{AllocError, Global};
use std::marker::Model;
use std::sync::Wait;

// Of which plan plain operations are: they run on no table.
#[derive(Drop)]
struct OfPlan<'a> {
    plan: &'a Plan,
}

impl<'a> Placed for OfPlan<'a> {
    ghost use Rattle.plain_runs.specs.PlainWork.{no_table};

    ghost plan = { λ p. p.plan.now };

    ghost table = { λ _. no_table };
}

/// The operations of a plan's records, each evaluated when its completion is asked for.
#[derive(Drop)]
pub struct PlainRuns<'a> {
    alloc: Global,
    plan: &'a Plan,
    /// Whether the plan is small, so that evaluating it wants no memory.
    small: bool,
    blocks: Vec<Option<Started>>,
    /// The block that the next operation takes.
    next: usize,
    requested: bool,
    /// What was collected. No tally of a loop is made of it.
    counts: Counts,
}

impl<'a> Model for PlainRuns<'a> {
    ghost use Rattle.plain_runs.specs.PlainWork.{Plain, IsSoundPlain};

    ghost Value = { Plain };

    ghost view = { λ s. record {
      plan = s.plan.now;
      blocks = s.blocks.items;
      requested = s.requested;
      collected = s.counts;
    } };

    ghost invariant = { λ s. IsSoundPlain s.plan.now s.blocks.items s.next s.small };
}

/// So many free blocks.
fn free_blocks(alloc: Global, blocks: usize) -> Result<Vec<Option<Started>>, AllocError>
    ensures { IfOk result (AreFree blocks) }
{
    let mut free = Vec::with_capacity(alloc, blocks)?;
    'fill: while free.len() < blocks {
        free.push(None)?;
    }
    Ok(free)
}

/// Whether the plan is small, by the signatures of its nodes. Its kinds match, so a check of them
/// fails for want of memory alone.
fn find_small(alloc: Global, plan: &Plan) -> Result<bool, AllocError>
    requires { KindsMatch plan.now.nodes plan.now.settings.input }
    ensures small { IfOk result (λ small. small ≡ true → IsSmall plan.now) }
    ensures wants { IfOk result (λ small. small ≡ false → ¬ IsSmall plan.now) }
{
    match check(alloc, plan) {
        Ok(sigs) => Ok(is_small(plan, &sigs)),
        Err(_) => Err(AllocError),
    }
}

impl<'a> PlainRuns<'a> {
    /// No operations of the plan, and so many blocks for them, which is all the memory that it
    /// takes beside what evaluation wants.
    pub fn open(alloc: Global, plan: &'a Plan, blocks: usize) -> Result<PlainRuns<'a>, AllocError>
        requires some { 0 < blocks }
        requires few { blocks ≤ 2 ^ 16 }
        requires kinds { KindsMatch plan.now.nodes plan.now.settings.input }
        ensures plan { IfOk result (λ runs. runs.plan ≡ plan.now) }
        ensures idle { IfOk result (λ runs. IsIdle (plain_work runs)) }
        ensures blocks { IfOk result (λ runs. runs.blocks ≡ replicate blocks None) }
    {
        Ok(PlainRuns {
            alloc,
            plan,
            small: find_small(alloc, plan)?,
            blocks: free_blocks(alloc, blocks)?,
            next: 0,
            requested: false,
            counts: Counts::new(),
        })
    }

    /// What was collected.
    pub fn counts(&self) -> &Counts
        ensures { result.now ≡ self.now.collected }
    {
        &self.counts
    }
}

impl<'a> Operations for PlainRuns<'a> {
    ghost state = { plain_work };

    ghost WantsMemory = { WantsMemory };

    fn start<R: Wait + Sync>(
        &mut self,
        rt: &R,
        alloc: Global,
        number: u32,
        datum: Datum,
    ) -> Result<u32, Datum> {
        let block = self.next;
        if !is_free(&self.blocks, block) {
            return Err(datum);
        }
        let asked = self.requested;
        let started = Started {
            number,
            datum,
            asked,
        };
        put_block(&mut self.blocks, block, started);
        self.next = (block + 1) % self.blocks.len();
        Ok(block as u32)
    }

    fn turn<R: Wait + Sync>(&mut self, rt: &R, alloc: Global) {}

    fn collect<R: Wait + Sync>(&mut self, rt: &R, ticket: u32) -> Option<Completion> {
        let at = ticket as usize;
        let started = at_block(&self.blocks, at)?;
        let done = evaluate(self.alloc, self.plan, self.small, started)?;
        let number = started.number;
        free_block(&mut self.blocks, at);
        let of = OfPlan { plan: self.plan };
        self.counts.add(&of, number, &done);
        Some(done)
    }

    fn request<R: Wait + Sync>(&mut self, rt: &R) {
        self.requested = true;
    }
}
