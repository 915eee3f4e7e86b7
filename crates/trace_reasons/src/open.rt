//! What is left open in a state. Each call that puts adds to the end of `out`.
ghost use Rattle.std.specs.Prelude.{◌≡◌, ◌<◌, OnOk, true};
ghost use Rattle.std.specs.List.{flat_map};
ghost use Rattle.exec_life.specs.StateLists.{machine};
ghost use Rattle.life_rules.specs.States.{size};
ghost use Rattle.pictures.specs.Adding.{Adds};
ghost use Rattle.replay_core.specs.Candidates.{blocks_of, place_of};
ghost use Rattle.trace_reasons.specs.Open.{block_mark, callback_mark, is_unscanned, scan_mark, association_mark, callback_marks, scan_marks, marks, open_text};

use crate::put::{put, put_between};
use exec_life::State;
use life_rules::{BlockState, CallbackPhase, Place, SourceAt};
use std::alloc::AllocError;
use trace_text::{put_place, put_source};

// Adds the block, where an operation lives in it.
fn put_block_mark(state: &State, block: u32, out: &mut Vec<u8>) -> Result<(), AllocError>
    requires { block < (machine state.now).blocks }
    ensures { OnOk result
        (Adds out.old.items out.new.items (block_mark (machine state.now) block)) }
{
    if matches!(state.words().block(block).state, BlockState::Open) {
        return put_between(b", block ", block, b"", out);
    }
    Ok(())
}

fn put_block_marks(state: &State, out: &mut Vec<u8>) -> Result<(), AllocError>
    ensures { let s = machine state.now in OnOk result
        (Adds out.old.items out.new.items (flat_map (block_mark s) (blocks_of s))) }
{
    for block in 0..state.blocks() {
        put_block_mark(state, block, out)?;
    }
    Ok(())
}

// Adds the node's callback, where it is armed or runs.
fn put_callback_mark(
    state: &State,
    block: u32,
    node: u32,
    out: &mut Vec<u8>,
) -> Result<(), AllocError>
    requires block { block < (machine state.now).blocks }
    requires node { node < size (machine state.now) }
    ensures { OnOk result
        (Adds out.old.items out.new.items (callback_mark (machine state.now) block node)) }
{
    let place = Place { block, node };
    match state.words().callback(place) {
        CallbackPhase::Armed | CallbackPhase::Running => {
            put(b", callback ", out)?;
            put_place(place, out)?;
            Ok(())
        }
        CallbackPhase::Never | CallbackPhase::Ran | CallbackPhase::Removed => Ok(()),
    }
}

fn put_callbacks_in(state: &State, block: u32, out: &mut Vec<u8>) -> Result<(), AllocError>
    requires { block < (machine state.now).blocks }
    ensures { OnOk result
        (Adds out.old.items out.new.items (callback_marks (machine state.now) block)) }
{
    for node in 0..state.tree().size() {
        put_callback_mark(state, block, node, out)?;
    }
    Ok(())
}

fn put_callback_marks(state: &State, out: &mut Vec<u8>) -> Result<(), AllocError>
    ensures { let s = machine state.now in OnOk result
        (Adds out.old.items out.new.items (flat_map (callback_marks s) (blocks_of s))) }
{
    for block in 0..state.blocks() {
        put_callbacks_in(state, block, out)?;
    }
    Ok(())
}

// Whether a stop was requested on the source, and its scan isn't over.
fn is_unscanned(state: &State, source: SourceAt) -> bool
    ensures { result ≡ is_unscanned (machine state.now) source }
{
    let is_source = match source {
        SourceAt::Scope => true,
        SourceAt::At(place) => state.has_place(place) && state.tree().node(place.node).source,
    };
    if !is_source {
        return false;
    }
    let bits = state.words().source(source);
    bits.requested && !bits.scanned
}

// Adds the source, where its scan isn't over.
fn put_scan_mark(state: &State, source: SourceAt, out: &mut Vec<u8>) -> Result<(), AllocError>
    ensures { OnOk result
        (Adds out.old.items out.new.items (scan_mark (machine state.now) source)) }
{
    if is_unscanned(state, source) {
        put(b", scan of ", out)?;
        put_source(source, out)?;
    }
    Ok(())
}

fn put_scans_in(state: &State, block: u32, out: &mut Vec<u8>) -> Result<(), AllocError>
    ensures { OnOk result
        (Adds out.old.items out.new.items (scan_marks (machine state.now) block)) }
{
    for node in 0..state.tree().size() {
        put_scan_mark(state, SourceAt::At(Place { block, node }), out)?;
    }
    Ok(())
}

fn put_scan_marks(state: &State, out: &mut Vec<u8>) -> Result<(), AllocError>
    ensures { let s = machine state.now in OnOk result
        (Adds out.old.items out.new.items (flat_map (scan_marks s) (blocks_of s))) }
{
    for block in 0..state.blocks() {
        put_scans_in(state, block, out)?;
    }
    Ok(())
}

// Adds the number of associations, where there are some.
fn put_association_mark(count: u32, out: &mut Vec<u8>) -> Result<(), AllocError>
    ensures { OnOk result (Adds out.old.items out.new.items (association_mark count)) }
{
    match count {
        0 => Ok(()),
        1 => put_between(b", ", count, b" association", out),
        _ => put_between(b", ", count, b" associations", out),
    }
}

/// Adds all that is open, each behind a comma.
pub fn put_marks(state: &State, out: &mut Vec<u8>) -> Result<(), AllocError>
    ensures { OnOk result (Adds out.old.items out.new.items (marks (machine state.now))) }
{
    put_block_marks(state, out)?;
    put_callback_marks(state, out)?;
    put_scan_marks(state, out)?;
    put_scan_mark(state, SourceAt::Scope, out)?;
    put_association_mark(state.words().scope().count, out)?;
    Ok(())
}

/// Adds what is told of all that is open.
pub fn put_open(all: &[u8], out: &mut Vec<u8>) -> Result<(), AllocError>
    ensures { OnOk result (Adds out.old.items out.new.items (open_text all.now)) }
{
    if all.len() < 2 {
        return put(b"nothing open", out);
    }
    put(b"open: ", out)?;
    put(&all[2..], out)?;
    Ok(())
}
