//! How events are written. Each call adds to the end of `out`.
ghost use Rattle.std.specs.Prelude.{OnOk, [], ◌≡◌};
ghost use Rattle.life_rules.specs.declared.event.Event.TheVariants.{Await, Rest, Look, Request, Run, SealScan, Seal};
ghost use Rattle.trace_text.specs.Adding.{Adds};
ghost use Rattle.trace_text.specs.Kinds.{block_event, place_event, bare_event};
ghost use Rattle.trace_text.specs.Texts.{apart, event_text};

use crate::kinds::{BareKind, BlockKind, PlaceKind};
use crate::parts::{Parts, parts_of};
use crate::put::{
    put, put_after, put_cause, put_children, put_number, put_place, put_resting, put_scope,
    put_source,
};
use life_rules::{Event, Place, Resting, ScopeWord, SourceAt};
use std::alloc::AllocError;

/// Adds the text of an event.
pub fn put_event(event: &Event, out: &mut Vec<u8>) -> Result<(), AllocError>
    ensures { OnOk result (Adds out.old.items out.new.items (event_text event.now)) }
{
    match parts_of(event) {
        Parts::Block(kind, block) => put_at_block(kind, block, out),
        Parts::Place(kind, place) => put_at_place(kind, place, out),
        Parts::Bare(kind) => put_bare(kind, out),
        Parts::Await(place, children) => put_await(place, children, out),
        Parts::Rest(place, to) => put_rest(place, to, out),
        Parts::Look(source, after) => put_look(source, after, out),
        Parts::Request(source, failure) => put_request(source, failure, out),
        Parts::Run(source, place) => put_run(source, place, out),
        Parts::SealScan(source) => put_seal_scan(source, out),
        Parts::Seal(expected) => put_seal(expected, out),
    }
}

// Adds a word, and the blank behind it.
fn put_word(word: &[u8], out: &mut Vec<u8>) -> Result<(), AllocError>
    ensures { OnOk result (Adds out.old.items out.new.items (apart word.now [])) }
{
    put(word, out)?;
    put(b" ", out)
}

fn put_at_block(kind: BlockKind, block: u32, out: &mut Vec<u8>) -> Result<(), AllocError>
    ensures { OnOk result (Adds out.old.items out.new.items (event_text (block_event kind block))) }
{
    put_word(kind.name(), out)?;
    put_number(block, out)?;
    Ok(())
}

fn put_at_place(kind: PlaceKind, place: Place, out: &mut Vec<u8>) -> Result<(), AllocError>
    ensures { OnOk result (Adds out.old.items out.new.items (event_text (place_event kind place))) }
{
    put_word(kind.name(), out)?;
    put_place(place, out)?;
    Ok(())
}

fn put_bare(kind: BareKind, out: &mut Vec<u8>) -> Result<(), AllocError>
    ensures { OnOk result (Adds out.old.items out.new.items (event_text (bare_event kind))) }
{
    put(kind.name(), out)?;
    Ok(())
}

fn put_await(place: Place, children: &[u32], out: &mut Vec<u8>) -> Result<(), AllocError>
    ensures { OnOk result
        (Adds out.old.items out.new.items (event_text (Await place children.now))) }
{
    put(b"await ", out)?;
    put_place(place, out)?;
    put(b" ", out)?;
    put_children(children, out)
}

fn put_rest(place: Place, to: Resting, out: &mut Vec<u8>) -> Result<(), AllocError>
    ensures { OnOk result (Adds out.old.items out.new.items (event_text (Rest place to))) }
{
    put(b"rest ", out)?;
    put_place(place, out)?;
    put(b" ", out)?;
    put_resting(to, out)
}

fn put_look(source: SourceAt, after: Option<Place>, out: &mut Vec<u8>) -> Result<(), AllocError>
    ensures { OnOk result (Adds out.old.items out.new.items (event_text (Look source after))) }
{
    put(b"look ", out)?;
    put_source(source, out)?;
    put_after(after, out)
}

fn put_request(source: SourceAt, failure: bool, out: &mut Vec<u8>) -> Result<(), AllocError>
    ensures { OnOk result (Adds out.old.items out.new.items (event_text (Request source failure))) }
{
    put(b"request ", out)?;
    put_source(source, out)?;
    put(b" ", out)?;
    put_cause(failure, out)
}

fn put_run(source: SourceAt, place: Place, out: &mut Vec<u8>) -> Result<(), AllocError>
    ensures { OnOk result (Adds out.old.items out.new.items (event_text (Run source place))) }
{
    put(b"run ", out)?;
    put_source(source, out)?;
    put(b" ", out)?;
    put_place(place, out)
}

fn put_seal_scan(source: SourceAt, out: &mut Vec<u8>) -> Result<(), AllocError>
    ensures { OnOk result (Adds out.old.items out.new.items (event_text (SealScan source))) }
{
    put(b"seal_scan ", out)?;
    put_source(source, out)
}

fn put_seal(expected: ScopeWord, out: &mut Vec<u8>) -> Result<(), AllocError>
    ensures { OnOk result (Adds out.old.items out.new.items (event_text (Seal expected))) }
{
    put(b"seal ", out)?;
    put_scope(expected, out)
}
