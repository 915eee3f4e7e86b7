//! What is told of a fact, as a sentence. Each call adds to the end of `out`.
ghost use Rattle.std.specs.Prelude.{◌≡◌, ◌++◌, OnOk, codes};
ghost use Rattle.pictures.specs.Adding.{Adds};
ghost use Rattle.trace_reasons.specs.Sentences.{between, source_name, subject_text, children_word, standing_text, callback_text, block_text, nearest_text, next_text, request_text, scope_reading, source_subject, fact_text};
ghost use Rattle.trace_text.specs.Texts.{place_text, scope_text};

use crate::put::{put, put_between, put_source_name};
use life_rules::{BlockState, Place, ScopeWord, SourceAt};
use std::alloc::AllocError;
use step_reasons::{Callback, Fact, Standing};
use trace_text::{put_place, put_scope};

// Adds the place as a sentence names it.
fn put_subject(own: Option<Place>, place: Place, out: &mut Vec<u8>) -> Result<(), AllocError>
    ensures { OnOk result (Adds out.old.items out.new.items (subject_text own place)) }
{
    if let Some(it) = own
        && it.block == place.block
        && it.node == place.node
    {
        return put(b"it", out);
    }
    put_place(place, out)
}

fn children_word(count: u32) -> &'static [u8]
    ensures { result.now ≡ children_word count }
{
    if count == 1 { b" child" } else { b" children" }
}

fn put_standing(standing: Standing, out: &mut Vec<u8>) -> Result<(), AllocError>
    ensures { OnOk result (Adds out.old.items out.new.items (standing_text standing)) }
{
    match standing {
        Standing::InFreeBlock => put(b" lies in a free block", out),
        Standing::InRetiredBlock => put(b" lies in a retired block", out),
        Standing::NotAwaited => put(b" hasn't begun, and isn't awaited", out),
        Standing::StartOwed { hand } => {
            put_between(b" hasn't begun, and hand ", hand, b" owes its start", out)
        }
        Standing::Held { hand } => put_between(b" is held by hand ", hand, b"", out),
        Standing::Waits { children } => {
            put_between(b" waits for ", children, children_word(children), out)
        }
        Standing::InLoop => put(b" rests in the loop, for hand 0 to take", out),
        Standing::InPool => put(b" rests in the pool", out),
        Standing::Parked => put(b" is parked, for hand 0 to take", out),
        Standing::ReportOwed { hand } => {
            put_between(b" is done, and hand ", hand, b" owes its report", out)
        }
        Standing::Reported => put(b" is done, and its report was made", out),
        Standing::HeldFinished { hand } => {
            let after = b" holds it as the finished root";
            put_between(b" is done, and hand ", hand, after, out)
        }
    }
}

fn put_callback(callback: Callback, out: &mut Vec<u8>) -> Result<(), AllocError>
    ensures { OnOk result (Adds out.old.items out.new.items (callback_text callback)) }
{
    match callback {
        Callback::Never => put(b"no callback of it is registered", out),
        Callback::Armed => put(b"its callback is armed", out),
        Callback::Runs { hand } => put_between(b"its callback runs on hand ", hand, b"", out),
        Callback::Ran => put(b"its callback has run", out),
        Callback::Removed => put(b"its callback is removed", out),
    }
}

fn put_block(state: BlockState, out: &mut Vec<u8>) -> Result<(), AllocError>
    ensures { OnOk result (Adds out.old.items out.new.items (block_text state)) }
{
    match state {
        BlockState::Free => put(b"the block is free", out),
        BlockState::Open => put(b"the block is open", out),
        BlockState::Retired => put(b"the block is retired", out),
    }
}

fn put_nearest(nearest: Option<SourceAt>, out: &mut Vec<u8>) -> Result<(), AllocError>
    ensures { OnOk result (Adds out.old.items out.new.items (nearest_text nearest)) }
{
    match nearest {
        None => put(b" hears no stop source", out),
        Some(source) => {
            put(b" hears ", out)?;
            put_source_name(source, out)?;
            Ok(())
        }
    }
}

fn put_next(hand: u32, next: Option<Place>, out: &mut Vec<u8>) -> Result<(), AllocError>
    ensures { OnOk result (Adds out.old.items out.new.items (next_text hand next)) }
{
    match next {
        None => put_between(b"the scan of hand ", hand, b" has passed all places", out),
        Some(place) => {
            put_between(b"the scan of hand ", hand, b" goes on with ", out)?;
            put_place(place, out)?;
            Ok(())
        }
    }
}

// Adds why a hand may not request a stop.
fn put_request(
    hand: u32,
    source: SourceAt,
    failure: bool,
    out: &mut Vec<u8>,
) -> Result<(), AllocError>
    ensures { OnOk result (Adds out.old.items out.new.items (request_text hand source failure)) }
{
    match source {
        SourceAt::Scope => {
            if failure {
                put(b"no failure requests a stop of the scope", out)
            } else if hand == 0 {
                put(b"a simple scope has no stop source", out)
            } else {
                let after = b" has seen no request there, and hand 0 makes the first";
                put_between(b"hand ", hand, after, out)
            }
        }
        SourceAt::At(_) => {
            if failure {
                put_between(b"hand ", hand, b" owes no report of a child of it", out)
            } else {
                put_between(b"hand ", hand, b" has no request to pass on to it", out)
            }
        }
    }
}

fn scope_reading(word: ScopeWord) -> &'static [u8]
    ensures { result.now ≡ scope_reading word }
{
    if !word.joining {
        b", not joining"
    } else if word.joined {
        b", joined"
    } else if word.count == 0 {
        b""
    } else {
        b", with associations"
    }
}

fn put_source_subject(
    own: Option<Place>,
    source: SourceAt,
    out: &mut Vec<u8>,
) -> Result<(), AllocError>
    ensures { OnOk result (Adds out.old.items out.new.items (source_subject own source)) }
{
    match source {
        SourceAt::Scope => put(b"the scope", out),
        SourceAt::At(place) => put_subject(own, place, out),
    }
}

// Adds that the hand scans the source, or doesn't.
fn put_scan(hand: u32, word: &[u8], source: SourceAt, out: &mut Vec<u8>) -> Result<(), AllocError>
    ensures { OnOk result (Adds out.old.items out.new.items
        (between (codes "hand ") hand word.now ++ source_name source)) }
{
    put_between(b"hand ", hand, word, out)?;
    put_source_name(source, out)?;
    Ok(())
}

// Adds a fact about one hand.
fn put_hand(hand: u32, after: &[u8], out: &mut Vec<u8>) -> Result<(), AllocError>
    ensures { OnOk result
        (Adds out.old.items out.new.items (between (codes "hand ") hand after.now)) }
{
    put_between(b"hand ", hand, after, out)
}

fn put_stands(
    own: Option<Place>,
    place: Place,
    standing: Standing,
    out: &mut Vec<u8>,
) -> Result<(), AllocError>
    ensures { OnOk result (Adds out.old.items out.new.items
        (subject_text own place ++ standing_text standing)) }
{
    put_subject(own, place, out)?;
    put_standing(standing, out)?;
    Ok(())
}

fn put_hears(
    own: Option<Place>,
    place: Place,
    nearest: Option<SourceAt>,
    out: &mut Vec<u8>,
) -> Result<(), AllocError>
    ensures { OnOk result (Adds out.old.items out.new.items
        (subject_text own place ++ nearest_text nearest)) }
{
    put_subject(own, place, out)?;
    put_nearest(nearest, out)?;
    Ok(())
}

fn put_no_place(place: Place, out: &mut Vec<u8>) -> Result<(), AllocError>
    ensures { OnOk result (Adds out.old.items out.new.items
        (codes "there is no " ++ place_text place)) }
{
    put(b"there is no ", out)?;
    put_place(place, out)?;
    Ok(())
}

fn put_no_source(own: Option<Place>, source: SourceAt, out: &mut Vec<u8>) -> Result<(), AllocError>
    ensures { OnOk result (Adds out.old.items out.new.items
        (source_subject own source ++ codes " has no stop source")) }
{
    put_source_subject(own, source, out)?;
    put(b" has no stop source", out)?;
    Ok(())
}

fn put_scope_word(word: ScopeWord, out: &mut Vec<u8>) -> Result<(), AllocError>
    ensures { OnOk result (Adds out.old.items out.new.items
        (codes "the scope's word is " ++ (scope_text word ++ scope_reading word))) }
{
    put(b"the scope's word is ", out)?;
    put_scope(word, out)?;
    put(scope_reading(word), out)?;
    Ok(())
}

/// Adds what is told of a fact, where `it` means this place.
pub fn put_fact(own: Option<Place>, fact: &Fact, out: &mut Vec<u8>) -> Result<(), AllocError>
    ensures { OnOk result (Adds out.old.items out.new.items (fact_text own fact.now)) }
{
    match *fact {
        Fact::NoHand { hand } => put_between(b"there is no hand ", hand, b"", out),
        Fact::NoBlock { block } => put_between(b"there is no block ", block, b"", out),
        Fact::NoPlace { place } => put_no_place(place, out),
        Fact::NoSource { source } => put_no_source(own, source, out),
        Fact::BlockIs { block: _, state } => put_block(state, out),
        Fact::Stands { place, standing } => put_stands(own, place, standing, out),
        Fact::CallbackIs { place: _, callback } => put_callback(callback, out),
        Fact::HearsFrom { place, nearest } => put_hears(own, place, nearest, out),
        Fact::Scans { hand, source } => put_scan(hand, b" scans ", source, out),
        Fact::ScansNot { hand, source } => put_scan(hand, b" doesn't scan ", source, out),
        Fact::GoesOnWith {
            hand,
            source: _,
            next,
        } => put_next(hand, next, out),
        Fact::NamesNone => put(b"no child is named", out),
        Fact::NamesTwice => put(b"a child is named twice", out),
        Fact::NotChild { place: _, child } => {
            put_between(b"node ", child, b" isn't a child of it", out)
        }
        Fact::NothingToLookAfter {
            hand,
            source: _,
            place: _,
        } => put_hand(hand, b" has no arming of it to look after", out),
        Fact::NothingToRequest {
            hand,
            source,
            failure,
        } => put_request(hand, source, failure, out),
        Fact::RunsNot { hand, place: _ } => put_hand(hand, b" doesn't run its callback", out),
        Fact::InTheMaking { hand } => { put_hand(hand, b" has an association in the making", out) }
        Fact::BeingRefused { hand } => {
            put_hand(hand, b" has an association that is being refused", out)
        }
        Fact::NoneInTheMaking { hand } => {
            put_hand(hand, b" has no association in the making", out)
        }
        Fact::NoneToLeave { hand } => put_hand(hand, b" has no association to leave", out),
        Fact::ScopeIs { word } => put_scope_word(word, out),
    }
}
