//! How an event is read.
ghost use Rattle.std.specs.Prelude.{◌≡◌, IfOk};
ghost use Rattle.std.specs.Option.{option_map};
ghost use Rattle.life_rules.specs.declared.event.Event.TheVariants.{Await, Rest, Request, Run};
ghost use Rattle.trace_text.specs.Kinds.{block_event, place_event, bare_event};
ghost use Rattle.trace_text.specs.Texts.{blank};
ghost use Rattle.trace_text.specs.Words.{in_halves, number_in, place_in, children_in, resting_in, source_in, cause_in, block_kind_in, place_kind_in, bare_kind_in, look_in, plain_in, other_in, kind_event_in, event_in};

use crate::cut::cut_at;
use crate::kinds::{BareKind, BlockKind, PlaceKind};
use crate::word_table::{find_word, is_text};
use crate::words::{
    read_cause, read_children, read_number, read_place, read_resting, read_scope, read_source,
};
use life_rules::Event;
use std::alloc::{AllocError, Global};

/// An event: its kind, and what stands beside it.
#[tactic(auto, unfolding(crate::specs::Words::event_in))]
pub fn read_event(alloc: Global, bytes: &[u8]) -> Result<Option<Event>, AllocError>
    ensures { IfOk result (λ event. event ≡ event_in bytes.now) }
{
    match cut_at(bytes, b' ') {
        None => Ok(read_bare(bytes)),
        Some(cut) => read_kind_event(alloc, cut.front, cut.rest),
    }
}

// An event of a kind that has nothing beside it.
fn read_bare(word: &[u8]) -> Option<Event>
    ensures { result ≡ option_map bare_event (bare_kind_in word.now) }
{
    let kind = read_bare_kind(word)?;
    Some(kind.event())
}

// An event of this kind.
#[tactic(auto, unfolding(crate::specs::Words::kind_event_in))]
fn read_kind_event(alloc: Global, word: &[u8], rest: &[u8]) -> Result<Option<Event>, AllocError>
    ensures { IfOk result (λ event. event ≡ kind_event_in word.now rest.now) }
{
    if let Some(kind) = read_block_kind(word) {
        return Ok(read_at_block(kind, rest));
    }
    if let Some(kind) = read_place_kind(word) {
        return Ok(read_at_place(kind, rest));
    }
    read_other(alloc, word, rest)
}

fn read_at_block(kind: BlockKind, rest: &[u8]) -> Option<Event>
    ensures { result ≡ option_map (block_event kind) (number_in rest.now) }
{
    let block = read_number(rest)?;
    Some(kind.event(block))
}

fn read_at_place(kind: PlaceKind, rest: &[u8]) -> Option<Event>
    ensures { result ≡ option_map (place_event kind) (place_in rest.now) }
{
    let place = read_place(rest)?;
    Some(kind.event(place))
}

// An event of a kind that has more than a block or a place.
#[tactic(auto, unfolding(crate::specs::Words::other_in))]
fn read_other(alloc: Global, word: &[u8], rest: &[u8]) -> Result<Option<Event>, AllocError>
    ensures { IfOk result (λ event. event ≡ other_in word.now rest.now) }
{
    if is_text(word, b"await") {
        return read_await(alloc, rest);
    }
    Ok(read_plain(word, rest))
}

// The same of a kind whose event takes no memory.
#[tactic(auto, unfolding(crate::specs::Words::plain_in))]
fn read_plain(word: &[u8], rest: &[u8]) -> Option<Event>
    ensures { result ≡ plain_in word.now rest.now }
{
    if is_text(word, b"rest") {
        return read_rest(rest);
    }
    if is_text(word, b"look") {
        return read_look(rest);
    }
    if is_text(word, b"request") {
        return read_request(rest);
    }
    if is_text(word, b"run") {
        return read_run(rest);
    }
    if is_text(word, b"seal_scan") {
        let source = read_source(rest)?;
        return Some(Event::SealScan { source });
    }
    if is_text(word, b"seal") {
        let expected = read_scope(rest)?;
        return Some(Event::Seal { expected });
    }
    None
}

fn read_await(alloc: Global, rest: &[u8]) -> Result<Option<Event>, AllocError>
    ensures { IfOk result
        (λ event. event ≡ in_halves Await place_in children_in blank rest.now) }
{
    let Some(cut) = cut_at(rest, b' ') else {
        return Ok(None);
    };
    let Some(place) = read_place(cut.front) else {
        return Ok(None);
    };
    let Some(children) = read_children(alloc, cut.rest)? else {
        return Ok(None);
    };
    Ok(Some(Event::Await { place, children }))
}

fn read_rest(rest: &[u8]) -> Option<Event>
    ensures { result ≡ in_halves Rest place_in resting_in blank rest.now }
{
    let cut = cut_at(rest, b' ')?;
    let place = read_place(cut.front)?;
    let to = read_resting(cut.rest)?;
    Some(Event::Rest { place, to })
}

#[tactic(auto, unfolding(crate::specs::Words::look_in))]
fn read_look(rest: &[u8]) -> Option<Event>
    ensures { result ≡ look_in rest.now }
{
    match cut_at(rest, b' ') {
        None => {
            let source = read_source(rest)?;
            Some(Event::Look {
                source,
                after: None,
            })
        }
        Some(cut) => {
            let source = read_source(cut.front)?;
            let place = read_place(cut.rest)?;
            Some(Event::Look {
                source,
                after: Some(place),
            })
        }
    }
}

fn read_request(rest: &[u8]) -> Option<Event>
    ensures { result ≡ in_halves Request source_in cause_in blank rest.now }
{
    let cut = cut_at(rest, b' ')?;
    let source = read_source(cut.front)?;
    let failure = read_cause(cut.rest)?;
    Some(Event::Request { source, failure })
}

fn read_run(rest: &[u8]) -> Option<Event>
    ensures { result ≡ in_halves Run source_in place_in blank rest.now }
{
    let cut = cut_at(rest, b' ')?;
    let source = read_source(cut.front)?;
    let place = read_place(cut.rest)?;
    Some(Event::Run { source, place })
}

#[tactic(auto, unfolding(crate::specs::Words::block_kind_in))]
fn read_block_kind(word: &[u8]) -> Option<BlockKind>
    ensures { result ≡ block_kind_in word.now }
{
    find_word(
        &[
            (b"claim".as_slice(), BlockKind::Claim),
            (b"release".as_slice(), BlockKind::Release),
            (b"skip".as_slice(), BlockKind::Skip),
        ],
        word,
    )
}

#[tactic(auto, unfolding(crate::specs::Words::place_kind_in))]
fn read_place_kind(word: &[u8]) -> Option<PlaceKind>
    ensures { result ≡ place_kind_in word.now }
{
    find_word(
        &[
            (b"begin".as_slice(), PlaceKind::Begin),
            (b"take".as_slice(), PlaceKind::Take),
            (b"finish".as_slice(), PlaceKind::Finish),
            (b"report".as_slice(), PlaceKind::Report),
            (b"arm".as_slice(), PlaceKind::Arm),
            (b"end_run".as_slice(), PlaceKind::EndRun),
            (b"withdraw".as_slice(), PlaceKind::Withdraw),
            (b"withdraw_own".as_slice(), PlaceKind::WithdrawOwn),
            (b"rouse".as_slice(), PlaceKind::Rouse),
        ],
        word,
    )
}

#[tactic(auto, unfolding(crate::specs::Words::bare_kind_in))]
fn read_bare_kind(word: &[u8]) -> Option<BareKind>
    ensures { result ≡ bare_kind_in word.now }
{
    find_word(
        &[
            (b"enter".as_slice(), BareKind::Enter),
            (b"mark_used".as_slice(), BareKind::MarkUsed),
            (b"leave".as_slice(), BareKind::Leave),
            (b"close".as_slice(), BareKind::Close),
            (b"join".as_slice(), BareKind::Join),
        ],
        word,
    )
}
