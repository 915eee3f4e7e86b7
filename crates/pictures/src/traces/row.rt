//! The rows of entries.
ghost use Rattle.std.specs.Prelude.{◌≡◌, ◌<◌, ◌≤◌, OnOk, IfOk, length};
ghost use Rattle.pictures.specs.Adding.{Adds};
ghost use Rattle.pictures.specs.Traces.Rows.{class_of, is_marked, length_at, mark_text, mark_where, refused_word, row_start, entry_row_text, shown_row};
ghost use Rattle.trace_text.specs.Texts.{event_text};
ghost use Rattle.trace_text.specs.declared.limits.TheConstants.{ENTRIES};

use crate::text::put_all;
use crate::traces::frame::{Frame, is_shown, row_top};
use crate::traces::layout::lane_x;
use itoa::Buffer;
use life_rules::Event;
use std::alloc::{AllocError, Global};
use trace_text::{Entry, put_event};

/// The class of an event, which gives its colour.
fn class_of(event: &Event) -> &'static str
    ensures { result.now ≡ class_of event.now }
{
    match event {
        Event::Arm { .. } | Event::EndRun { .. } | Event::Withdraw { .. } => "callback",
        Event::WithdrawOwn { .. } | Event::Rouse { .. } => "callback",
        Event::Look { .. } | Event::Request { .. } | Event::Run { .. } => "scan",
        Event::SealScan { .. } | Event::Skip { .. } => "scan",
        Event::Enter | Event::MarkUsed | Event::Leave => "scope",
        Event::Close | Event::Join | Event::Seal { .. } => "scope",
        _ => "life",
    }
}

/// Whether the entry of this number, from 0, is the one that is refused, which is counted from 1.
fn is_marked(refused: Option<u32>, number: u64) -> bool
    requires { number < ENTRIES }
    ensures { result ≡ is_marked refused number }
{
    match refused {
        Some(entry) => u64::from(entry) == number + 1,
        None => false,
    }
}

/// Adds the mark of the entry that is refused, behind its row.
#[tactic(auto, unfolding(crate::specs::Traces::Rows::mark_text))]
fn put_mark(frame: Frame, number: u64, text: &mut Vec<u8>) -> Result<(), AllocError>
    requires { number < ENTRIES }
    ensures { OnOk result (Adds text.old.items text.new.items (mark_text frame number)) }
{
    let mut buffer = Buffer::new();
    put_all(
        &[
            "<rect class=\"refused\" x=\"0\" y=\"",
            buffer.format(row_top(frame, number)),
            "\" width=\"100%\" height=\"20\"/>\n",
        ],
        text,
    )
}

/// Adds the mark where the entry is the one that is refused.
fn put_mark_where(
    frame: Frame,
    number: u64,
    marked: bool,
    text: &mut Vec<u8>,
) -> Result<(), AllocError>
    requires { number < ENTRIES }
    ensures { OnOk result (Adds text.old.items text.new.items (mark_where frame number marked)) }
{
    if marked {
        return put_mark(frame, number, text);
    }
    put_all(&[], text)
}

/// The word behind the text of the entry that is refused.
fn refused_word(marked: bool) -> &'static str
    ensures { result.now ≡ refused_word marked }
{
    if marked { " refused" } else { "" }
}

/// Adds the start of the row of an entry, as far as its number, from 1.
fn put_row_start(
    frame: Frame,
    number: u64,
    entry: &Entry,
    text: &mut Vec<u8>,
) -> Result<(), AllocError>
    requires { number < ENTRIES }
    ensures { OnOk result (Adds text.old.items text.new.items
        (row_start frame number entry.now)) }
{
    let mut first = Buffer::new();
    let mut second = Buffer::new();
    let mut third = Buffer::new();
    put_all(
        &[
            "<text class=\"",
            class_of(&entry.event),
            "\" x=\"",
            first.format(18 + lane_x(frame.blocks, entry.hand)),
            "\" y=\"",
            second.format(14 + row_top(frame, number)),
            "\">",
            third.format(number + 1),
            " ",
        ],
        text,
    )
}

/// Adds the row of an entry.
#[tactic(auto, unfolding(crate::specs::Traces::Rows::entry_row_text))]
fn put_row(
    frame: Frame,
    number: u64,
    entry: &Entry,
    marked: bool,
    text: &mut Vec<u8>,
) -> Result<(), AllocError>
    requires { number < ENTRIES }
    ensures { OnOk result (Adds text.old.items text.new.items
        (entry_row_text frame number marked entry.now)) }
{
    put_mark_where(frame, number, marked, text)?;
    put_row_start(frame, number, entry, text)?;
    put_event(&entry.event, text)?;
    put_all(&[refused_word(marked), "</text>\n"], text)
}

/// Adds the row of an entry, where it is shown.
pub(crate) fn put_shown_row(
    frame: Frame,
    number: u64,
    entry: &Entry,
    refused: Option<u32>,
    text: &mut Vec<u8>,
) -> Result<(), AllocError>
    requires { number < ENTRIES }
    ensures { OnOk result (Adds text.old.items text.new.items
        (shown_row frame refused number entry.now)) }
{
    if is_shown(frame, number) {
        return put_row(frame, number, entry, is_marked(refused, number), text);
    }
    put_all(&[], text)
}

/// How many bytes the text of an entry has.
fn length_of_text(alloc: Global, entry: &Entry) -> Result<u64, AllocError>
    ensures { IfOk result (λ long. long ≡ length (event_text entry.now.event)) }
{
    let mut text = Vec::new(alloc);
    put_event(&entry.event, &mut text)?;
    Ok(text.len() as u64)
}

/// How many bytes the text of an entry has, where it is shown.
pub(crate) fn length_at(
    alloc: Global,
    frame: Frame,
    number: u64,
    entry: &Entry,
) -> Result<u64, AllocError>
    ensures { IfOk result (λ long. long ≡ length_at frame number entry.now) }
{
    if is_shown(frame, number) {
        return length_of_text(alloc, entry);
    }
    Ok(0)
}
