//! The picture of a trace.
ghost use Rattle.std.specs.Prelude.{◌≡◌, ◌≤◌, length, IfOk, OnOk};
ghost use Rattle.pictures.specs.Adding.{Adds};
ghost use Rattle.pictures.specs.Traces.Picture.{bars_text, columns_text, image_text, lanes_text, longest, picture_of, rows_text};
ghost use Rattle.trace_text.specs.declared.limits.TheConstants.{ENTRIES};

use crate::text::put_all;
use crate::traces::bar::put_bar_at;
use crate::traces::frame::{Frame, rows_shown, shown_frame};
use crate::traces::heading::{put_column, put_head, put_lane, put_legend};
use crate::traces::layout::{height_of, width_of};
use crate::traces::row::{length_at, put_shown_row};
use crate::traces::shown::Shown;
use std::alloc::{AllocError, Global};
use trace_text::{Entry, Trace};

/// The length of the longest text of an entry that is shown.
fn longest(alloc: Global, frame: Frame, entries: &[Entry]) -> Result<u64, AllocError>
    ensures { IfOk result (λ most. most ≡ longest frame entries.now) }
{
    let mut most = 0;
    for number in 0..entries.len() {
        most = length_at(alloc, frame, number as u64, &entries[number])?.max(most);
    }
    Ok(most)
}

/// Adds the headings of the columns of blocks.
fn put_columns(blocks: u32, text: &mut Vec<u8>) -> Result<(), AllocError>
    ensures { OnOk result (Adds text.old.items text.new.items (columns_text blocks)) }
{
    for block in 0..blocks {
        put_column(block, text)?;
    }
    Ok(())
}

/// Adds the lanes of hands, and their headings.
fn put_lanes(frame: Frame, hands: u32, text: &mut Vec<u8>) -> Result<(), AllocError>
    requires { frame.to ≤ ENTRIES }
    ensures { OnOk result (Adds text.old.items text.new.items (lanes_text frame hands)) }
{
    for hand in 0..hands {
        put_lane(frame, hand, text)?;
    }
    Ok(())
}

/// Adds what is shown of the bars.
fn put_bars(frame: Frame, entries: &[Entry], text: &mut Vec<u8>) -> Result<(), AllocError>
    requires few { length entries.now ≤ ENTRIES }
    requires shown { frame.to ≤ ENTRIES }
    ensures { OnOk result (Adds text.old.items text.new.items (bars_text frame entries.now)) }
{
    for number in 0..entries.len() {
        put_bar_at(frame, entries, number, text)?;
    }
    Ok(())
}

/// Adds the rows of the entries that are shown.
fn put_rows(
    frame: Frame,
    entries: &[Entry],
    refused: Option<u32>,
    text: &mut Vec<u8>,
) -> Result<(), AllocError>
    requires { length entries.now ≤ ENTRIES }
    ensures { OnOk result (Adds text.old.items text.new.items
        (rows_text frame refused entries.now)) }
{
    for number in 0..entries.len() {
        put_shown_row(frame, number as u64, &entries[number], refused, text)?;
    }
    Ok(())
}

/// Adds the image of what is shown.
fn put_image(
    alloc: Global,
    frame: Frame,
    hands: u32,
    entries: &[Entry],
    refused: Option<u32>,
    text: &mut Vec<u8>,
) -> Result<(), AllocError>
    requires few { length entries.now ≤ ENTRIES }
    requires shown { frame.to ≤ ENTRIES }
    ensures { OnOk result (Adds text.old.items text.new.items
        (image_text frame hands refused entries.now)) }
{
    let width = width_of(frame.blocks, hands, longest(alloc, frame, entries)?);
    put_head(width, height_of(rows_shown(frame)), text)?;
    put_legend(text)?;
    put_columns(frame.blocks, text)?;
    put_lanes(frame, hands, text)?;
    put_bars(frame, entries, text)?;
    put_rows(frame, entries, refused, text)?;
    put_all(&["</svg>\n"], text)
}

/// The text of a trace's picture, of which this is shown.
pub fn picture_of(alloc: Global, trace: &Trace, shown: Shown) -> Result<Vec<u8>, AllocError>
    ensures { IfOk result (λ text. text.items ≡ picture_of trace.now shown) }
{
    let frame = shown_frame(trace, shown);
    let hands = trace.opening().hands();
    let mut text = Vec::new(alloc);
    put_image(
        alloc,
        frame,
        hands,
        trace.entries(),
        shown.refused,
        &mut text,
    )?;
    Ok(text)
}
