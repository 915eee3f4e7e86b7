//! Bars: the lives of blocks, and the runs of callbacks.
ghost use Rattle.std.specs.Prelude.{◌≡◌, ◌<◌, ◌≤◌, ◌+◌, length, position, IfSome, OnOk};
ghost use Rattle.pictures.specs.Adding.{Adds};
ghost use Rattle.pictures.specs.Traces.Bars.{bar_at, bar_text, begun, class_of_bar, ends, rows_of_bar, run_begun, shown_bar, title_of, x_of};
ghost use Rattle.trace_text.specs.declared.limits.TheConstants.{ENTRIES};

use crate::text::put_all;
use crate::traces::armed::{is_still_armed, same_place};
use crate::traces::frame::{Frame, row_top};
use crate::traces::layout::{ROW, column_x, lane_x};
use itoa::Buffer;
use life_rules::{Event, Place};
use std::alloc::AllocError;
use trace_text::Entry;

/// What a bar shows.
#[derive(Clone, Copy)]
pub(crate) enum Bar {
    /// The life of a block, from its claim to its release.
    Life(u32),
    /// The run of a callback by a hand.
    Run { place: Place, hand: u32 },
}

/// The bar of a callback that a hand runs, behind these earlier entries: where it is armed.
fn run_begun(place: Place, hand: u32, earlier: &[Entry]) -> Option<Bar>
    ensures { result ≡ run_begun place hand earlier.now }
{
    if is_still_armed(place, earlier) {
        return Some(Bar::Run { place, hand });
    }
    None
}

/// The bar that begins with an entry, behind these earlier ones.
fn begun(entry: &Entry, earlier: &[Entry]) -> Option<Bar>
    ensures { result ≡ begun entry.now earlier.now }
{
    match &entry.event {
        Event::Claim { block } => Some(Bar::Life(*block)),
        Event::Run { place, .. } => run_begun(*place, entry.hand, earlier),
        _ => None,
    }
}

/// Whether a bar ends with an entry.
fn ends(bar: Bar, entry: &Entry) -> bool
    ensures { result ≡ ends bar entry.now }
{
    match (bar, &entry.event) {
        (Bar::Life(block), Event::Release { block: given }) => *given == block,
        (Bar::Run { place, .. }, Event::EndRun { place: given }) => same_place(*given, place),
        _ => false,
    }
}

/// The place of the first of these entries with which a bar ends.
fn end_in(bar: Bar, later: &[Entry]) -> Option<usize>
    ensures place { result ≡ position (ends bar) later.now }
    ensures within { IfSome result (λ place. place < length later.now) }
{
    later.iter().position(|entry| ends(bar, entry))
}

/// How many rows a bar has, with these entries behind its first.
fn rows_of_bar(bar: Bar, later: &[Entry]) -> u64
    requires { length later.now ≤ ENTRIES }
    ensures rows { result ≡ rows_of_bar bar later.now }
    ensures few { result ≤ ENTRIES + 1 }
{
    match end_in(bar, later) {
        Some(before) => before as u64 + 2,
        None => later.len() as u64 + 1,
    }
}

/// Where a bar stands: in the column of its block, or at the edge of the lane of its hand.
fn x_of(frame: Frame, bar: Bar) -> u64
    ensures { result ≡ x_of frame bar }
{
    match bar {
        Bar::Life(block) => column_x(block),
        Bar::Run { hand, .. } => 3 + lane_x(frame.blocks, hand),
    }
}

/// Adds a bar that has its top and its bottom in these rows.
fn put_bar(
    frame: Frame,
    bar: Bar,
    top: u64,
    bottom: u64,
    text: &mut Vec<u8>,
) -> Result<(), AllocError>
    requires down { top ≤ bottom }
    requires few { bottom ≤ ENTRIES }
    ensures { OnOk result (Adds text.old.items text.new.items (bar_text frame bar top bottom)) }
{
    let mut first = Buffer::new();
    let mut second = Buffer::new();
    let mut third = Buffer::new();
    put_all(
        &[
            "<rect class=\"",
            class_of_bar(bar),
            "\" x=\"",
            first.format(x_of(frame, bar)),
            "\" y=\"",
            second.format(row_top(frame, top)),
            "\" width=\"12\" height=\"",
            third.format(ROW * (bottom - top)),
            "\">",
        ],
        text,
    )?;
    put_title(bar, text)?;
    put_all(&["</rect>\n"], text)
}

/// The class of a bar, which gives its colour.
fn class_of_bar(bar: Bar) -> &'static str
    ensures { result.now ≡ class_of_bar bar }
{
    match bar {
        Bar::Life(_) => "block",
        Bar::Run { .. } => "run",
    }
}

/// Adds what a viewer says of a bar.
#[tactic(auto, unfolding(crate::specs::Traces::Bars::title_of))]
fn put_title(bar: Bar, text: &mut Vec<u8>) -> Result<(), AllocError>
    ensures { OnOk result (Adds text.old.items text.new.items (title_of bar)) }
{
    let mut first = Buffer::new();
    let mut second = Buffer::new();
    match bar {
        Bar::Life(block) => put_all(&["<title>block ", first.format(block), "</title>"], text),
        Bar::Run { place, .. } => put_all(
            &[
                "<title>callback of ",
                first.format(place.block),
                ".",
                second.format(place.node),
                "</title>",
            ],
            text,
        ),
    }
}

/// Adds what is shown of a bar that begins in row `number` and has `rows`.
#[tactic(auto, unfolding(crate::specs::Traces::Bars::shown_bar))]
fn put_shown_bar(
    frame: Frame,
    bar: Bar,
    number: u64,
    rows: u64,
    text: &mut Vec<u8>,
) -> Result<(), AllocError>
    requires begins { number ≤ ENTRIES }
    requires long { rows ≤ ENTRIES + 1 }
    requires few { frame.to ≤ ENTRIES }
    ensures { OnOk result (Adds text.old.items text.new.items (shown_bar frame bar number rows)) }
{
    let top = number.max(frame.from);
    let bottom = (number + rows).min(frame.to);
    if top < bottom {
        return put_bar(frame, bar, top, bottom, text);
    }
    put_all(&[], text)
}

/// Adds what is shown of the bar that begins at an entry, where one does.
pub(crate) fn put_bar_at(
    frame: Frame,
    entries: &[Entry],
    number: usize,
    text: &mut Vec<u8>,
) -> Result<(), AllocError>
    requires few { length entries.now ≤ ENTRIES }
    requires within { number < length entries.now }
    requires shown { frame.to ≤ ENTRIES }
    ensures { OnOk result (Adds text.old.items text.new.items (bar_at frame entries.now number)) }
{
    match begun(&entries[number], &entries[..number]) {
        Some(bar) => {
            let rows = rows_of_bar(bar, &entries[number + 1..]);
            put_shown_bar(frame, bar, number as u64, rows, text)
        }
        None => put_all(&[], text),
    }
}
