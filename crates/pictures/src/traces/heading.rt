//! The head of an image, its legend, and the headings of columns and lanes.
ghost use Rattle.std.specs.Prelude.{◌≤◌, OnOk};
ghost use Rattle.pictures.specs.Adding.{Adds};
ghost use Rattle.pictures.specs.Traces.Headings.{column_text, head_text, lane_text, legend_text};
ghost use Rattle.trace_text.specs.declared.limits.TheConstants.{ENTRIES};

use crate::text::put_all;
use crate::traces::frame::{Frame, rows_shown};
use crate::traces::layout::{ROW, column_x, lane_x};
use itoa::Buffer;
use std::alloc::AllocError;

/// Adds the head of an image: its size, and the colours of its classes.
pub(crate) fn put_head(width: u64, height: u64, text: &mut Vec<u8>) -> Result<(), AllocError>
    ensures { OnOk result (Adds text.old.items text.new.items (head_text width height)) }
{
    let mut first = Buffer::new();
    let mut second = Buffer::new();
    put_all(
        &[
            "<svg xmlns=\"http://www.w3.org/2000/svg\" font-family=\"monospace\" font-size=\"12\" width=\"",
            first.format(width),
            "\" height=\"",
            second.format(height),
            "\">\n<style>.life { fill: black } .callback { fill: green } .scan { fill: firebrick } \
.scope { fill: blue } .lane { fill: silver } .block { fill: orange } \
.run { fill: green; fill-opacity: 0.4 } .refused { fill: red; fill-opacity: 0.25 }</style>\n\
<rect width=\"100%\" height=\"100%\" fill=\"white\"/>\n",
        ],
        text,
    )
}

/// Adds the legend, and the heading of the columns.
#[tactic(auto, unfolding(crate::specs::Traces::Headings::legend_text))]
pub(crate) fn put_legend(text: &mut Vec<u8>) -> Result<(), AllocError>
    ensures { OnOk result (Adds text.old.items text.new.items legend_text) }
{
    put_all(
        &[
            "<text class=\"life\" x=\"8\" y=\"16\">life of operations</text>\n",
            "<text class=\"callback\" x=\"8\" y=\"34\">stop callbacks</text>\n",
            "<text class=\"scan\" x=\"8\" y=\"52\">stop sources: requests, looks, scans</text>\n",
            "<text class=\"scope\" x=\"8\" y=\"70\">scope</text>\n",
            "<rect class=\"block\" x=\"300\" y=\"6\" width=\"12\" height=\"12\"/>\n",
            "<text x=\"320\" y=\"16\">block, from claim to release</text>\n",
            "<rect class=\"run\" x=\"300\" y=\"24\" width=\"12\" height=\"12\"/>\n",
            "<text x=\"320\" y=\"34\">run of a callback</text>\n",
            "<rect class=\"refused\" x=\"300\" y=\"42\" width=\"12\" height=\"12\"/>\n",
            "<text x=\"320\" y=\"52\">refused by the machine</text>\n",
            "<text x=\"8\" y=\"98\">blocks</text>\n",
        ],
        text,
    )
}

/// Adds the heading of a block's column.
pub(crate) fn put_column(block: u32, text: &mut Vec<u8>) -> Result<(), AllocError>
    ensures { OnOk result (Adds text.old.items text.new.items (column_text block)) }
{
    let mut first = Buffer::new();
    let mut second = Buffer::new();
    put_all(
        &[
            "<text x=\"",
            first.format(column_x(block)),
            "\" y=\"112\">",
            second.format(block),
            "</text>\n",
        ],
        text,
    )
}

/// Adds the lane of a hand and its heading.
pub(crate) fn put_lane(frame: Frame, hand: u32, text: &mut Vec<u8>) -> Result<(), AllocError>
    requires { frame.to ≤ ENTRIES }
    ensures { OnOk result (Adds text.old.items text.new.items (lane_text frame hand)) }
{
    let x = lane_x(frame.blocks, hand);
    let mut first = Buffer::new();
    let mut second = Buffer::new();
    let mut third = Buffer::new();
    let mut fourth = Buffer::new();
    put_all(
        &[
            "<rect class=\"lane\" x=\"",
            first.format(x),
            "\" y=\"100\" width=\"1\" height=\"",
            second.format(20 + ROW * rows_shown(frame)),
            "\"/>\n<text x=\"",
            third.format(18 + x),
            "\" y=\"112\">hand ",
            fourth.format(hand),
            "</text>\n",
        ],
        text,
    )
}
