//! Where things stand in the image, in pixels.
ghost use Rattle.std.specs.Prelude.{◌≡◌, ◌≤◌};
ghost use Rattle.pictures.specs.Traces.Layout.{column_x, height_of, lane_x, row_y, width_of};
ghost use Rattle.trace_text.specs.declared.limits.TheConstants.{ENTRIES};

/// The height of a row.
pub const ROW: u64 = 20;

/// How far below the top the first row is, behind the legend and the headings.
pub const TOP: u64 = 120;

/// The width of a lane.
pub const LANE: u64 = 220;

/// The width of a block's column.
pub const COLUMN: u64 = 20;

/// The width of the legend, and so the least of an image.
pub const LEGEND: u64 = 560;

/// At most so many characters of an entry have room.
pub const CHARACTERS: u64 = 500;

/// Where the column of a block begins.
pub(crate) fn column_x(block: u32) -> u64
    ensures { result ≡ column_x block }
{
    8 + COLUMN * u64::from(block)
}

/// Where the lane of a hand begins, right of the columns of blocks.
pub(crate) fn lane_x(blocks: u32, hand: u32) -> u64
    ensures { result ≡ lane_x blocks hand }
{
    24 + COLUMN * u64::from(blocks) + LANE * u64::from(hand)
}

/// Where a row begins, which comes behind `before` rows.
pub(crate) fn row_y(before: u64) -> u64
    requires { before ≤ ENTRIES }
    ensures { result ≡ row_y before }
{
    TOP + ROW * before
}

/// The height of an image of rows.
pub(crate) fn height_of(rows: u64) -> u64
    requires { rows ≤ ENTRIES }
    ensures { result ≡ height_of rows }
{
    row_y(rows) + 8
}

/// The width of an image whose longest entry has so many characters: beside the lanes there is room
/// for what doesn't fit into the last.
pub(crate) fn width_of(blocks: u32, hands: u32, longest: u64) -> u64
    ensures { result ≡ width_of blocks hands longest }
{
    let needed = 144 + 8 * longest.min(CHARACTERS);
    LEGEND.max(lane_x(blocks, hands) + needed.saturating_sub(LANE))
}
