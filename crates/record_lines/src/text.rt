//! The text of a line: without its carriage return, and only where it can be a record.
ghost use Rattle.std.specs.Prelude.{◌≡◌, ◌≤◌, length, IfSome};
ghost use Rattle.std.specs.Option.{option_copied};
ghost use Rattle.record_lines.specs.declared.limits.TheConstants.{MOST_LINE};
ghost use Rattle.record_lines.specs.Lines.{without_cr, text_of};

use crate::limits::{CARRIAGE_RETURN, MOST_LINE};

// The text of a line whose bytes these are.
#[tactic(auto, unfolding(crate::specs::Lines::text_of))]
pub(crate) fn text_of(line: &[u8]) -> Option<&[u8]>
    ensures value { option_copied result ≡ text_of (without_cr line.now) }
    ensures short { IfSome result (λ text. length text.now ≤ MOST_LINE) }
{
    let text = without_cr(line);
    (text.len() <= MOST_LINE).then_some(text)
}

// A line without the one carriage return at its end.
#[tactic(auto, unfolding(crate::specs::Lines::without_cr))]
fn without_cr(line: &[u8]) -> &[u8]
    ensures { result.now ≡ without_cr line.now }
{
    let Some((&last, text)) = line.split_last() else {
        return line;
    };
    if last == CARRIAGE_RETURN { text } else { line }
}
