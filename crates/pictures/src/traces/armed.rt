//! Whether a callback is armed.
ghost use Rattle.std.specs.Prelude.{◌≡◌};
ghost use Rattle.pictures.specs.Traces.Armed.{armed_after, is_still_armed, same_place};

use life_rules::{Event, Place};
use trace_text::Entry;

/// Whether these are one place.
pub(crate) fn same_place(first: Place, second: Place) -> bool
    ensures { result ≡ same_place first second }
{
    first.block == second.block && first.node == second.node
}

/// Whether the callback of a place is armed after an event, by whether it was before.
fn armed_after(place: Place, armed: bool, entry: &Entry) -> bool
    ensures { result ≡ armed_after place armed entry.now }
{
    match &entry.event {
        Event::Arm { place: given } => armed || same_place(*given, place),
        Event::Withdraw { place: given } => armed && !same_place(*given, place),
        Event::Run { place: given, .. } => armed && !same_place(*given, place),
        _ => armed,
    }
}

/// Whether the callback of a place is armed after these entries: it was registered, and since then
/// neither removed nor run.
pub(crate) fn is_still_armed(place: Place, earlier: &[Entry]) -> bool
    ensures { result ≡ is_still_armed place earlier.now }
{
    let mut armed = false;
    for entry in earlier {
        armed = armed_after(place, armed, entry);
    }
    armed
}
