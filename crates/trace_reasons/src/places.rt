//! Which place a sentence on an event means by `it`.
ghost use Rattle.std.specs.Prelude.{◌≡◌};
ghost use Rattle.trace_reasons.specs.Sentences.{place_of_source, own_place};

use life_rules::{Event, Place, SourceAt};

fn place_of_source(source: SourceAt) -> Option<Place>
    ensures { result ≡ place_of_source source }
{
    match source {
        SourceAt::Scope => None,
        SourceAt::At(place) => Some(place),
    }
}

/// The place that `it` means in a sentence on an event: its own, or that of its source.
pub fn own_place(event: &Event) -> Option<Place>
    ensures { result ≡ own_place event.now }
{
    match event {
        Event::Begin { place }
        | Event::Await { place, children: _ }
        | Event::Rest { place, to: _ }
        | Event::Take { place }
        | Event::Finish { place }
        | Event::Report { place }
        | Event::Arm { place }
        | Event::Run { source: _, place }
        | Event::EndRun { place }
        | Event::Withdraw { place }
        | Event::WithdrawOwn { place }
        | Event::Rouse { place } => Some(*place),
        Event::Look { source, after } => match after {
            None => place_of_source(*source),
            Some(place) => Some(*place),
        },
        Event::Request { source, failure: _ } | Event::SealScan { source } => {
            place_of_source(*source)
        }
        Event::Claim { block: _ }
        | Event::Release { block: _ }
        | Event::Skip { block: _ }
        | Event::Enter
        | Event::MarkUsed
        | Event::Leave
        | Event::Close
        | Event::Join
        | Event::Seal { expected: _ } => None,
    }
}
