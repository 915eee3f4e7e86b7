//! The kinds of event that have only a block, only a place, or nothing beside them.
ghost use Rattle.std.specs.Prelude.{◌≡◌};
ghost use Rattle.trace_text.specs.Kinds.{block_event, place_event, bare_event, block_name, place_name, bare_name};

use life_rules::{Event, Place};

/// The kinds of event that have only a block.
#[derive(Clone, Copy)]
pub enum BlockKind {
    Claim,
    Release,
    Skip,
}

/// The kinds of event that have only a place.
#[derive(Clone, Copy)]
pub enum PlaceKind {
    Begin,
    Take,
    Finish,
    Report,
    Arm,
    EndRun,
    Withdraw,
    WithdrawOwn,
    Rouse,
}

/// The kinds of event that have nothing beside them.
#[derive(Clone, Copy)]
pub enum BareKind {
    Enter,
    MarkUsed,
    Leave,
    Close,
    Join,
}

impl BlockKind {
    /// The event of this kind at a block.
    pub fn event(self, block: u32) -> Event
        ensures { result ≡ block_event self block }
    {
        match self {
            BlockKind::Claim => Event::Claim { block },
            BlockKind::Release => Event::Release { block },
            BlockKind::Skip => Event::Skip { block },
        }
    }

    /// How a text calls this kind.
    pub fn name(self) -> &'static [u8]
        ensures { result.now ≡ block_name self }
    {
        match self {
            BlockKind::Claim => b"claim",
            BlockKind::Release => b"release",
            BlockKind::Skip => b"skip",
        }
    }
}

impl PlaceKind {
    /// The event of this kind at a place.
    pub fn event(self, place: Place) -> Event
        ensures { result ≡ place_event self place }
    {
        match self {
            PlaceKind::Begin => Event::Begin { place },
            PlaceKind::Take => Event::Take { place },
            PlaceKind::Finish => Event::Finish { place },
            PlaceKind::Report => Event::Report { place },
            PlaceKind::Arm => Event::Arm { place },
            PlaceKind::EndRun => Event::EndRun { place },
            PlaceKind::Withdraw => Event::Withdraw { place },
            PlaceKind::WithdrawOwn => Event::WithdrawOwn { place },
            PlaceKind::Rouse => Event::Rouse { place },
        }
    }

    /// How a text calls this kind.
    pub fn name(self) -> &'static [u8]
        ensures { result.now ≡ place_name self }
    {
        match self {
            PlaceKind::Begin => b"begin",
            PlaceKind::Take => b"take",
            PlaceKind::Finish => b"finish",
            PlaceKind::Report => b"report",
            PlaceKind::Arm => b"arm",
            PlaceKind::EndRun => b"end_run",
            PlaceKind::Withdraw => b"withdraw",
            PlaceKind::WithdrawOwn => b"withdraw_own",
            PlaceKind::Rouse => b"rouse",
        }
    }
}

impl BareKind {
    /// The event of this kind.
    pub fn event(self) -> Event
        ensures { result ≡ bare_event self }
    {
        match self {
            BareKind::Enter => Event::Enter,
            BareKind::MarkUsed => Event::MarkUsed,
            BareKind::Leave => Event::Leave,
            BareKind::Close => Event::Close,
            BareKind::Join => Event::Join,
        }
    }

    /// How a text calls this kind.
    pub fn name(self) -> &'static [u8]
        ensures { result.now ≡ bare_name self }
    {
        match self {
            BareKind::Enter => b"enter",
            BareKind::MarkUsed => b"mark_used",
            BareKind::Leave => b"leave",
            BareKind::Close => b"close",
            BareKind::Join => b"join",
        }
    }
}
