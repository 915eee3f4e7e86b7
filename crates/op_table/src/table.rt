//! The table and its hands.
use atomic_table::TableRule;
use listed_words::StepTable;
use name_set::NameSet;
use std::marker::{Model, PhantomData};
use table_rules::{Cargo, Frame, View};
use table_steps::Shape;

/// The rule of a running table.
pub struct Ruled<P> {
    cargo: PhantomData<P>,
}

impl<P: Cargo> TableRule<Option<P>, View<P, P::Entry>, Frame<P::Over>> for Ruled<P> {
    ghost use Rattle.table_rules.specs.Traces.{Traced};
    ghost use Rattle.table_steps.specs.Views.{fresh};

    ghost holds = { λ frame. Traced P.Cargo frame };

    ghost first = { λ _. fresh 0 };
}

/// What one thread knows and holds of a table. It has no bytes.
pub(crate) type SeatOf<P> = listed_words::Hand<Option<P>, View<P, <P as Cargo>::Entry>>;

/// One of the hands that work on a table. Contracts see its seat: what it knows and holds.
#[derive(Drop)]
pub struct Hand<P: Cargo> {
    pub(crate) seat: SeatOf<P>,
    // The nodes whose start it owes.
    pub(crate) owed: NameSet,
    // The nodes whose callback it runs.
    pub(crate) runs: NameSet,
}

impl<P: Cargo> Model for Hand<P> {
    ghost use Rattle.std.specs.Prelude.{Option};
    ghost use Rattle.atomic_table.specs.declared.shared.Seat.{Seat};
    ghost use Rattle.table_rules.specs.declared.view.View.{View};
    ghost use Rattle.table_steps.specs.Remembers.{Remembers};

    ghost Value = { Seat (Option P) (View P P.Entry) };

    ghost view = { λ h. h.seat };

    ghost invariant = { λ h. Remembers h.seat h.owed h.runs };
}

/// A table of operations. Threads share it, and step on it each by its own hand.
#[derive(Drop)]
pub struct OpTable<P: Cargo> {
    pub(crate) table: StepTable<
        Option<P>,
        View<P, <P as Cargo>::Entry>,
        Frame<<P as Cargo>::Over>,
        Ruled<P>,
    >,
    pub(crate) frame: Shape,
}

impl<P: Cargo> Model for OpTable<P> {
    ghost use Rattle.std.specs.Prelude.{◌≡◌};
    ghost use Rattle.table_steps.specs.Views.{Board};
    ghost use Rattle.table_steps.specs.Shapes.{IsShape, frame_of};
    ghost use Rattle.table_words.specs.Layouts.{words_in, places_in};

    ghost Value = { Board P.Over };

    ghost view = { λ t. record {
      table_id = t.table.table_id;
      frame = frame_of t.frame t.table.key;
    } };

    ghost invariant = { λ t. (t.table.key ≡ frame_of t.frame t.table.key) × IsShape t.frame
        × (t.table.table_id.words ≡ words_in t.frame.layout)
        × (t.table.table_id.slots ≡ places_in t.frame.layout) };
}
