//! The steps of which a hand has the choice, in their order.
//!
//! Events of all kinds are tried one after another, and those are kept that the machine allows.
ghost use Rattle.std.specs.Prelude.{◌≡◌, [], ◌∷◌, true, filter, IfOk, OnOk};
ghost use Rattle.std.specs.List.{flat_map};
ghost use Rattle.exec_life.specs.StateLists.{machine};
ghost use Rattle.life_rules.specs.States.{is_place};
ghost use Rattle.replay_core.specs.Candidates.{at_blocks, at_places, awaits, rests_at, looks_at, requests_at, runs_at, seal_scans, life_events, stop_events, scope_events, places_of, sources_of, candidates};
ghost use Rattle.replay_core.specs.Listings.{Keeps, IsListing, is_waiting, is_known};

use crate::grounds::{fresh_children, nearest_source};
use exec_life::State;
use life_rules::{Event, Place, Resting, SourceAt};
use std::alloc::{AllocError, Global};
use trace_text::{BareKind, BlockKind, PlaceKind};

/// Lists the candidates of a hand in a state, over all its places and sources.
#[derive(Drop)]
pub struct Listing<'a> {
    pub state: &'a State,
    pub hand: u32,
    pub places: &'a [Place],
    pub sources: &'a [SourceAt],
    ghost ready: { IsListing (machine state.now) hand places.now sources.now },
}

impl Listing<'_> {
    /// The events that are steps of the hand, kind by kind.
    pub fn candidates(&self, alloc: Global) -> Result<Vec<Event>, AllocError>
        ensures { IfOk result (λ found.
            found.items ≡ candidates (machine self.now.state.now) self.now.hand) }
    {
        let mut found = Vec::new(alloc);
        self.keep_life(alloc, &mut found)?;
        self.keep_stop(alloc, &mut found)?;
        self.keep_scope(&mut found)?;
        Ok(found)
    }

    // Keeps the steps among the events of an operation's life.
    fn keep_life(&self, alloc: Global, found: &mut Vec<Event>) -> Result<(), AllocError>
        ensures { let s = machine self.now.state.now in
            OnOk result (Keeps s self.now.hand found.old.items found.new.items (life_events s)) }
    {
        self.keep_blocks(BlockKind::Claim, found)?;
        self.keep_places(PlaceKind::Begin, found)?;
        self.keep_awaits(alloc, found)?;
        self.keep_rests(found)?;
        self.keep_places(PlaceKind::Take, found)?;
        self.keep_places(PlaceKind::Finish, found)?;
        self.keep_places(PlaceKind::Report, found)?;
        self.keep_blocks(BlockKind::Release, found)?;
        Ok(())
    }

    // Keeps the steps among the events of stop sources and callbacks.
    fn keep_stop(&self, alloc: Global, found: &mut Vec<Event>) -> Result<(), AllocError>
        ensures { let s = machine self.now.state.now in
            OnOk result (Keeps s self.now.hand found.old.items found.new.items (stop_events s)) }
    {
        self.keep_places(PlaceKind::Arm, found)?;
        self.keep_looks(alloc, found)?;
        self.keep_requests(found)?;
        self.keep_runs(found)?;
        self.keep_places(PlaceKind::EndRun, found)?;
        self.keep_places(PlaceKind::Withdraw, found)?;
        self.keep_places(PlaceKind::WithdrawOwn, found)?;
        self.keep_seal_scans(found)?;
        self.keep_blocks(BlockKind::Skip, found)?;
        Ok(())
    }

    // Keeps the steps among the rousings and the events of the scope.
    fn keep_scope(&self, found: &mut Vec<Event>) -> Result<(), AllocError>
        ensures { let s = machine self.now.state.now in
            OnOk result (Keeps s self.now.hand found.old.items found.new.items (scope_events s)) }
    {
        self.keep_places(PlaceKind::Rouse, found)?;
        self.keep(BareKind::Enter.event(), found)?;
        self.keep(BareKind::MarkUsed.event(), found)?;
        self.keep(BareKind::Leave.event(), found)?;
        self.keep(BareKind::Close.event(), found)?;
        self.keep(BareKind::Join.event(), found)?;
        let expected = self.state.words().scope();
        self.keep(Event::Seal { expected }, found)?;
        Ok(())
    }

    // Keeps the event where it is a step.
    fn keep(&self, event: Event, found: &mut Vec<Event>) -> Result<(), AllocError>
        ensures { let s = machine self.now.state.now in
            OnOk result (Keeps s self.now.hand found.old.items found.new.items (event ∷ [])) }
    {
        if !self.state.allows(self.hand, &event) {
            return Ok(());
        }
        found.push(event)?;
        Ok(())
    }

    // Keeps the steps of a kind among those at each block.
    fn keep_blocks(&self, kind: BlockKind, found: &mut Vec<Event>) -> Result<(), AllocError>
        ensures { let s = machine self.now.state.now in
            OnOk result (Keeps s self.now.hand found.old.items found.new.items (at_blocks s kind)) }
    {
        for block in 0..self.state.blocks() {
            self.keep(kind.event(block), found)?;
        }
        Ok(())
    }

    // Keeps the steps of a kind among those at each place.
    fn keep_places(&self, kind: PlaceKind, found: &mut Vec<Event>) -> Result<(), AllocError>
        ensures { let s = machine self.now.state.now in
            OnOk result (Keeps s self.now.hand found.old.items found.new.items (at_places s kind)) }
    {
        for place in self.places {
            self.keep(kind.event(*place), found)?;
        }
        Ok(())
    }

    // Keeps the steps among those that await all children of a node that haven't begun.
    fn keep_awaits(&self, alloc: Global, found: &mut Vec<Event>) -> Result<(), AllocError>
        ensures { let s = machine self.now.state.now in
            OnOk result (Keeps s self.now.hand found.old.items found.new.items (awaits s)) }
    {
        for place in self.places {
            let event = Event::Await {
                place: *place,
                children: fresh_children(alloc, self.state, *place)?,
            };
            self.keep(event, found)?;
        }
        Ok(())
    }

    // Keeps the steps that rest the node of a place.
    fn keep_rests_at(&self, place: Place, found: &mut Vec<Event>) -> Result<(), AllocError>
        ensures { let s = machine self.now.state.now in
            OnOk result (Keeps s self.now.hand found.old.items found.new.items (rests_at place)) }
    {
        let to = Resting::Loop;
        self.keep(Event::Rest { place, to }, found)?;
        let to = Resting::Pool;
        self.keep(Event::Rest { place, to }, found)?;
        let to = Resting::Parked;
        self.keep(Event::Rest { place, to }, found)?;
        Ok(())
    }

    // Keeps the steps that rest a node.
    fn keep_rests(&self, found: &mut Vec<Event>) -> Result<(), AllocError>
        ensures { let s = machine self.now.state.now in
            OnOk result (Keeps s self.now.hand found.old.items found.new.items
            (flat_map rests_at (places_of s))) }
    {
        for place in self.places {
            self.keep_rests_at(*place, found)?;
        }
        Ok(())
    }

    // Whether the hand may look at the place's nearest source, after its arming.
    fn is_waiting(&self, place: Place) -> bool
        requires { is_place (machine self.now.state.now) place ≡ true }
        ensures { result ≡ is_waiting (machine self.now.state.now) self.now.hand place }
    {
        let Some(source) = nearest_source(self.state, place) else {
            return false;
        };
        let after = Some(place);
        self.state.allows(self.hand, &Event::Look { source, after })
    }

    // The places after whose arming the hand may look.
    fn waiting(&self, alloc: Global) -> Result<Vec<Place>, AllocError>
        ensures { let s = machine self.now.state.now in
            IfOk result (λ waiting.
            waiting.items ≡ filter (is_waiting s self.now.hand) (places_of s)) }
    {
        let mut waiting = Vec::new(alloc);
        for place in self.places {
            if !self.is_waiting(*place) {
                continue;
            }
            waiting.push(*place)?;
        }
        Ok(waiting)
    }

    // Keeps the steps that look at a source after the arming of a place.
    fn keep_looks_at(
        &self,
        source: SourceAt,
        waiting: &[Place],
        found: &mut Vec<Event>,
    ) -> Result<(), AllocError>
        requires { let s = machine self.now.state.now in
            waiting.now ≡ filter (is_waiting s self.now.hand) (places_of s) }
        ensures { let s = machine self.now.state.now in
            OnOk result
            (Keeps s self.now.hand found.old.items found.new.items (looks_at s source)) }
    {
        for place in waiting {
            let after = Some(*place);
            self.keep(Event::Look { source, after }, found)?;
        }
        Ok(())
    }

    // Keeps the looks after the arming of a place.
    fn keep_looks(&self, alloc: Global, found: &mut Vec<Event>) -> Result<(), AllocError>
        ensures { let s = machine self.now.state.now in
            OnOk result (Keeps s self.now.hand found.old.items found.new.items
            (flat_map (looks_at s) (sources_of s))) }
    {
        let waiting = self.waiting(alloc)?;
        for source in self.sources {
            self.keep_looks_at(*source, &waiting, found)?;
        }
        Ok(())
    }

    // Keeps the requests of a source.
    fn keep_requests_at(&self, source: SourceAt, found: &mut Vec<Event>) -> Result<(), AllocError>
        ensures { let s = machine self.now.state.now in
            OnOk result
            (Keeps s self.now.hand found.old.items found.new.items (requests_at source)) }
    {
        let failure = false;
        self.keep(Event::Request { source, failure }, found)?;
        let failure = true;
        self.keep(Event::Request { source, failure }, found)?;
        Ok(())
    }

    // Keeps the requests.
    fn keep_requests(&self, found: &mut Vec<Event>) -> Result<(), AllocError>
        ensures { let s = machine self.now.state.now in
            OnOk result (Keeps s self.now.hand found.old.items found.new.items
            (flat_map requests_at (sources_of s))) }
    {
        for source in self.sources {
            self.keep_requests_at(*source, found)?;
        }
        Ok(())
    }

    // Keeps the run of the next place in the hand's scan of a source.
    fn keep_runs_at(&self, source: SourceAt, found: &mut Vec<Event>) -> Result<(), AllocError>
        requires { is_known (machine self.now.state.now) source ≡ true }
        ensures { let s = machine self.now.state.now in
            OnOk result (Keeps s self.now.hand found.old.items found.new.items (runs_at s source)) }
    {
        if !self.state.view(self.hand).scans(source) {
            return Ok(());
        }
        for place in self.places {
            let place = *place;
            self.keep(Event::Run { source, place }, found)?;
        }
        Ok(())
    }

    // Keeps the runs in the hand's scans.
    fn keep_runs(&self, found: &mut Vec<Event>) -> Result<(), AllocError>
        ensures { let s = machine self.now.state.now in
            OnOk result (Keeps s self.now.hand found.old.items found.new.items
            (flat_map (runs_at s) (sources_of s))) }
    {
        for source in self.sources {
            self.keep_runs_at(*source, found)?;
        }
        Ok(())
    }

    // Keeps the steps that seal a scan.
    fn keep_seal_scans(&self, found: &mut Vec<Event>) -> Result<(), AllocError>
        ensures { let s = machine self.now.state.now in
            OnOk result (Keeps s self.now.hand found.old.items found.new.items (seal_scans s)) }
    {
        for source in self.sources {
            let source = *source;
            self.keep(Event::SealScan { source }, found)?;
        }
        Ok(())
    }
}
