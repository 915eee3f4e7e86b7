//! The cells of a view: what the steps read and write of a place, and of its own source.
ghost use Rattle.std.specs.Prelude.{◌≡◌, ◌<◌, All, ◌||◌};
ghost use Rattle.exec_life.specs.ViewLists.{KnowsPlace, KnowsSource, role_in, unlooked_in, seen_in, scan_in};
ghost use Rattle.exec_life.specs.ViewWrites.{SetsRole, OwesStarts, SetsRuns, SetsUnlooked, LooksAfter, SetsSeen, SetsScan, BeginsScan, Forgets};

use super::{Role, View};
use life_rules::{Place, SourceAt};

impl View {
    /// What the hand has of the node.
    pub(crate) fn role(&self, place: Place) -> Role
        requires { KnowsPlace self.now place }
        ensures { result ≡ role_in self.now place.block place.node }
    {
        self.roles.get(place)
    }

    /// Whether the hand armed the place and hasn't looked after it yet.
    pub(crate) fn unlooked(&self, place: Place) -> bool
        requires { KnowsPlace self.now place }
        ensures { result ≡ unlooked_in self.now place.block place.node }
    {
        self.unlooked.get(place)
    }

    /// From where the hand's scan of this source goes on.
    pub(crate) fn scan(&self, source: SourceAt) -> Option<u32>
        requires { KnowsSource self.now source }
        ensures { result ≡ scan_in self.now source }
    {
        match source {
            SourceAt::Scope => self.scope_scan,
            SourceAt::At(place) => self.scans.get(place),
        }
    }

    /// Notes what the hand has of the node.
    pub(crate) fn set_role(&mut self, place: Place, role: Role)
        requires { KnowsPlace self.old place }
        ensures { SetsRole self.old self.new place.block place.node role }
    {
        self.roles.set(place, role);
    }

    /// The hand is to begin these nodes of the block.
    pub(crate) fn owe_starts(&mut self, block: u32, nodes: &[u32])
        requires block { block < self.old.blocks }
        requires nodes { All (λ n. n < self.old.nodes) nodes.now }
        ensures { OwesStarts self.old self.new block nodes.now }
    {
        for node in nodes {
            let place = Place { block, node: *node };
            self.set_role(place, Role::OwesStart);
        }
    }

    /// Notes whether the hand runs the node's callback.
    pub(crate) fn set_runs(&mut self, place: Place, runs: bool)
        requires { KnowsPlace self.old place }
        ensures { SetsRuns self.old self.new place.block place.node runs }
    {
        self.runs.set(place, runs);
    }

    /// Notes whether the hand armed the place and hasn't looked after it yet.
    pub(crate) fn set_unlooked(&mut self, place: Place, unlooked: bool)
        requires { KnowsPlace self.old place }
        ensures { SetsUnlooked self.old self.new place.block place.node unlooked }
    {
        self.unlooked.set(place, unlooked);
    }

    /// The place is looked after, and a request that was read is seen after it.
    pub(crate) fn look_after(&mut self, place: Place, read: bool)
        requires { KnowsPlace self.old place }
        ensures { LooksAfter self.old self.new place read }
    {
        let seen_after = self.seen_after.get(place) || read;
        self.seen_after.set(place, seen_after);
        self.unlooked.set(place, false);
    }

    /// Notes whether the hand has seen the request on this source.
    pub(crate) fn set_seen(&mut self, source: SourceAt, seen: bool)
        requires { KnowsSource self.old source }
        ensures { SetsSeen self.old self.new source seen }
    {
        match source {
            SourceAt::Scope => self.scope_seen = seen,
            SourceAt::At(place) => self.seen.set(place, seen),
        }
    }

    /// A request that was read on this source is seen.
    pub(crate) fn note(&mut self, source: SourceAt, read: bool)
        requires { KnowsSource self.old source }
        ensures { SetsSeen self.old self.new source (seen_in self.old source || read) }
    {
        let seen = self.seen(source) || read;
        self.set_seen(source, seen);
    }

    /// Notes from where the hand's scan of this source goes on; none where it makes none.
    pub(crate) fn set_scan(&mut self, source: SourceAt, scan: Option<u32>)
        requires { KnowsSource self.old source }
        ensures { SetsScan self.old self.new source scan }
    {
        match source {
            SourceAt::Scope => self.scope_scan = scan,
            SourceAt::At(place) => self.scans.set(place, scan),
        }
    }

    /// A scan of this source begins: the hand made the request.
    pub(crate) fn begin_scan(&mut self, source: SourceAt)
        requires { KnowsSource self.old source }
        ensures { BeginsScan self.old self.new source }
    {
        match source {
            SourceAt::Scope => {
                self.scope_scan = Some(0);
                self.requested = true;
            }
            SourceAt::At(place) => self.scans.set(place, Some(0)),
        }
    }

    /// Clears all that the view knows of the block's places.
    pub(crate) fn forget(&mut self, block: u32)
        requires { block < self.old.blocks }
        ensures { Forgets self.old self.new block }
    {
        self.roles.clear_row(block, Role::Nothing);
        self.runs.clear_row(block, false);
        self.unlooked.clear_row(block, false);
        self.seen_after.clear_row(block, false);
        self.seen.clear_row(block, false);
        self.scans.clear_row(block, None);
    }
}
