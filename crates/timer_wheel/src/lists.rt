//! Lists of places, one for each bucket, doubly linked by the places' numbers.
ghost use Rattle.std.specs.Prelude.{◌≡◌, ◌≢◌, ◌+◌, ◌<◌, ◌≤◌, ℕ, Some, None, length, replicate, slice_set, is_some, IfOk, IfSome, IfNone, IsSome};
ghost use Rattle.std.specs.Bool.{OnTrue, OnFalse};
ghost use Rattle.timer_wheel.specs.Links.{home_of};
ghost use Rattle.timer_wheel.specs.declared.buckets.TheConstants.{BUCKETS};
ghost use Rattle.timer_wheel.specs.declared.limits.TheConstants.{MOST_PLACES};

use crate::buckets::BUCKETS;
use crate::links::Links;
use std::alloc::{AllocError, Global};
use std::marker::Model;

/// A list of places for each bucket. A place stands in one list at most.
///
/// Contracts see the bucket of each place, where it stands in one.
#[derive(Debug, Drop)]
pub struct Lists {
    // The nodes are the places and, behind them, a head for each bucket. A list is a ring with its
    // head: after the head stands the first place, and after the last place the head.
    links: Links,
    // The bucket of each place.
    homes: Vec<Option<u32>>,
}

impl Model for Lists {
    ghost use Rattle.std.specs.Prelude.{ℕ, List, Option};
    ghost use Rattle.timer_wheel.specs.Links.{AreLists};

    ghost Value = { List (Option ℕ) };

    ghost view = { λ lists. lists.homes.items };

    ghost invariant = { λ lists.
        AreLists lists.links.next.items lists.links.prev.items lists.homes.items };
}

impl Lists {
    /// Empty lists for this many places, with all the memory that they will need.
    pub fn open(alloc: Global, places: u32) -> Result<Lists, AllocError>
        requires { places ≤ MOST_PLACES }
        ensures { IfOk result (λ lists. lists ≡ replicate places None) }
    {
        let links = Links::open(alloc, places + BUCKETS)?;
        let homes = vec![in alloc; None; places as usize]?;
        Ok(Lists { links, homes })
    }

    /// Puts a place that stands in no list in front of this one.
    pub fn push(&mut self, place: u32, bucket: u32)
        requires place { place < length self.old }
        requires free { home_of self.old place ≡ None }
        requires bucket { bucket < BUCKETS }
        ensures { self.new ≡ slice_set self.old place (Some bucket) }
    {
        let head = self.head(bucket);
        let first = self.links.next[head as usize];
        self.links.join(place, first);
        self.links.join(head, place);
        self.homes[place as usize] = Some(bucket);
    }

    /// Takes a place out of its list; answers false where it stands in none.
    pub fn remove(&mut self, place: u32) -> bool
        ensures answer { result ≡ is_some (home_of self.old place) }
        ensures removed { OnTrue result (self.new ≡ slice_set self.old place None) }
        ensures same { OnFalse result (self.new ≡ self.old) }
    {
        let Some(Some(_)) = self.homes.get(place as usize) else {
            return false;
        };
        self.take_out(place);
        true
    }

    /// Takes out the first place of a list; `None` where the list is empty.
    pub fn pop(&mut self, bucket: u32) -> Option<u32>
        requires { bucket < BUCKETS }
        ensures some { IfSome result (λ place. home_of self.old place ≡ Some bucket) }
        ensures taken { IfSome result (λ place. self.new ≡ slice_set self.old place None) }
        ensures none { IfNone result ((place : ℕ) → home_of self.old place ≢ Some bucket) }
        ensures same { IfNone result (self.new ≡ self.old) }
    {
        let first = self.first(bucket)?;
        self.take_out(first);
        Some(first)
    }

    // The first place of a list.
    fn first(&self, bucket: u32) -> Option<u32>
        requires { bucket < BUCKETS }
        ensures some { IfSome result (λ place. home_of self.now place ≡ Some bucket) }
        ensures none { IfNone result ((place : ℕ) → home_of self.now place ≢ Some bucket) }
    {
        let node = self.links.next[self.head(bucket) as usize];
        if node as usize >= self.homes.len() {
            // The head follows itself.
            return None;
        }
        Some(node)
    }

    // Takes a place out of its list.
    fn take_out(&mut self, place: u32)
        requires { IsSome (home_of self.old place) }
        ensures { self.new ≡ slice_set self.old place None }
    {
        let before = self.links.prev[place as usize];
        let after = self.links.next[place as usize];
        self.links.join(before, after);
        self.homes[place as usize] = None;
    }

    // The node that is the head of a bucket's list.
    fn head(&self, bucket: u32) -> u32
        requires { bucket < BUCKETS }
        ensures { result ≡ length self.now + bucket }
    {
        self.homes.len() as u32 + bucket
    }
}
