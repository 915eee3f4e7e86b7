//! Data, and the lists of them that values are.
ghost use Rattle.std.specs.Prelude.{◌≡◌, ◌<◌, ◌≤◌, [], ◌∷◌, ◌++◌, List, length, IsOk, IfOk, IfErr, OnOk, OnErr};
ghost use Rattle.exec_value.specs.declared.limits.TheConstants.{DATA};
ghost use Rattle.exec_value.specs.Items.{listed, AreManyIfSeveral, one_int};
ghost use Rattle.exec_value.specs.Place.{AreInPlace};

use crate::kinds::Kind;
use crate::limits::{DATA, INLINE_DATA};
use crate::nums::Nums;
use crate::txt::Txt;
use std::alloc::{AllocError, Global};
use std::marker::Model;
use std::{mem, slice};

/// One datum.
#[derive(Clone, Debug, Default, Drop, PartialEq, Eq)]
pub enum Datum {
    Int(i64),
    Text(Txt),
    Row(Nums),
    /// A number where there may be none.
    SomeInt(i64),
    /// A text where there may be none.
    SomeText(Txt),
    /// No number, or no text, where there may be one.
    #[default]
    Nothing,
}

impl Datum {
    ghost use Rattle.std.specs.Prelude.{◌↔◌, IsTrue};
    ghost use Rattle.exec_value.specs.Kinds.{HasKind, IsConstant};

    /// Whether the datum is of this kind. `Nothing` is of both maybe kinds.
    pub fn is_of(&self, kind: Kind) -> bool
        ensures { IsTrue result ↔ HasKind self.now kind }
    {
        match self {
            Datum::Int(_) => matches!(kind, Kind::Int),
            Datum::Text(_) => matches!(kind, Kind::Text),
            Datum::Row(_) => matches!(kind, Kind::Row),
            Datum::SomeInt(_) => matches!(kind, Kind::MaybeInt),
            Datum::SomeText(_) => matches!(kind, Kind::MaybeText),
            Datum::Nothing => matches!(kind, Kind::MaybeInt | Kind::MaybeText),
        }
    }

    /// Whether a plan may have the datum as a constant: an int, a text or a row.
    pub fn is_constant(&self) -> bool
        ensures { IsTrue result ↔ IsConstant self.now }
    {
        matches!(self, Datum::Int(_) | Datum::Text(_) | Datum::Row(_))
    }
}

/// What a value completion carries: a list of at most 64 data. One datum stands in place and
/// needs no allocation.
#[derive(Debug, Drop)]
pub struct Data {
    alloc: Global,
    items: Items,
}

/// How the data of a list are kept.
#[derive(Debug, Drop)]
enum Items {
    None,
    One(Datum),
    Several(Vec<Datum>),
}

impl Model for Data {
    ghost use Rattle.std.specs.Prelude.{List};
    ghost use Rattle.exec_value.specs.Items.{listed, KeepData};
    ghost use Rattle.exec_value.specs.declared.data.Datum.{Datum};

    ghost Value = { List Datum };

    ghost view = { λ d. listed d.items };

    ghost invariant = { λ d. KeepData d.items };
}

impl Data {
    /// The list of no data. It takes no memory.
    pub fn empty(alloc: Global) -> Data
        ensures { result ≡ [] }
    {
        Data {
            alloc,
            items: Items::None,
        }
    }

    /// The list of one datum. It takes no memory.
    pub fn one(alloc: Global, datum: Datum) -> Data
        ensures { result ≡ datum ∷ [] }
    {
        Data {
            alloc,
            items: Items::One(datum),
        }
    }

    /// The one datum of a list. It takes no memory.
    pub fn into_one(self) -> Datum
        requires { length self ≡ 1 }
        ensures { self ≡ result ∷ [] }
    {
        match self.items {
            Items::One(datum) => datum,
            _ => unreachable!(),
        }
    }

    /// Appends a datum. Where there is no memory the datum comes back, which a first datum never
    /// does.
    pub fn push(&mut self, datum: Datum) -> Result<(), Datum>
        requires { length self.old < DATA }
        ensures ok { OnOk result (self.new ≡ self.old ++ datum ∷ []) }
        ensures err { OnErr result (self.new ≡ self.old) }
        ensures back { IfErr result (λ returned. returned ≡ datum) }
        ensures first { self.old ≡ [] → IsOk result }
    {
        let items = mem::replace(&mut self.items, Items::None);
        let (items, returned) = pushed(self.alloc, items, datum);
        self.items = items;
        returned
    }

    /// The number, where the list is one int.
    #[inline(always)]
    pub fn one_int(&self) -> Option<i64>
        ensures { result ≡ one_int self.now }
    {
        match &self.items {
            Items::One(Datum::Int(number)) => Some(*number),
            _ => None,
        }
    }

    // Nothing of the list lies elsewhere in memory, as far as a look tells.
    #[inline(always)]
    pub(crate) fn is_in_place(&self) -> bool {
        match &self.items {
            Items::None => true,
            Items::One(Datum::Int(_)) => true,
            Items::One(Datum::Row(row)) => row.is_in_place(),
            _ => false,
        }
    }

    /// The list becomes one int. It takes no memory.
    #[inline(always)]
    pub fn set_int(&mut self, number: i64)
        ensures { self.new ≡ Datum.Int number ∷ [] }
    {
        match &mut self.items {
            Items::One(Datum::Int(held)) => *held = number,
            items => drop(mem::replace(items, Items::One(Datum::Int(number)))),
        }
    }

    /// The data.
    pub fn as_slice(&self) -> &[Datum]
        ensures data { result.now ≡ self.now }
        ensures few { length self.now ≤ DATA }
    {
        match &self.items {
            Items::None => &[],
            Items::One(datum) => slice::from_ref(datum),
            Items::Several(data) => data.as_slice(),
        }
    }
}

/// The data with one more, or as they are where there is no memory.
fn pushed(alloc: Global, items: Items, datum: Datum) -> (Items, Result<(), Datum>)
    requires { AreManyIfSeveral items }
    ensures ok { OnOk result.1 (listed result.0 ≡ listed items ++ datum ∷ []) }
    ensures err { IfErr result.1 (λ it. (listed result.0 ≡ listed items) × (it ≡ datum)) }
    ensures first { listed items ≡ [] → IsOk result.1 }
    ensures many { AreManyIfSeveral result.0 }
{
    match items {
        Items::None => (Items::One(datum), Ok(())),
        Items::One(first) => with_second(alloc, first, datum),
        Items::Several(mut data) => match data.push(datum) {
            Ok(()) => (Items::Several(data), Ok(())),
            Err(failed) => (Items::Several(data), Err(failed.value)),
        },
    }
}

/// Two data, or the first alone where there is no memory.
fn with_second(alloc: Global, first: Datum, second: Datum) -> (Items, Result<(), Datum>)
    ensures ok { OnOk result.1 (listed result.0 ≡ first ∷ second ∷ []) }
    ensures err { IfErr result.1 (λ it. (listed result.0 ≡ first ∷ []) × (it ≡ second)) }
    ensures many { AreManyIfSeveral result.0 }
{
    match Vec::with_capacity(alloc, 2) {
        Ok(mut data) => {
            data.push_reserved(first);
            data.push_reserved(second);
            (Items::Several(data), Ok(()))
        }
        Err(AllocError) => (Items::One(first), Err(second)),
    }
}

impl Clone for Data {
    ghost is_clone = { λ values copy. copy ≡ values };

    ghost is_infallible = { AreInPlace };

    fn clone(&self) -> Result<Self, AllocError> {
        copy_data(self.alloc, self)
    }
}

impl PartialEq for Data {
    ghost use Rattle.std.specs.Cmp.{partial_equiv_from_equiv};
    ghost use Rattle.std.specs.Cmp.Lexicographic.{pointwise, lists_per};
    ghost use Rattle.exec_value.specs.Equal.{datum_eq, datum_equiv};

    ghost eq = { pointwise datum_eq };

    ghost laws = { lists_per (partial_equiv_from_equiv datum_equiv) };

    fn eq(&self, other: &Self) -> bool {
        self.as_slice() == other.as_slice()
    }
}

impl Eq for Data {
    ghost use Rattle.std.specs.Cmp.Lexicographic.{lists_equiv};
    ghost use Rattle.exec_value.specs.Equal.{datum_equiv};

    ghost laws = { lists_equiv datum_equiv };
}

/// An equal list of data. A copy of one datum that stands in place wants no memory.
#[inline(always)]
pub fn copy_data(alloc: Global, values: &Data) -> Result<Data, AllocError>
    ensures ok { IfOk result (λ copy. copy ≡ values.now) }
    ensures in_place { AreInPlace values.now → IsOk result }
{
    match values.one_int() {
        Some(number) => Ok(Data::one(alloc, Datum::Int(number))),
        None => copy_items(alloc, values),
    }
}

/// The same for data that aren't one int, out of the caller's way.
#[inline(never)]
fn copy_items(alloc: Global, values: &Data) -> Result<Data, AllocError>
    ensures ok { IfOk result (λ copy. copy ≡ values.now) }
    ensures in_place { AreInPlace values.now → IsOk result }
{
    let items = match &values.items {
        Items::None => Items::None,
        Items::One(Datum::Row(row)) => Items::One(Datum::Row(row.clone()?)),
        Items::One(datum) => Items::One(datum.clone()?),
        Items::Several(data) => Items::Several(Vec::from_clones(alloc, data.as_slice())?),
    };
    Ok(Data { alloc, items })
}
