//! Texts: UTF-8 of at most 4,096 bytes.
ghost use Rattle.std.specs.Prelude.{◌≡◌, ◌≢◌, ◌+◌, ◌<◌, ◌≤◌, ◌↔◌, [], ◌++◌, length, false, IsTrue, IsOk, IfOk, OnOk, OnErr, Err, nat_eq};
ghost use Rattle.std.specs.Cmp.{partial_equiv_from_equiv};
ghost use Rattle.std.specs.Cmp.Lexicographic.{pointwise, nat_list_eq_equiv};
ghost use Rattle.exec_value.specs.Kept.{kept_bytes, FitInPlace, AreManyIfShared};
ghost use Rattle.exec_value.specs.Short.{short_bytes};
ghost use Rattle.exec_value.specs.Text.{is_text, IsText};
ghost use Rattle.exec_value.specs.declared.limits.TheConstants.{INLINE_BYTES, TEXT_BYTES};

use crate::fault::RecordFault;
use crate::limits::{INLINE_BYTES, TEXT_BYTES};
use crate::short::Short;
use std::alloc::{AllocError, Global};
use std::marker::Model;
use std::sync::ArcSlice;

/// A text: UTF-8 of at most 4,096 bytes. Up to 22 bytes stand in place and need no allocation. More
/// are shared by the copies of a text, so that a copy counts one owner more and takes no memory.
#[derive(Debug, Drop)]
pub struct Txt {
    alloc: Global,
    kept: Kept,
}

/// How the bytes of a text are kept.
#[derive(Debug, Drop)]
enum Kept {
    InPlace(Short),
    Shared(ArcSlice<u8>),
}

impl Model for Txt {
    ghost use Rattle.std.specs.Prelude.{List, ℕ};
    ghost use Rattle.exec_value.specs.Kept.{kept_bytes, KeepText};

    ghost Value = { List ℕ };

    ghost view = { λ t. kept_bytes t.kept };

    ghost invariant = { λ t. KeepText t.kept };
}

/// Whether these bytes are a text.
pub fn is_text(bytes: &[u8]) -> bool
    ensures value { result ≡ is_text bytes.now }
    ensures text { IsTrue result ↔ IsText bytes.now }
{
    bytes.len() <= TEXT_BYTES && str::from_utf8(bytes).is_ok()
}

impl Txt {
    /// The text of these bytes. `Bad` exactly where they are no UTF-8 or more than 4,096.
    pub fn from_bytes(alloc: Global, bytes: &[u8]) -> Result<Txt, RecordFault>
        ensures ok { IfOk result (λ text. text ≡ bytes.now) }
        ensures bad { (result ≡ Err RecordFault.Bad) ↔ (is_text bytes.now ≡ false) }
        ensures small { length bytes.now ≤ INLINE_BYTES → result ≢ Err RecordFault.NoMemory }
    {
        if !is_text(bytes) {
            return Err(RecordFault::Bad);
        }
        Ok(Txt {
            alloc,
            kept: Kept::from_slice(alloc, bytes)?,
        })
    }

    /// A text of at most 22 bytes. It takes no memory.
    pub fn short(alloc: Global, text: &str) -> Txt
        requires { length text.now ≤ INLINE_BYTES }
        ensures { result ≡ text.now }
    {
        Txt {
            alloc,
            kept: Kept::InPlace(Short::from_slice(text.as_bytes())),
        }
    }

    /// A text of at most 4,096 bytes. One of at most 22 bytes takes no memory.
    pub fn from_text(alloc: Global, text: &str) -> Result<Txt, AllocError>
        requires { length text.now ≤ TEXT_BYTES }
        ensures ok { IfOk result (λ made. made ≡ text.now) }
        ensures small { length text.now ≤ INLINE_BYTES → IsOk result }
    {
        Ok(Txt {
            alloc,
            kept: Kept::from_slice(alloc, text.as_bytes())?,
        })
    }

    /// The empty text. It takes no memory.
    pub fn empty(alloc: Global) -> Txt
        ensures { result ≡ [] }
    {
        Txt::short(alloc, "")
    }

    /// Appends a text. Two that have at most 22 bytes together want no memory. Where there is
    /// none, the text is as it was.
    pub fn append(&mut self, more: &Txt) -> Result<(), AllocError>
        requires { length self.old + length more.now ≤ TEXT_BYTES }
        ensures ok { OnOk result (self.new ≡ self.old ++ more.now) }
        ensures err { OnErr result (self.new ≡ self.old) }
        ensures small { length self.old + length more.now ≤ INLINE_BYTES → IsOk result }
    {
        self.kept = self.kept.with(self.alloc, more.as_bytes())?;
        Ok(())
    }

    /// The bytes.
    pub fn as_bytes(&self) -> &[u8]
        ensures bytes { result.now ≡ self.now }
        ensures text { IsText self.now }
    {
        self.kept.as_slice()
    }
}

impl Kept {
    /// These bytes, in place where they are few.
    fn from_slice(alloc: Global, bytes: &[u8]) -> Result<Kept, AllocError>
        ensures ok { IfOk result (λ kept. kept_bytes kept ≡ bytes.now) }
        ensures many { IfOk result AreManyIfShared }
        ensures small { length bytes.now ≤ INLINE_BYTES → IsOk result }
    {
        if bytes.len() <= INLINE_BYTES {
            return Ok(Kept::InPlace(Short::from_slice(bytes)));
        }
        Ok(Kept::Shared(ArcSlice::from_slice(alloc, bytes)?))
    }

    /// These bytes and then more.
    fn with(&self, alloc: Global, more: &[u8]) -> Result<Kept, AllocError>
        requires short { length (kept_bytes self.now) + length more.now ≤ TEXT_BYTES }
        requires many { AreManyIfShared self.now }
        ensures ok { IfOk result (λ kept. kept_bytes kept ≡ kept_bytes self.now ++ more.now) }
        ensures many { IfOk result AreManyIfShared }
        ensures small { FitInPlace (kept_bytes self.now) more.now → IsOk result }
    {
        match self {
            Kept::InPlace(short) => short_with(alloc, short, more),
            Kept::Shared(bytes) => shared(alloc, bytes.as_slice(), more),
        }
    }

    /// The same bytes. Those that are shared have one owner more.
    fn copy(&self) -> Result<Kept, AllocError>
        ensures ok { IfOk result (λ kept. kept_bytes kept ≡ kept_bytes self.now) }
        ensures many { AreManyIfShared self.now → IfOk result AreManyIfShared }
        ensures small { AreManyIfShared self.now → length (kept_bytes self.now) ≤ INLINE_BYTES
            → IsOk result }
    {
        match self {
            Kept::InPlace(short) => Ok(Kept::InPlace(*short)),
            Kept::Shared(bytes) => Ok(Kept::Shared(bytes.clone()?)),
        }
    }

    /// The bytes.
    fn as_slice(&self) -> &[u8]
        ensures { result.now ≡ kept_bytes self.now }
    {
        match self {
            Kept::InPlace(short) => short.as_slice(),
            Kept::Shared(bytes) => bytes.as_slice(),
        }
    }
}

/// Bytes that stand in place and then more.
fn short_with(alloc: Global, short: &Short, more: &[u8]) -> Result<Kept, AllocError>
    requires { length (short_bytes short.now) + length more.now ≤ TEXT_BYTES }
    ensures ok { IfOk result (λ kept. kept_bytes kept ≡ short_bytes short.now ++ more.now) }
    ensures many { IfOk result AreManyIfShared }
    ensures small { FitInPlace (short_bytes short.now) more.now → IsOk result }
{
    if short.as_slice().len() + more.len() <= INLINE_BYTES {
        return Ok(Kept::InPlace(short.with(more)));
    }
    shared(alloc, short.as_slice(), more)
}

/// Bytes and then more, which are too many to stand in place.
fn shared(alloc: Global, front: &[u8], more: &[u8]) -> Result<Kept, AllocError>
    requires short { length front.now + length more.now ≤ TEXT_BYTES }
    requires many { INLINE_BYTES < length front.now + length more.now }
    ensures ok { IfOk result (λ kept. kept_bytes kept ≡ front.now ++ more.now) }
    ensures many { IfOk result AreManyIfShared }
{
    let mut joined = Vec::with_capacity(alloc, front.len() + more.len())?;
    joined.extend_from_slice(front)?;
    joined.extend_from_slice(more)?;
    Ok(Kept::Shared(ArcSlice::from_vec(joined)?))
}

impl Clone for Txt {
    ghost is_clone = { λ text copy. copy ≡ text };

    ghost is_infallible = { λ text. length text ≤ INLINE_BYTES };

    fn clone(&self) -> Result<Self, AllocError> {
        Ok(Txt {
            alloc: self.alloc,
            kept: self.kept.copy()?,
        })
    }
}

impl PartialEq for Txt {
    ghost eq = { pointwise nat_eq };

    ghost laws = { partial_equiv_from_equiv nat_list_eq_equiv };

    fn eq(&self, other: &Self) -> bool {
        self.as_bytes() == other.as_bytes()
    }
}

impl Eq for Txt {
    ghost laws = { nat_list_eq_equiv };
}
