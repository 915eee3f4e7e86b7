//! Rows: lists of at most 4,096 numbers.
ghost use Rattle.std.specs.Prelude.{◌≡◌, ◌≢◌, ◌<◌, ◌≤◌, ◌↔◌, [], ◌∷◌, length, vec_len, IsOk, IfOk, Err};
ghost use Rattle.std.specs.Cmp.{partial_equiv_from_equiv, int_eq_equiv};
ghost use Rattle.std.specs.Cmp.Lexicographic.{pointwise, lists_per, lists_equiv};
ghost use Rattle.std.specs.Ordering.{int_eq};
ghost use Rattle.exec_value.specs.declared.limits.TheConstants.{NUMBERS};

use crate::fault::RecordFault;
use crate::limits::NUMBERS;
use std::alloc::{AllocError, Global};
use std::marker::Model;
use std::slice;
use std::sync::ArcSlice;

/// A row: a list of at most 4,096 numbers. A row of one number stands in place and needs no
/// allocation. The copies of another share its numbers, so that a copy counts one owner more and
/// takes no memory.
#[derive(Debug, Drop)]
pub struct Nums {
    row: Row,
}

/// How the numbers of a row are kept.
#[derive(Debug, Drop)]
enum Row {
    One(i64),
    Shared(ArcSlice<i64>),
}

impl Model for Nums {
    ghost use Rattle.std.specs.Prelude.{◌≤◌, List, ℤ, length};
    ghost use Rattle.exec_value.specs.Rows.{row_numbers};
    ghost use Rattle.exec_value.specs.declared.limits.TheConstants.{NUMBERS};

    ghost Value = { List ℤ };

    ghost view = { λ n. row_numbers n.row };

    ghost invariant = { λ n. length (row_numbers n.row) ≤ NUMBERS };
}

impl Nums {
    /// The row of one number. It takes no memory.
    #[inline(always)]
    pub fn one(number: i64) -> Nums
        ensures { result ≡ number ∷ [] }
    {
        Nums {
            row: Row::One(number),
        }
    }

    /// The row of these numbers. `Bad` exactly where there are more than 4,096. One number takes no
    /// memory.
    pub fn from_slice(alloc: Global, numbers: &[i64]) -> Result<Nums, RecordFault>
        ensures ok { IfOk result (λ row. row ≡ numbers.now) }
        ensures bad { (result ≡ Err RecordFault.Bad) ↔ (NUMBERS < length numbers.now) }
        ensures small { length numbers.now ≡ 1 → result ≢ Err RecordFault.NoMemory }
    {
        if numbers.len() > NUMBERS {
            return Err(RecordFault::Bad);
        }
        if let [number] = numbers {
            return Ok(Nums::one(*number));
        }
        Ok(Nums {
            row: Row::Shared(ArcSlice::from_slice(alloc, numbers)?),
        })
    }

    /// The row of these numbers. It takes the memory of a count of owners, but for one number none.
    pub fn from_vec(numbers: Vec<i64>) -> Result<Nums, AllocError>
        requires { vec_len numbers ≤ NUMBERS }
        ensures ok { IfOk result (λ row. row ≡ numbers.items) }
        ensures small { vec_len numbers ≡ 1 → IsOk result }
    {
        if let [number] = numbers.as_slice() {
            return Ok(Nums::one(*number));
        }
        Ok(Nums {
            row: Row::Shared(ArcSlice::from_vec(numbers)?),
        })
    }

    // The row is of one number, which stands in place.
    #[inline(always)]
    pub(crate) fn is_in_place(&self) -> bool {
        matches!(self.row, Row::One(_))
    }

    /// The numbers.
    pub fn as_slice(&self) -> &[i64]
        ensures numbers { result.now ≡ self.now }
        ensures few { length self.now ≤ NUMBERS }
    {
        match &self.row {
            Row::One(number) => slice::from_ref(number),
            Row::Shared(numbers) => numbers.as_slice(),
        }
    }
}

impl Clone for Nums {
    ghost is_clone = { λ row copy. copy ≡ row };

    fn clone(&self) -> Result<Self, AllocError> {
        let row = match &self.row {
            Row::One(number) => Row::One(*number),
            Row::Shared(numbers) => Row::Shared(numbers.clone()?),
        };
        Ok(Nums { row })
    }
}

impl PartialEq for Nums {
    ghost eq = { pointwise int_eq };

    ghost laws = { lists_per (partial_equiv_from_equiv int_eq_equiv) };

    fn eq(&self, other: &Self) -> bool {
        self.as_slice() == other.as_slice()
    }
}

impl Eq for Nums {
    ghost laws = { lists_equiv int_eq_equiv };
}
