//! How data in a home are given up, without moves of what isn't there.

use exec_value::Data;
use std::alloc::Global;

// Drops data, out of the way: where they are assigned over, each kind of them is dropped in that
// place.
#[inline(never)]
fn drop_data(place: &mut Data, alloc: Global) {
    *place = Data::empty(alloc);
}

/// Drops the data where they lie. Of none and of one int there is nothing to drop, and these stay.
#[inline(always)]
pub(crate) fn empty_args(args: &mut Data, alloc: Global) {
    if args.one_int().is_none() && !args.as_slice().is_empty() {
        drop_data(args, alloc);
    }
}
