//! Marks of places, a bit for each, the lowest of a word first.
ghost use Rattle.std.specs.Prelude.{◌≡◌, ◌≢◌, ℕ, ◌*◌, ◌<◌, ◌≤◌, true, false, length, MatchOption};
ghost use Rattle.name_set.specs.Sets.{is_marked, NoneBelow, IsFirst};

// Marks the place.
pub(crate) fn mark(bits: &mut [u64], place: usize)
    requires { place < 64 * length bits.old }
    ensures length { length bits.new ≡ length bits.old }
    ensures marked { is_marked bits.new place ≡ true }
    ensures others { (k : ℕ) → k ≢ place → is_marked bits.new k ≡ is_marked bits.old k }
{
    bits[place / 64] |= 1u64 << (place % 64);
}

// Takes the place's mark away.
pub(crate) fn unmark(bits: &mut [u64], place: usize)
    requires { place < 64 * length bits.old }
    ensures length { length bits.new ≡ length bits.old }
    ensures unmarked { is_marked bits.new place ≡ false }
    ensures others { (k : ℕ) → k ≢ place → is_marked bits.new k ≡ is_marked bits.old k }
{
    bits[place / 64] &= !(1u64 << (place % 64));
}

// Whether the place is marked.
pub(crate) fn is_marked(bits: &[u64], place: usize) -> bool
    requires { place < 64 * length bits.now }
    ensures { result ≡ is_marked bits.now place }
{
    (bits[place / 64] >> (place % 64)) & 1 == 1
}

// The first place that is marked.
pub(crate) fn first_marked(bits: &[u64]) -> Option<usize>
    requires { length bits.now ≤ 65536 }
    ensures { MatchOption result (NoneBelow bits.now (64 * length bits.now)) (IsFirst bits.now) }
{
    for index in 0..bits.len() {
        let word = bits[index];
        if word != 0 {
            return Some(index * 64 + word.trailing_zeros() as usize);
        }
    }
    None
}
