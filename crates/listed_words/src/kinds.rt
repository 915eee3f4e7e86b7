//! What each kind of step leaves, by its operands and the number found.
ghost use Rattle.std.specs.Prelude.{ℕ, ◌+◌, ◌-◌, ◌%◌, ◌^◌, ◌==◌, bit_or};
ghost use prog.Atomic.{either};

/// A kind of step.
pub(crate) trait Kind {
    /// What it leaves, of the two operands and the number found.
    ghost leaves: { ℕ → ℕ → ℕ → ℕ };
}

pub(crate) struct Load;

impl Kind for Load {
    ghost leaves = { λ first second n. n };
}

pub(crate) struct Swap;

impl Kind for Swap {
    ghost leaves = { λ first second n. first };
}

pub(crate) struct FetchOr;

impl Kind for FetchOr {
    ghost leaves = { λ first second n. bit_or n first };
}

pub(crate) struct FetchAdd;

impl Kind for FetchAdd {
    ghost leaves = { λ first second n. (n + first) % 2 ^ 64 };
}

pub(crate) struct FetchSub;

impl Kind for FetchSub {
    ghost leaves = { λ first second n. (n + (2 ^ 64 - first)) % 2 ^ 64 };
}

pub(crate) struct CompareExchange;

impl Kind for CompareExchange {
    ghost leaves = { λ first second n. either (n == first) second n };
}
