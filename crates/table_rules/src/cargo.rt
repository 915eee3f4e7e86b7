//! What the homes of a table hold, as far as the table's rule reads it.
ghost use Rattle.std.specs.Prelude.{List, ℕ, ℤ, ◌<◌, Bool, true, false};

/// An item of a home: a start, a rest or a completion of an operation's node ([exec.opstate]). The
/// table moves items and never looks into one; these meanings are for contracts alone.
pub trait Cargo: Send + Drop {
    /// The plain data of one node of a start.
    type Entry;
    /// What a table is opened over.
    type Over;

    /// The start that the item shows: its node's entry first, and then its parent's start.
    ghost start: { Self → List Self.Entry };

    /// The item is a completion.
    ghost ends: { Self → Type 0 };

    /// What the full home of this node keeps, where a stop was requested above it or wasn't. Asked
    /// with the parent's number it says that the item failed, and with false that it saw no
    /// request.
    ghost fits: { Self → ℕ → Bool → Type 0 };

    /// So many children the last await must have named when the node is left with this item.
    ghost least: { Self → ℕ };

    /// The full home of this node may keep the item while the node rests, ready in a context or
    /// parked.
    ghost rests: { Self → ℕ → Type 0 };

    /// The part of a start that all starts in one table share.
    ghost key: { List Self.Entry → Self.Over };

    /// What a parent's item fixes for the children that an await names; mostly nothing.
    ghost lot: { Self → List ℤ };

    /// The same, as a child's start shows it.
    ghost drawn: { List Self.Entry → List ℤ };

    /// What fits where nothing was requested fits where something was.
    ghost widens: { (item : Self) (node : ℕ) → fits item node false → fits item node true };

    /// An item that saw no request, and that failed, failed without a request. The parent of a node
    /// has the greater number.
    ghost blames: { (item : Self) (node parent : ℕ) → node < parent → fits item node false →
        fits item parent true → fits item parent false };
}
