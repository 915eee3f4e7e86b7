//! The first bytes of a text, to be told.
ghost use Rattle.std.specs.Prelude.{◌≤◌};
ghost use Rattle.join_commands.specs.declared.front.TheConstants.{FRONT};

/// How many bytes of a text are told at most.
pub(crate) const FRONT: usize = 9;

/// The first bytes of a text, to be told.
#[derive(Clone, Copy)]
pub(crate) struct Front {
    pub(crate) bytes: [u8; FRONT],
    pub(crate) count: usize,
    ghost within: { count ≤ FRONT },
}
