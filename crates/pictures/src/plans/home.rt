//! The contexts in which a node may be.
ghost use Rattle.std.specs.Prelude.{◌≡◌};
ghost use Rattle.pictures.specs.Plans.Homes.{border_of, either, fill_of, one_home};

use node_tree::Context;

/// The contexts in which a node may be.
#[derive(Clone, Copy)]
pub(crate) enum Home {
    /// The run loop ([exec.run.loop]).
    Loop,
    /// The pool.
    Pool,
    /// One of the two.
    Either,
}

/// This context and no other.
pub(crate) fn one_home(on: Context) -> Home
    ensures { result ≡ one_home on }
{
    match on {
        Context::Loop => Home::Loop,
        Context::Pool => Home::Pool,
    }
}

/// The contexts of both.
pub(crate) fn either(first: Home, second: Home) -> Home
    ensures { result ≡ either first second }
{
    match (first, second) {
        (Home::Loop, Home::Loop) => Home::Loop,
        (Home::Pool, Home::Pool) => Home::Pool,
        _ => Home::Either,
    }
}

/// The colour of a box whose node is started there.
pub(crate) fn fill_of(home: Home) -> &'static str
    ensures { result.now ≡ fill_of home }
{
    match home {
        Home::Loop => "#d0e4ff",
        Home::Pool => "#ffe3c2",
        Home::Either => "#e6d5f5",
    }
}

/// The colour of the border of a box whose node completes there.
pub(crate) fn border_of(home: Home) -> &'static str
    ensures { result.now ≡ border_of home }
{
    match home {
        Home::Loop => "#1f5fbf",
        Home::Pool => "#c05a00",
        Home::Either => "#7030a0",
    }
}
