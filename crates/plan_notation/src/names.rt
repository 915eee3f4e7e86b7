//! The names of nodes and jobs in JSON, with what stands behind them.
ghost use Rattle.std.specs.Prelude.{◌≡◌};
ghost use Rattle.plan_notation.specs.Names.{adaptor_name, arithmetic_name, leaf_name, let_name, plain_name};

use plan_parts::{Arithmetic, PlainJob};
use plan_reader::{Adaptor, Leaf, Let};

/// How a node without children begins: its name, and the key of its argument.
pub(crate) fn leaf_name(leaf: Leaf) -> &'static [u8]
    ensures { result.now ≡ leaf_name leaf }
{
    match leaf {
        Leaf::Input => b"{\"do\":\"input\"",
        Leaf::Just => b"{\"do\":\"just\",\"values\":",
        Leaf::JustError => b"{\"do\":\"just_error\",\"error\":",
        Leaf::JustStopped => b"{\"do\":\"just_stopped\"",
        Leaf::Schedule => b"{\"do\":\"schedule\",\"on\":",
        Leaf::Delay => b"{\"do\":\"delay\",\"turns\":",
        Leaf::ReadEnv => b"{\"do\":\"read_env\",\"query\":",
    }
}

/// The name of a node over one child, and the key of its argument.
pub(crate) fn adaptor_name(adaptor: Adaptor) -> &'static [u8]
    ensures { result.now ≡ adaptor_name adaptor }
{
    match adaptor {
        Adaptor::Then => b",\"do\":\"then\",\"job\":",
        Adaptor::UponError => b",\"do\":\"upon_error\",\"job\":",
        Adaptor::UponStopped => b",\"do\":\"upon_stopped\",\"job\":",
        Adaptor::StartsOn => b",\"do\":\"starts_on\",\"on\":",
        Adaptor::ContinuesOn => b",\"do\":\"continues_on\",\"on\":",
        Adaptor::StoppedAsOptional => b",\"do\":\"stopped_as_optional\",\"of\":",
        Adaptor::StoppedAsError => b",\"do\":\"stopped_as_error\",\"error\":",
        Adaptor::Unstoppable => b",\"do\":\"unstoppable\"",
    }
}

/// The name of a node over bodies, and the key of its pick.
pub(crate) fn let_name(binding: Let) -> &'static [u8]
    ensures { result.now ≡ let_name binding }
{
    match binding {
        Let::Value => b",\"do\":\"let_value\",\"pick\":",
        Let::Error => b",\"do\":\"let_error\",\"pick\":",
        Let::Stopped => b",\"do\":\"let_stopped\",\"pick\":",
    }
}

/// The name of a job without constants.
pub(crate) fn plain_name(plain: PlainJob) -> &'static [u8]
    ensures { result.now ≡ plain_name plain }
{
    match plain {
        PlainJob::Neg => b"\"neg\"",
        PlainJob::Index => b"\"index\"",
        PlainJob::Iota => b"\"iota\"",
        PlainJob::Sum => b"\"sum\"",
        PlainJob::Join => b"\"join\"",
        PlainJob::Length => b"\"length\"",
        PlainJob::Parse => b"\"parse\"",
        PlainJob::Show => b"\"show\"",
        PlainJob::Pass => b"\"pass\"",
    }
}

/// The name of a job with one number.
pub(crate) fn arithmetic_name(arithmetic: Arithmetic) -> &'static [u8]
    ensures { result.now ≡ arithmetic_name arithmetic }
{
    match arithmetic {
        Arithmetic::Add => b"\"add\"",
        Arithmetic::Sub => b"\"sub\"",
        Arithmetic::Mul => b"\"mul\"",
        Arithmetic::Div => b"\"div\"",
    }
}
