//! What nodes without a child complete with.
ghost use Rattle.std.specs.Prelude.{◌≡◌, []};
ghost use Rattle.exec_value.specs.declared.outcome.Completion.{Completion};
ghost use Rattle.plan_rules.specs.Settle.{shown_of, unless_asked};
ghost use Rattle.node_images.specs.Makes.{Makes};

use exec_value::{Completion, Data, Datum, Txt, copy_data};
use plan_rules::Query;
use std::alloc::{AllocError, Global};

/// The value of these data ([exec.just]).
pub fn put_value(alloc: Global, values: &Data, done: &mut Completion) -> Result<(), AllocError>
    ensures { Makes (Completion.Value values.now) done.new result }
{
    done.put(Completion::Value(copy_data(alloc, values)?));
    Ok(())
}

/// The error of this name.
pub fn put_error(name: &Txt, done: &mut Completion) -> Result<(), AllocError>
    ensures { Makes (Completion.Error name.now) done.new result }
{
    done.put(Completion::error(name.clone()?));
    Ok(())
}

/// Stopped.
pub fn put_stopped(done: &mut Completion)
    ensures { done.new ≡ Completion.Stopped }
{
    done.put(Completion::Stopped);
}

/// What a node completes with that a context takes up: no data, unless a stop was asked.
pub fn put_scheduled(alloc: Global, asked: bool, done: &mut Completion)
    ensures { done.new ≡ unless_asked asked (Completion.Value []) }
{
    if asked {
        done.put(Completion::Stopped);
    } else {
        done.put(Completion::Value(Data::empty(alloc)));
    }
}

/// What the environment shows of a record of this number ([exec.read.env]).
pub fn put_shown(alloc: Global, query: Query, number: u32, asked: bool, done: &mut Completion)
    ensures { done.new ≡ shown_of query number asked }
{
    let shown = match query {
        Query::Stop => i64::from(asked),
        Query::Record => i64::from(number),
    };
    done.put(Completion::Value(Data::one(alloc, Datum::Int(shown))));
}
