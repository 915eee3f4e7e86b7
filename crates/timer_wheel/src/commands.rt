//! A wheel's calls as values, and what a whole list of them does.
ghost use Rattle.std.specs.Prelude.{◌≡◌, ◌+◌, ◌<◌, ◌≤◌, true, All, count_by, IfOk, OnErr};
ghost use Rattle.timer_wheel.specs.Pairs.{places};
ghost use Rattle.timer_wheel.specs.Commands.{IsCommandFor, is_advance, Step, Run};
ghost use Rattle.timer_wheel.specs.declared.limits.TheConstants.{LAST_TURN};

use crate::wheel::Wheel;
use std::alloc::{AllocError, Global};

/// A call of a wheel.
#[derive(Clone, Copy, Debug, PartialEq, Eq)]
pub enum Command {
    /// `Wheel::add`, with these numbers.
    Add { place: u32, turns: u32 },
    /// `Wheel::remove`, with this place.
    Remove { place: u32 },
    /// `Wheel::advance`.
    Advance,
    /// `Wheel::due`.
    Due,
}

/// What a call answers.
#[derive(Clone, Copy, Debug, PartialEq, Eq)]
pub enum Reply {
    /// Whether the pair was added.
    Added(bool),
    /// Whether a pair was removed.
    Removed(bool),
    /// The next turn has begun.
    Advanced,
    /// The place whose pair was taken out, if any pair's turn had come.
    Taken(Option<u32>),
}

/// Makes these calls in order, and answers their replies in that order. Whatever the calls are,
/// what they answer and leave is what a plain list of pairs would. It fails only for want of
/// memory, and then has made none of them.
pub fn run(alloc: Global, wheel: &mut Wheel, commands: &[Command]) -> Result<Vec<Reply>, AllocError>
    requires commands { All (IsCommandFor (places wheel.old)) commands.now }
    requires turns { wheel.old.turn + count_by is_advance commands.now ≤ LAST_TURN }
    ensures ok { IfOk result (λ replies. Run wheel.old commands.now replies.items wheel.new) }
    ensures err { OnErr result (wheel.new ≡ wheel.old) }
{
    let mut replies = Vec::with_capacity(alloc, commands.len())?;
    for command in commands {
        replies.push(step(wheel, *command)).unwrap();
    }
    Ok(replies)
}

// Makes one call.
fn step(wheel: &mut Wheel, command: Command) -> Reply
    requires command { IsCommandFor (places wheel.old) command }
    requires turn { is_advance command ≡ true → wheel.old.turn < LAST_TURN }
    ensures { Step wheel.old command result wheel.new }
{
    match command {
        Command::Add { place, turns } => Reply::Added(wheel.add(place, turns)),
        Command::Remove { place } => Reply::Removed(wheel.remove(place)),
        Command::Advance => {
            wheel.advance();
            Reply::Advanced
        }
        Command::Due => Reply::Taken(wheel.due()),
    }
}
