//! What a text in the notation is.
ghost use Rattle.std.specs.Prelude.{◌≡◌, MatchResult, Ok};
ghost use Rattle.plan_notation.specs.Arguments.{IsTokenFault};
ghost use Rattle.plan_notation.specs.Machine.{Steps, start_input};
ghost use Rattle.plan_notation.specs.Reading.{reads_if_done, reads_at_end, lacking, last_begun, read_in, run_tokens};

use crate::frame::Spot;
use crate::grammar::wanted_by_setting;
use crate::machine::{Expect, Machine};
use crate::wanted::{Fault, Wanted, refused};
use plan_words::{Token, tokens_of};
use std::alloc::Global;
use std::marker::Model;

/// What was read: the JSON of a plan file, and where its nodes stand, each behind those below it.
#[derive(Drop)]
pub struct Read {
    pub json: Vec<u8>,
    pub spots: Vec<Spot>,
    /// How many bytes stand before the setting of the scope, if there is one.
    pub scope_at: usize,
}

impl Model for Read {
    ghost use Rattle.plan_notation.specs.Reading.{TextRead};

    ghost Value = { TextRead };

    ghost view = { λ r. record {
      json = r.json.items;
      spots = r.spots.items;
      scope_at = r.scope_at;
    } };
}

/// Reads a text in the notation, or tells the first token that is refused.
pub fn read_text(alloc: Global, text: &[u8]) -> Result<Read, Fault>
    ensures { MatchResult result (λ reads. read_in text.now ≡ Ok reads)
        (IsTokenFault (read_in text.now)) }
{
    let tokens = tokens_of(alloc, text)?;
    let mut machine = Machine::new(alloc)?;
    run(&mut machine, &tokens)?;
    finished(alloc, machine, text.len())
}

/// All tokens, in order.
fn run(machine: &mut Machine, tokens: &[Token]) -> Result<(), Fault>
    ensures { Steps (run_tokens tokens.now machine.old) machine.new result }
{
    'tokens: for token in tokens {
        machine.step(token)?;
    }
    Ok(())
}

/// The end of the text, behind so many bytes.
fn finished(alloc: Global, mut machine: Machine, end: usize) -> Result<Read, Fault>
    ensures { MatchResult result (λ reads. reads_at_end end machine ≡ Ok reads)
        (IsTokenFault (reads_at_end end machine)) }
{
    begin_last(&mut machine)?;
    ends(alloc, machine, end)
}

/// An `input` that stands last is a node.
fn begin_last(machine: &mut Machine) -> Result<(), Fault>
    ensures { Steps (last_begun machine.old.expect machine.old) machine.new result }
{
    match machine.expect() {
        Expect::Input(at) => machine.start_input(at),
        _ => Ok(()),
    }
}

/// The text ends behind a sender that no node has as an argument.
#[tactic(auto, using(crate::proofs::Ends::whole_texts))]
fn ends(alloc: Global, machine: Machine, end: usize) -> Result<Read, Fault>
    ensures { MatchResult result (λ reads. reads_if_done end machine ≡ Ok reads)
        (IsTokenFault (reads_if_done end machine)) }
{
    if !machine.is_done() {
        return Err(refused(end, lacking(machine.expect())));
    }
    let json = machine.json(alloc)?;
    let scope_at = machine.scope_at();
    let spots = machine.into_spots();
    Ok(Read {
        json,
        spots,
        scope_at,
    })
}

/// What is wanted where the text ends too early.
fn lacking(expect: Expect) -> Wanted
    ensures { result ≡ lacking expect }
{
    match expect {
        Expect::Start => Wanted::Sender,
        Expect::Setting(setting, _) => wanted_by_setting(setting),
        Expect::Adaptor => Wanted::Adaptor,
        Expect::Bracket => Wanted::Bracket,
        _ => Wanted::Separator,
    }
}
