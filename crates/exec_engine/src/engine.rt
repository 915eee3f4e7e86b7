//! The top call: from words to what they ask for, and a status.
ghost use Rattle.std.specs.Prelude.{◌≡◌, ◌↔◌, None, IfSome, vec_len};
ghost use Rattle.exec_words.specs.Command.{command_of};
ghost use Rattle.exec_words.specs.declared.number.TheConstants.{MOST_WORKERS};
ghost use Rattle.exec_engine.specs.Commands.{CommandEnds, UsageEnds};
ghost use Rattle.exec_engine.specs.Surroundings.{told_by};

use crate::running::run_task;
use crate::system::System;
use crate::tally::Tally;
use crate::task::Task;
use exec_io::{Shelf, Sink};
use exec_recv::Gate;
use exec_status::{Status, refuse};
use exec_words::{Command, read_words, usage_lines};
use pool_backends::Backend;
use record_loop::RecordSource;
use std::alloc::Global;
use std::sync::Wait;
use std::thread::Threads;
use trace_commands::{check_file, replay_file};

/// Does what the words ask for, and gives the status that this ends with.
///
/// The shelf is asked for the one file that the words name. A run has as many workers as the words
/// say, each with the backend of its number ([exec.sysctxrepl.psb]): one is handed in for each
/// worker that there may be, and all are dropped by the end. Nothing is asked of a backend, and
/// nothing of the gate, which is passed at each point of the run.
///
/// Afterwards the tally tells of this call alone, whatever it held before: the operations that a
/// run collected from its table, one for each line that shows a completion, how that table was
/// closed, and in which order backends were given out to its workers.
pub fn run<R: Threads + Wait + Sync, F: Shelf, S: RecordSource, K: Sink, N: Sink, G: Gate + Sync>(
    rt: &R,
    alloc: Global,
    words: &[&str],
    system: &mut System<F, S, K, N>,
    backends: Vec<Box<dyn Backend + Send>>,
    gate: &G,
    tally: &mut Tally,
) -> Status
    requires { vec_len backends ≡ MOST_WORKERS }

    // Words that ask for nothing are a fault of usage, and no others are: it is told how the
    // program is called, nothing is read, nothing is done to out, and nothing is counted.
    ensures usage { (result ≡ Status.Usage) ↔ (command_of words.now ≡ None) }
    ensures told { command_of words.now ≡ None → UsageEnds
        (told_by F.told S.told S.reads K.told N.told system.old)
        (told_by F.told S.told S.reads K.told N.told system.new) tally.new result }

    // A command ends as its definition says.
    ensures ends { IfSome (command_of words.now) (CommandEnds
        (told_by F.told S.told S.reads K.told N.told system.old)
        (told_by F.told S.told S.reads K.told N.told system.new) tally.new result) }
{
    *tally = Tally::new();
    let Some(command) = read_words(words) else {
        drop(backends);
        refuse(usage_lines(), &mut system.notes);
        return Status::Usage;
    };
    match command {
        Command::Run {
            plan,
            options,
            summary,
        } => {
            let task = Task::of_run(plan, options, summary);
            run_task(rt, alloc, task, system, backends, gate, tally)
        }
        Command::Gen {
            plan,
            records: count,
            options,
        } => {
            let task = Task::of_gen(plan, count, options);
            run_task(rt, alloc, task, system, backends, gate, tally)
        }
        Command::Replay { file } => {
            drop(backends);
            let System {
                shelf,
                out,
                notes,
                ..
            } = system;
            replay_file(alloc, file, shelf, out, notes)
        }
        Command::Check { file } => {
            drop(backends);
            let System {
                shelf,
                out,
                notes,
                ..
            } = system;
            check_file(alloc, file, shelf, out, notes)
        }
    }
}
