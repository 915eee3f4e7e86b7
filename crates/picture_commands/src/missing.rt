//! The name of a file that wasn't read.
ghost use Rattle.std.specs.Prelude.{◌≤◌, OnOk, OnErr};
ghost use Rattle.exec_io.specs.Writing.{Puts};
ghost use Rattle.exec_status.specs.Sinks.{TellsAll, TellsFront};
ghost use Rattle.picture_commands.specs.Shows.{missing_text, Names};

use exec_io::{Failed, Sink, put_bytes};
use exec_status::Status;

/// Names the file where it wasn't read, as far as notes take it.
pub(crate) fn name_missing<N: Sink>(status: Status, name: &str, notes: &mut N)
    ensures later { (N.told notes.old).faults ≤ (N.told notes.new).faults }
    ensures names { Names status name.now (N.told notes.old) (N.told notes.new) }
{
    if status == Status::ReadFault {
        let _ = tell_missing(name, notes);
    }
}

// Tells the name of a file that wasn't read.
fn tell_missing<N: Sink>(name: &str, notes: &mut N) -> Result<(), Failed>
    ensures later { (N.told notes.old).faults ≤ (N.told notes.new).faults }
    ensures ok { OnOk result
        (TellsAll (N.told notes.old) (N.told notes.new) (missing_text name.now)) }
    ensures err { OnErr result
        (TellsFront (N.told notes.old) (N.told notes.new) (missing_text name.now)) }
{
    put_missing(name, notes)?;
    notes.finish()
}

// Writes the line that names it.
fn put_missing<N: Sink>(name: &str, notes: &mut N) -> Result<(), Failed>
    ensures { Puts (N.told notes.old) (N.told notes.new) result (missing_text name.now) }
{
    put_bytes(b"cannot read ", notes)?;
    put_name(name, notes)?;
    put_bytes(b"\n", notes)
}

// Writes the name.
fn put_name<N: Sink>(name: &str, notes: &mut N) -> Result<(), Failed>
    ensures { Puts (N.told notes.old) (N.told notes.new) result name.now }
{
    put_bytes(name.as_bytes(), notes)
}
