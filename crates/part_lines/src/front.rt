//! How the front of a file is read.
ghost use Rattle.std.specs.Prelude.{◌≡◌, ◌≤◌, ◌<◌, List, ℕ, Some, length, take, IfOk, OnOk};
ghost use Rattle.exec_io.specs.Causes.{HasCause};

use crate::folder::Folder;
use exec_io::Failed;

/// Reads a file into a buffer, until it is full or the file ends. It says how many bytes it read.
pub fn read_front<F: Folder>(
    folder: &mut F,
    file: &mut F::File,
    buf: &mut [u8],
) -> Result<usize, Failed>
    ensures within { IfOk result (λ n. n ≤ length buf.new) }
    ensures front { (text : List ℕ) → F.left file.old ≡ Some text
        → IfOk result (λ n. take n buf.new ≡ take (length buf.new) text) }
    ensures same { (F.told folder.new).texts ≡ (F.told folder.old).texts }
    ensures cause { HasCause (F.told folder.old).faults (F.told folder.new).faults result }
{
    let mut count = 0;
    while count < buf.len() {
        let read = folder.read(file, &mut buf[count..])?;
        if read == 0 {
            return Ok(count);
        }
        count += read;
    }
    Ok(count)
}
