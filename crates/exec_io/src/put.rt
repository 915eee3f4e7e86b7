//! How bytes are put into a sink.
ghost use Rattle.exec_io.specs.Writing.{Puts};

use crate::{Failed, Sink};

/// Writes all the bytes, in as many writes as the sink wants. It takes no memory.
///
/// `Failed` comes only where the sink's count of faults rose, and then a front of the bytes was
/// appended.
pub fn put_bytes<K: Sink>(bytes: &[u8], sink: &mut K) -> Result<(), Failed>
    ensures { Puts (K.told sink.old) (K.told sink.new) result bytes.now }
{
    let mut done = 0;
    while done < bytes.len() {
        done += sink.write(&bytes[done..])?;
    }
    Ok(())
}
