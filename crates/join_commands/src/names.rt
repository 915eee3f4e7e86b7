//! The files of a part.
ghost use Rattle.std.specs.Prelude.{◌≡◌, IfOk, string_bytes};
ghost use Rattle.join_commands.specs.Parts.{out_name, status_name};

use std::alloc::{AllocError, Global};

/// The name of the file that a run wrote for this part.
pub(crate) fn out_name(alloc: Global, name: &str) -> Result<String, AllocError>
    ensures { IfOk result (λ text. string_bytes text ≡ out_name name.now) }
{
    let mut text = String::from_str(alloc, name)?;
    text.push_str(".out")?;
    Ok(text)
}

/// The name of the file with the status of that run.
pub(crate) fn status_name(alloc: Global, name: &str) -> Result<String, AllocError>
    ensures { IfOk result (λ text. string_bytes text ≡ status_name name.now) }
{
    let mut text = String::from_str(alloc, name)?;
    text.push_str(".status")?;
    Ok(text)
}
