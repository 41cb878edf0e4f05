//! One line for a file.
ghost use Rattle.std.specs.Prelude.{IfOk, string_bytes};
ghost use Rattle.plan_line.specs.Lines.{LineOf};

use archive::read;
use std::alloc::{AllocError, Global};

/// The line that tells the form of the first signer of a file, or why the file is refused; or want of memory.
pub fn tell_form(heap: Global, file: &[u8]) -> Result<String, AllocError>
    ensures { IfOk result (λ text. LineOf file.now (string_bytes text)) }
{
    match read(file, file.len(), 0) {
        Ok(reading) => format!(in heap; "{reading}\n"),
        Err(refusal) => format!(in heap; "{refusal}\n"),
    }
}
