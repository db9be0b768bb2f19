// The lines that a program writes to standard error.
ghost use Rattle.std.specs.Prelude.{◌≡◌, IfOk, string_bytes};
ghost use Rattle.console.specs.Lines.{refusal_line, unreadable_line, misused_line};

use notation::Refusal;
use std::alloc::{AllocError, Global};

// Names the program, the line where one is at fault, the number and the cause.
pub fn refused(heap: Global, program: &str, refusal: Refusal) -> Result<String, AllocError>
    ensures made { IfOk result (λ s. string_bytes s ≡ refusal_line program.now refusal) }
{
    format!(in heap; "{program}: {refusal}")
}

pub fn unreadable(heap: Global, program: &str, file: &str) -> Result<String, AllocError>
    ensures made { IfOk result (λ s. string_bytes s ≡ unreadable_line program.now file.now) }
{
    format!(in heap; "{program}: {file}: can't be read")
}

pub fn misused(heap: Global, program: &str, usage: &str) -> Result<String, AllocError>
    ensures made { IfOk result (λ s. string_bytes s ≡ misused_line program.now usage.now) }
{
    format!(in heap; "{program}: bad arguments; usage: {usage}")
}
