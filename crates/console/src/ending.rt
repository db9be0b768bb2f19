// How a program ends: what it prints last, and its status. No clause can say what a stream is given, so these say the status alone.
ghost use Rattle.std.specs.Prelude.{◌≡◌, IfOk};

use crate::refusal;
use std::io;
use std::process::ExitCode;

// A text to standard output, and status 0.
pub fn done<R: Print>(rt: &R, text: &str) -> io::Result<ExitCode>
    ensures status { IfOk result (λ code. code.status ≡ 0) }
{
    rt.print(text)?;
    Ok(ExitCode::SUCCESS)
}

// A line to standard error, and status 1.
pub fn fail<R: Eprint>(rt: &R, line: String) -> io::Result<ExitCode>
    ensures status { IfOk result (λ code. code.status ≡ 1) }
{
    rt.eprintln(line)?;
    Ok(ExitCode::FAILURE)
}

// A file or a stream that can't be read.
pub fn unreadable<R: Eprint + AllocGlobal>(
    rt: &R,
    program: &str,
    file: &str,
) -> io::Result<ExitCode>
    ensures status { IfOk result (λ code. code.status ≡ 1) }
{
    fail(rt, refusal::unreadable(rt.alloc(), program, file)?)
}
