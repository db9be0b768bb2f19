// differ: reads two texts and prints the smallest packet whose copies differ, or that there is none.
#![tactic(auto)]

use answer::answer;
use console::ending::{done, fail, unreadable};
use console::{Asked, Writing, arguments, refusal};
use std::process::ExitCode;
use std::{env, fs, io};

mod answer;
mod lines;

const USAGE: &str = "differ [--bytes] FILE FILE";

const HELP: &str = "differ [--bytes] FILE FILE

Reads two texts and prints `same`, or the smallest packet whose copies differ, with both sets.
  --bytes  the texts are in their byte form, and not in the notation
  --help   prints this
";

// Where the second file can't be read the first is tested all the same.
fn compare(
    rt: &HostRuntime,
    writing: Writing,
    first: &String,
    second: &String,
) -> io::Result<ExitCode> {
    let heap = rt.alloc();
    let Ok(one) = fs::read(rt, first.as_str()) else {
        return unreadable(rt, "differ", first.as_str());
    };
    let two = fs::read(rt, second.as_str()).ok();
    let there = two.as_ref().unwrap_or(&one);
    match answer(heap, writing, one.as_slice(), there.as_slice()) {
        Ok(lines) => if two.is_some() {
            done(rt, lines.as_str())
        } else {
            unreadable(rt, "differ", second.as_str())
        },
        Err(refusal) => fail(rt, refusal::refused(heap, "differ", refusal)?),
    }
}

fn main(rt: HostRuntime) -> io::Result<ExitCode> {
    let heap = rt.alloc();
    let words: Vec<String> = env::args(&rt)?.skip(1).collect(heap)?;
    match arguments::read(words.as_slice(), true) {
        Asked::Help => done(&rt, HELP),
        Asked::Run {
            writing,
            files: [first, second],
        } => compare(&rt, writing, first, second),
        Asked::Run { .. } | Asked::Wrong => fail(&rt, refusal::misused(heap, "differ", USAGE)?),
    }
}
