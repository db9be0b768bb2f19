// tables: reads a text and prints its table.
#![tactic(auto)]

use answer::answer;
use console::ending::{done, fail, unreadable};
use console::{Asked, arguments, refusal};
use std::io::Read;
use std::process::ExitCode;
use std::{env, fs, io};

mod answer;

const USAGE: &str = "tables [--bytes] [FILE]";

const HELP: &str = "tables [--bytes] [FILE]

Reads a text from the file or standard input and prints its table, a rule to a line.
  --bytes  the text is in its byte form, and not in the notation
  --help   prints this
";

fn input(rt: &HostRuntime, file: Option<&String>) -> io::Result<Vec<u8>> {
    match file {
        Some(name) => fs::read(rt, name.as_str()),
        None => {
            let mut all = Vec::new(rt.alloc());
            rt.stdin().read_to_end(&mut all)?;
            Ok(all)
        }
    }
}

fn main(rt: HostRuntime) -> io::Result<ExitCode> {
    let heap = rt.alloc();
    let words: Vec<String> = env::args(&rt)?.skip(1).collect(heap)?;
    let (writing, file) = match arguments::read(words.as_slice(), true) {
        Asked::Help => return done(&rt, HELP),
        Asked::Run { writing, files: [] } => (writing, None),
        Asked::Run {
            writing,
            files: [file],
        } => (writing, Some(file)),
        Asked::Run { .. } | Asked::Wrong => {
            return fail(&rt, refusal::misused(heap, "tables", USAGE)?);
        }
    };
    let Ok(all) = input(&rt, file) else {
        return unreadable(&rt, "tables", "the input");
    };
    match answer(heap, writing, all.as_slice()) {
        Ok(lines) => done(&rt, lines.as_str()),
        Err(refusal) => fail(&rt, refusal::refused(heap, "tables", refusal)?),
    }
}
