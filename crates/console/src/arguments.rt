// The words behind a program's name: options first, then files.
ghost use Rattle.std.specs.Prelude.{◌≡◌, map, string_bytes};
ghost use Rattle.console.specs.declared.input.Writing.TheVariants.{Notation};
ghost use Rattle.console.specs.Words.{asked, told, word_of};

use crate::input::Writing;

#[derive(Clone, Copy, Debug)]
pub enum Asked<'a> {
    // How the program is used.
    Help,
    // How the files are written, and their names.
    Run {
        writing: Writing,
        files: &'a [String],
    },
    // An option that the program has not.
    Wrong,
}

// What one word is, where `may` says whether `--bytes` is an option.
#[derive(Clone, Copy)]
enum Word {
    AskHelp,
    AskBytes,
    Unknown,
    File,
}

fn word_of(word: &str, may: bool) -> Word
    ensures value { result ≡ word_of may word.now }
{
    if word == "--help" {
        Word::AskHelp
    } else if may && word == "--bytes" {
        Word::AskBytes
    } else if word.starts_with('-') {
        Word::Unknown
    } else {
        Word::File
    }
}

// What the words ask for.
pub fn read(words: &[String], may: bool) -> Asked<'_>
    ensures value { told result ≡ asked may Notation (map string_bytes words.now) }
{
    let mut writing = Writing::Notation;
    let mut files = words;
    while let [word, rest @ ..] = files {
        match word_of(word.as_str(), may) {
            Word::AskHelp => return Asked::Help,
            Word::AskBytes => writing = Writing::Bytes,
            Word::Unknown => return Asked::Wrong,
            Word::File => break,
        }
        files = rest;
    }
    Asked::Run { writing, files }
}
