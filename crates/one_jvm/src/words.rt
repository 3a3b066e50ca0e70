//! The words of a call.

ghost use Rattle.std.specs.Prelude.{◌≡◌, [], length, map, option_map, IfOk, MatchResult};
ghost use Rattle.command_words.specs.Reading.{line_of_words};
ghost use Rattle.one_jvm.specs.Words.{strings_of, strings_in, asked_in, IsCall, IsNoCall, name_at, texts};
ghost use Rattle.one_jvm.specs.Steps.Parts.{IsMisread, IsNamedBy, asked_by};
ghost use Rattle.std.specs.Str.{chars};

use crate::main_class::push_char;
use crate::outcome::{Refusal, place_of};
use command_words::{Command, Words, WordsErr};
use jvm_base::{List, NoMemory, Units};
use std::alloc::Global;

/// What the words of a call ask for: a command, the main class, where they name it, the strings for
/// `main`, how many steps each thread may take, whether the order is to be shown, and files.
#[derive(Drop)]
pub(crate) struct Request<'a> {
    command: Command,
    main: Option<&'a str>,
    args: List<Units>,
    steps: u32,
    shows: bool,
    files: Vec<&'a str>,
}

impl<'a> Request<'a> {
    /// What is to be done with the files.
    pub(crate) fn command(&self) -> Command
        ensures { result ≡ (asked_by self.now).command }
    {
        self.command
    }

    /// The value of `--main`, where it is there.
    pub(crate) fn main(&self) -> Option<&'a str>
        ensures { option_map (λ m. m.now) result ≡ (asked_by self.now).main }
    {
        self.main
    }

    /// The strings for `main`.
    pub(crate) fn strings(&self) -> &[Units]
        ensures { result.now ≡ (asked_by self.now).args }
    {
        self.args.as_slice()
    }

    /// How many steps each thread may take.
    pub(crate) fn steps(&self) -> u64
        ensures { result ≡ (asked_by self.now).steps }
    {
        self.steps as u64
    }

    /// Whether the order of the steps is to be shown.
    pub(crate) fn shows(&self) -> bool
        ensures { result ≡ (asked_by self.now).shows }
    {
        self.shows
    }

    /// How many files there are.
    pub(crate) fn count(&self) -> usize
        ensures { result ≡ length (asked_by self.now).files }
    {
        self.files.len()
    }

    /// The name of the file at a place, from 0; empty past the end.
    pub(crate) fn file(&self, place: usize) -> &'a str
        ensures { result.now ≡ name_at (asked_by self.now).files place }
    {
        match self.files.get(place) {
            Some(name) => *name,
            None => "",
        }
    }
}

/// The strings of a text, between its commas.
fn split(alloc: Global, text: &str) -> Result<List<Units>, NoMemory>
    ensures { IfOk result (λ strings. strings ≡ strings_of (chars text.now)) }
{
    let mut strings = List::new(alloc);
    let mut last = Units::new(alloc);
    for c in text.chars() {
        if c == ',' {
            strings.push(last)?;
            last = Units::new(alloc);
        } else {
            push_char(&mut last, c)?;
        }
    }
    strings.push(last)?;
    Ok(strings)
}

/// The strings that a word gives to a program.
fn strings_in(alloc: Global, text: Option<&str>) -> Result<List<Units>, NoMemory>
    ensures { IfOk result (λ strings. strings ≡ strings_in (option_map (λ s. s.now) text.entry)) }
{
    match text {
        Some(text) => split(alloc, text),
        None => Ok(List::new(alloc)),
    }
}

/// What a line asks for.
fn request_of<'a>(alloc: Global, line: Words<'a>) -> Result<Request<'a>, NoMemory>
    ensures { IfOk result (λ r. asked_in (line_of_words line.entry) ≡ asked_by r) }
{
    let args = strings_in(alloc, line.args)?;
    Ok(Request {
        command: line.command,
        main: line.main,
        args,
        steps: line.steps,
        shows: line.shows_order,
        files: line.files,
    })
}

/// What the words of a command ask for.
pub(crate) fn read_words<'a>(alloc: Global, words: &'a [String]) -> Result<Request<'a>, Refusal>
    ensures { MatchResult result (λ r. IsCall (texts words.entry.now) (asked_by r))
        (IsMisread (IsNoCall (texts words.entry.now))) }
{
    let line = match command_words::read_words(alloc, words) {
        Ok(line) => line,
        Err(WordsErr::Usage) => return Err(Refusal::Usage),
        Err(WordsErr::NoMemory) => return Err(Refusal::NoMemory),
    };
    request_of(alloc, line).map_err(|_| Refusal::NoMemory)
}

/// The name of the file that a refusal names by its place; empty where it names none.
pub(crate) fn name_of<'a>(request: &Request<'a>, refusal: &Refusal) -> &'a str
    ensures { IsNamedBy (asked_by request.now).files refusal.now result.now }
{
    match place_of(refusal) {
        Some(place) => request.file(place as usize),
        None => "",
    }
}
