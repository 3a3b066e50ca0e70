//! Reading the words of a call.

ghost use Rattle.std.specs.Prelude.{◌≡◌, [], map, codes, length, option_map, unwrap_or, string_bytes, IfOk};
ghost use Rattle.std.specs.Str.{chars};
ghost use Rattle.clap.specs.Words.{found_of, rows_of, first_of, all_of};
ghost use Rattle.command_words.specs.Lines.{is_word, command_of, is_count, are_short, shows_of, line_in, line_for, line_of};
ghost use Rattle.command_words.specs.Reading.{line_of_words};
ghost use Rattle.command_words.specs.declared.words.WordsErr.TheVariants.{NoMemory as OutOfMemory};

use crate::builders::app;
use crate::number::steps;
use clap::ArgMatches;
use clap::error::ErrorKind;
use std::alloc::{AllocError, Global};
use thiserror::Error;

/// How many class files a call may name.
const MOST_FILES: usize = 1024;

/// How many characters the arguments may have together.
const MOST_CHARACTERS: usize = 1_048_576;

/// Why words aren't read: they are no call's, or memory ran out.
#[derive(Clone, Copy, Debug, PartialEq, Eq, Error)]
pub enum WordsErr {
    #[error("usage")]
    Usage,
    #[error("want of memory")]
    NoMemory,
}

impl From<AllocError> for WordsErr {
    ghost from_gives = { λ _ e. e ≡ OutOfMemory };

    fn from(_error: AllocError) -> WordsErr {
        WordsErr::NoMemory
    }
}

/// What a call does: it runs a program, says whether it is accepted, or takes an order again.
#[derive(Clone, Copy, Debug, PartialEq, Eq)]
pub enum Command {
    Run,
    Check,
    Replay,
}

/// What the words of a call say: the command; the main class and the program's arguments as they are
/// written, where they are given; how many steps a thread may take; whether the order is to be shown;
/// and the names of files. The first one of `replay` is that of an order.
#[derive(Debug, Drop)]
pub struct Words<'a> {
    pub command: Command,
    pub main: Option<&'a str>,
    pub args: Option<&'a str>,
    pub steps: u32,
    pub shows_order: bool,
    pub files: Vec<&'a str>,
}

/// The word of an option.
fn option<'a>(matches: &ArgMatches<'a>, id: &str) -> Option<&'a str>
    ensures { option_map (λ s. s.now) result ≡ first_of id.now (rows_of (found_of matches.now)) }
{
    matches.get_str(id)
}

/// The words that are no options, nor their values.
fn files<'a>(alloc: Global, matches: &ArgMatches<'a>) -> Result<Vec<&'a str>, AllocError>
    ensures { IfOk result (λ v. map (λ s. s.now) v.items
        ≡ unwrap_or (all_of (codes "FILE") (rows_of (found_of matches.now))) []) }
{
    match matches.get_strs("FILE") {
        Some(files) => Vec::from_slice(alloc, files),
        None => Ok(Vec::new(alloc)),
    }
}

/// Whether a command may have so many files.
fn is_count(command: Command, files: usize) -> bool
    ensures { result ≡ is_count command files }
{
    match command {
        Command::Replay => 2 <= files && files <= MOST_FILES + 1,
        _ => 1 <= files && files <= MOST_FILES,
    }
}

/// How many characters a text has.
#[tactic(auto, using(std::proofs::lemmas::Str::chars_from_encodes))]
fn characters(text: &str) -> usize
    ensures { result ≡ length (chars text.now) }
{
    text.chars().count()
}

/// Whether the arguments are short enough.
fn are_short(args: Option<&str>) -> bool
    ensures { result ≡ are_short (option_map (λ s. s.now) args.entry) }
{
    match args {
        Some(text) => characters(text) <= MOST_CHARACTERS,
        None => true,
    }
}

/// Whether the order is to be shown; `None` where something else is.
fn shows_order(text: Option<&str>) -> Option<bool>
    ensures { result ≡ shows_of (option_map (λ s. s.now) text.entry) }
{
    match text {
        None => Some(false),
        Some("order") => Some(true),
        Some(_) => None,
    }
}

/// What matches of the words say.
fn read_line<'a>(
    alloc: Global,
    command: Command,
    matches: &ArgMatches<'a>,
) -> Result<Words<'a>, WordsErr>
    ensures ok { IfOk result (λ r. line_in command (rows_of (found_of matches.now))
        ≡ Some (line_of_words r)) }
    ensures usage { result ≡ Err WordsErr.Usage
        → line_in command (rows_of (found_of matches.now)) ≡ None }
{
    let files = files(alloc, matches)?;
    let args = option(matches, "args");
    if !is_count(command, files.len()) || !are_short(args) {
        return Err(WordsErr::Usage);
    }
    let Some(steps) = steps(option(matches, "steps")) else {
        return Err(WordsErr::Usage);
    };
    let Some(shows_order) = shows_order(option(matches, "show")) else {
        return Err(WordsErr::Usage);
    };
    Ok(Words {
        command,
        main: option(matches, "main"),
        args,
        steps,
        shows_order,
        files,
    })
}

/// Reads the words behind a command.
fn read_rest<'a>(
    alloc: Global,
    command: Command,
    words: &'a [String],
) -> Result<Words<'a>, WordsErr>
    ensures ok { IfOk result (λ r. line_for command (map string_bytes words.entry.now)
        ≡ Some (line_of_words r)) }
    ensures usage { result ≡ Err WordsErr.Usage
        → line_for command (map string_bytes words.entry.now) ≡ None }
{
    let app = app(alloc, command)?;
    match app.try_get_matches_from(words) {
        Ok(matches) => read_line(alloc, command, &matches),
        Err(error) => match error.kind() {
            ErrorKind::OutOfMemory => Err(WordsErr::NoMemory),
            _ => Err(WordsErr::Usage),
        },
    }
}

/// The command that a word names.
fn command_of(word: &str) -> Option<Command>
    ensures { result ≡ command_of word.now }
{
    match word {
        "run" => Some(Command::Run),
        "check" => Some(Command::Check),
        "replay" => Some(Command::Replay),
        _ => None,
    }
}

/// Reads the words of a call, those behind the program's name. It is `Usage` exactly where they are no
/// call's.
pub fn read_words<'a>(alloc: Global, words: &'a [String]) -> Result<Words<'a>, WordsErr>
    ensures ok { IfOk result (λ r. line_of (map string_bytes words.entry.now)
        ≡ Some (line_of_words r)) }
    ensures usage { result ≡ Err WordsErr.Usage → line_of (map string_bytes words.entry.now) ≡ None }
{
    let Some((first, rest)) = words.split_first() else {
        return Err(WordsErr::Usage);
    };
    match command_of(first.as_str()) {
        Some(command) => read_rest(alloc, command, rest),
        None => Err(WordsErr::Usage),
    }
}
