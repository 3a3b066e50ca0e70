//! The commands as clap has them.

ghost use Rattle.std.specs.Prelude.{◌≡◌, codes, IfOk};
ghost use Rattle.clap.specs.Words.{app_of, with_rule};
ghost use Rattle.command_words.specs.Apps.{app_for, options_for, bare_app, file_rule, with_option};
ghost use Rattle.command_words.specs.declared.words.Command.TheVariants.{Run, Check, Replay};

use crate::words::Command;
use clap::{Arg, ArgAction, Command as App};
use std::alloc::{AllocError, Global};

/// A command without options: no word is the program's name, and none calls for help.
fn bare<'a>(alloc: Global) -> App<'a>
    ensures { app_of result ≡ bare_app }
{
    App::new(alloc, "cjvm")
        .no_binary_name(true)
        .disable_help_flag(true)
}

/// An option with a value.
fn with_option<'a>(alloc: Global, app: App<'a>, name: &'a str) -> Result<App<'a>, AllocError>
    ensures { IfOk result (λ c. app_of c ≡ with_option name.now (app_of app.entry)) }
{
    app.arg(Arg::new(alloc, name).long(name))
}

/// The files, which may stand apart.
fn with_files<'a>(alloc: Global, app: App<'a>) -> Result<App<'a>, AllocError>
    ensures { IfOk result (λ c. app_of c ≡ with_rule (app_of app.entry) file_rule) }
{
    app.arg(Arg::new(alloc, "FILE").action(ArgAction::Append))
}

/// The options of `check`.
fn check<'a>(alloc: Global) -> Result<App<'a>, AllocError>
    ensures { IfOk result (λ c. app_of c ≡ options_for Check) }
{
    with_option(alloc, bare(alloc), "main")
}

/// The options of `replay`.
fn replay<'a>(alloc: Global) -> Result<App<'a>, AllocError>
    ensures { IfOk result (λ c. app_of c ≡ options_for Replay) }
{
    let app = check(alloc)?;
    with_option(alloc, app, "args")
}

/// The options of `run`.
fn run<'a>(alloc: Global) -> Result<App<'a>, AllocError>
    ensures { IfOk result (λ c. app_of c ≡ options_for Run) }
{
    let app = replay(alloc)?;
    let app = with_option(alloc, app, "steps")?;
    with_option(alloc, app, "show")
}

/// A command with its options.
fn options<'a>(alloc: Global, command: Command) -> Result<App<'a>, AllocError>
    ensures { IfOk result (λ c. app_of c ≡ options_for command) }
{
    match command {
        Command::Run => run(alloc),
        Command::Check => check(alloc),
        Command::Replay => replay(alloc),
    }
}

/// A command with its options and its files.
pub(crate) fn app<'a>(alloc: Global, command: Command) -> Result<App<'a>, AllocError>
    ensures { IfOk result (λ c. app_of c ≡ app_for command) }
{
    let options = options(alloc, command)?;
    with_files(alloc, options)
}
