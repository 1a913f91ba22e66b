// The program's command line, as `clap` is told it.
ghost use Rattle.std.specs.Prelude.{◌≡◌, IfOk, false};
ghost use Rattle.clap.specs.Words.{app_of};
ghost use Rattle.clap.specs.declared.builder.command.Command.TheViews.{out-Command as fields_of};
ghost use Rattle.command_line.specs.Apps.{number_app, play_app, program_app};

use clap::{Arg, ArgAction, Command};
use std::alloc::{AllocError, Global};

// A subcommand that plays a script, with the flag `--trail`.
fn player<'a>(alloc: Global, name: &'a str) -> Result<Command<'a>, AllocError>
    ensures app { IfOk result (λ command. app_of command ≡ play_app name.now) }
    ensures local { IfOk result (λ command. (fields_of command).has_globals ≡ false) }
{
    let trail = Arg::new(alloc, "trail")
        .long("trail")
        .action(ArgAction::SetTrue);
    Command::new(alloc, name).arg(trail)
}

// A subcommand that takes a number, with the value NUM.
fn numbered<'a>(alloc: Global, name: &'a str) -> Result<Command<'a>, AllocError>
    ensures app { IfOk result (λ command. app_of command ≡ number_app name.now) }
    ensures local { IfOk result (λ command. (fields_of command).has_globals ≡ false) }
{
    let num = Arg::new(alloc, "num").required(true).action(ArgAction::Set);
    Command::new(alloc, name).arg(num)
}

/// Five subcommands: `run` and `serial` with one flag each, `journal` with nothing, `make` and `load` with one value each.
/// The words come without the program's name, and help is no business of `clap`.
pub fn program<'a>(alloc: Global) -> Result<Command<'a>, AllocError>
    ensures { IfOk result (λ command. app_of command ≡ program_app) }
{
    let run = player(alloc, "run")?;
    let serial = player(alloc, "serial")?;
    let journal = Command::new(alloc, "journal");
    let make = numbered(alloc, "make")?;
    let load = numbered(alloc, "load")?;
    let program = Command::new(alloc, "swift_sim")
        .no_binary_name(true)
        .disable_help_flag(true)
        .disable_help_subcommand(true);
    program
        .subcommand(run)?
        .subcommand(serial)?
        .subcommand(journal)?
        .subcommand(make)?
        .subcommand(load)
}
