//! The program's `clap` command.
ghost use Rattle.std.specs.Prelude.{◌≡◌, IfOk};
ghost use Rattle.clap.specs.Words.{app_of, rule_of};
ghost use Rattle.run_command_line.specs.Subcommands.{argument_rule, subcommand_app, with_subcommands};
ghost use Rattle.run_command_line.specs.CommandLine.{bare_app, flag_rule, judging_app, mesh_rule, meshrun_app, number_rule, runs_app, text_rule};

use crate::options::{
    Argument, COMPARISONS, FILE, GROUPS, JUDGEMENTS, MESH, NumberOption, RUNS, Subcommand,
    TextOption,
};
use clap::builder::ValueParser;
use clap::{Arg, ArgAction, Command};
use std::alloc::{AllocError, Global};

/// The name of the program in usage lines, if the command line has no words.
pub(crate) const PROGRAM: &str = "meshrun";

/// The version that `--version` prints.
const VERSION: &str = "0.1.0";

/// The end of the help: the exit statuses (`status`).
const STATUSES: &str = "\
Exit statuses:
  0  everything was done and written; a verdict is positive
  1  a device, an allocation or a thread failed
  2  a fault of the command line or of a text; no such outcome or answer
  3  a verdict is negative
  4  undecided: too many states or configurations, or the addresses of a heap are used up";

/// Returns the program's `clap` command, with its subcommands, help and version. The only error is an allocation
/// failure.
pub(crate) fn meshrun_command<'a>(alloc: Global) -> Result<Command<'a>, AllocError>
    ensures { IfOk result (λ command. app_of command ≡ meshrun_app) }
{
    let command = judging_command(alloc)?;
    with_subcommands(alloc, command, COMPARISONS)
}

/// Returns the program's `clap` command, with the subcommands that run a heap and those that judge. The only error is
/// an allocation failure.
fn judging_command<'a>(alloc: Global) -> Result<Command<'a>, AllocError>
    ensures { IfOk result (λ command. app_of command ≡ judging_app) }
{
    let command = runs_command(alloc)?;
    with_subcommands(alloc, command, JUDGEMENTS)
}

/// Returns the program's `clap` command, with the subcommands that run a heap alone. The only error is an allocation
/// failure.
fn runs_command<'a>(alloc: Global) -> Result<Command<'a>, AllocError>
    ensures { IfOk result (λ command. app_of command ≡ runs_app) }
{
    with_subcommands(alloc, bare_command(alloc), RUNS)
}

/// Returns the program's `clap` command without its subcommands.
fn bare_command<'a>(alloc: Global) -> Command<'a>
    ensures { app_of result ≡ bare_app }
{
    Command::new(alloc, PROGRAM)
        .about("A modelled heap that is compacted by meshing")
        .version(VERSION)
        .after_help(STATUSES)
        .subcommand_required(true)
        .arg_required_else_help(true)
}

/// Returns the command with these subcommands added after its existing subcommands. The only error is an allocation
/// failure.
fn with_subcommands<'a>(
    alloc: Global,
    command: Command<'a>,
    subcommands: &[Subcommand],
) -> Result<Command<'a>, AllocError>
    ensures { IfOk result (λ new. app_of new ≡ with_subcommands (app_of command.entry) subcommands.now) }
{
    let mut command = command;
    let mut rest = subcommands;
    while let [subcommand, behind @ ..] = rest {
        command = command.subcommand(subcommand_of(alloc, subcommand)?)?;
        rest = behind;
    }
    Ok(command)
}

/// Returns the `clap` command of a subcommand. The only error is an allocation failure.
pub(crate) fn subcommand_of<'a>(
    alloc: Global,
    subcommand: &Subcommand,
) -> Result<Command<'a>, AllocError>
    ensures { IfOk result (λ command. app_of command ≡ subcommand_app subcommand.now) }
{
    let mut command = Command::new(alloc, subcommand.name)
        .about(subcommand.about)
        .after_help(subcommand.example);
    let mut rest = subcommand.arguments;
    while let [argument, behind @ ..] = rest {
        command = command.arg(argument_of(alloc, argument))?;
        rest = behind;
    }
    Ok(command)
}

/// Returns the `clap` argument for one of the arguments of a subcommand.
fn argument_of<'a>(alloc: Global, argument: &Argument) -> Arg<'a>
    ensures { rule_of result ≡ argument_rule argument.now }
{
    match *argument {
        Argument::File(help) => Arg::new(alloc, FILE).required(true).help(help),
        Argument::Meshes => mesh(alloc),
        Argument::Required(option) => number_option(alloc, option).required(true),
        Argument::Default(option, default) => number_option(alloc, option).default_value(default),
        Argument::Optional(option) => number_option(alloc, option),
        Argument::Flag(name, help) => flag(alloc, name).help(help),
        Argument::Text(option) => text_option(alloc, option),
        Argument::Texts(option) => text_option(alloc, option).action(ArgAction::Append),
    }
}

/// Returns the `clap` argument for a flag.
fn flag<'a>(alloc: Global, name: &'static str) -> Arg<'a>
    ensures { rule_of result ≡ flag_rule name.now }
{
    Arg::new(alloc, name).long(name).action(ArgAction::SetTrue)
}

/// Returns the `clap` argument for the option `--mesh`, which must be given once or more.
fn mesh<'a>(alloc: Global) -> Arg<'a>
    ensures { rule_of result ≡ mesh_rule }
{
    Arg::new(alloc, MESH)
        .long(MESH)
        .value_name(GROUPS)
        .action(ArgAction::Append)
        .required(true)
        .help("A mesh of group SRC into group DST, each 0 to 65535; 1 to 10 times")
}

/// Returns the `clap` argument for an option with a text.
fn text_option<'a>(alloc: Global, option: TextOption) -> Arg<'a>
    ensures { rule_of result ≡ text_rule option.name.now }
{
    Arg::new(alloc, option.name)
        .long(option.name)
        .value_name(option.value)
        .help(option.help)
}

/// Returns the `clap` argument for an option with a number.
fn number_option<'a>(alloc: Global, option: NumberOption) -> Arg<'a>
    ensures { rule_of result ≡ number_rule option.range.name.now option.range.least option.range.most }
{
    Arg::new(alloc, option.range.name)
        .long(option.range.name)
        .value_name(option.value)
        .value_parser(ValueParser::unsigned(option.range.least, option.range.most))
        .help(option.help)
}
