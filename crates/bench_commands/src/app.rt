//! The commands of `nicbench` and their options.
ghost use Rattle.std.specs.Prelude.{◌≡◌, IfErr, IfOk, false};
ghost use Rattle.clap.specs.Words.{App, app_of, kind_of, new_app, rule_of, with_rule, with_subcommand};
ghost use Rattle.clap.specs.declared.builder.command.Command.TheViews.{out-Command as fields_of};
ghost use Rattle.bench_commands.specs.Commands.{asm_app, bare_app, debug_app, dis_app, eeprom_app, fifo_rule, hash_app};
ghost use Rattle.bench_commands.specs.Commands.{frames_rule, limit_rule, load_rule, nicbench_app, run_app};
ghost use Rattle.bench_commands.specs.Commands.{needed_rule, number_rule, threads_app, vfs_rule, workers_rule};

use clap::builder::ValueParser;
use clap::error::ErrorKind;
use clap::{Arg, ArgAction, Command, Error, value_parser};
use std::alloc::Global;

/// Returns an option that takes a number and has a default value.
fn number<'a>(
    alloc: Global,
    name: &'a str,
    help: &'a str,
    numbers: ValueParser<'a>,
    default: &'a str,
) -> Arg<'a>
    ensures rule { rule_of result ≡ number_rule name.entry.now numbers.entry default.entry.now }
    ensures local { result.global ≡ false }
{
    Arg::new(alloc, name)
        .long(name)
        .value_name("N")
        .help(help)
        .value_parser(numbers)
        .default_value(default)
}

/// Returns an option that takes a number and is required.
fn needed<'a>(
    alloc: Global,
    name: &'a str,
    value_name: &'a str,
    help: &'a str,
    numbers: ValueParser<'a>,
) -> Arg<'a>
    ensures rule { rule_of result ≡ needed_rule name.entry.now numbers.entry }
    ensures local { result.global ≡ false }
{
    Arg::new(alloc, name)
        .long(name)
        .value_name(value_name)
        .help(help)
        .value_parser(numbers)
        .required(true)
}

fn vfs<'a>(alloc: Global) -> Arg<'a>
    ensures rule { rule_of result ≡ vfs_rule }
    ensures local { result.global ≡ false }
{
    let help = "How many virtual functions the controller has, 63 at most";
    number(alloc, "vfs", help, value_parser!(u8), "0")
}

fn fifo<'a>(alloc: Global) -> Arg<'a>
    ensures rule { rule_of result ≡ fifo_rule }
    ensures local { result.global ≡ false }
{
    let help = "How many received frames may wait in the controller, from 1 to 4096";
    number(alloc, "fifo", help, value_parser!(u16), "64")
}

fn limit<'a>(alloc: Global) -> Arg<'a>
    ensures rule { rule_of result ≡ limit_rule }
    ensures local { result.global ≡ false }
{
    let help = "How many instructions are run at most";
    number(alloc, "limit", help, value_parser!(u64), "100000")
}

fn load<'a>(alloc: Global) -> Arg<'a>
    ensures rule { rule_of result ≡ load_rule }
    ensures local { result.global ≡ false }
{
    Arg::new(alloc, "load")
        .long("load")
        .help("Read an image, and print the register writes of its CSR section")
        .action(ArgAction::SetTrue)
}

fn workers<'a>(alloc: Global) -> Arg<'a>
    ensures rule { rule_of result ≡ workers_rule }
    ensures local { result.global ≡ false }
{
    let help = "How many workers drive a queue of their own, from 1 to 8";
    needed(alloc, "workers", "K", help, ValueParser::signed(1, 8))
}

fn frames<'a>(alloc: Global) -> Arg<'a>
    ensures rule { rule_of result ≡ frames_rule }
    ensures local { result.global ≡ false }
{
    let help = "How many frames arrive, 60 at most";
    needed(alloc, "frames", "N", help, ValueParser::signed(0, 60))
}

/// Returns a command without options.
fn alone<'a>(alloc: Global, name: &'a str, about: &'a str) -> Command<'a>
    ensures app { app_of result ≡ new_app name.entry.now }
    ensures local { (fields_of result).has_globals ≡ false }
{
    Command::new(alloc, name).about(about)
}

/// Returns a command with one more option.
fn with_option<'a>(command: Command<'a>, option: Arg<'a>) -> Result<Command<'a>, Error>
    requires command { (fields_of command).has_globals ≡ false }
    requires option { option.global ≡ false }
    ensures ok { IfOk result (λ c. app_of c ≡ with_rule (app_of command.entry) (rule_of option.entry)) }
    ensures local { IfOk result (λ c. (fields_of c).has_globals ≡ false) }
    ensures err { IfErr result (λ e. kind_of e ≡ ErrorKind.OutOfMemory) }
{
    let command = command.arg(option)?;
    Ok(command)
}

/// Returns `command` with `more` added as a subcommand. If `command` or `more` is an error, returns that error instead.
fn with_command<'a>(
    command: Result<Command<'a>, Error>,
    more: Result<Command<'a>, Error>,
) -> Result<Command<'a>, Error>
    requires local { IfOk more (λ c. (fields_of c).has_globals ≡ false) }
    requires memory { IfErr command (λ e. kind_of e ≡ ErrorKind.OutOfMemory) }
    requires more_memory { IfErr more (λ e. kind_of e ≡ ErrorKind.OutOfMemory) }
    ensures ok { (known one : App) → IfOk command.entry (λ c. app_of c ≡ known) → IfOk more.entry (λ c. app_of c ≡ one)
        → IfOk result (λ c. app_of c ≡ with_subcommand known one.top) }
    ensures err { IfErr result (λ e. kind_of e ≡ ErrorKind.OutOfMemory) }
{
    let command = command?.subcommand(more?)?;
    Ok(command)
}

fn run<'a>(alloc: Global) -> Result<Command<'a>, Error>
    ensures ok { IfOk result (λ c. app_of c ≡ run_app) }
    ensures local { IfOk result (λ c. (fields_of c).has_globals ≡ false) }
    ensures err { IfErr result (λ e. kind_of e ≡ ErrorKind.OutOfMemory) }
{
    let about = "Runs the register script on standard input, and prints a line for each access";
    let run = with_option(alone(alloc, "run", about), vfs(alloc))?;
    let run = with_option(run, fifo(alloc))?;
    with_option(run, limit(alloc))
}

fn debug<'a>(alloc: Global) -> Result<Command<'a>, Error>
    ensures ok { IfOk result (λ c. app_of c ≡ debug_app) }
    ensures local { IfOk result (λ c. (fields_of c).has_globals ≡ false) }
    ensures err { IfErr result (λ e. kind_of e ≡ ErrorKind.OutOfMemory) }
{
    let about =
        "Debugs the register script on standard input by the commands that follow it after a line %";
    let debug = with_option(alone(alloc, "debug", about), vfs(alloc))?;
    with_option(debug, fifo(alloc))
}

fn hash<'a>(alloc: Global) -> Command<'a>
    ensures app { app_of result ≡ hash_app }
    ensures local { (fields_of result).has_globals ≡ false }
{
    let about =
        "Prints the RSS hash of each line of hex on standard input, under the key on its first line";
    alone(alloc, "hash", about)
}

fn asm<'a>(alloc: Global) -> Command<'a>
    ensures app { app_of result ≡ asm_app }
    ensures local { (fields_of result).has_globals ≡ false }
{
    let about = "Makes the register script on standard input an object, on standard output";
    alone(alloc, "asm", about)
}

fn dis<'a>(alloc: Global) -> Command<'a>
    ensures app { app_of result ≡ dis_app }
    ensures local { (fields_of result).has_globals ≡ false }
{
    let about = "Prints the register script of the object on standard input";
    alone(alloc, "dis", about)
}

fn eeprom<'a>(alloc: Global) -> Result<Command<'a>, Error>
    ensures ok { IfOk result (λ c. app_of c ≡ eeprom_app) }
    ensures local { IfOk result (λ c. (fields_of c).has_globals ≡ false) }
    ensures err { IfErr result (λ e. kind_of e ≡ ErrorKind.OutOfMemory) }
{
    let about = "Makes the EEPROM text on standard input an image, on standard output";
    with_option(alone(alloc, "eeprom", about), load(alloc))
}

fn threads<'a>(alloc: Global) -> Result<Command<'a>, Error>
    ensures ok { IfOk result (λ c. app_of c ≡ threads_app) }
    ensures local { IfOk result (λ c. (fields_of c).has_globals ≡ false) }
    ensures err { IfErr result (λ e. kind_of e ≡ ErrorKind.OutOfMemory) }
{
    let about = "Drives queues of one controller on threads, and prints what went through each";
    let threads = with_option(alone(alloc, "threads", about), workers(alloc))?;
    with_option(threads, frames(alloc))
}

/// The text at the end of the help output.
const ENDS: &str = "Exit status:
  0  the program ended
  1  it still ran after the limit's steps, or an expect failed
  2  the input was refused, or a read or a write failed
  3  the command line was refused
  4  there was no memory

Documentation: `man nicbench` of an installed package; README.md and docs/ of the repository.";

/// Returns the command `nicbench`, without its subcommands.
fn bare<'a>(alloc: Global) -> Command<'a>
    ensures app { app_of result ≡ bare_app }
    ensures local { (fields_of result).has_globals ≡ false }
{
    Command::new(alloc, "nicbench")
        .version("0.10.0")
        .about("A bench for the registers of the Intel 82599 Ethernet controller")
        .after_help(ENDS)
        .subcommand_required(true)
        .arg_required_else_help(true)
}

pub(crate) fn nicbench<'a>(alloc: Global) -> Result<Command<'a>, Error>
    ensures ok { IfOk result (λ c. app_of c ≡ nicbench_app) }
    ensures err { IfErr result (λ e. kind_of e ≡ ErrorKind.OutOfMemory) }
{
    let nicbench = with_command(Ok(bare(alloc)), run(alloc));
    let nicbench = with_command(nicbench, Ok(hash(alloc)));
    let nicbench = with_command(nicbench, eeprom(alloc));
    let nicbench = with_command(nicbench, Ok(asm(alloc)));
    let nicbench = with_command(nicbench, Ok(dis(alloc)));
    let nicbench = with_command(nicbench, debug(alloc));
    with_command(nicbench, threads(alloc))
}
