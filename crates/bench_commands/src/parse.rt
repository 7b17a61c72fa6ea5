//! Parsing the arguments into a request.
ghost use Rattle.std.specs.Prelude.{◌≡◌, IfErr, IfOk, map, option_and_then};
ghost use Rattle.clap.specs.Words.{FailsBy, HasKind, HasMatchesOf, fault_of, found_of, kind_of, rows_of};
ghost use Rattle.clap.specs.Words.{subcommand_rows_of};
ghost use Rattle.bench_commands.specs.Asked.{Asks, asked_of, eeprom_of, refusal_of, request_of};
ghost use Rattle.bench_commands.specs.Commands.{nicbench_app};

use crate::app::nicbench;
use crate::debug_options::debug_options_in;
use crate::request::{Asked, BytesRequest, Request, TextRequest};
use crate::run_options::options_in;
use crate::threads_options::threads_options_in;
use clap::error::ErrorKind;
use clap::{ArgMatches, Command, Error};
use std::alloc::Global;
use std::convert::AsStr;

/// Matches the arguments against the commands of `nicbench`, with clap.
fn matches_in<'a, S: AsStr>(alloc: Global, words: &'a [S]) -> Result<ArgMatches<'a>, Error>
    ensures matches { IfOk result (HasMatchesOf nicbench_app (map S.text words.entry.now)) }
    ensures faults { FailsBy (fault_of nicbench_app (map S.text words.entry.now)) result }
{
    let command = nicbench(alloc)?;
    command.try_get_matches_from(words)
}

/// Returns the refusal for an unknown subcommand, with the usage of this command.
fn no_such_command(command: &mut Command<'_>) -> Result<Error, Error>
    ensures ok { IfOk result (λ e. kind_of e ≡ ErrorKind.InvalidSubcommand) }
    ensures err { IfErr result (λ e. kind_of e ≡ ErrorKind.OutOfMemory) }
{
    let refusal = command.error(ErrorKind::InvalidSubcommand, "no such command")?;
    Ok(refusal)
}

/// Returns the refusal for an unknown subcommand of `nicbench`.
fn unknown_command(alloc: Global) -> Result<Error, Error>
    ensures ok { IfOk result (λ e. kind_of e ≡ ErrorKind.InvalidSubcommand) }
    ensures err { IfErr result (λ e. kind_of e ≡ ErrorKind.OutOfMemory) }
{
    no_such_command(&mut nicbench(alloc)?)
}

/// Returns the request that clap matched for `eeprom`.
fn eeprom_in(matches: &ArgMatches<'_>) -> Request
    ensures { result ≡ eeprom_of (rows_of (found_of matches.now)) }
{
    let is_load: bool = matches.get_one("load").unwrap_or(false);
    if is_load {
        Request::Bytes(BytesRequest::LoadEeprom)
    } else {
        Request::Text(TextRequest::Eeprom)
    }
}

/// Returns the request of the command with this name and these matches, or `None` if no command with this name reads
/// input.
fn request_named(name: &str, matches: &ArgMatches<'_>) -> Option<Request>
    ensures { result ≡ request_of name.now (rows_of (found_of matches.now)) }
{
    if name == "run" {
        Some(Request::Text(TextRequest::Run(options_in(matches))))
    } else if name == "debug" {
        Some(Request::Text(TextRequest::Debug(debug_options_in(matches))))
    } else if name == "hash" {
        Some(Request::Text(TextRequest::Hash))
    } else if name == "asm" {
        Some(Request::Text(TextRequest::Asm))
    } else if name == "dis" {
        Some(Request::Bytes(BytesRequest::Dis))
    } else if name == "eeprom" {
        Some(eeprom_in(matches))
    } else {
        None
    }
}

/// Returns the request of the command with this name and these matches, whether or not it reads input.
fn asked_named(name: &str, matches: &ArgMatches<'_>) -> Option<Asked>
    ensures { result ≡ asked_of name.now (rows_of (found_of matches.now)) }
{
    if name == "threads" {
        return Some(Asked::Threads(threads_options_in(matches)));
    }
    match request_named(name, matches) {
        Some(request) => Some(Asked::Input(request)),
        None => None,
    }
}

/// Returns the request of the command that clap matched.
fn asked_in(matches: &ArgMatches<'_>) -> Option<Asked>
    ensures { result ≡ option_and_then (λ command. asked_of command.0 command.1)
        (subcommand_rows_of matches.now) }
{
    match matches.subcommand() {
        Some((name, matches)) => asked_named(name, matches),
        None => None,
    }
}

/// Returns the request that the arguments make, according to clap's definitions of the commands. The first argument is
/// the program's own name. The error contains the message for the user: why the arguments were refused, or the help or
/// the version that the user requested. Arguments that make a request are refused only for lack of memory.
pub fn asked<'a, S: AsStr>(alloc: Global, words: &'a [S]) -> Result<Asked, Error>
    ensures ok { IfOk result (Asks (map S.text words.entry.now)) }
    ensures refused { IfErr result (HasKind (refusal_of (map S.text words.entry.now))) }
    ensures no_memory { (asked : Asked) → Asks (map S.text words.entry.now) asked
        → IfErr result (λ e. kind_of e ≡ ErrorKind.OutOfMemory) }
{
    let matches = matches_in(alloc, words)?;
    match asked_in(&matches) {
        Some(asked) => Ok(asked),
        None => Err(unknown_command(alloc)?),
    }
}
