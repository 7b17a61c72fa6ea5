//! The options of `nicbench run`.
ghost use Rattle.std.specs.Prelude.{◌≡◌};
ghost use Rattle.clap.specs.Words.{found_of, rows_of};
ghost use Rattle.bench_commands.specs.Asked.{options_of};

use clap::ArgMatches;

/// The options of `nicbench run`.
#[derive(Clone, Copy, Debug, PartialEq, Eq)]
pub struct RunOptions {
    /// The number of virtual functions of the device, 0 to 255. More than 63 are refused later.
    pub vfs: u8,
    /// The capacity of the receive list in frames, 0 to 65,535. Anything other than 1 to 4,096 is refused later.
    pub fifo: u16,
    /// The maximum number of instructions to execute.
    pub limit: u64,
}

/// Returns the options that clap matched for `run`.
pub(crate) fn options_in(matches: &ArgMatches<'_>) -> RunOptions
    ensures { result ≡ options_of (rows_of (found_of matches.now)) }
{
    RunOptions {
        vfs: matches.get_one("vfs").unwrap_or(0),
        fifo: matches.get_one("fifo").unwrap_or(0),
        limit: matches.get_one("limit").unwrap_or(0),
    }
}
