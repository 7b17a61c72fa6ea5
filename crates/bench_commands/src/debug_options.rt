//! The options of `nicbench debug`.
ghost use Rattle.std.specs.Prelude.{◌≡◌};
ghost use Rattle.clap.specs.Words.{found_of, rows_of};
ghost use Rattle.bench_commands.specs.Asked.{debug_options_of};

use clap::ArgMatches;

/// The options of `nicbench debug`.
#[derive(Clone, Copy, Debug, PartialEq, Eq)]
pub struct DebugOptions {
    /// The number of virtual functions of the device, 0 to 255. More than 63 are refused later.
    pub vfs: u8,
    /// The capacity of the receive list in frames, 0 to 65,535. Anything other than 1 to 4,096 is refused later.
    pub fifo: u16,
}

/// Returns the options that clap matched for `debug`.
pub(crate) fn debug_options_in(matches: &ArgMatches<'_>) -> DebugOptions
    ensures { result ≡ debug_options_of (rows_of (found_of matches.now)) }
{
    DebugOptions {
        vfs: matches.get_one("vfs").unwrap_or(0),
        fifo: matches.get_one("fifo").unwrap_or(0),
    }
}
