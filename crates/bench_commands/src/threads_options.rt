//! The options of `nicbench threads`.
ghost use Rattle.std.specs.Prelude.{◌≡◌};
ghost use Rattle.clap.specs.Words.{found_of, rows_of};
ghost use Rattle.bench_commands.specs.Asked.{threads_options_of};

use clap::ArgMatches;

/// The options of `nicbench threads`.
#[derive(Clone, Copy, Debug, PartialEq, Eq)]
pub struct ThreadsOptions {
    /// The number of workers, each with its own queue: 1 to 8.
    pub workers: u8,
    /// The number of frames that arrive: 0 to 60.
    pub frames: u8,
}

/// Returns the options that clap matched for `threads`.
pub(crate) fn threads_options_in(matches: &ArgMatches<'_>) -> ThreadsOptions
    ensures { result ≡ threads_options_of (rows_of (found_of matches.now)) }
{
    ThreadsOptions {
        workers: matches.get_one("workers").unwrap_or(0),
        frames: matches.get_one("frames").unwrap_or(0),
    }
}
