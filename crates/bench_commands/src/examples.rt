//! Laws: what some example command lines request.
ghost use Rattle.std.specs.Prelude.{◌≡◌, [], ◌∷◌, codes};
ghost use Rattle.clap.specs.declared.error.ErrorKind.TheVariants as kind;
ghost use Rattle.bench_commands.specs.Asked.{Asks, refusal_of};
ghost use Rattle.bench_commands.specs.declared.request.Asked.TheVariants.{Input, Threads};
ghost use Rattle.bench_commands.specs.declared.request.BytesRequest.TheVariants.{Dis, LoadEeprom};
ghost use Rattle.bench_commands.specs.declared.request.Request.TheVariants.{Bytes, Text};
ghost use Rattle.bench_commands.specs.declared.request.TextRequest.TheVariants.{Asm, Debug, Eeprom, Hash, Run};

/// `nicbench run` requests no virtual functions, a receive list of 64 frames, and at most 100,000 instructions.
pub fn run_alone()
    ensures { Asks (codes "nicbench" ∷ codes "run" ∷ [])
        (Input (Text (Run (record { vfs = 0; fifo = 64; limit = 100000 })))) }
{}

/// An option's value is the next argument, or follows the option after a `=`. The value may have a plus sign or leading
/// zeros: `--vfs 63 --limit=+5 --fifo 004096` requests 63 virtual functions, 4,096 frames and 5 instructions.
pub fn run_with_options()
    ensures { Asks (codes "nicbench" ∷ codes "run" ∷ codes "--vfs" ∷ codes "63"
        ∷ codes "--limit=+5" ∷ codes "--fifo" ∷ codes "004096" ∷ [])
        (Input (Text (Run (record { vfs = 63; fifo = 4096; limit = 5 })))) }
{}

/// `nicbench debug` requests the same device as `run`: no virtual functions, and a receive list of 64 frames. With
/// `--fifo=1 --vfs 2`, it requests a receive list of 1 frame, and 2 virtual functions.
pub fn debug_either_way()
    ensures alone { Asks (codes "nicbench" ∷ codes "debug" ∷ [])
        (Input (Text (Debug (record { vfs = 0; fifo = 64 })))) }
    ensures with_options { Asks (codes "nicbench" ∷ codes "debug" ∷ codes "--fifo=1"
        ∷ codes "--vfs" ∷ codes "2" ∷ []) (Input (Text (Debug (record { vfs = 2; fifo = 1 })))) }
{}

/// `nicbench hash` requests hashes.
pub fn hash_alone()
    ensures { Asks (codes "nicbench" ∷ codes "hash" ∷ []) (Input (Text Hash)) }
{}

/// `nicbench asm` requests an object, and `nicbench dis` requests a script.
pub fn objects_either_way()
    ensures object { Asks (codes "nicbench" ∷ codes "asm" ∷ []) (Input (Text Asm)) }
    ensures script { Asks (codes "nicbench" ∷ codes "dis" ∷ []) (Input (Bytes Dis)) }
{}

/// `nicbench eeprom` requests an image; with `--load`, it requests the register writes in an image.
pub fn eeprom_either_way()
    ensures image { Asks (codes "nicbench" ∷ codes "eeprom" ∷ []) (Input (Text Eeprom)) }
    ensures load { Asks (codes "nicbench" ∷ codes "eeprom" ∷ codes "--load" ∷ [])
        (Input (Bytes LoadEeprom)) }
{}

/// `nicbench threads --workers 8 --frames=60` requests 8 workers and 60 frames.
pub fn threads_with_options()
    ensures { Asks (codes "nicbench" ∷ codes "threads" ∷ codes "--workers" ∷ codes "8"
        ∷ codes "--frames=60" ∷ []) (Threads (record { workers = 8; frames = 60 })) }
{}

/// `nicbench threads` requires both options, with 1 to 8 workers and at most 60 frames. It refuses 0 workers, 9
/// workers, 61 frames, and arguments that lack one of the two options; each clause names the kind of error that clap
/// returns.
pub fn refused_threads()
    ensures no_worker { refusal_of (codes "nicbench" ∷ codes "threads" ∷ codes "--workers"
        ∷ codes "0" ∷ codes "--frames" ∷ codes "1" ∷ []) ≡ kind.ValueValidation ∷ [] }
    ensures nine_workers { refusal_of (codes "nicbench" ∷ codes "threads" ∷ codes "--workers"
        ∷ codes "9" ∷ codes "--frames" ∷ codes "1" ∷ []) ≡ kind.ValueValidation ∷ [] }
    ensures many_frames { refusal_of (codes "nicbench" ∷ codes "threads" ∷ codes "--workers"
        ∷ codes "1" ∷ codes "--frames" ∷ codes "61" ∷ []) ≡ kind.ValueValidation ∷ [] }
    ensures without_workers { refusal_of (codes "nicbench" ∷ codes "threads" ∷ codes "--frames"
        ∷ codes "1" ∷ []) ≡ kind.MissingRequiredArgument ∷ [] }
    // arguments without `--frames`
    ensures without_frames { refusal_of (codes "nicbench" ∷ codes "threads" ∷ codes "--workers"
        ∷ codes "1" ∷ []) ≡ kind.MissingRequiredArgument ∷ [] }
{}

/// These arguments are refused; each clause names the kinds of error that clap may return.
pub fn refused_words()
    // `run --vfs 256`, a number too large for the option's type
    ensures beyond { refusal_of (codes "nicbench" ∷ codes "run" ∷ codes "--vfs"
        ∷ codes "256" ∷ []) ≡ kind.ValueValidation ∷ [] }
    // `run --vfs=1 --vfs=1`, a repeated option
    ensures twice { refusal_of (codes "nicbench" ∷ codes "run" ∷ codes "--vfs=1"
        ∷ codes "--vfs=1" ∷ []) ≡ kind.ArgumentConflict ∷ [] }
    // an extra argument after `run`
    ensures further { refusal_of (codes "nicbench" ∷ codes "run" ∷ codes "script.nic"
        ∷ []) ≡ kind.UnknownArgument ∷ [] }
    // an extra argument after `hash`
    ensures further_than_hash { refusal_of (codes "nicbench" ∷ codes "hash"
        ∷ codes "further" ∷ []) ≡ kind.UnknownArgument ∷ [] }
    // `debug --limit=5`, an option of another command
    ensures limit_of_debug { refusal_of (codes "nicbench" ∷ codes "debug"
        ∷ codes "--limit=5" ∷ []) ≡ kind.UnknownArgument ∷ [] }
    // `eeprom --load --load`
    ensures load_twice { refusal_of (codes "nicbench" ∷ codes "eeprom" ∷ codes "--load"
        ∷ codes "--load" ∷ []) ≡ kind.ArgumentConflict ∷ [] }
    // `eeprom --load=true`
    ensures load_with_a_value { refusal_of (codes "nicbench" ∷ codes "eeprom"
        ∷ codes "--load=true" ∷ []) ≡ kind.TooManyValues ∷ [] }
    // an unknown command
    ensures unknown { refusal_of (codes "nicbench" ∷ codes "hashes" ∷ [])
        ≡ kind.UnknownArgument ∷ kind.InvalidSubcommand ∷ [] }
    // no command
    ensures none { refusal_of (codes "nicbench" ∷ [])
        ≡ kind.DisplayHelpOnMissingArgumentOrSubcommand ∷ [] }
{}

/// These arguments print the help or the version.
pub fn shown_texts()
    // for `--help`
    ensures help { refusal_of (codes "nicbench" ∷ codes "--help" ∷ [])
        ≡ kind.DisplayHelp ∷ [] }
    // for `run -h`
    ensures help_of_run { refusal_of (codes "nicbench" ∷ codes "run" ∷ codes "-h" ∷ [])
        ≡ kind.DisplayHelp ∷ [] }
    // for `debug --help`
    ensures help_of_debug { refusal_of (codes "nicbench" ∷ codes "debug" ∷ codes "--help"
        ∷ []) ≡ kind.DisplayHelp ∷ [] }
    // for `hash --help`
    ensures help_of_hash { refusal_of (codes "nicbench" ∷ codes "hash" ∷ codes "--help"
        ∷ []) ≡ kind.DisplayHelp ∷ [] }
    // for `-V`
    ensures version { refusal_of (codes "nicbench" ∷ codes "-V" ∷ [])
        ≡ kind.DisplayVersion ∷ [] }
{}
