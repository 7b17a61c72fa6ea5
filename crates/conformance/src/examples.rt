//! Runs each example in `examples/` through the program, and prints whether the output matches the file with the
//! expected output.
//!
//! `examples/NAME.nic` is a script, and `examples/NAME.out` the output of `nicbench run` for it. `examples/NAME.debug`
//! is a script with debugger commands, and `NAME.out` the output of `nicbench debug`. `examples/NAME.txt` is a key with
//! hex lines, and `NAME.out` the output of `nicbench hash`. `examples/NAME.eeprom` is an EEPROM image's source, and
//! `NAME.hex` is the image that `nicbench eeprom` creates from this source, in hex. `NAME.out` is the output of
//! `nicbench eeprom --load` for that image. `examples/NAME.object` is the object of `NAME.nic`, in hex, and `NAME.dis`
//! the output of `nicbench dis` for it.

use crate::scripts::answer;
use crate::texts::hex_in;
use std::{fs, io};

/// The runs whose expected output is in `NAME.out`: the name, the command line, the kind of the input file, and the
/// exit status.
const RUNS: [(&str, &str, &str, u8); 15] = [
    ("first", "nicbench run", "nic", 0),
    ("masks", "nicbench run", "nic", 0),
    ("aliases", "nicbench run", "nic", 0),
    ("receive", "nicbench run", "nic", 0),
    ("rss", "nicbench run", "nic", 0),
    ("queue", "nicbench run", "nic", 0),
    ("send", "nicbench run", "nic", 0),
    ("interrupts", "nicbench run", "nic", 0),
    ("chained", "nicbench run", "nic", 0),
    ("udp6", "nicbench run", "nic", 0),
    ("fault", "nicbench run", "nic", 2),
    ("virtual", "nicbench run --vfs 2", "nic", 0),
    ("mailbox", "nicbench run --vfs 2", "nic", 0),
    ("tail", "nicbench debug", "debug", 0),
    ("hash", "nicbench hash", "txt", 0),
];

/// The command line that creates bytes from a source, the command line that prints the bytes, and the kinds of the
/// three files.
type Forms = (
    &'static str,
    &'static str,
    &'static str,
    &'static str,
    &'static str,
);

const IMAGE: Forms = (
    "nicbench eeprom",
    "eeprom",
    "hex",
    "nicbench eeprom --load",
    "out",
);

const OBJECT: Forms = ("nicbench asm", "nic", "object", "nicbench dis", "dis");

/// The EEPROM sources, and the scripts with objects.
const TEXTS: [(&str, Forms); 5] = [
    ("image", IMAGE),
    ("blank", IMAGE),
    ("setting", IMAGE),
    ("first", OBJECT),
    ("listing", OBJECT),
];

/// Returns the bytes of an example's file. Files of some kinds contain the bytes as hex lines.
fn example(rt: &HostRuntime, name: &str, kind: &str) -> io::Result<Vec<u8>> {
    let path = format!(in rt.alloc(); "examples/{name}.{kind}")?;
    let text = fs::read_to_string(rt, path.as_str())?;
    if kind == "hex" || kind == "object" {
        return Ok(hex_in(rt.alloc(), text.as_str())?);
    }
    Ok(text.into_bytes())
}

/// Whether the program, run with these words on an example's file of the first kind, writes exactly the example's file
/// of the second kind and exits with this status.
fn is_as_written(
    rt: &HostRuntime,
    name: &str,
    words: &str,
    (from, to): (&str, &str),
    wanted: u8,
) -> io::Result<bool> {
    let input = example(rt, name, from)?;
    let printed = example(rt, name, to)?;
    let (written, status) = answer(rt.alloc(), words, input.as_slice())?;
    Ok(status == wanted && written.as_slice() == printed.as_slice())
}

/// Prints whether an example has the expected result.
fn say(rt: &HostRuntime, name: &str, is_right: bool) -> io::Result<()> {
    let answer = if is_right { "as written" } else { "differs" };
    println!(rt; "{name}: {answer}")
}

/// Runs all examples and prints the result of each.
pub fn run_examples(rt: &HostRuntime) -> io::Result<()> {
    for (name, words, kind, status) in RUNS {
        say(
            rt,
            name,
            is_as_written(rt, name, words, (kind, "out"), status)?,
        )?;
    }
    for (name, (make, text, bytes, show, printed)) in TEXTS {
        let is_made = is_as_written(rt, name, make, (text, bytes), 0)?;
        let is_shown = is_as_written(rt, name, show, (bytes, printed), 0)?;
        say(rt, name, is_made && is_shown)?;
    }
    Ok(())
}
