//! The command `nicbench hash`: prints the RSS hashes of inputs that are given as lines of hex.
ghost use Rattle.std.specs.Prelude.{◌≡◌, ℕ, List, [], Err, IfOk, None, Ok, OnOk, Result, Some};
ghost use Rattle.std.specs.Prelude.{codes};
ghost use Rattle.std.specs.Io.KnownBytes.{Appends};
ghost use Rattle.std.specs.Option.{option_map};
ghost use Rattle.text_format.specs.Lines.{lines_of};
ghost use Rattle.text_format.specs.Words.{words_of};
ghost use Rattle.nic_device.specs.RssHash.Toeplitz.{toeplitz_hash};
ghost use Rattle.bench_commands.specs.Answer.{FailsToWrite, Gives, refused_at};
ghost use Rattle.bench_commands.specs.Hash.{bytes_said, hash_answer, hashed, if_input, if_key, inputs_of};
ghost use Rattle.bench_commands.specs.Hash.{line_and, lines_answer, word_line, words_answer};

use crate::failure::Failure;
use crate::output::Output;
use crate::refusal::{Refusal, write_refusal};
use crate::status::DONE;
use nic_device::{Key, hash};
use std::alloc::{AllocFailed, Global};
use std::io::Write;
use text_format::{HexFault, Line, Lines, WordText, Words, hex_bytes};

/// The size of a key in bytes.
const KEY_BYTES: usize = 40;

/// The maximum size of an input in bytes.
const INPUT_BYTES: usize = 36;

/// Why hashes couldn't be computed.
#[derive(Clone, Copy, Debug, PartialEq, Eq)]
enum HashFault {
    /// The line with this number isn't hex data of the right length.
    Syntax(usize),
    /// There isn't enough memory for the hashes.
    OutOfMemory,
}

impl<T: Drop> From<AllocFailed<T>> for HashFault {
    ghost use Rattle.bench_commands.specs.declared.hashing.HashFault.TheVariants.{OutOfMemory};

    ghost from_gives = { λ _ fault. fault ≡ OutOfMemory };

    fn from(_error: AllocFailed<T>) -> HashFault {
        HashFault::OutOfMemory
    }
}

impl HashFault {
    /// Returns the fault to report for the line with this number.
    fn of(number: usize, fault: HexFault) -> HashFault
        ensures malformed { (n : ℕ) → result ≡ HashFault.Syntax n
            → (n ≡ number) × (fault ≡ HexFault.Malformed) }
    {
        match fault {
            HexFault::Malformed => HashFault::Syntax(number),
            HexFault::OutOfMemory => HashFault::OutOfMemory,
        }
    }
}

/// Returns the bytes that a line's only word spells in hex. Without a word, or with several, the line is `Malformed`.
fn read_bytes(alloc: Global, mut words: Words<'_>) -> Result<Vec<u8>, HexFault>
    ensures ok { IfOk result (λ bytes. bytes_said words.entry ≡ Some bytes.items) }
    ensures malformed { result ≡ Err HexFault.Malformed → bytes_said words.entry ≡ None }
{
    let Some(word) = words.next() else {
        return Err(HexFault::Malformed);
    };
    match words.next() {
        None => hex_bytes(alloc, word),
        Some(_) => Err(HexFault::Malformed),
    }
}

/// Returns the key that the line's words spell.
fn read_key(alloc: Global, words: Words<'_>) -> Result<Key, HexFault>
    ensures ok { IfOk result (λ key. if_key (bytes_said words.entry) ≡ Some key.0) }
    ensures malformed { result ≡ Err HexFault.Malformed
        → if_key (bytes_said words.entry) ≡ None }
{
    let bytes = read_bytes(alloc, words)?;
    match <[u8; KEY_BYTES]>::try_from(bytes.as_slice()) {
        Ok(key) => Ok(Key(key)),
        Err(_) => Err(HexFault::Malformed),
    }
}

/// Returns the hash of the input that the line's words spell.
fn hash_input(alloc: Global, key: &Key, words: Words<'_>) -> Result<u32, HexFault>
    ensures ok { IfOk result (λ hash. option_map (toeplitz_hash key.now.0)
        (if_input (bytes_said words.entry)) ≡ Some hash) }
    ensures malformed { result ≡ Err HexFault.Malformed
        → if_input (bytes_said words.entry) ≡ None }
{
    let input = read_bytes(alloc, words)?;
    if input.len() > INPUT_BYTES {
        return Err(HexFault::Malformed);
    }
    Ok(hash(key, &input))
}

/// Appends the hash of the input on a line, if the line has words.
fn add_line(
    alloc: Global,
    key: &Key,
    hashes: &mut Vec<u32>,
    line: Line<'_>,
) -> Result<(), HashFault>
    ensures ok { OnOk result ((more : Result (List (List ℕ)) ℕ) → hashed key.now.0 hashes.old.items
        (line_and line.entry.number (words_of line.entry.text.now) more)
        ≡ hashed key.now.0 hashes.new.items more) }
    ensures syntax { (n : ℕ) → result ≡ Err (HashFault.Syntax n)
        → (more : Result (List (List ℕ)) ℕ)
        → line_and line.entry.number (words_of line.entry.text.now) more ≡ Err n }
{
    if Words::of(line.text).next().is_none() {
        return Ok(());
    }
    match hash_input(alloc, key, Words::of(line.text)) {
        Ok(hash) => hashes.push(hash)?,
        Err(fault) => return Err(HashFault::of(line.number, fault)),
    }
    Ok(())
}

/// Returns the hashes of the inputs on the lines after the key.
fn hash_inputs(alloc: Global, key: &Key, lines: Lines<'_>) -> Result<Vec<u32>, HashFault>
    ensures ok { IfOk result (λ hashes. hashed key.now.0 [] (inputs_of lines.entry)
        ≡ Ok hashes.items) }
    ensures syntax { (n : ℕ) → result ≡ Err (HashFault.Syntax n)
        → hashed key.now.0 [] (inputs_of lines.entry) ≡ Err n }
{
    let mut hashes = Vec::new(alloc);
    for line in lines {
        add_line(alloc, key, &mut hashes, line)?;
    }
    Ok(hashes)
}

/// Returns the hashes of the inputs on the lines after the first line, which is the key.
fn hashes_in(alloc: Global, text: &str) -> Result<Vec<u32>, HashFault>
    ensures ok { IfOk result (λ hashes. lines_answer (lines_of text.now)
        ≡ words_answer hashes.items) }
    ensures syntax { (n : ℕ) → result ≡ Err (HashFault.Syntax n)
        → lines_answer (lines_of text.now)
        ≡ refused_at (codes "Syntax") n }
{
    let mut lines = Lines::of(text);
    let Some(first) = lines.next() else {
        return Err(HashFault::Syntax(1));
    };
    match read_key(alloc, Words::of(first.text)) {
        Ok(key) => hash_inputs(alloc, &key, lines),
        Err(fault) => Err(HashFault::of(first.number, fault)),
    }
}

/// Writes a hash on its own line.
fn write_hash<W: Write>(output: &mut Output<W>, hash: u32) -> Result<(), Failure>
    ensures ok { OnOk result (Appends (W.contents output.old.writer) (W.contents output.new.writer)
        (word_line hash)) }
    ensures err { FailsToWrite result output.new.has_failed }
{
    let hash = WordText(hash);
    output.write(format_args!("{hash}\n"))
}

/// Writes hashes, each on its own line, and returns the status.
fn write_hashes<W: Write>(output: &mut Output<W>, hashes: &[u32]) -> Result<u8, Failure>
    ensures { Gives result (W.contents output.old.writer) (W.contents output.new.writer)
        output.new.has_failed (words_answer hashes.now) }
{
    for hash in hashes {
        write_hash(output, *hash)?;
    }
    Ok(DONE)
}

/// Reads a 40-byte key from the first line and inputs of at most 36 bytes from the lines after it, all in hex. Writes
/// each input's Toeplitz hash with this key. All lines are parsed before the first hash is written.
pub(crate) fn hash_lines<W: Write>(
    alloc: Global,
    text: &str,
    output: &mut Output<W>,
) -> Result<u8, Failure>
    ensures { Gives result (W.contents output.old.writer) (W.contents output.new.writer)
        output.new.has_failed (hash_answer text.now) }
{
    match hashes_in(alloc, text) {
        Ok(hashes) => write_hashes(output, &hashes),
        Err(HashFault::Syntax(line)) => write_refusal(output, &Refusal::numbered("Syntax", line)),
        Err(HashFault::OutOfMemory) => Err(Failure::OutOfMemory),
    }
}
