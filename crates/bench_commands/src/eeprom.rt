//! The command `nicbench eeprom`: creates an EEPROM image from its source, or with `--load` prints the register writes
//! in an image.
ghost use Rattle.std.specs.Prelude.{◌≡◌, ◌≢◌, MatchOption, OnOk};
ghost use Rattle.std.specs.Io.KnownBytes.{Appends};
ghost use Rattle.nic_device.specs.EepromImage.Triples.{triples_of};
ghost use Rattle.bench_commands.specs.Answer.{FailsToWrite, Gives, GivesRight, refused};
ghost use Rattle.bench_commands.specs.Eeprom.{IsImageAnswer, IsLoadAnswer, file_refused, text_refused};
ghost use Rattle.bench_commands.specs.Eeprom.{triple_line, triples_answer};

use crate::failure::Failure;
use crate::output::Output;
use crate::refusal::{Refusal, write_refusal};
use crate::status::DONE;
use nic_device::{AsmFault, Image, LoadFault, assemble, load};
use std::alloc::Global;
use std::io::Write;
use text_format::{AddressText, WordText};

/// Returns the refusal for source that doesn't describe an EEPROM image, or `None` if memory ran out.
fn refusal_of_text(fault: AsmFault) -> Option<Refusal>
    ensures { MatchOption result (fault ≡ AsmFault.OutOfMemory) (λ refusal.
        (fault ≢ AsmFault.OutOfMemory)
        × (refused refusal.name.now refusal.number ≡ text_refused fault)) }
{
    match fault {
        AsmFault::Syntax(line) => Some(Refusal::numbered("Syntax", line)),
        AsmFault::TwoValues(index) => Some(Refusal::numbered("TwoValues", index as usize)),
        AsmFault::Reserved(index) => Some(Refusal::numbered("Reserved", index as usize)),
        AsmFault::DoesNotFit => Some(Refusal::named("DoesNotFit")),
        AsmFault::PointerOutside => Some(Refusal::named("PointerOutside")),
        AsmFault::OutOfMemory => None,
    }
}

/// Returns the refusal for bytes that aren't an image, or `None` if memory ran out.
fn refusal_of_file(fault: LoadFault) -> Option<Refusal>
    ensures { MatchOption result (fault ≡ LoadFault.OutOfMemory) (λ refusal.
        (fault ≢ LoadFault.OutOfMemory)
        × (refused refusal.name.now refusal.number ≡ file_refused fault)) }
{
    match fault {
        LoadFault::OddLength => Some(Refusal::named("OddLength")),
        LoadFault::BadSize => Some(Refusal::named("BadSize")),
        LoadFault::SectionOutside => Some(Refusal::named("SectionOutside")),
        LoadFault::BadChecksum => Some(Refusal::named("BadChecksum")),
        LoadFault::NotTriples => Some(Refusal::named("NotTriples")),
        LoadFault::OutOfMemory => None,
    }
}

/// Writes the image that the source `text` describes, as the bytes of its file.
pub(crate) fn write_image<W: Write>(
    alloc: Global,
    text: &str,
    output: &mut Output<W>,
) -> Result<u8, Failure>
    ensures { GivesRight result (W.contents output.old.writer) (W.contents output.new.writer)
        output.new.has_failed (IsImageAnswer text.now) }
{
    match assemble(alloc, text) {
        Ok(image) => {
            let bytes = image.to_bytes(alloc)?;
            output.write_bytes(&bytes)?;
            Ok(DONE)
        }
        Err(fault) => match refusal_of_text(fault) {
            Some(refusal) => write_refusal(output, &refusal),
            None => Err(Failure::OutOfMemory),
        },
    }
}

/// Prints a register write on its own line.
fn write_triple<W: Write>(output: &mut Output<W>, triple: (u32, u32)) -> Result<(), Failure>
    ensures ok { OnOk result (Appends (W.contents output.old.writer) (W.contents output.new.writer)
        (triple_line triple)) }
    ensures err { FailsToWrite result output.new.has_failed }
{
    let offset = AddressText(u64::from(triple.0));
    let data = WordText(triple.1);
    output.write(format_args!("csr {offset} {data}\n"))
}

/// Prints the register writes in an image, each on its own line, and returns the status.
fn write_triples<W: Write>(image: &Image, output: &mut Output<W>) -> Result<u8, Failure>
    ensures { Gives result (W.contents output.old.writer) (W.contents output.new.writer)
        output.new.has_failed (triples_answer (triples_of image.now)) }
{
    for triple in image.triples() {
        write_triple(output, triple)?;
    }
    Ok(DONE)
}

/// Prints the register writes in the image whose file has these bytes.
pub(crate) fn load_image<W: Write>(
    alloc: Global,
    bytes: &[u8],
    output: &mut Output<W>,
) -> Result<u8, Failure>
    ensures { GivesRight result (W.contents output.old.writer) (W.contents output.new.writer)
        output.new.has_failed (IsLoadAnswer bytes.now) }
{
    match load(alloc, bytes) {
        Ok(image) => write_triples(&image, output),
        Err(fault) => match refusal_of_file(fault) {
            Some(refusal) => write_refusal(output, &refusal),
            None => Err(Failure::OutOfMemory),
        },
    }
}
