//! The command that writes the compiled file of a listing.
ghost use Rattle.std.specs.Prelude.{◌≡◌, ◌≢◌, ◌≤◌, ℕ, List, Some, length, map, take, IfOk};
ghost use Rattle.std.specs.String.{string_bytes};
ghost use Rattle.papy_io.specs.Activity.{Idle};
ghost use Rattle.papy_io.specs.Files.{Files, told_bytes};
ghost use Rattle.pex_codec.specs.Spells.{Spells};
ghost use Rattle.pex_values.specs.Fit.{Fits};
ghost use Rattle.pex_values.specs.Plain.{plain};
ghost use Rattle.pex_values.specs.Shape.{IsWellShaped};
ghost use Rattle.command_files.specs.Outputs.{AnswersTo, EndsUnprinted};
ghost use Rattle.papyrus_cmd.specs.Answers.{AsmAnswers};
ghost use Rattle.papyrus_cmd.specs.Asm.{AsmLeaves, Assembles, IsAssembled, ReadsListing, SpellsValue, Writes};
ghost use Rattle.papyrus_cmd.specs.Show.{Lists};
ghost use Rattle.command_files.specs.Ending.{CountsReads, CountsWrites, IsWordBelow, MissesScript, word_at};
ghost use Rattle.command_files.specs.FileFault.{CountsFile, MissesFile};

use command_files::{Ending, FileFault, Place, Rule, read_text};
use papy_base::{Made, OutOfMemory};
use papy_io::{Desk, write_file};
use pex_codec::{EncodeFault, encode};
use pex_listing::{ListingFault, ListingRule, assemble};
use pex_values::Pex;
use std::alloc::Global;

/// The most bytes of a listing: 128 MiB.
const LISTING_LIMIT: u32 = 1 << 27;

/// The bytes that spell a value which fits a file.
fn spelling_of(alloc: Global, value: &Pex) -> Made<Vec<u8>>
    requires shaped { IsWellShaped (plain value.now) }
    requires fits { Fits (plain value.now) }
    ensures { IfOk result (λ bytes. Spells (plain value.now) bytes.items) }
{
    match encode(alloc, value) {
        Ok(bytes) => Ok(bytes),
        Err(EncodeFault::OutOfMemory) => Err(OutOfMemory),
        Err(EncodeFault::TooManyItems) => unreachable!(),
    }
}

fn spelled(alloc: Global, value: &Pex) -> Result<Vec<u8>, FileFault>
    requires shaped { IsWellShaped (plain value.now) }
    requires fits { Fits (plain value.now) }
    ensures { SpellsValue (plain value.now) result }
{
    match spelling_of(alloc, value) {
        Ok(bytes) => Ok(bytes),
        Err(_) => Err(FileFault::OutOfMemory),
    }
}

/// The bytes of the file that a listing lists.
fn file_of(alloc: Global, text: &[u8]) -> Result<Vec<u8>, FileFault>
    requires { length text.now ≤ 134217728 }
    ensures { Assembles text.now result }
{
    match assemble(alloc, text) {
        Ok(value) => {
            let bytes = spelled(alloc, &value);
            drop(value);
            bytes
        }
        Err(ListingFault::OutOfMemory) => Err(FileFault::OutOfMemory),
        Err(ListingFault::Broken { line, rule }) => Err(FileFault::Refused {
            place: Place::Line(line),
            rule: Rule::Listing(rule),
        }),
    }
}

/// Reads a listing, and gives the bytes of its file.
fn read_listing<D: Desk>(alloc: Global, desk: &mut D, name: &[u8]) -> Result<Vec<u8>, FileFault>
    requires { D.busy desk.old ≡ Idle }
    ensures holds { D.holds desk.new ≡ D.holds desk.old }
    ensures busy { D.busy desk.new ≡ Idle }
    ensures write_faults { D.write_faults desk.new ≡ D.write_faults desk.old }
    ensures read_faults { CountsFile result (D.read_faults desk.old) (D.read_faults desk.new) }
    ensures missed { MissesFile name.now result (D.missed desk.new) }
    ensures spelled { IfOk result (λ bytes. IsAssembled name.now (D.holds desk.old) bytes.items) }
    ensures read { ReadsListing (D.holds desk.old) name.now result }
{
    let text = match read_text(
        alloc,
        desk,
        name,
        LISTING_LIMIT,
        Place::Line(0),
        Rule::Listing(ListingRule::BadLine),
    ) {
        Ok(text) => text,
        Err(fault) => return Err(fault),
    };
    file_of(alloc, &text)
}

/// Reads the listing that the first word names, and writes its file under the name that the second
/// word is. Nothing is written where the listing is refused.
pub fn asm<D: Desk>(alloc: Global, files: &[String], desk: &mut D) -> Ending
    requires idle { D.busy desk.old ≡ Idle }
    requires two { 2 ≤ length files.now }
    ensures busy { D.busy desk.new ≡ Idle }
    ensures holds { AsmLeaves (word_at (map string_bytes files.now) 0) (word_at (map string_bytes files.now) 1) result (D.holds desk.old) (D.holds desk.new) }
    ensures write_faults { CountsWrites result (D.write_faults desk.old) (D.write_faults desk.new) }
    ensures read_faults { CountsReads result (D.read_faults desk.old) (D.read_faults desk.new) }
    ensures missed { MissesScript (take 1 (map string_bytes files.now)) result (D.missed desk.new) }
    ensures never_usage { result ≢ Ending.Usage }
    ensures word { IsWordBelow 2 result }
    ensures output { EndsUnprinted (AnswersTo AsmAnswers (word_at (map string_bytes files.now) 0)) (D.holds desk.old) result }
{
    let bytes = match read_listing(alloc, desk, files[0].as_bytes()) {
        Ok(bytes) => bytes,
        Err(fault) => return fault.at_word(1),
    };
    match write_file(desk, files[1].as_bytes(), &bytes) {
        Ok(()) => Ending::Done,
        Err(fault) => Ending::from(fault),
    }
}

/// `asm` undoes `show`: where a text is the listing of a file, what `asm` writes of that text are the bytes of that file.
pub fn asm_writes_a_listed_file_again()
    ensures { (source name bytes text : List ℕ) (old new : Files) → Lists bytes text → told_bytes (Some old) source ≡ Some text
        → Writes source name (Some old) (Some new) → told_bytes (Some new) name ≡ Some bytes }
{}
