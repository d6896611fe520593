//! A file for each word, written one after the other, under a name with another ending.
ghost use Rattle.std.specs.Prelude.{◌≡◌, codes, length, map, IfOk};
ghost use Rattle.std.specs.String.{string_bytes};
ghost use Rattle.papy_io.specs.Activity.{Idle};
ghost use Rattle.papy_io.specs.Count.{CountsFaults};
ghost use Rattle.papy_io.specs.WriteFile.{WritesFile};
ghost use Rattle.papy_base.specs.Bytes.{bytes_of};
ghost use Rattle.papyrus_cmd.specs.Written.{WritesEach, renamed};

use papy_base::{Made, Text};
use papy_io::{Desk, IoFault, write_file};
use std::alloc::Global;

/// The bytes of the ending that a word has.
const ENDING_LENGTH: usize = 4;

/// What the name of a compiled file ends with.
const PEX_ENDING: &[u8] = b".pex";

/// What the name of a lifted source ends with.
const SOURCE_ENDING: &[u8] = b".lift.psc";

/// The name that has another ending in the place of a word's.
fn renamed(alloc: Global, word: &[u8], ending: &[u8]) -> Made<Vec<u8>>
    ensures { IfOk result (λ name. name.items ≡ renamed ending.now word.now) }
{
    let stem = word.len().saturating_sub(ENDING_LENGTH);
    let mut name = word[..stem].to_vec(alloc)?;
    name.extend_from_slice(ending)?;
    Ok(name)
}

/// Writes the file of a word.
fn write_renamed<D: Desk>(
    alloc: Global,
    desk: &mut D,
    word: &[u8],
    ending: &[u8],
    bytes: &[u8],
) -> Result<(), IoFault>
    requires { D.busy desk.old ≡ Idle }
    ensures busy { D.busy desk.new ≡ Idle }
    ensures holds { WritesFile (renamed ending.now word.now) bytes.now result (D.holds desk.old) (D.holds desk.new) }
    ensures write_faults { CountsFaults result (D.write_faults desk.old) (D.write_faults desk.new) }
    ensures read_faults { D.read_faults desk.new ≡ D.read_faults desk.old }
    ensures missed { D.missed desk.new ≡ D.missed desk.old }
{
    let name = renamed(alloc, word, ending)?;
    write_file(desk, &name, bytes)
}

/// Writes the compiled file of each script, in order, up to the first that isn't written.
///
/// `Failed` comes only where the desk failed. After an error the files before that one are whole, it is as
/// `write_file` leaves it, and those behind it are as they were.
pub fn write_each<D: Desk>(
    alloc: Global,
    desk: &mut D,
    scripts: &[String],
    files: &[Vec<u8>],
) -> Result<(), IoFault>
    requires idle { D.busy desk.old ≡ Idle }
    requires one_each { length files.now ≡ length scripts.now }
    ensures busy { D.busy desk.new ≡ Idle }
    ensures holds { WritesEach (codes ".pex") (map string_bytes scripts.now) (map bytes_of files.now) result (D.holds desk.old) (D.holds desk.new) }
    ensures write_faults { CountsFaults result (D.write_faults desk.old) (D.write_faults desk.new) }
    ensures read_faults { D.read_faults desk.new ≡ D.read_faults desk.old }
    ensures missed { D.missed desk.new ≡ D.missed desk.old }
{
    for (place, bytes) in files.iter().enumerate() {
        write_renamed(alloc, desk, scripts[place].as_bytes(), PEX_ENDING, bytes)?;
    }
    Ok(())
}

/// Writes the source of each compiled file, in order, up to the first that isn't written, as `write_each` does.
pub fn write_sources<D: Desk>(
    alloc: Global,
    desk: &mut D,
    files: &[String],
    texts: &[Text],
) -> Result<(), IoFault>
    requires idle { D.busy desk.old ≡ Idle }
    requires one_each { length texts.now ≡ length files.now }
    ensures busy { D.busy desk.new ≡ Idle }
    ensures holds { WritesEach (codes ".lift.psc") (map string_bytes files.now) texts.now result (D.holds desk.old) (D.holds desk.new) }
    ensures write_faults { CountsFaults result (D.write_faults desk.old) (D.write_faults desk.new) }
    ensures read_faults { D.read_faults desk.new ≡ D.read_faults desk.old }
    ensures missed { D.missed desk.new ≡ D.missed desk.old }
{
    for (place, text) in texts.iter().enumerate() {
        write_renamed(
            alloc,
            desk,
            files[place].as_bytes(),
            SOURCE_ENDING,
            text.as_bytes(),
        )?;
    }
    Ok(())
}
