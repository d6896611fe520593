//! The command that writes a scene in the current version.
ghost use Rattle.std.specs.Prelude.{◌≡◌, ◌≢◌, ◌≤◌, length, map, take};
ghost use Rattle.std.specs.String.{string_bytes};
ghost use Rattle.papy_io.specs.Activity.{Idle};
ghost use Rattle.command_files.specs.Ending.{CountsReads, CountsWrites, IsWordBelow, MissesScript, word_at};
ghost use Rattle.command_files.specs.FileFault.{CountsFile, MissesFile};
ghost use Rattle.command_files.specs.Outputs.{AnswersTo, EndsUnprinted};
ghost use Rattle.papyrus_cmd.specs.Answers.{UpgradeAnswers};
ghost use Rattle.papyrus_cmd.specs.Upgrade.{ReadsUpgraded, UpgradeLeaves, Upgraded};

use command_files::{Ending, FileFault, read_scene_text};
use papy_io::{Desk, write_file};
use scene_reader::upgrade_scene;
use std::alloc::Global;

/// The text of a scene in the current version.
fn upgraded(alloc: Global, text: &[u8]) -> Result<Vec<u8>, FileFault>
    ensures { Upgraded result }
{
    match upgrade_scene(alloc, text) {
        Ok(text) => Ok(text),
        Err(fault) => Err(FileFault::from(fault)),
    }
}

/// Reads a scene, and gives its text in the current version.
fn read_upgraded<D: Desk>(alloc: Global, desk: &mut D, name: &[u8]) -> Result<Vec<u8>, FileFault>
    requires { D.busy desk.old ≡ Idle }
    ensures holds { D.holds desk.new ≡ D.holds desk.old }
    ensures busy { D.busy desk.new ≡ Idle }
    ensures write_faults { D.write_faults desk.new ≡ D.write_faults desk.old }
    ensures read_faults { CountsFile result (D.read_faults desk.old) (D.read_faults desk.new) }
    ensures missed { MissesFile name.now result (D.missed desk.new) }
    ensures read { ReadsUpgraded (D.holds desk.old) name.now result }
{
    let text = match read_scene_text(alloc, desk, name) {
        Ok(text) => text,
        Err(fault) => return Err(fault),
    };
    upgraded(alloc, &text)
}

/// Reads the scene that the first word names, and writes it in the current version under the name that
/// the second word is. Nothing is written where the scene is refused.
pub fn upgrade<D: Desk>(alloc: Global, files: &[String], desk: &mut D) -> Ending
    requires idle { D.busy desk.old ≡ Idle }
    requires two { 2 ≤ length files.now }
    ensures busy { D.busy desk.new ≡ Idle }
    ensures holds { UpgradeLeaves (word_at (map string_bytes files.now) 1) result (D.holds desk.old) (D.holds desk.new) }
    ensures write_faults { CountsWrites result (D.write_faults desk.old) (D.write_faults desk.new) }
    ensures read_faults { CountsReads result (D.read_faults desk.old) (D.read_faults desk.new) }
    ensures missed { MissesScript (take 1 (map string_bytes files.now)) result (D.missed desk.new) }
    ensures never_usage { result ≢ Ending.Usage }
    ensures word { IsWordBelow 2 result }
    ensures output { EndsUnprinted (AnswersTo UpgradeAnswers (word_at (map string_bytes files.now) 0)) (D.holds desk.old) result }
{
    let text = match read_upgraded(alloc, desk, files[0].as_bytes()) {
        Ok(text) => text,
        Err(fault) => return fault.at_word(1),
    };
    match write_file(desk, files[1].as_bytes(), &text) {
        Ok(()) => Ending::Done,
        Err(fault) => Ending::from(fault),
    }
}
