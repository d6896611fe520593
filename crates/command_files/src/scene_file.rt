//! Scene files.
ghost use Rattle.std.specs.Prelude.{◌≡◌, ◌≤◌, vec_len, IfErr, IfOk};
ghost use Rattle.papy_io.specs.Activity.{Idle};
ghost use Rattle.scene_reader.specs.Limits.{KeepsLimits};
ghost use Rattle.scene_reader.specs.declared.fault.SceneRule.TheVariants as SceneRule;
ghost use Rattle.command_files.specs.FileFault.{CountsFile, MissesFile};
ghost use Rattle.command_files.specs.SceneFile.{IsSceneFault, ReadsKeptScene, ReadsScene};
ghost use Rattle.command_files.specs.TextFile.{ReadsText};
ghost use Rattle.command_files.specs.declared.refusal.Place.TheVariants as Place;
ghost use Rattle.command_files.specs.declared.refusal.Rule.TheVariants as Rule;

use crate::file_fault::FileFault;
use crate::refusal::{Place, Rule};
use crate::text_file::read_text;
use core_tree::SceneTree;
use papy_io::Desk;
use scene_reader::{SceneFault, SceneRule, read_scene};
use std::alloc::Global;

/// The most bytes of a scene.
const SCENE_LIMIT: u32 = 1 << 24;

impl From<SceneFault> for FileFault {
    ghost use Rattle.command_files.specs.SceneFile.{scene_fault};

    ghost from_gives = { λ fault found. found ≡ scene_fault fault };

    fn from(fault: SceneFault) -> FileFault {
        match fault {
            SceneFault::Broken { rule } => FileFault::Refused {
                place: Place::Whole,
                rule: Rule::Scene(rule),
            },
            SceneFault::OutOfMemory => FileFault::OutOfMemory,
        }
    }
}

/// Reads the text of a scene file. One of more than 16 MiB breaks C3.
///
/// # Errors
///
/// `ReadFault` comes where the desk refused to read, `Refused` where the file is too large, and
/// `OutOfMemory` where there is no room for it.
pub fn read_scene_text<D: Desk>(
    alloc: Global,
    desk: &mut D,
    name: &[u8],
) -> Result<Vec<u8>, FileFault>
    requires { D.busy desk.old ≡ Idle }
    ensures holds { D.holds desk.new ≡ D.holds desk.old }
    ensures busy { D.busy desk.new ≡ Idle }
    ensures write_faults { D.write_faults desk.new ≡ D.write_faults desk.old }
    ensures read_faults { CountsFile result (D.read_faults desk.old) (D.read_faults desk.new) }
    ensures missed { MissesFile name.now result (D.missed desk.new) }
    ensures small { IfOk result (λ text. vec_len text ≤ 16777216) }
    ensures read { ReadsText (D.holds desk.old) name.now 16777216 Place.Whole (Rule.Scene SceneRule.Limit) result }
{
    let rule = Rule::Scene(SceneRule::Limit);
    read_text(alloc, desk, name, SCENE_LIMIT, Place::Whole, rule)
}

/// A scene that was read, with its text.
#[derive(Drop)]
pub struct KeptScene {
    /// What it says.
    pub tree: SceneTree,
    /// Its bytes.
    pub text: Vec<u8>,
}

/// What the text of a scene says. The first of the rules C1 to C3 that it breaks is told.
fn parsed(alloc: Global, text: &[u8]) -> Result<SceneTree, FileFault>
    ensures limits { IfOk result KeepsLimits }
    ensures refused { IfErr result IsSceneFault }
{
    match read_scene(alloc, text) {
        Ok(tree) => Ok(tree),
        Err(fault) => Err(FileFault::from(fault)),
    }
}

/// Reads a scene file, and gives its text too. The first of the rules C1 to C3 that it breaks is told.
///
/// # Errors
///
/// `ReadFault` comes where the desk refused to read, `Refused` where a rule is broken, and
/// `OutOfMemory` where there is no room.
pub fn load_kept_scene<D: Desk>(
    alloc: Global,
    desk: &mut D,
    name: &[u8],
) -> Result<KeptScene, FileFault>
    requires { D.busy desk.old ≡ Idle }
    ensures holds { D.holds desk.new ≡ D.holds desk.old }
    ensures busy { D.busy desk.new ≡ Idle }
    ensures write_faults { D.write_faults desk.new ≡ D.write_faults desk.old }
    ensures read_faults { CountsFile result (D.read_faults desk.old) (D.read_faults desk.new) }
    ensures missed { MissesFile name.now result (D.missed desk.new) }
    ensures limits { IfOk result (λ scene. KeepsLimits scene.tree) }
    ensures small { IfOk result (λ scene. vec_len scene.text ≤ 16777216) }
    ensures read { ReadsKeptScene (D.holds desk.old) name.now result }
{
    let text = read_scene_text(alloc, desk, name)?;
    match parsed(alloc, &text) {
        Ok(tree) => Ok(KeptScene { tree, text }),
        Err(fault) => Err(fault),
    }
}

/// Reads a scene file as `load_kept_scene` does, without its text.
///
/// # Errors
///
/// Those of `load_kept_scene`, in the same cases.
pub fn load_scene<D: Desk>(alloc: Global, desk: &mut D, name: &[u8]) -> Result<SceneTree, FileFault>
    requires { D.busy desk.old ≡ Idle }
    ensures holds { D.holds desk.new ≡ D.holds desk.old }
    ensures busy { D.busy desk.new ≡ Idle }
    ensures write_faults { D.write_faults desk.new ≡ D.write_faults desk.old }
    ensures read_faults { CountsFile result (D.read_faults desk.old) (D.read_faults desk.new) }
    ensures missed { MissesFile name.now result (D.missed desk.new) }
    ensures limits { IfOk result KeepsLimits }
    ensures read { ReadsScene (D.holds desk.old) name.now result }
{
    let scene = load_kept_scene(alloc, desk, name)?;
    Ok(scene.tree)
}
