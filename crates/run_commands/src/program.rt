//! What a command runs: a scene and compiled files, read and verified.
ghost use Rattle.std.specs.Prelude.{◌≡◌, ◌+◌, ◌<◌, ◌≤◌, ◌++◌, ◌∷◌, [], All, IfErr, IfOk, IfSome, length, map, vec_len};
ghost use Rattle.std.specs.String.{string_bytes};
ghost use Rattle.papy_io.specs.Activity.{Idle};
ghost use Rattle.pex_verify.specs.Files.{IsFile};
ghost use Rattle.scene_reader.specs.Limits.{KeepsLimits};
ghost use Rattle.command_files.specs.Ending.{IsWordBelow, MissesScript};
ghost use Rattle.command_files.specs.Held.{AreHeld};
ghost use Rattle.command_files.specs.FileFault.{CountsFile, MissesFile};
ghost use Rattle.command_files.specs.Scripts.{CountsScripts};
ghost use Rattle.run_commands.specs.Program.{AreKept, AreSmall, AreSpelled, EndsOnProgram, EndsOnSet, EndsOnValues, EndsTogether, IsHeldProgram, IsSpelled, MissesRead, MissesValue, ReadsValue, Verifies};

use command_files::{
    Ending, FileFault, KeptScene, PexFile, Place, Rule, load_kept_scene, read_pex,
};
use core_tree::SceneTree;
use papy_base::{Made, OutOfMemory};
use papy_io::Desk;
use pex_values::Pex;
use pex_verify::{JudgedFiles, Loaded, VerifyFault, judge, verify};
use std::alloc::Global;

/// What a command runs.
#[derive(Drop)]
pub struct Program {
    /// The scene.
    pub tree: SceneTree,
    /// The bytes of the scene.
    pub text: Vec<u8>,
    /// The compiled files.
    pub loaded: Loaded,
    /// The bytes of each compiled file, or no bytes of each where they weren't to be kept.
    pub kept: Vec<Vec<u8>>,
}

// Compiled files that were read, one after another, each with its bytes or none.
#[derive(Drop)]
struct ReadFiles {
    values: Vec<Pex>,
    kept: Vec<Vec<u8>>,
}

// Reads a compiled file, with its bytes where they are to be kept.
fn read_value<D: Desk>(
    alloc: Global,
    desk: &mut D,
    name: &[u8],
    keep: bool,
) -> Result<PexFile, FileFault>
    requires { D.busy desk.old ≡ Idle }
    ensures holds { D.holds desk.new ≡ D.holds desk.old }
    ensures busy { D.busy desk.new ≡ Idle }
    ensures write_faults { D.write_faults desk.new ≡ D.write_faults desk.old }
    ensures read_faults { CountsFile result (D.read_faults desk.old) (D.read_faults desk.new) }
    ensures missed { MissesFile name.now result (D.missed desk.new) }
    ensures valid { IfOk result (λ file. IsFile file.value) }
    ensures small { IfOk result (λ file. vec_len file.bytes ≤ 16777216) }
    ensures read { ReadsValue keep (D.holds desk.old) name.now result }
    ensures spelled { IfOk result (λ file. IfSome (D.holds desk.old) (IsSpelled name.now file.value)) }
{
    if keep {
        return read_pex(alloc, desk, name);
    }
    match read_pex(alloc, desk, name) {
        Ok(file) => Ok(PexFile {
            value: file.value,
            bytes: Vec::new(alloc),
        }),
        Err(fault) => Err(fault),
    }
}

fn keep_file(files: &mut ReadFiles, file: PexFile) -> Made<()>
    ensures values { IfOk result (λ _. files.new.values.items ≡ files.old.values.items ++ file.value ∷ []) }
    ensures kept { IfOk result (λ _. files.new.kept.items ≡ files.old.kept.items ++ file.bytes ∷ []) }
{
    files.values.push(file.value)?;
    files.kept.push(file.bytes)?;
    Ok(())
}

// Reads compiled files in order, up to the first that isn't read or breaks a rule. `first` is the number of the word
// that names the first of them.
fn read_values<D: Desk>(
    alloc: Global,
    names: &[String],
    first: usize,
    desk: &mut D,
    keep: bool,
) -> Result<ReadFiles, Ending>
    requires idle { D.busy desk.old ≡ Idle }
    requires few { length names.now ≤ 256 }
    requires near { first ≤ 4 }
    ensures busy { D.busy desk.new ≡ Idle }
    ensures holds { D.holds desk.new ≡ D.holds desk.old }
    ensures write_faults { D.write_faults desk.new ≡ D.write_faults desk.old }
    ensures read_faults { CountsScripts result (D.read_faults desk.old) (D.read_faults desk.new) }
    ensures missed { IfErr result (λ ending. MissesValue first (map string_bytes names.now) ending (D.missed desk.new)) }
    ensures ends { IfErr result (EndsOnValues first (map string_bytes names.now) (D.holds desk.old)) }
    ensures word { IfErr result (IsWordBelow (first + length names.now)) }
    ensures count { IfOk result (λ files. vec_len files.values ≡ length names.now) }
    ensures as_many { IfOk result (λ files. vec_len files.kept ≡ length names.now) }
    ensures valid { IfOk result (λ files. All IsFile files.values.items) }
    ensures small { IfOk result (λ files. AreSmall files.kept.items) }
    ensures kept { IfOk result (λ files. IfSome (D.holds desk.old) (AreKept keep (map string_bytes names.now) files.kept.items)) }
    ensures spelled { IfOk result (λ files. IfSome (D.holds desk.old) (AreSpelled (map string_bytes names.now) files.values.items)) }
{
    let mut files = ReadFiles {
        values: Vec::new(alloc),
        kept: Vec::new(alloc),
    };
    for (place, name) in names.iter().enumerate() {
        let file = match read_value(alloc, desk, name.as_bytes(), keep) {
            Ok(file) => file,
            Err(fault) => {
                drop(files);
                return Err(fault.at_word(first + place));
            }
        };
        match keep_file(&mut files, file) {
            Ok(()) => {}
            Err(_) => {
                drop(files);
                return Err(Ending::OutOfMemory);
            }
        }
    }
    Ok(files)
}

// How a command ends whose compiled files, so many, can't run together.
fn unfit_ending(fault: VerifyFault, first: usize, count: usize) -> Ending
    requires some { 0 < count }
    requires few { count ≤ 256 }
    requires near { first ≤ 4 }
    ensures { EndsTogether first count result }
{
    match fault {
        VerifyFault::OutOfMemory => Ending::OutOfMemory,
        VerifyFault::Broken {
            file,
            object,
            member,
            at,
            rule,
        } => Ending::Refused {
            word: first + usize::from(file).min(count - 1),
            place: Place::Member { object, member, at },
            rule: Rule::Verification(rule),
        },
    }
}

// The set of compiled files, or how the command ends that can't run them together.
fn load_values(alloc: Global, values: Vec<Pex>, first: usize) -> Result<Loaded, Ending>
    requires some { 0 < vec_len values }
    requires few { vec_len values ≤ 256 }
    requires near { first ≤ 4 }
    requires valid { All IsFile values.items }
    ensures files { IfOk result (λ loaded. loaded.files ≡ values.items) }
    ensures verifies { Verifies first (vec_len values) result }
{
    let count = values.len();
    match verify(alloc, values) {
        Ok(loaded) => Ok(loaded),
        Err(fault) => Err(unfit_ending(fault, first, count)),
    }
}

// Compiled files that may run together, or how the command ends whose files may not.
fn judge_values(alloc: Global, values: Vec<Pex>, first: usize) -> Result<JudgedFiles, Ending>
    requires some { 0 < vec_len values }
    requires few { vec_len values ≤ 256 }
    requires near { first ≤ 4 }
    requires valid { All IsFile values.items }
    ensures files { IfOk result (λ judged. judged.files ≡ values.items) }
    ensures verifies { Verifies first (vec_len values) result }
{
    let count = values.len();
    match judge(alloc, values) {
        Ok(judged) => Ok(judged),
        Err(fault) => Err(unfit_ending(fault, first, count)),
    }
}

/// Reads compiled files in order, up to the first that isn't read or breaks a rule, and judges whether they may run together. The
/// values of the set are those that the files spell, one by one. The first name is the word behind the command's own.
pub fn read_set<D: Desk>(
    alloc: Global,
    names: &[String],
    desk: &mut D,
) -> Result<JudgedFiles, Ending>
    requires idle { D.busy desk.old ≡ Idle }
    requires some { 0 < length names.now }
    requires few { length names.now ≤ 256 }
    ensures busy { D.busy desk.new ≡ Idle }
    ensures holds { D.holds desk.new ≡ D.holds desk.old }
    ensures write_faults { D.write_faults desk.new ≡ D.write_faults desk.old }
    ensures read_faults { CountsScripts result (D.read_faults desk.old) (D.read_faults desk.new) }
    ensures missed { IfErr result (λ ending. MissesScript (map string_bytes names.now) ending (D.missed desk.new)) }
    ensures ends { IfErr result (EndsOnSet 1 (map string_bytes names.now) (D.holds desk.old)) }
    ensures word { IfErr result (IsWordBelow (length names.now + 1)) }
    ensures count { IfOk result (λ set. length set.files ≡ length names.now) }
    ensures held { IfOk result (λ _. IfSome (D.holds desk.old) (AreHeld (map string_bytes names.now))) }
    ensures spelled { IfOk result (λ set. IfSome (D.holds desk.old) (AreSpelled (map string_bytes names.now) set.files)) }
{
    let files = match read_values(alloc, names, 1, desk, false) {
        Ok(files) => files,
        Err(ending) => return Err(ending),
    };
    let ReadFiles { values, kept } = files;
    drop(kept);
    match judge_values(alloc, values, 1) {
        Ok(set) => Ok(set),
        Err(ending) => Err(ending),
    }
}

// What was read, with its compiled files as a set.
fn loaded_program(
    alloc: Global,
    scene: KeptScene,
    files: ReadFiles,
    first: usize,
) -> Result<Program, Ending>
    requires some { 0 < vec_len files.values }
    requires few { vec_len files.values ≤ 256 }
    requires near { first ≤ 4 }
    requires valid { All IsFile files.values.items }
    ensures ends { Verifies first (vec_len files.values) result }
    ensures tree { IfOk result (λ program. program.tree ≡ scene.tree) }
    ensures text { IfOk result (λ program. program.text ≡ scene.text) }
    ensures kept { IfOk result (λ program. program.kept ≡ files.kept) }
{
    let ReadFiles { values, kept } = files;
    match load_values(alloc, values, first) {
        Ok(loaded) => {
            let KeptScene { tree, text } = scene;
            Ok(Program {
                tree,
                text,
                loaded,
                kept,
            })
        }
        Err(ending) => {
            drop(scene);
            drop(kept);
            Err(ending)
        }
    }
}

/// Reads a scene and compiled files in order, up to the first that isn't read or breaks a rule, and verifies the files.
/// `words` stand behind the command's own. The word of the number `named` names the scene, and those from the number
/// `first` on the compiled files. Their bytes are kept where they are asked for.
pub fn read_program<D: Desk>(
    alloc: Global,
    words: &[String],
    named: usize,
    first: usize,
    desk: &mut D,
    keep: bool,
) -> Result<Program, Ending>
    requires idle { D.busy desk.old ≡ Idle }
    requires counted { 0 < named }
    requires behind { named < first }
    requires near { first ≤ 4 }
    requires some { first ≤ length words.now }
    requires few { length words.now < first + 256 }
    ensures busy { D.busy desk.new ≡ Idle }
    ensures holds { D.holds desk.new ≡ D.holds desk.old }
    ensures write_faults { D.write_faults desk.new ≡ D.write_faults desk.old }
    ensures read_faults { CountsScripts result (D.read_faults desk.old) (D.read_faults desk.new) }
    ensures missed { IfErr result (λ ending. MissesRead named first (map string_bytes words.now) ending (D.missed desk.new)) }
    ensures ends { IfErr result (EndsOnProgram named first (map string_bytes words.now) (D.holds desk.old)) }
    ensures word { IfErr result (IsWordBelow (length words.now + 1)) }
    ensures limits { IfOk result (λ program. KeepsLimits program.tree) }
    ensures few_bytes { IfOk result (λ program. vec_len program.text ≤ 16777216) }
    ensures few_files { IfOk result (λ program. vec_len program.kept ≤ 256) }
    ensures small { IfOk result (λ program. AreSmall program.kept.items) }
    ensures held { IfOk result (λ program. IfSome (D.holds desk.old) (IsHeldProgram named first keep (map string_bytes words.now) program)) }
{
    let scene = match load_kept_scene(alloc, desk, words[named - 1].as_bytes()) {
        Ok(scene) => scene,
        Err(fault) => return Err(fault.at_word(named)),
    };
    let files = match read_values(alloc, &words[first - 1..], first, desk, keep) {
        Ok(files) => files,
        Err(ending) => {
            drop(scene);
            return Err(ending);
        }
    };
    loaded_program(alloc, scene, files, first)
}
