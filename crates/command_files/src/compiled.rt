//! What accepted scripts compile to: values that may run together, and their bytes.
ghost use Rattle.std.specs.Prelude.{◌-◌, ◌≤◌, IfOk, map, vec_len};
ghost use Rattle.std.specs.List.{AllByRecursion};
ghost use Rattle.pex_values.specs.Plain.{plain};
ghost use Rattle.pex_values.specs.Shape.{IsWellShaped};
ghost use Rattle.command_files.specs.Compiled.{AreFilesOf, HasFiles};
ghost use Rattle.papy_base.specs.Bytes.{bytes_of};

use crate::compile_fault::CompileFault;
use code_emit::emit;
use core_tree::CoreSet;
use pex_codec::encode;
use pex_values::Pex;
use pex_verify::{JudgedFiles, judge};
use std::alloc::Global;

/// The compiled files of a set of scripts, one for each script, in the order of the scripts.
#[derive(Drop)]
pub struct CompiledSet {
    /// The values of the files, which break no rule of files that run together.
    pub judged: JudgedFiles,
    /// The bytes that spell each value.
    pub files: Vec<Vec<u8>>,
}

/// The bytes of each value.
fn encode_each(alloc: Global, values: &[Pex]) -> Result<Vec<Vec<u8>>, CompileFault>
    requires { AllByRecursion IsWellShaped (map plain values.now) }
    ensures { IfOk result (λ files. AreFilesOf values.now (map bytes_of files.items)) }
{
    let mut files = Vec::with_capacity(alloc, values.len())?;
    for value in values {
        let bytes = encode(alloc, value)?;
        files.push(bytes)?;
    }
    Ok(files)
}

/// The compiled files of a set of accepted scripts, of which there are at most 65,535 behind those of
/// the prelude.
///
/// # Errors
///
/// `NotBuilt` comes where a script has no value, where one doesn't fit a file, and where the values
/// break a rule of files that run together. No set of accepted scripts is known that has such a value.
/// `OutOfMemory` comes where no memory is found.
pub fn compile_set(alloc: Global, set: &CoreSet) -> Result<CompiledSet, CompileFault>
    requires { vec_len set.now.scripts ≤ 65535 }
    ensures { IfOk result (HasFiles (vec_len set.now.scripts - 6)) }
{
    let values = emit(alloc, set)?;
    let files = encode_each(alloc, &values)?;
    let judged = judge(alloc, values)?;
    Ok(CompiledSet { judged, files })
}
