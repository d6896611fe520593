// Files that break no rule: they are judged, and then loaded.
ghost use Rattle.std.specs.Prelude.{◌≡◌, ◌<◌, map, length, vec_len, All, IfOk};
ghost use Rattle.std.specs.List.{AllZip};
ghost use Rattle.core_tree.specs.Outlines.{script_shape};
ghost use Rattle.pex_verify.specs.Coding.{CodesScript};
ghost use Rattle.pex_verify.specs.Files.{IsFile};
ghost use Rattle.pex_verify.specs.Naming.{NameScripts};
ghost use Rattle.pex_verify.specs.Sources.{script_count};

use crate::coded::{ScriptNames, coded_scripts};
use crate::fault::VerifyFault;
use crate::loaded::Loaded;
use crate::members::MemberTable;
use crate::verifier::{Parts, Tables, load_all};
use core_tree::{Outline, OutlineScript};
use loaded_code::LoadedScript;
use papy_base::Made;
use pex_set::NameNumbers;
use pex_values::Pex;
use std::alloc::Global;
use std::marker::Model;

/// Files that break no rule, with what is known of them where they were judged.
#[derive(Drop)]
pub struct JudgedFiles {
    files: Vec<Pex>,
    names: NameNumbers,
    tables: Tables,
}

impl Model for JudgedFiles {
    ghost use Rattle.pex_verify.specs.Kept.{KeepsJudged};
    ghost use Rattle.pex_verify.specs.Sets.{JudgedSet};

    ghost Value = { JudgedSet };

    ghost view = { λ j. record { outline = j.tables.parts.outlines.items; files = j.files.items; scripts = j.tables.parts.scripts.items } };

    ghost invariant = { λ j. KeepsJudged (record { outline = j.tables.parts.outlines.items; files = j.files.items; scripts = j.tables.parts.scripts.items }) j.names j.tables.objects j.tables.members };
}

impl JudgedFiles {
    ghost use Rattle.pex_verify.specs.Whole.{IsJudgedSet};

    /// The files as they were handed in.
    pub fn files(&self) -> &Vec<Pex>
        ensures files { result.now.items ≡ self.now.files }
        ensures valid { All IsFile result.now.items }
        ensures judged { IsJudgedSet self.now }
    {
        &self.files
    }

    /// The scripts of these files, with loaded code.
    pub fn load(self, alloc: Global) -> Made<Loaded>
        ensures files { IfOk result (λ loaded. loaded.files ≡ self.files) }
        ensures count { IfOk result (λ loaded. length loaded.scripts ≡ length self.scripts) }
    {
        let JudgedFiles {
            files,
            names,
            tables,
        } = self;
        let coded = coded_tables(alloc, &names, tables)?;
        Ok(Loaded {
            outline: Outline {
                scripts: coded.outlines,
            },
            files,
            scripts: coded.scripts,
            table: names,
            members: coded.members,
        })
    }
}

/// Judges these files, of which there are at most 65,535, with the scripts of the prelude before them. Each has the shape
/// and the size of a file, as what a decoder or `assemble` gives. No code is loaded yet.
///
/// `Broken` comes where a rule is broken, with the first place and the lowest rule there. First come the
/// names, parents and numbers of all objects. Then, by file and object: the object, its variables, its
/// properties, each before the functions that read and write it, and its states, each before its functions;
/// and in a function the function itself, its result, its parameters, its locals and its instructions.
pub fn judge(alloc: Global, files: Vec<Pex>) -> Result<JudgedFiles, VerifyFault>
    requires few { vec_len files < 65536 }
    requires valid { All IsFile files.items }
    ensures files { IfOk result (λ judged. judged.files ≡ files.items) }
    ensures count { IfOk result (λ judged. length judged.scripts ≡ script_count files.items) }
{
    let mut names = NameNumbers::new(alloc)?;
    let tables = load_all(alloc, &mut names, files.as_slice())?;
    Ok(JudgedFiles {
        files,
        names,
        tables,
    })
}

/// The set of these files, of which there are at most 65,535, with the scripts of the prelude before them: `judge`, and then
/// `load`. Each has the shape and the size of a file, as what a decoder or `assemble` gives.
///
/// `Broken` comes where `judge` gives it.
pub fn verify(alloc: Global, files: Vec<Pex>) -> Result<Loaded, VerifyFault>
    requires few { vec_len files < 65536 }
    requires valid { All IsFile files.items }
    ensures files { IfOk result (λ loaded. loaded.files ≡ files.items) }
    ensures count { IfOk result (λ loaded. length loaded.scripts ≡ script_count files.items) }
{
    let judged = judge(alloc, files)?;
    Ok(judged.load(alloc)?)
}

// Scripts as loaded code, with their outlines, and with what each has from itself upward.
#[derive(Drop)]
struct CodedTables {
    outlines: Vec<OutlineScript>,
    scripts: Vec<LoadedScript>,
    members: MemberTable,
}

fn coded_tables(alloc: Global, table: &NameNumbers, tables: Tables) -> Made<CodedTables>
    requires { NameScripts table.now tables.objects tables.parts.outlines.items }
    ensures count { IfOk result (λ coded. vec_len coded.scripts ≡ vec_len tables.parts.scripts) }
    ensures outlines { IfOk result (λ coded. coded.outlines.items ≡ tables.parts.outlines.items) }
    ensures members { IfOk result (λ coded. coded.members ≡ tables.members) }
    ensures scripts { IfOk result (λ coded. AllZip (CodesScript (map script_shape tables.parts.outlines.items)) tables.parts.scripts.items coded.scripts.items) }
{
    let Tables {
        parts,
        objects,
        members,
    } = tables;
    let Parts { outlines, scripts } = parts;
    let names = ScriptNames {
        alloc,
        names: table,
        objects: &objects,
        outline: outlines.as_slice(),
    };
    let scripts = coded_scripts(&names, scripts)?;
    Ok(CodedTables {
        outlines,
        scripts,
        members,
    })
}
