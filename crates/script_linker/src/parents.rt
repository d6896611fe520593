// Which script stands above which.
ghost use Rattle.std.specs.Prelude.{◌≡◌, IfOk, option_and_then};
ghost use Rattle.papy_base.specs.Case.{folded};
ghost use Rattle.papy_base.specs.Lineage.{AreAmong};
ghost use Rattle.papy_base.specs.Table.{IsPlaceTable, number_in};
ghost use Rattle.script_linker.specs.Lookup.{script_name, parents_of, StartsWithPrelude, HasPreludeParents};

use crate::set::SourceFile;
use papy_base::{Made, Name, NameTable};
use std::alloc::Global;

/// The number of each script's parent. It is none where the script has no parent, or one that is no
/// script of the set.
pub(crate) fn parent_numbers(
    alloc: Global,
    files: &[SourceFile],
    names: &NameTable,
) -> Made<Vec<Option<usize>>>
    requires { IsPlaceTable script_name files.now names.now }
    ensures parents { IfOk result (λ parents. parents.items ≡ parents_of files.now) }
    ensures among { IfOk result (λ parents. AreAmong parents.items) }
    ensures prelude { StartsWithPrelude files.now → IfOk result (λ parents. HasPreludeParents parents.items) }
{
    let mut parents = Vec::with_capacity(alloc, files.len())?;
    for file in files {
        parents.push(number_of(names, &file.script.parent))?;
    }
    Ok(parents)
}

fn number_of(names: &NameTable, name: &Option<Name>) -> Option<usize>
    ensures { result ≡ option_and_then (λ n. number_in names.now (folded n)) name.now }
{
    name.as_ref().and_then(|name| names.find(name))
}
