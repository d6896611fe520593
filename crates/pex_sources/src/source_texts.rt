ghost use Rattle.std.specs.Prelude.{◌≡◌, length, vec_len, IfOk};

use crate::compiled_scripts::CompiledScripts;
use crate::declarations::script_text;
use crate::fault::SourceFault;
use papy_base::{PRELUDE_COUNT, Text};
use pex_set::Prelude;
use pex_values::Pex;
use std::alloc::Global;

/// A text for each of these files, which are those of one set. Where the files are those that a compiler wrote, the texts are
/// sources of them, which is to be checked: what a text compiles to no clause says.
///
/// # Errors
///
/// `NotFound` comes where a file hasn't one script, or its code isn't that of a compiler. `OutOfMemory` comes where no memory is
/// found.
pub fn sources(alloc: Global, files: &[Pex]) -> Result<Vec<Text>, SourceFault>
    ensures { IfOk result (λ texts. vec_len texts ≡ length files.now) }
{
    let prelude = Prelude::new(alloc)?;
    let mut set = CompiledScripts::new(alloc, &prelude)?;
    set.fill(&prelude, files)?;
    texts_of(&set, files.len())
}

// The texts of the first scripts behind the prelude's, so many.
fn texts_of(set: &CompiledScripts<'_>, count: usize) -> Result<Vec<Text>, SourceFault>
    ensures { IfOk result (λ texts. vec_len texts ≡ count) }
{
    let mut texts = Vec::with_capacity(set.alloc, count)?;
    for number in 0..count {
        texts.push(script_text(set, PRELUDE_COUNT.saturating_add(number))?)?;
    }
    Ok(texts)
}
