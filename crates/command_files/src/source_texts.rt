//! Scripts whose texts a caller has in memory.
ghost use Rattle.std.specs.Prelude.{◌≡◌, ◌+◌, ◌≤◌, length, map, vec_len, IfOk};
ghost use Rattle.command_files.specs.SourceTexts.{AcceptsTexts, AreScriptsOf, text_of};

use crate::ending::Ending;
use crate::scripts::{core_set, source_of};
use core_tree::CoreSet;
use papy_base::Text;
use script_linker::SourceFile;
use std::alloc::Global;

/// The text of a script, and the name of its file, which ends with `.psc`.
#[derive(Drop)]
pub struct NamedText {
    /// The name of the file.
    pub name: Text,
    /// The bytes of the file.
    pub text: Vec<u8>,
}

/// The script of each text, up to the first that breaks a rule.
fn sources_of(alloc: Global, texts: &[NamedText]) -> Result<Vec<SourceFile>, Ending>
    ensures each { IfOk result (λ files. vec_len files ≡ length texts.now) }
    ensures read { IfOk result (λ files. AreScriptsOf (map text_of texts.now) files.items) }
    ensures ends { AcceptsTexts (map text_of texts.now) result }
{
    let mut files = Vec::new(alloc);
    for (place, script) in texts.iter().enumerate() {
        let file = match source_of(alloc, script.name.as_bytes(), &script.text) {
            Ok(file) => file,
            Err(fault) => return Err(fault.at_word(place + 1)),
        };
        match files.push(file) {
            Ok(()) => {}
            Err(failed) => {
                drop(failed);
                return Err(Ending::OutOfMemory);
            }
        }
    }
    Ok(files)
}

/// The core set of the scripts of at most 256 texts, in which the prelude's six stand before them.
///
/// Each text is judged by its lexical form and its lines, in order; then the set is judged, and at last its types
/// and names.
///
/// # Errors
///
/// `Refused` comes where a rule is broken, and its word is the number of the text, from 1. `OutOfMemory` comes where
/// no memory is found.
pub fn accept_texts(alloc: Global, texts: &[NamedText]) -> Result<CoreSet, Ending>
    requires { length texts.now ≤ 256 }
    ensures ends { AcceptsTexts (map text_of texts.now) result }
    ensures scripts { IfOk result (λ set. vec_len set.scripts ≡ length texts.now + 6) }
{
    let files = sources_of(alloc, texts)?;
    match core_set(alloc, files) {
        Ok(set) => Ok(set),
        Err(ending) => Err(ending),
    }
}
