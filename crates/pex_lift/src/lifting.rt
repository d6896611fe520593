// Files lifted to texts, which are compiled by the calls of the crates below and compared.
ghost use Rattle.std.specs.Prelude.{◌≡◌, ◌+◌, ◌^◌, ◌<◌, ◌≤◌, All, length, vec_len, IfOk, OnOk, ◌↔◌, IsTrue, map};
ghost use Rattle.script_lexer.specs.Lines.{IsUnbroken, Lexes, logical_lines, text_of};
ghost use Rattle.script_lexer.specs.Spans.{LinesStand};
ghost use Rattle.script_parser.specs.Faults.{IsNumberOf};
ghost use Rattle.script_parser.specs.Lines.{lines_of};
ghost use Rattle.script_parser.specs.Words.{CountsDifferent, words_of};
ghost use Rattle.pex_lift.specs.Lifted.{AreLinked, CompileTo, HasCore, IsElaborated, IsEmitted, IsRead, AreLifted};
ghost use Rattle.pex_alike.specs.SameCode.{SameEach, SameCode};
ghost use Rattle.pex_values.specs.Plain.{plain};

use crate::fault::{LiftFault, Lifted, NOT_LIFTED};
use code_emit::{EmitFault, emit};
use core_tree::CoreSet;
use papy_base::{Fault, Text};
use pex_alike::same_code;
use pex_sources::sources;
use pex_values::Pex;
use script_lexer::{LexFault, Lines, lex};
use script_linker::{LinkFault, ScriptSet, SourceFile, link};
use script_parser::{ParseFault, Script, parse_script};
use std::alloc::Global;
use std::mem;
use type_rules::{TypeFault, elaborate};

/// More scripts than a set can have.
const TOO_MANY: usize = 65_530;

/// The source of each of these files, which are those of one set, at most 65,535, well shaped, fit and verified. The
/// sources are compiled, and what they compile to has the same code as the files, one by one.
///
/// # Errors
///
/// `Broken` comes where no such sources were found, `OutOfMemory` where no memory is.
pub fn lift(alloc: Global, files: &Vec<Pex>) -> Result<Vec<Text>, LiftFault>
    ensures count { IfOk result (λ texts. vec_len texts ≡ vec_len files.now) }
    ensures lifted { IfOk result (λ texts. AreLifted (map plain files.now.items) texts.items) }
{
    if files.len() >= TOO_MANY {
        return Err(LiftFault::from(NOT_LIFTED));
    }
    let texts = found_sources(alloc, files)?;
    let values = compiled(alloc, &texts)?;
    let same = have_same_code(files, &values);
    drop(values);
    if same {
        Ok(texts)
    } else {
        Err(LiftFault::from(NOT_LIFTED))
    }
}

// Texts that may be the sources.
fn found_sources(alloc: Global, files: &[Pex]) -> Lifted<Vec<Text>>
    ensures { IfOk result (λ texts. vec_len texts ≡ length files.now) }
{
    match sources(alloc, files) {
        Ok(texts) => Ok(texts),
        Err(Fault::OutOfMemory) => Err(Fault::OutOfMemory),
        Err(Fault::Broken(_)) => Err(NOT_LIFTED),
    }
}

#[tactic(auto, unfolding(pex_alike::specs::SameCode::SameEach))]
fn have_same_code(files: &[Pex], values: &[Pex]) -> bool
    ensures { IsTrue result ↔ SameEach (λ file value. SameCode (plain file) (plain value)) files.now values.now }
{
    files.len() == values.len()
        && files
            .iter()
            .zip(values)
            .all(|(file, value)| same_code(file, value))
}

fn lines_of(alloc: Global, text: &[u8]) -> Lifted<Lines>
    ensures few { IfOk result (λ lines. lines.last + 1 < 2 ^ 32) }
    ensures cut { IfOk result (λ lines. Lexes text.now (logical_lines lines.lines.items) lines.last) }
    ensures unbroken { OnOk result (IsUnbroken (text_of text.now)) }
    ensures small { OnOk result (length text.now ≤ 1048576) }
    ensures spelled { IfOk result (λ lines. LinesStand text.now 0 1 (logical_lines lines.lines.items)) }
{
    match lex(alloc, text) {
        Ok(lines) => Ok(lines),
        Err(LexFault::OutOfMemory) => Err(Fault::OutOfMemory),
        Err(LexFault::Broken { .. }) => Err(NOT_LIFTED),
    }
}

fn script_of(alloc: Global, lines: &Lines) -> Lifted<Script>
    requires { lines.now.last + 1 < 2 ^ 32 }
    ensures words { IfOk result (λ script. CountsDifferent (words_of lines.now.lines.items) script.words) }
    ensures declared { IfOk result (λ script. All (IsNumberOf lines.now.lines.items) (lines_of script)) }
{
    match parse_script(alloc, lines) {
        Ok(script) => Ok(script),
        Err(ParseFault::OutOfMemory) => Err(Fault::OutOfMemory),
        Err(ParseFault::Broken { .. }) => Err(NOT_LIFTED),
    }
}

// No name of a file is told anywhere.
fn source_of(alloc: Global, text: &[u8]) -> Lifted<SourceFile>
    ensures { IfOk result (IsRead text.now) }
{
    let name = Text::try_from_bytes(alloc, b"lifted.psc")?;
    let lines = lines_of(alloc, text)?;
    let script = script_of(alloc, &lines)?;
    Ok(SourceFile { name, script })
}

fn sources_of(alloc: Global, texts: &[Text]) -> Lifted<Vec<SourceFile>>
    ensures { IfOk result (λ files. SameEach IsRead texts.now files.items) }
{
    let mut sources = Vec::with_capacity(alloc, texts.len())?;
    for text in texts {
        let source = source_of(alloc, text.as_bytes())?;
        sources.push(source)?;
    }
    Ok(sources)
}

fn set_of(alloc: Global, sources: Vec<SourceFile>) -> Lifted<ScriptSet>
    requires { vec_len sources < 65530 }
    ensures { IfOk result (AreLinked sources.items) }
{
    match link(alloc, sources) {
        Ok(set) => Ok(set),
        Err(LinkFault::OutOfMemory) => Err(Fault::OutOfMemory),
        Err(LinkFault::Broken { .. }) => Err(NOT_LIFTED),
    }
}

fn core_of(alloc: Global, set: &ScriptSet) -> Lifted<CoreSet>
    ensures { IfOk result (IsElaborated set.now) }
{
    match elaborate(alloc, set) {
        Ok(core) => Ok(core),
        Err(TypeFault::OutOfMemory) => Err(Fault::OutOfMemory),
        Err(TypeFault::Broken { .. }) => Err(NOT_LIFTED),
    }
}

fn values_of(alloc: Global, core: &CoreSet) -> Lifted<Vec<Pex>>
    ensures { IfOk result (λ values. IsEmitted core.now values.items) }
{
    match emit(alloc, core) {
        Ok(values) => Ok(values),
        Err(EmitFault::OutOfMemory) => Err(Fault::OutOfMemory),
        Err(EmitFault::OutOfRange | EmitFault::TooLarge) => Err(NOT_LIFTED),
    }
}

// The set is left to the end of the program: taking it apart takes longer than finding memory for what comes next.
fn linked_core(alloc: Global, sources: Vec<SourceFile>) -> Lifted<CoreSet>
    requires { vec_len sources < 65530 }
    ensures { IfOk result (HasCore sources.items) }
{
    let set = set_of(alloc, sources)?;
    let core = core_of(alloc, &set);
    mem::forget(set);
    core
}

// The values that the texts of fewer than 65,530 scripts compile to.
fn compiled(alloc: Global, texts: &[Text]) -> Lifted<Vec<Pex>>
    requires { length texts.now < 65530 }
    ensures { IfOk result (λ values. CompileTo texts.now values.items) }
{
    let sources = sources_of(alloc, texts)?;
    let core = linked_core(alloc, sources)?;
    let values = values_of(alloc, &core);
    mem::forget(core);
    values
}
