//! The scripts that a command names: read, cut into lines, parsed, linked into a set, and elaborated.
ghost use Rattle.std.specs.Prelude.{◌≡◌, ◌≢◌, ◌+◌, ◌^◌, ◌<◌, ◌≤◌, length, map, vec_len, IfErr, IfOk, IfSome};
ghost use Rattle.std.specs.String.{string_bytes};
ghost use Rattle.papy_io.specs.Activity.{Idle};
ghost use Rattle.command_files.specs.Ending.{IsWordBelow, MissesScript};
ghost use Rattle.command_files.specs.FileFault.{CountsFile, MissesFile};
ghost use Rattle.command_files.specs.Scripts.{Accepts, CountsScripts, CutsLines, EndsOnSet, HoldSources, ParsesScript, ParsesSource, ReadsScript, link_ending, type_ending};
ghost use Rattle.command_files.specs.TextFile.{ReadsText};
ghost use Rattle.script_lexer.specs.declared.fault.LexRule.TheVariants as LexRule;
ghost use Rattle.command_files.specs.declared.refusal.Place.TheVariants as Place;
ghost use Rattle.command_files.specs.declared.refusal.Rule.TheVariants as Rule;

use crate::ending::Ending;
use crate::file_fault::FileFault;
use crate::refusal::{Place, Rule};
use crate::text_file::read_text;
use core_tree::CoreSet;
use papy_base::Text;
use papy_io::Desk;
use script_lexer::{LexFault, LexRule, Lines, lex};
use script_linker::{LinkFault, SourceFile, link};
use script_parser::{ParseFault, Script, parse_script};
use std::alloc::Global;
use std::mem;
use type_rules::{TypeFault, elaborate};

/// The most bytes of a script.
const SCRIPT_LIMIT: u32 = 1 << 20;

fn lines_of(alloc: Global, text: &[u8]) -> Result<Lines, FileFault>
    ensures few { IfOk result (λ lines. lines.last + 1 < 2 ^ 32) }
    ensures cut { CutsLines text.now result }
{
    match lex(alloc, text) {
        Ok(lines) => Ok(lines),
        Err(LexFault::Broken { line, rule }) => Err(FileFault::Refused {
            place: Place::Line(line),
            rule: Rule::Lexical(rule),
        }),
        Err(LexFault::OutOfMemory) => Err(FileFault::OutOfMemory),
    }
}

fn script_of(alloc: Global, text: &[u8]) -> Result<Script, FileFault>
    ensures { ParsesScript text.now result }
{
    let lines = lines_of(alloc, text)?;
    match parse_script(alloc, &lines) {
        Ok(script) => Ok(script),
        Err(ParseFault::Broken { line, rule }) => Err(FileFault::Refused {
            place: Place::Line(line),
            rule: Rule::Grammar(rule),
        }),
        Err(ParseFault::OutOfMemory) => Err(FileFault::OutOfMemory),
    }
}

/// The script that a file of this name holds. The first rule that breaks its lexical form is told,
/// and where none does the first that breaks its lines and blocks.
pub(crate) fn source_of(alloc: Global, name: &[u8], text: &[u8]) -> Result<SourceFile, FileFault>
    ensures { ParsesSource text.now result }
{
    let name = Text::try_from_bytes(alloc, name)?;
    let script = script_of(alloc, text)?;
    Ok(SourceFile { name, script })
}

/// Reads the text of a script. One of more than 1 MiB breaks L9 at line 0.
fn read_script<D: Desk>(alloc: Global, desk: &mut D, name: &[u8]) -> Result<Vec<u8>, FileFault>
    requires { D.busy desk.old ≡ Idle }
    ensures holds { D.holds desk.new ≡ D.holds desk.old }
    ensures busy { D.busy desk.new ≡ Idle }
    ensures write_faults { D.write_faults desk.new ≡ D.write_faults desk.old }
    ensures read_faults { CountsFile result (D.read_faults desk.old) (D.read_faults desk.new) }
    ensures missed { MissesFile name.now result (D.missed desk.new) }
    ensures read { ReadsText (D.holds desk.old) name.now 1048576 (Place.Line 0) (Rule.Lexical LexRule.TooLarge) result }
{
    let rule = Rule::Lexical(LexRule::TooLarge);
    read_text(alloc, desk, name, SCRIPT_LIMIT, Place::Line(0), rule)
}

fn read_source<D: Desk>(alloc: Global, desk: &mut D, name: &[u8]) -> Result<SourceFile, FileFault>
    requires { D.busy desk.old ≡ Idle }
    ensures holds { D.holds desk.new ≡ D.holds desk.old }
    ensures busy { D.busy desk.new ≡ Idle }
    ensures write_faults { D.write_faults desk.new ≡ D.write_faults desk.old }
    ensures read_faults { CountsFile result (D.read_faults desk.old) (D.read_faults desk.new) }
    ensures missed { MissesFile name.now result (D.missed desk.new) }
    ensures read { ReadsScript (D.holds desk.old) name.now result }
{
    let text = read_script(alloc, desk, name)?;
    source_of(alloc, name, &text)
}

/// Reads the scripts in order, up to the first that isn't read or breaks a rule.
fn read_sources<D: Desk>(
    alloc: Global,
    scripts: &[String],
    desk: &mut D,
) -> Result<Vec<SourceFile>, Ending>
    requires { D.busy desk.old ≡ Idle }
    ensures busy { D.busy desk.new ≡ Idle }
    ensures holds { D.holds desk.new ≡ D.holds desk.old }
    ensures write_faults { D.write_faults desk.new ≡ D.write_faults desk.old }
    ensures read_faults { CountsScripts result (D.read_faults desk.old) (D.read_faults desk.new) }
    ensures missed { IfErr result (λ ending. MissesScript (map string_bytes scripts.now) ending (D.missed desk.new)) }
    ensures never_usage { IfErr result (λ ending. ending ≢ Ending.Usage) }
    ensures word { IfErr result (IsWordBelow (length scripts.now + 1)) }
    ensures each { IfOk result (λ files. vec_len files ≡ length scripts.now) }
    ensures read { IfOk result (λ sources. IfSome (D.holds desk.old) (λ files. HoldSources files (map string_bytes scripts.now) sources.items)) }
    ensures ends { Accepts (map string_bytes scripts.now) (D.holds desk.old) result }
{
    let mut files = Vec::new(alloc);
    for (place, script) in scripts.iter().enumerate() {
        let file = match read_source(alloc, desk, script.as_bytes()) {
            Ok(file) => file,
            Err(fault) => return Err(fault.at_word(place + 1)),
        };
        match files.push(file) {
            Ok(()) => {}
            Err(failed) => {
                drop(failed);
                return Err(Ending::OutOfMemory);
            }
        }
    }
    Ok(files)
}

/// How a command ends where the file of this number breaks a rule.
fn refused_in(file: u16, line: u32, rule: Rule) -> Ending
    ensures { result ≡ Ending.Refused (file + 1) (Place.Line line) rule }
{
    Ending::Refused {
        word: usize::from(file) + 1,
        place: Place::Line(line),
        rule,
    }
}

/// How a command ends whose scripts' set is refused.
fn link_ending(fault: LinkFault) -> Ending
    ensures { result ≡ link_ending fault }
{
    match fault {
        LinkFault::Broken { file, line, rule } => refused_in(file, line, Rule::Link(rule)),
        LinkFault::OutOfMemory => Ending::OutOfMemory,
    }
}

/// How a command ends whose scripts break a rule of types and names.
fn type_ending(fault: TypeFault) -> Ending
    ensures { result ≡ type_ending fault }
{
    match fault {
        TypeFault::Broken { file, line, rule } => refused_in(file, line, Rule::Typing(rule)),
        TypeFault::OutOfMemory => Ending::OutOfMemory,
    }
}

/// Links the files and elaborates their set. The rules of sets stand before those of types and names.
pub(crate) fn core_set(alloc: Global, files: Vec<SourceFile>) -> Result<CoreSet, Ending>
    requires { vec_len files < 65530 }
    ensures ends { IfErr result (EndsOnSet files.items) }
    ensures scripts { IfOk result (λ set. vec_len set.scripts ≡ vec_len files + 6) }
{
    let set = match link(alloc, files) {
        Ok(set) => set,
        Err(fault) => return Err(link_ending(fault)),
    };
    let elaborated = elaborate(alloc, &set);
    // The trees are left to the end of the program: taking them apart takes longer than finding memory for what comes next.
    mem::forget(set);
    match elaborated {
        Ok(core) => Ok(core),
        Err(fault) => Err(type_ending(fault)),
    }
}

/// Reads the scripts and gives their core set, in which the prelude's six stand before them, or how the
/// command ends that names them.
///
/// Each file is read and then judged by its lexical form and its lines, in the order of the words;
/// then the set is judged, and at last its types and names.
pub fn accept<D: Desk>(alloc: Global, scripts: &[String], desk: &mut D) -> Result<CoreSet, Ending>
    requires idle { D.busy desk.old ≡ Idle }
    requires few { length scripts.now ≤ 256 }
    ensures busy { D.busy desk.new ≡ Idle }
    ensures holds { D.holds desk.new ≡ D.holds desk.old }
    ensures write_faults { D.write_faults desk.new ≡ D.write_faults desk.old }
    ensures read_faults { CountsScripts result (D.read_faults desk.old) (D.read_faults desk.new) }
    ensures missed { IfErr result (λ ending. MissesScript (map string_bytes scripts.now) ending (D.missed desk.new)) }
    ensures never_usage { IfErr result (λ ending. ending ≢ Ending.Usage) }
    ensures word { IfErr result (IsWordBelow (length scripts.now + 1)) }
    ensures ends { Accepts (map string_bytes scripts.now) (D.holds desk.old) result }
    ensures scripts { IfOk result (λ set. vec_len set.scripts ≡ length scripts.now + 6) }
{
    let files = read_sources(alloc, scripts, desk)?;
    match core_set(alloc, files) {
        Ok(core) => Ok(core),
        Err(ending) => Err(ending),
    }
}
