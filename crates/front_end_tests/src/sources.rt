// Sets are written as the texts of their files, parted by an empty line.
use papy_base::Text;
use script_lexer::lex;
use script_linker::{LinkFault, ScriptSet, SourceFile, link};
use script_parser::parse_script;
use std::alloc::Global;
use std::process::Abort;
use std::test::Fail;

fn source_file(alloc: Global, rt: &impl Abort, text: &str) -> Result<SourceFile, Fail> {
    let lines = lex(alloc, text.as_bytes())?;
    assert!(rt; lines.last < 65_536);
    Ok(SourceFile {
        name: Text::try_from_bytes(alloc, b"A.psc")?,
        script: parse_script(alloc, &lines)?,
    })
}

pub fn linked(
    alloc: Global,
    rt: &impl Abort,
    text: &str,
) -> Result<Result<ScriptSet, LinkFault>, Fail> {
    let mut files = Vec::new(alloc);
    for part in text.split("\n\n") {
        files.push(source_file(alloc, rt, part)?)?;
    }
    assert!(rt; files.len() < 65_530);
    Ok(link(alloc, files))
}
