use crate::sources::linked;
use script_linker::{LinkFault, LinkRule};
use std::alloc::Global;
use std::process::Abort;
use std::test::Fail;

const LIMIT: LinkFault = LinkFault::Broken {
    file: 256,
    line: 1,
    rule: LinkRule::Limit,
};

fn fault_of(alloc: Global, rt: &impl Abort, text: &str) -> Result<Option<LinkFault>, Fail> {
    Ok(linked(alloc, rt, text)?.err())
}

// The program takes no more than 256 files.
#[test]
fn the_257th_file_is_too_many(rt: HostRuntime) -> Result<(), Fail> {
    for (count, wanted) in [(256, None), (257, Some(LIMIT))] {
        let mut text = String::from_str(rt.alloc(), "ScriptName S")?;
        for number in 1..count {
            let next = format!(in rt.alloc(); "\n\nScriptName S{number}")?;
            text.push_str(next.as_str())?;
        }
        assert_eq!(rt; fault_of(rt.alloc(), &rt, text.as_str())?, wanted);
    }
    Ok(())
}
