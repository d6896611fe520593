ghost use Rattle.pex_values.specs.Plain.{plain};
ghost use Rattle.pex_values.specs.Shape.{IsWellShaped};

use papy_io::MemorySink;
use pex_listing::{ShowFault, assemble, show};
use pex_values::Pex;
use std::alloc::Global;
use std::test::Fail;

/// Every kind of line and value.
const EVERYTHING: &str =
    "pex 2 18446744073709551615\nsource \"a \\\"b\\\\\\x0a\\xff\"\nuser \"u\"\nmachine \"m\"\nstring \"\"\nstring \"A\"\nstring \"A\"\ndebug 7\nlines A #2 #0 255 1 65535\nlines A A A 0\nflag A 31\nobject A bare #0 #0 4294967295 A\nvariable A A 0 id A\nvariable A A 0 text #0\nvariable A A 0 int -2147483648\nvariable A A 0 float 7fc00000\nvariable A A 0 bool 2\nproperty A A A 0 3\nread A A 0 0\nparam A A\nlocal A A\ncallmethod id A id A id A none int 2147483647\nwrite A A 0 255\nnop\nproperty A A A 0 252 #2\nproperty A A A 0 8\nstate A\nfunction A A A 0 3\nstate #0\n";

/// The listing of a value.
fn shown(alloc: Global, value: &Pex) -> Result<MemorySink, ShowFault>
    requires { IsWellShaped (plain value.now) }
{
    let mut sink = MemorySink::new(alloc, Vec::new(alloc));
    show(alloc, value, &mut sink)?;
    Ok(sink)
}

#[test]
fn shown_again(rt: HostRuntime) -> Result<(), Fail> {
    let value = assemble(rt.alloc(), EVERYTHING.as_bytes())?;
    let sink = shown(rt.alloc(), &value)?;
    assert!(rt; sink.bytes() == EVERYTHING.as_bytes());
    Ok(())
}
