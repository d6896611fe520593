ghost use Rattle.std.specs.Prelude.{IfOk};
ghost use Rattle.pex_values.specs.Plain.{plain};
ghost use Rattle.pex_values.specs.Shape.{IsWellShaped};

use papy_base::Text;
use pex_codec::{Decoder, EncodeFault, Fed, PexFault, PexRule, encode, one_spelling};
use pex_values::Pex;
use std::alloc::Global;
use std::process::Abort;
use std::test::Fail;

/// A file with debug information, a flag, and an object with a variable, a property that is read and a function.
const MEMBERS: [u8; 170] = [
    0xFA, 0x57, 0xC0, 0xDE, 3, 2, 0, 1, 0, 0, 0, 0, 0, 0, 0, 9, 0, 1, 0x73, 0, 0, 0, 0, 0, 1, 0, 1,
    0x41, 1, 0, 0, 0, 0, 0, 0, 0, 7, 0, 1, 0, 0, 0, 0, 0, 0, 0, 0, 2, 0, 1, 0xFF, 0xFF, 0, 1, 0, 0,
    0x1F, 0, 1, 0, 0, 0, 0, 0, 0x69, 0, 0, 0, 0, 0, 0, 0, 0, 0, 0, 0, 1, 0, 0, 0, 0, 0, 0, 0, 0, 4,
    0x7F, 0xC0, 0, 0, 0, 1, 0, 0, 0, 0, 0, 0, 0, 0, 0, 0, 1, 0, 0, 0, 0, 0, 0, 0, 0, 0, 0, 1, 0, 0,
    0, 0, 0, 1, 0, 0, 0, 0, 0, 1, 0x17, 1, 0, 0, 2, 0, 0, 3, 0xFF, 0xFF, 0xFF, 0xFF, 3, 0, 0, 0, 2,
    0, 5, 2, 0, 1, 0, 0, 0, 1, 0, 0, 0, 0, 0, 0, 0, 0, 0, 0, 0, 0, 0, 0, 0, 0, 1, 0,
];

/// What the bytes decode to, where they come in pieces of so many bytes with an empty one between any two.
fn decoded(alloc: Global, bytes: &[u8], size: usize) -> Result<Pex, PexFault>
    ensures { IfOk result (λ v. IsWellShaped (plain v)) }
{
    let mut decoder = Decoder::new(alloc)?;
    for piece in bytes.chunks(size.max(1)) {
        decoder.feed(piece)?;
        decoder.feed(b"")?;
    }
    decoder.end()
}

fn fault(alloc: Global, bytes: &[u8], size: usize) -> Option<(u32, PexRule)> {
    match decoded(alloc, bytes, size) {
        Err(PexFault::Broken { offset, rule }) => Some((offset, rule)),
        _ => None,
    }
}

#[test]
fn each_first_part_is_truncated(rt: HostRuntime) {
    for size in [1, 2, 3, 7, 64] {
        assert!(rt; decoded(rt.alloc(), &MEMBERS, size).is_ok());
        is_truncated_at_each_byte(&rt, rt.alloc(), size);
    }
}

fn is_truncated_at_each_byte(rt: &impl Abort, alloc: Global, size: usize) {
    for k in 0..MEMBERS.len() {
        let wanted = Some((k as u32, PexRule::Truncated));
        assert_eq!(rt; fault(alloc, &MEMBERS[..k], size), wanted);
    }
}

#[test]
fn the_end(rt: HostRuntime) -> Result<(), Fail> {
    let mut decoder = Decoder::new(rt.alloc()).ok().ok_or("memory")?;
    assert_eq!(rt; decoder.feed(&MEMBERS[..169]), Ok(Fed::More));
    assert_eq!(rt; decoder.feed(&MEMBERS[169..]), Ok(Fed::Done { taken: 1 }));
    assert_eq!(rt; decoder.feed(b""), Ok(Fed::Done { taken: 0 }));
    let trailing = PexFault::Broken {
        offset: 170,
        rule: PexRule::Trailing,
    };
    assert_eq!(rt; decoder.feed(b"x"), Err(trailing));
    assert_eq!(rt; decoder.feed(b""), Err(trailing));
    assert!(rt; decoder.end().is_err());
    Ok(())
}

/// The value with another user.
fn with_user(mut value: Pex, user: Text) -> Pex
    requires { IsWellShaped (plain value) }
    ensures { IsWellShaped (plain result) }
{
    value.user = user;
    value
}

/// The file of a user with this name.
fn encoded_with(alloc: Global, name: &[u8]) -> Result<Vec<u8>, EncodeFault> {
    let user = Text::try_from_bytes(alloc, name)?;
    match decoded(alloc, &MEMBERS, 170) {
        Ok(value) => encode(alloc, &with_user(value, user)),
        Err(_) => Err(EncodeFault::OutOfMemory),
    }
}

#[test]
fn longest_string(rt: HostRuntime) -> Result<(), Fail> {
    let name = vec![in rt.alloc(); 0x61u8; 65_536]?;
    let bytes = encoded_with(rt.alloc(), &name[..65_535])
        .ok()
        .ok_or("fits")?;
    assert_eq!(rt; bytes.len(), 65_705);
    assert!(rt;
        matches!(
            encoded_with(rt.alloc(), &name),
            Err(EncodeFault::TooManyItems)
        )
    );
    one_spelling();
    Ok(())
}

/// What the bytes decode to, where they come in two pieces.
fn in_two(alloc: Global, front: &[u8], back: &[u8]) -> Result<Pex, PexFault>
    ensures { IfOk result (λ v. IsWellShaped (plain v)) }
{
    let mut decoder = Decoder::new(alloc)?;
    decoder.feed(front)?;
    decoder.feed(back)?;
    decoder.end()
}

#[test]
fn every_cut(rt: HostRuntime) -> Result<(), Fail> {
    for k in 0..MEMBERS.len() {
        let value = in_two(rt.alloc(), &MEMBERS[..k], &MEMBERS[k..])
            .ok()
            .ok_or("accepted")?;
        let again = encode(rt.alloc(), &value).ok().ok_or("fits")?;
        assert_eq!(rt; again.as_slice(), MEMBERS.as_slice());
    }
    Ok(())
}

#[test]
fn rules_of_members(rt: HostRuntime) {
    let cases = [
        (3, 0xDF, 0, PexRule::BadMagic),
        (28, 2, 28, PexRule::BadDebugFlag),
        (40, 1, 39, PexRule::BadIndex),
        (55, 1, 54, PexRule::BadIndex),
        (64, 0x68, 61, PexRule::BadSize),
        (64, 0x6E, 61, PexRule::BadSize),
        (85, 6, 85, PexRule::BadKind),
        (126, 0x24, 126, PexRule::BadOpcode),
        (138, 5, 138, PexRule::BadCount),
        (138, 6, 138, PexRule::BadKind),
        (139, 0x80, 138, PexRule::BadCount),
        (153, 1, 152, PexRule::BadIndex),
        (169, 0x24, 169, PexRule::BadOpcode),
    ];
    for (at, byte, offset, rule) in cases {
        let mut bytes = MEMBERS;
        assert!(rt; at < bytes.len());
        bytes[at] = byte;
        assert_eq!(rt; fault(rt.alloc(), &bytes, 1), Some((offset, rule)));
        assert_eq!(rt; fault(rt.alloc(), &bytes, 170), Some((offset, rule)));
    }
}
