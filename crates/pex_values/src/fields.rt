//! Numbers at the end of the bytes of a file, with their first byte the greatest.

ghost use Rattle.std.specs.Prelude.{◌≡◌, ◌++◌, OnOk};
ghost use Rattle.pex_values.specs.Spelling.{one_byte, two_bytes, four_bytes, eight_bytes};

use std::alloc::AllocError;

/// Adds a byte.
///
/// `AllocError` comes where no memory is found, as of the others.
pub fn put_byte(out: &mut Vec<u8>, n: u8) -> Result<(), AllocError>
    ensures { OnOk result (out.new.items ≡ out.old.items ++ one_byte n) }
{
    Ok(out.push(n)?)
}

/// Adds a number in two bytes.
pub fn put_u16(out: &mut Vec<u8>, n: u16) -> Result<(), AllocError>
    ensures { OnOk result (out.new.items ≡ out.old.items ++ two_bytes n) }
{
    out.extend_from_slice(&n.to_be_bytes())
}

/// Adds a number in four bytes.
pub fn put_u32(out: &mut Vec<u8>, n: u32) -> Result<(), AllocError>
    ensures { OnOk result (out.new.items ≡ out.old.items ++ four_bytes n) }
{
    out.extend_from_slice(&n.to_be_bytes())
}

/// Adds a number in eight bytes.
pub fn put_u64(out: &mut Vec<u8>, n: u64) -> Result<(), AllocError>
    ensures { OnOk result (out.new.items ≡ out.old.items ++ eight_bytes n) }
{
    out.extend_from_slice(&n.to_be_bytes())
}
