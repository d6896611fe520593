//! Numbers and texts: added at the end of the bytes of a file, and taken from their front.

ghost use Rattle.std.specs.Prelude.{◌≡◌, ◌<◌, ◌≤◌, ◌^◌, ◌++◌, length, OnOk};
ghost use Rattle.byteorder.specs.Endian.{big_from};
ghost use Rattle.machine_state.specs.Ranges.{IsI32, IsU16, IsU32};
ghost use Rattle.machine_state.specs.Savable.{FitsTwoBytes, FitsFourBytes, IsNumbered};
ghost use Rattle.pex_values.specs.Spelling as pex;
ghost use Rattle.stack_save.specs.Parts.{Takes};
ghost use Rattle.stack_save.specs.Reading as reading;
ghost use Rattle.stack_save.specs.Spelling as spell;

use crate::fault::{HeldRule, Taken, refused};
use byteorder::{BigEndian, ByteOrder};
use papy_base::{Name, Text};
use pex_values::{put_u16, put_u32};
use std::alloc::{AllocError, Global};

/// The number that says none.
pub(crate) const NONE: u16 = 0xFFFF;

pub(crate) fn put_i32(out: &mut Vec<u8>, n: i32) -> Result<(), AllocError>
    ensures { OnOk result (out.new.items ≡ out.old.items ++ spell.integer n) }
{
    put_u32(out, n.cast_unsigned())
}

/// The number, or 65,535 for none.
pub(crate) fn put_number_or_none(out: &mut Vec<u8>, number: Option<u16>) -> Result<(), AllocError>
    ensures { OnOk result (out.new.items ≡ out.old.items ++ spell.number_or_none number) }
{
    put_u16(out, number.unwrap_or(NONE))
}

/// The number of bytes, and the bytes.
pub(crate) fn put_string(out: &mut Vec<u8>, bytes: &[u8]) -> Result<(), AllocError>
    requires { FitsTwoBytes bytes.now }
    ensures { OnOk result (out.new.items ≡ out.old.items ++ pex.string bytes.now) }
{
    put_u16(out, bytes.len() as u16)?;
    out.extend_from_slice(bytes)
}

/// The number of bytes in four bytes, and the bytes.
pub(crate) fn put_long_string(out: &mut Vec<u8>, bytes: &[u8]) -> Result<(), AllocError>
    requires { FitsFourBytes bytes.now }
    ensures { OnOk result (out.new.items ≡ out.old.items ++ spell.long_string bytes.now) }
{
    put_u32(out, bytes.len() as u32)?;
    out.extend_from_slice(bytes)
}

/// The bytes that weren't taken yet.
#[derive(Drop)]
pub(crate) struct Cursor<'a> {
    pub(crate) rest: &'a [u8],
    /// Where what is read is kept.
    pub(crate) alloc: Global,
}

/// The number in two bytes.
fn number_of_two(bytes: &[u8]) -> u16
    requires { length bytes.now ≡ 2 }
    ensures spelled { bytes.now ≡ pex.two_bytes result }
    ensures value { result ≡ big_from 0 2 bytes.now }
{
    BigEndian::read_u16(bytes)
}

/// The number in four bytes.
fn number_of_four(bytes: &[u8]) -> u32
    requires { length bytes.now ≡ 4 }
    ensures spelled { bytes.now ≡ pex.four_bytes result }
    ensures value { result ≡ big_from 0 4 bytes.now }
{
    BigEndian::read_u32(bytes)
}

/// The number in eight bytes.
fn number_of_eight(bytes: &[u8]) -> u64
    requires { length bytes.now ≡ 8 }
    ensures spelled { bytes.now ≡ pex.eight_bytes result }
    ensures value { result ≡ big_from 0 8 bytes.now }
{
    BigEndian::read_u64(bytes)
}

impl<'a> Cursor<'a> {
    /// So many bytes.
    #[tactic(auto, unfolding(crate::specs::Reading::bytes_at))]
    pub(crate) fn take(&mut self, count: usize) -> Taken<&'a [u8]>
        ensures { Takes (λ b. b.now) (λ b. length b ≡ count) (λ b. b) (reading.bytes_at count) result self.old.rest.now self.new.rest.now }
    {
        if self.rest.len() < count {
            return Err(refused(HeldRule::BadLayout));
        }
        let (taken, rest) = self.rest.split_at(count);
        self.rest = rest;
        Ok(taken)
    }

    pub(crate) fn take_byte(&mut self) -> Taken<u8>
        ensures { Takes (λ n. n) (λ n. n < 2 ^ 8) pex.one_byte reading.byte_at result self.old.rest.now self.new.rest.now }
    {
        let Some((byte, rest)) = self.rest.split_first() else {
            return Err(refused(HeldRule::BadLayout));
        };
        self.rest = rest;
        Ok(*byte)
    }

    /// A byte that is at most `most`.
    pub(crate) fn take_tag(&mut self, most: u8) -> Taken<u8>
        ensures { Takes (λ n. n) (λ n. n ≤ most) pex.one_byte (reading.tag_at most) result self.old.rest.now self.new.rest.now }
    {
        let tag = self.take_byte()?;
        if tag > most {
            return Err(refused(HeldRule::BadLayout));
        }
        Ok(tag)
    }

    #[tactic(auto, unfolding(crate::specs::Reading::number_at))]
    pub(crate) fn take_u16(&mut self) -> Taken<u16>
        ensures { Takes (λ n. n) IsU16 pex.two_bytes (reading.number_at 2) result self.old.rest.now self.new.rest.now }
    {
        Ok(number_of_two(self.take(2)?))
    }

    #[tactic(auto, unfolding(crate::specs::Reading::number_at))]
    pub(crate) fn take_u32(&mut self) -> Taken<u32>
        ensures { Takes (λ n. n) IsU32 pex.four_bytes (reading.number_at 4) result self.old.rest.now self.new.rest.now }
    {
        Ok(number_of_four(self.take(4)?))
    }

    #[tactic(auto, unfolding(crate::specs::Reading::number_at))]
    pub(crate) fn take_u64(&mut self) -> Taken<u64>
        ensures { Takes (λ n. n) (λ n. n < 2 ^ 64) pex.eight_bytes (reading.number_at 8) result self.old.rest.now self.new.rest.now }
    {
        Ok(number_of_eight(self.take(8)?))
    }

    pub(crate) fn take_i32(&mut self) -> Taken<i32>
        ensures { Takes (λ n. n) IsI32 spell.integer reading.integer_at result self.old.rest.now self.new.rest.now }
    {
        Ok(self.take_u32()?.cast_signed())
    }

    /// A number, or none where it is 65,535.
    pub(crate) fn take_number_or_none(&mut self) -> Taken<Option<u16>>
        ensures { Takes (λ n. n) IsNumbered spell.number_or_none reading.number_or_none_at result self.old.rest.now self.new.rest.now }
    {
        let number = self.take_u16()?;
        Ok((number != NONE).then_some(number))
    }

    /// The number of bytes, and the bytes.
    #[tactic(auto, unfolding(crate::specs::Reading::string_at))]
    pub(crate) fn take_string(&mut self) -> Taken<&'a [u8]>
        ensures { Takes (λ b. b.now) FitsTwoBytes pex.string reading.string_at result self.old.rest.now self.new.rest.now }
    {
        let length = self.take_u16()?;
        self.take(length as usize)
    }

    /// The number of bytes in four bytes, and the bytes.
    #[tactic(auto, unfolding(crate::specs::Reading::long_string_at))]
    pub(crate) fn take_long_string(&mut self) -> Taken<&'a [u8]>
        ensures { Takes (λ b. b.now) FitsFourBytes spell.long_string reading.long_string_at result self.old.rest.now self.new.rest.now }
    {
        let length = self.take_u32()?;
        self.take(length as usize)
    }

    pub(crate) fn take_text(&mut self) -> Taken<Text>
        ensures { Takes (λ text. text) FitsTwoBytes pex.string reading.string_at result self.old.rest.now self.new.rest.now }
    {
        Ok(Text::try_from_bytes(self.alloc, self.take_string()?)?)
    }

    pub(crate) fn take_name(&mut self) -> Taken<Name>
        ensures { Takes (λ name. name) FitsTwoBytes pex.string reading.string_at result self.old.rest.now self.new.rest.now }
    {
        Ok(Name::from_bytes(self.alloc, self.take_string()?)?)
    }
}
