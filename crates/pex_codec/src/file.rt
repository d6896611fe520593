//! How a whole file is taken as a value, and how a value is written as one.

ghost use Rattle.std.specs.Prelude.{◌≡◌, ◌≤◌, ◌<◌, ◌^◌, ◌++◌, length, map, option_map, refl, OnOk, IfOk, IfSome, IsErrOf};
ghost use Rattle.pex_values.specs.Fit.{FitsDebug, Fits};
ghost use Rattle.pex_values.specs.Plain.{PlainLines, plain, plain_debug, plain_lines};
ghost use Rattle.pex_values.specs.Shape.{IsWellShaped};
ghost use Rattle.pex_values.specs.Spelling as spell;
ghost use Rattle.pex_codec.specs.Reading as reading;
ghost use Rattle.pex_codec.specs.Spells.{Spells};
ghost use Rattle.pex_codec.specs.Taking.{Gives, Takes, plain_texts};
ghost use Rattle.pex_codec.specs.Writing.{Writes, FitEach, FitsLines, FitsHeader, FitsParts};

use crate::cursor::{Cursor, Taken, Texts};
use crate::faults::EncodeFault;
use crate::items::{Item, put_list, take_items, take_list};
use papy_base::Text;
use pex_values::{FILE_LIMIT, Pex, PexDebug, PexLines, put_byte, put_u16, put_u64};
use std::alloc::{AllocError, Global};

impl Item for PexLines {
    ghost Plain = { PlainLines };

    ghost plain = { plain_lines };

    ghost plain_each = { λ items. map plain_lines items };

    ghost at = { reading.lines_at };

    ghost fits = { FitsLines };

    ghost list_fits = { FitEach FitsLines };

    ghost spelling = { spell.lines };

    ghost each = { λ _. refl };

    ghost listed = { λ items. record { all = λ fit. fit; fit = λ all. all } };

    #[tactic(auto, unfolding(crate::specs::Reading::lines_at))]
    fn take(alloc: Global, cursor: &mut Cursor<'_>, strings: u16) -> Taken<Self> {
        let head = cursor.lines_head(strings)?;
        let lines = take_items(alloc, cursor, strings, head.lines as usize)?;
        Ok(PexLines {
            object: head.object,
            state: head.state,
            function: head.function,
            kind: head.kind,
            lines,
        })
    }

    #[tactic(auto, unfolding(pex_values::specs::Spelling::lines))]
    fn write(&self, out: &mut Vec<u8>) -> Result<(), EncodeFault> {
        put_u16(out, self.object)?;
        put_u16(out, self.state)?;
        put_u16(out, self.function)?;
        put_byte(out, self.kind)?;
        put_list(out, &self.lines)?;
        Ok(())
    }
}

#[tactic(auto, unfolding(crate::specs::Reading::texts_at))]
fn take_texts(alloc: Global, cursor: &mut Cursor<'_>) -> Taken<Texts>
    ensures taken { Takes plain_texts reading.texts_at result cursor.old cursor.new }
    ensures count { IfOk result (λ texts. length texts.strings.items < 2 ^ 16) }
{
    Ok(Texts {
        source: Text::take(alloc, cursor, 0)?,
        user: Text::take(alloc, cursor, 0)?,
        machine: Text::take(alloc, cursor, 0)?,
        strings: take_list(alloc, cursor, 0)?,
    })
}

#[tactic(auto, unfolding(crate::specs::Reading::debug_at))]
fn take_debug(alloc: Global, cursor: &mut Cursor<'_>, strings: u16) -> Taken<Option<PexDebug>>
    ensures { Takes (λ debug. option_map plain_debug debug) (reading.debug_at strings) result cursor.old cursor.new }
{
    let flag = cursor.debug_flag()?;
    if flag == 0 {
        return Ok(None);
    }
    let time = cursor.u64()?;
    let functions = take_list(alloc, cursor, strings)?;
    Ok(Some(PexDebug { time, functions }))
}

#[tactic(auto, unfolding(crate::specs::Reading::pex_at))]
fn take_pex(alloc: Global, cursor: &mut Cursor<'_>) -> Taken<Pex>
    ensures { Takes plain reading.pex_at result cursor.old cursor.new }
{
    let heading = cursor.heading()?;
    let texts = take_texts(alloc, cursor)?;
    let strings = texts.strings.len() as u16;
    let debug = take_debug(alloc, cursor, strings)?;
    let user_flags = take_list(alloc, cursor, strings)?;
    let objects = take_list(alloc, cursor, strings)?;
    Ok(Pex {
        minor: heading.minor,
        time: heading.time,
        source: texts.source,
        user: texts.user,
        machine: texts.machine,
        strings: texts.strings,
        debug,
        user_flags,
        objects,
    })
}

/// The value that the bytes begin with.
pub(crate) fn pex(alloc: Global, bytes: &[u8]) -> Taken<Pex>
    requires { length bytes.now ≤ 16777216 }
    ensures { Gives plain (reading.pex_at 0 bytes.now) result }
{
    let mut cursor = Cursor { at: 0, rest: bytes };
    take_pex(alloc, &mut cursor)
}

#[tactic(auto, unfolding(pex_values::specs::Spelling::debug))]
fn put_debug(out: &mut Vec<u8>, debug: &Option<PexDebug>) -> Result<(), EncodeFault>
    ensures { Writes result out.old.items out.new.items
        (IfSome (option_map plain_debug debug.now) FitsDebug)
        (spell.debug (option_map plain_debug debug.now)) }
{
    match debug {
        None => put_byte(out, 0)?,
        Some(debug) => {
            put_byte(out, 1)?;
            put_u64(out, debug.time)?;
            put_list(out, &debug.functions)?;
        }
    }
    Ok(())
}

/// The magic number, the versions, the game's number and the time.
fn put_versions(out: &mut Vec<u8>, value: &Pex) -> Result<(), AllocError>
    ensures { OnOk result (out.new.items ≡ out.old.items ++ (spell.heading value.now.minor ++ spell.eight_bytes value.now.time)) }
{
    out.extend_from_slice(&[0xFA, 0x57, 0xC0, 0xDE, 3, value.minor, 0, 1])?;
    put_u64(out, value.time)
}

/// The fields before the string table.
fn put_header(out: &mut Vec<u8>, value: &Pex) -> Result<(), EncodeFault>
    ensures { Writes result out.old.items out.new.items (FitsHeader (plain value.now))
        (spell.heading value.now.minor ++ spell.eight_bytes value.now.time ++ spell.string value.now.source
        ++ spell.string value.now.user ++ spell.string value.now.machine) }
{
    put_versions(out, value)?;
    value.source.write(out)?;
    value.user.write(out)?;
    value.machine.write(out)?;
    Ok(())
}

/// The parts of a value in the order of the file.
#[tactic(auto, unfolding(pex_values::specs::Spelling::spelling))]
fn put_value(out: &mut Vec<u8>, value: &Pex) -> Result<(), EncodeFault>
    ensures { Writes result out.old.items out.new.items (FitsParts (plain value.now)) (spell.spelling (plain value.now)) }
{
    put_header(out, value)?;
    put_list(out, &value.strings)?;
    put_debug(out, &value.debug)?;
    put_list(out, &value.user_flags)?;
    put_list(out, &value.objects)?;
    Ok(())
}

/// The bytes that spell a well shaped value. `TooManyItems` comes exactly where the value doesn't fit: a
/// list or a string is too long for its count, or the bytes are more than 16 MiB.
pub fn encode(alloc: Global, value: &Pex) -> Result<Vec<u8>, EncodeFault>
    requires { IsWellShaped (plain value.now) }
    ensures encoded { IfOk result (λ bytes. Spells (plain value.now) bytes.items) }
    ensures too_many { IsErrOf result EncodeFault.TooManyItems → ¬ Fits (plain value.now) }
{
    let mut out = Vec::new(alloc);
    put_value(&mut out, value)?;
    if out.len() > FILE_LIMIT as usize {
        return Err(EncodeFault::TooManyItems);
    }
    Ok(out)
}
