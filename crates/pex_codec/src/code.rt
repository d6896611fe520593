//! How instructions and functions are taken and written.

ghost use Rattle.std.specs.Prelude.{◌≡◌, ◌+◌, ◌<◌, ◌^◌, ◌++◌, ℕ, length, map, refl, OnOk, IfSome, option_map, ⊤};
ghost use Rattle.std.specs.List.{flat_map};
ghost use Rattle.std.proofs.lemmas.List.{map-id};
ghost use Rattle.std.proofs.Common.{sym};
ghost use Rattle.pex_values.specs.declared.values.Datum.{Datum};
ghost use Rattle.pex_values.specs.Fit.{IsCounted, FitsInstruction, FitsFunction};
ghost use Rattle.pex_values.specs.Opcodes.{operands_of};
ghost use Rattle.pex_values.specs.Plain.{PlainFunction, PlainInstruction, plain_function, plain_instruction, plain_named};
ghost use Rattle.pex_values.specs.Spelling as spell;
ghost use Rattle.pex_codec.specs.Reading as reading;
ghost use Rattle.pex_codec.specs.Taking.{Takes};
ghost use Rattle.pex_codec.specs.Writing.{counted_fits, Writes, FitEach};

use crate::cursor::{Cursor, Taken};
use crate::faults::EncodeFault;
use crate::items::{Item, put_list, take_items, take_list};
use pex_values::{Datum, Instruction, PexFunction, operand_count, put_byte, put_u16, put_u32};
use std::alloc::{AllocError, Global};

/// A kind, and a number of two bytes.
fn put_kind_u16(out: &mut Vec<u8>, kind: u8, n: u16) -> Result<(), AllocError>
    ensures { OnOk result (out.new.items ≡ out.old.items ++ (spell.one_byte kind ++ spell.two_bytes n)) }
{
    put_byte(out, kind)?;
    put_u16(out, n)
}

/// A kind, and a number of four bytes.
fn put_kind_u32(out: &mut Vec<u8>, kind: u8, n: u32) -> Result<(), AllocError>
    ensures { OnOk result (out.new.items ≡ out.old.items ++ (spell.one_byte kind ++ spell.four_bytes n)) }
{
    put_byte(out, kind)?;
    put_u32(out, n)
}

pub(crate) fn put_datum(out: &mut Vec<u8>, datum: Datum) -> Result<(), AllocError>
    ensures { OnOk result (out.new.items ≡ out.old.items ++ spell.datum datum) }
{
    match datum {
        Datum::NoneValue => put_byte(out, 0),
        Datum::Word(n) => put_kind_u16(out, 1, n),
        Datum::Quoted(n) => put_kind_u16(out, 2, n),
        Datum::Int(n) => put_kind_u32(out, 3, n.cast_unsigned()),
        Datum::Float(n) => put_kind_u32(out, 4, n),
        Datum::Bool(n) => out.extend_from_slice(&[5, n]),
    }
}

fn put_data(out: &mut Vec<u8>, data: &[Datum]) -> Result<(), AllocError>
    ensures { OnOk result (out.new.items ≡ out.old.items ++ flat_map spell.datum «data».now) }
{
    for datum in data {
        put_datum(out, *datum)?;
    }
    Ok(())
}

/// The operands beyond the fixed ones, where the opcode has such.
fn put_more(out: &mut Vec<u8>, opcode: u8, more: &[Datum]) -> Result<(), EncodeFault>
    ensures { Writes result out.old.items out.new.items (length more.now < 2 ^ 31) (spell.counted (operands_of opcode) more.now) }
{
    if more.len() > 0x7FFF_FFFF {
        return Err(EncodeFault::TooManyItems);
    }
    if let Some((_, true)) = operand_count(opcode) {
        put_datum(out, Datum::Int(more.len() as i32))?;
        put_data(out, more)?;
    }
    Ok(())
}

/// An operand.
impl Item for Datum {
    ghost Plain = { Datum };

    ghost plain = { λ datum. datum };

    ghost plain_each = { λ items. items };

    ghost at = { reading.datum_at };

    ghost fits = { λ _. ⊤ };

    ghost list_fits = { IsCounted };

    ghost spelling = { spell.datum };

    ghost each = { λ items. sym (map-id items) };

    ghost listed = { counted_fits };

    #[inline(always)]
    fn take(_alloc: Global, cursor: &mut Cursor<'_>, strings: u16) -> Taken<Self> {
        cursor.datum(strings)
    }

    fn write(&self, out: &mut Vec<u8>) -> Result<(), EncodeFault> {
        Ok(put_datum(out, *self)?)
    }
}

impl Item for Instruction {
    ghost Plain = { PlainInstruction };

    ghost plain = { plain_instruction };

    ghost plain_each = { λ items. map plain_instruction items };

    ghost at = { reading.instruction_at };

    ghost fits = { FitsInstruction };

    ghost list_fits = { FitEach FitsInstruction };

    ghost spelling = { spell.instruction };

    ghost each = { λ _. refl };

    ghost listed = { λ items. record { all = λ fit. fit; fit = λ all. all } };

    #[inline(always)]
    #[tactic(auto, unfolding(crate::specs::Reading::instruction_at))]
    fn take(alloc: Global, cursor: &mut Cursor<'_>, strings: u16) -> Taken<Self> {
        let operation = cursor.opcode()?;
        let fixed = take_items(alloc, cursor, strings, operation.fixed as usize)?;
        let more = if operation.more {
            let count = cursor.count()?;
            take_items(alloc, cursor, strings, count as usize)?
        } else {
            Vec::new(alloc)
        };
        Ok(Instruction {
            opcode: operation.opcode,
            fixed,
            more,
        })
    }

    #[tactic(auto, unfolding(pex_values::specs::Spelling::instruction))]
    fn write(&self, out: &mut Vec<u8>) -> Result<(), EncodeFault> {
        put_byte(out, self.opcode)?;
        put_data(out, &self.fixed)?;
        put_more(out, self.opcode, &self.more)?;
        Ok(())
    }
}

/// The fields of a function that stand before its lists.
#[tactic(auto, using(std::proofs::lemmas::Grind::common_steps))]
fn put_heading(out: &mut Vec<u8>, function: &PexFunction) -> Result<(), AllocError>
    ensures { OnOk result (out.new.items ≡ out.old.items ++ (spell.two_bytes function.now.result
        ++ spell.two_bytes function.now.doc ++ spell.four_bytes function.now.flags ++ spell.one_byte function.now.bits)) }
{
    put_u16(out, function.result)?;
    put_u16(out, function.doc)?;
    put_u32(out, function.flags)?;
    put_byte(out, function.bits)
}

impl Item for PexFunction {
    ghost Plain = { PlainFunction };

    ghost plain = { plain_function };

    ghost plain_each = { λ items. map plain_function items };

    ghost at = { reading.function_at };

    ghost fits = { FitsFunction };

    ghost list_fits = { FitEach FitsFunction };

    ghost spelling = { spell.function };

    ghost each = { λ _. refl };

    ghost listed = { λ items. record { all = λ fit. fit; fit = λ all. all } };

    #[tactic(auto, unfolding(crate::specs::Reading::function_at))]
    fn take(alloc: Global, cursor: &mut Cursor<'_>, strings: u16) -> Taken<Self> {
        let head = cursor.function_head(strings)?;
        Ok(PexFunction {
            result: head.result,
            doc: head.doc,
            flags: head.flags,
            bits: head.bits,
            parameters: take_items(alloc, cursor, strings, head.parameters as usize)?,
            locals: take_list(alloc, cursor, strings)?,
            code: take_list(alloc, cursor, strings)?,
        })
    }

    #[tactic(auto, unfolding(pex_values::specs::Spelling::function), using(std::proofs::lemmas::Grind::common_steps))]
    fn write(&self, out: &mut Vec<u8>) -> Result<(), EncodeFault> {
        put_heading(out, self)?;
        put_list(out, &self.parameters)?;
        put_list(out, &self.locals)?;
        put_list(out, &self.code)?;
        Ok(())
    }
}

/// A function where one is asked for.
pub(crate) fn take_optional_function(
    alloc: Global,
    cursor: &mut Cursor<'_>,
    strings: u16,
    asked: bool,
) -> Taken<Option<PexFunction>>
    ensures { Takes (λ function. option_map plain_function function) (reading.optional_at asked (reading.function_at strings)) result cursor.old cursor.new }
{
    if asked {
        return Ok(Some(PexFunction::take(alloc, cursor, strings)?));
    }
    Ok(None)
}

pub(crate) fn put_optional_function(
    out: &mut Vec<u8>,
    function: &Option<PexFunction>,
) -> Result<(), EncodeFault>
    ensures { Writes result out.old.items out.new.items
        (IfSome (option_map plain_function function.now) FitsFunction)
        (spell.optional spell.function (option_map plain_function function.now)) }
{
    match function {
        None => Ok(()),
        Some(function) => function.write(out),
    }
}

/// A function of a state, behind its name.
impl Item for (u16, PexFunction) {
    ghost Plain = { ℕ × PlainFunction };

    ghost plain = { plain_named };

    ghost plain_each = { λ items. map plain_named items };

    ghost at = { reading.named_at };

    ghost fits = { λ f. FitsFunction f.1 };

    ghost list_fits = { FitEach (λ f. FitsFunction f.1) };

    ghost spelling = { spell.named };

    ghost each = { λ _. refl };

    ghost listed = { λ items. record { all = λ fit. fit; fit = λ all. all } };

    #[tactic(auto, unfolding(crate::specs::Reading::named_at))]
    fn take(alloc: Global, cursor: &mut Cursor<'_>, strings: u16) -> Taken<Self> {
        let name = cursor.reference(strings)?;
        let function = PexFunction::take(alloc, cursor, strings)?;
        Ok((name, function))
    }

    fn write(&self, out: &mut Vec<u8>) -> Result<(), EncodeFault> {
        put_u16(out, self.0)?;
        self.1.write(out)?;
        Ok(())
    }
}
