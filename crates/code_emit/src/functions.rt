// Functions: their code, parameters and locals, and their debug entries.
#![tactic(auto, using(crate::proofs::Goes::going))]

ghost use Rattle.std.specs.Prelude.{◌≡◌, ◌<◌, ◌^◌, length, map, take, drop, IfOk};
ghost use Rattle.std.specs.List.{AllByRecursion};
ghost use Rattle.core_tree.specs.Set.{function_of};
ghost use Rattle.pex_values.specs.Plain.{plain_function, plain_instruction, plain_lines};
ghost use Rattle.pex_values.specs.Shape.{ArePair, IsReference, IsShapedFunction, IsShapedInstruction};
ghost use Rattle.code_emit.specs.Spelled.{Each, SpellsCode, SpellsFunction, SpellsInstruction, SpellsLines, SpellsSlot, SpellsSlots, function_bits, lines_told, part_named, slot_name};
ghost use Rattle.code_emit.specs.Strings.{Reads, origin_of};
ghost use Rattle.code_emit.specs.declared.strings.Numbered.TheVariants.{Local};
ghost use Rattle.code_emit.specs.Writing.{GoesOn, Notes};

use crate::faults::{EmitFault, Result};
use crate::instructions::instruction;
use crate::strings::{Numbered, Source, StringTable};
use crate::writer::{DebugName, Writer, flag_bits};
use code_lower::{Coded, Lowered, lowered_function};
use core_tree::{CoreFunction, CoreType};
use pex_values::{Instruction, PexFunction};
use std::alloc::Global;

/// What the file has of a function. A function with a body gets its debug entry.
pub(crate) fn function(
    writer: &mut Writer<'_>,
    source: &Source<'_>,
    of: &CoreFunction,
    place: DebugName<'_>,
) -> Result<PexFunction>
    ensures function { IfOk result (λ f. IsShapedFunction (length writer.new.strings.strings) (plain_function f)) }
    ensures spelled { IfOk result (λ f. Notes (length writer.new.strings.strings) (map plain_lines writer.old.debug.items) (map plain_lines writer.new.debug.items) (SpellsFunction (origin_of source.now) writer.new.strings (part_named place.entry) (plain_function f) (function_of of.now))) }
    ensures goes { GoesOn writer.old.strings writer.new.strings }
{
    let alloc = writer.strings.alloc();
    let lowered = lowered_function(alloc, source.set, source.script, of)?;
    let written = written(writer, of, place, &lowered);
    drop(lowered);
    written
}

fn written(
    writer: &mut Writer<'_>,
    of: &CoreFunction,
    place: DebugName<'_>,
    lowered: &Lowered<'_>,
) -> Result<PexFunction>
    ensures function { IfOk result (λ f. IsShapedFunction (length writer.new.strings.strings) (plain_function f)) }
    ensures told { IfOk result (λ _. Notes (length writer.new.strings.strings) (map plain_lines writer.old.debug.items) (map plain_lines writer.new.debug.items) (λ added. Each (SpellsLines writer.new.strings (part_named place.entry)) added (lines_told of.now.is_native (map (λ i. i.1) lowered.now.code.items)))) }
    ensures spelled { IfOk result (λ f. SpellsCode writer.new.strings (function_of of.now) lowered.now (plain_function f)) }
    ensures goes { GoesOn writer.old.strings writer.new.strings }
{
    note_lines(writer, of, place, &lowered.code)?;
    coded(&mut writer.strings, of, lowered)
}

// The heading, the slots and the code of a function.
fn coded(
    strings: &mut StringTable<'_>,
    of: &CoreFunction,
    lowered: &Lowered<'_>,
) -> Result<PexFunction>
    ensures function { IfOk result (λ f. IsShapedFunction (length strings.new.strings) (plain_function f)) }
    ensures spelled { IfOk result (λ f. SpellsCode strings.new (function_of of.now) lowered.now (plain_function f)) }
    ensures goes { GoesOn strings.old strings.new }
{
    let result = strings.numbered(Numbered::Type(of.result))?;
    let doc = strings.text(&of.doc)?;
    let slots = slots(strings, &lowered.kinds)?;
    let code = code(strings, &slots, &lowered.code)?;
    let (parameters, locals) = parted(strings.alloc(), &slots, of.parameters.len())?;
    Ok(PexFunction {
        result,
        doc,
        flags: flag_bits(of.flags),
        bits: function_bits(of.is_global, of.is_native),
        parameters,
        locals,
        code,
    })
}

fn function_bits(is_global: bool, is_native: bool) -> u8
    ensures value { result ≡ function_bits is_global is_native }
    ensures within { result < 2 ^ 8 }
{
    match (is_global, is_native) {
        (false, false) => 0,
        (true, false) => 1,
        (false, true) => 2,
        (true, true) => 3,
    }
}

// The names and the types of slots, each by its place among the strings.
fn slots(strings: &mut StringTable<'_>, kinds: &[Option<CoreType>]) -> Result<Vec<(u16, u16)>>
    ensures slots { IfOk result (λ slots. AllByRecursion (ArePair (length strings.new.strings)) slots.items) }
    ensures spelled { IfOk result (λ slots. SpellsSlots strings.new 0 slots.items kinds.now) }
    ensures goes { GoesOn strings.old strings.new }
{
    let mut slots = Vec::with_capacity(strings.alloc(), kinds.len())?;
    for (number, kind) in kinds.iter().enumerate() {
        slots.push(slot(strings, number, *kind)?)?;
    }
    Ok(slots)
}

// A slot of this number. One without a type takes what calls without a result give.
fn slot(strings: &mut StringTable<'_>, number: usize, kind: Option<CoreType>) -> Result<(u16, u16)>
    ensures slot { IfOk result (ArePair (length strings.new.strings)) }
    ensures spelled { IfOk result (λ slot. SpellsSlot strings.new number slot kind) }
    ensures goes { GoesOn strings.old strings.new }
{
    let name = slot_name(strings, number, kind)?;
    let kind = strings.numbered(Numbered::Type(kind))?;
    Ok((name, kind))
}

fn slot_name(strings: &mut StringTable<'_>, number: usize, kind: Option<CoreType>) -> Result<u16>
    ensures place { IfOk result (IsReference (length strings.new.strings)) }
    ensures named { IfOk result (λ place. Reads strings.new.strings place (slot_name number kind)) }
    ensures goes { GoesOn strings.old strings.new }
{
    match kind {
        Some(_) => strings.numbered(local(number)?),
        None => strings.place_of(b"::NoneVar"),
    }
}

fn local(number: usize) -> Result<Numbered>
    ensures { IfOk result (λ name. name ≡ Local number) }
{
    match u16::try_from(number) {
        Ok(number) => Ok(Numbered::Local(number)),
        Err(_) => Err(EmitFault::TooLarge),
    }
}

// The parameters, and the locals and temporaries behind them.
fn parted(
    alloc: Global,
    slots: &[(u16, u16)],
    parameters: usize,
) -> Result<(Vec<(u16, u16)>, Vec<(u16, u16)>)>
    ensures parameters { IfOk result (λ parts. parts.0.items ≡ take parameters slots.now) }
    ensures locals { IfOk result (λ parts. parts.1.items ≡ drop parameters slots.now) }
    ensures count { IfOk result (λ parts. length parts.0.items ≡ parameters) }
{
    if parameters > slots.len() {
        return Err(EmitFault::OutOfRange);
    }
    let (parameters, locals) = slots.split_at(parameters);
    Ok((parameters.to_vec(alloc)?, locals.to_vec(alloc)?))
}

fn code(
    strings: &mut StringTable<'_>,
    slots: &[(u16, u16)],
    coded: &[(Coded<'_>, u16)],
) -> Result<Vec<Instruction>>
    requires { AllByRecursion (ArePair (length strings.old.strings)) slots.now }
    ensures code { IfOk result (λ code. AllByRecursion (IsShapedInstruction (length strings.new.strings)) (map plain_instruction code.items)) }
    ensures spelled { IfOk result (λ code. Each (SpellsInstruction (record { table = strings.new; slots = slots.now })) (map plain_instruction code.items) (map (λ i. i.0) coded.now)) }
    ensures goes { GoesOn strings.old strings.new }
{
    let mut code = Vec::with_capacity(strings.alloc(), coded.len())?;
    for each in coded {
        code.push(instruction(strings, slots, &each.0)?)?;
    }
    Ok(code)
}

// Adds the debug entry of a function with a body.
fn note_lines(
    writer: &mut Writer<'_>,
    of: &CoreFunction,
    place: DebugName<'_>,
    coded: &[(Coded<'_>, u16)],
) -> Result<()>
    ensures goes { GoesOn writer.old.strings writer.new.strings }
    ensures told { IfOk result (λ _. Notes (length writer.new.strings.strings) (map plain_lines writer.old.debug.items) (map plain_lines writer.new.debug.items) (λ added. Each (SpellsLines writer.new.strings (part_named place.entry)) added (lines_told of.now.is_native (map (λ i. i.1) coded.now)))) }
{
    if of.is_native {
        return Ok(());
    }
    let mut lines = Vec::with_capacity(writer.strings.alloc(), coded.len())?;
    for each in coded {
        lines.push(each.1)?;
    }
    writer.note_lines(place, lines)
}
