// Functions.
ghost use Rattle.std.specs.Prelude.{IfOk};
ghost use Rattle.core_tree.specs.Set.{function_of};
ghost use Rattle.code_lower.specs.Whole.{IsLowered};

use crate::faults::Result;
use crate::place::Lowered;
use crate::slots::SlotTable;
use crate::statements::block;
use crate::writer::Writer;
use core_tree::{CoreFunction, CoreScript, CoreSet};
use std::alloc::Global;

/// How many statements may stand inside each other.
const MOST_NESTED: u16 = 1_000;

/// The code of a function of a script of a set.
///
/// `OutOfRange` comes where a number names nothing, where a call without result is used as a value, or where an operand
/// is an instance or an array. `TooLarge` comes where there are more than 65,535 instructions or 8,192 parameters, locals
/// and temporaries, or where the trees are nested deeper than those of an accepted script. `OutOfMemory` comes where no
/// memory is found.
pub fn lowered_function<'a>(
    alloc: Global,
    set: &'a CoreSet,
    script: &'a CoreScript,
    of: &'a CoreFunction,
) -> Result<Lowered<'a>>
    ensures { IfOk result (IsLowered set.now script.now (function_of of.now)) }
{
    let slots = SlotTable::new(alloc, of)?;
    let mut writer = Writer::new(alloc, set, script, slots);
    block(&mut writer, &of.body, MOST_NESTED)?;
    Ok(writer.finish())
}
