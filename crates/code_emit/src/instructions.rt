// Instructions as the file has them: for each form its opcode and its operands, in their order.
#![tactic(auto, using(crate::proofs::Goes::going))]

ghost use Rattle.std.specs.Prelude.{◌≡◌, [], Some, true, false, length, IfOk};
ghost use Rattle.std.specs.List.{AllByRecursion};
ghost use Rattle.pex_values.specs.Opcodes.{operands_of};
ghost use Rattle.pex_values.specs.Plain.{plain_instruction};
ghost use Rattle.pex_values.specs.Shape.{ArePair, IsShapedInstruction};
ghost use Rattle.code_emit.specs.Spelled.{SpellsForm, SpellsInstruction, given, unary_code, binary_code, search_code, jump_code};
ghost use Rattle.code_emit.specs.Writing.{GoesOn};

use crate::faults::Result;
use crate::operands::{Operand, operand_data, place_data};
use crate::strings::StringTable;
use code_lower::{Binary, Coded, Place, Search, Unary};
use pex_values::{
    ARRAY_CREATE, ARRAY_FINDELEMENT, ARRAY_GETELEMENT, ARRAY_LENGTH, ARRAY_RFINDELEMENT,
    ARRAY_SETELEMENT, ASSIGN, CALL_METHOD, CALL_PARENT, CALL_STATIC, CAST, CMP_EQ, CMP_GE, CMP_GT,
    CMP_LE, CMP_LT, IADD, IDIV, IMOD, IMUL, INEG, ISUB, Instruction, JMP, JMPF, JMPT, NOT, PROPGET,
    PROPSET, RETURN, STRCAT,
};

/// The instruction of a function whose slots have these names and types.
pub(crate) fn instruction(
    strings: &mut StringTable<'_>,
    slots: &[(u16, u16)],
    coded: &Coded<'_>,
) -> Result<Instruction>
    requires { AllByRecursion (ArePair (length strings.old.strings)) slots.now }
    ensures instruction { IfOk result (λ i. IsShapedInstruction (length strings.new.strings) (plain_instruction i)) }
    ensures spelled { IfOk result (λ i. SpellsInstruction (record { table = strings.new; slots = slots.now }) (plain_instruction i) coded.now) }
    ensures goes { GoesOn strings.old strings.new }
{
    use Operand::{At, Member, Number, Script};
    match coded {
        Coded::Unary { opcode, result, of } => {
            fixed(
                strings,
                slots,
                unary_opcode(*opcode),
                &[At(*result), At(*of)],
            )
        }
        Coded::Binary {
            opcode,
            result,
            left,
            right,
        } => {
            fixed(
                strings,
                slots,
                binary_opcode(*opcode),
                &[At(*result), At(*left), At(*right)],
            )
        }
        Coded::Search {
            opcode,
            array,
            result,
            searched,
            start,
        } => {
            fixed(
                strings,
                slots,
                search_opcode(*opcode),
                &[At(*array), At(*result), At(*searched), At(*start)],
            )
        }
        Coded::NewArray { result, count } => {
            fixed(
                strings,
                slots,
                ARRAY_CREATE,
                &[At(*result), Number(i32::from(*count))],
            )
        }
        Coded::PropGet { name, of, result } => {
            fixed(
                strings,
                slots,
                PROPGET,
                &[Member(name), At(*of), At(*result)],
            )
        }
        Coded::PropSet { name, of, value } => {
            fixed(
                strings,
                slots,
                PROPSET,
                &[Member(name), At(*of), At(*value)],
            )
        }
        Coded::SetElement {
            array,
            index,
            value,
        } => {
            fixed(
                strings,
                slots,
                ARRAY_SETELEMENT,
                &[At(*array), At(*index), At(*value)],
            )
        }
        Coded::Return { value } => fixed(strings, slots, RETURN, &[given(value)]),
        Coded::CallMethod {
            name,
            of,
            result,
            more,
        } => {
            call(
                strings,
                slots,
                CALL_METHOD,
                &[Member(name), At(*of), At(*result)],
                more,
            )
        }
        Coded::CallParent { name, result, more } => {
            call(
                strings,
                slots,
                CALL_PARENT,
                &[Member(name), At(*result)],
                more,
            )
        }
        Coded::CallStatic {
            script,
            name,
            result,
            more,
        } => {
            call(
                strings,
                slots,
                CALL_STATIC,
                &[Script(*script), Member(name), At(*result)],
                more,
            )
        }
        Coded::Jump { offset } => fixed(strings, slots, JMP, &[Number(*offset)]),
        Coded::JumpIf {
            decided,
            condition,
            offset,
        } => {
            fixed(
                strings,
                slots,
                jump_opcode(*decided),
                &[At(*condition), Number(*offset)],
            )
        }
    }
}

// An instruction that always has as many operands.
fn fixed(
    strings: &mut StringTable<'_>,
    slots: &[(u16, u16)],
    opcode: u8,
    operands: &[Operand<'_>],
) -> Result<Instruction>
    requires slots { AllByRecursion (ArePair (length strings.old.strings)) slots.now }
    requires opcode { operands_of opcode ≡ Some (length operands.now, false) }
    ensures instruction { IfOk result (λ i. IsShapedInstruction (length strings.new.strings) (plain_instruction i)) }
    ensures spelled { IfOk result (λ i. SpellsForm (record { table = strings.new; slots = slots.now }) (plain_instruction i) (record { opcode = opcode; fixed = operands.now; more = [] })) }
    ensures goes { GoesOn strings.old strings.new }
{
    let fixed = operand_data(strings, slots, operands)?;
    let more = Vec::new(strings.alloc());
    Ok(Instruction {
        opcode,
        fixed,
        more,
    })
}

// A call, with its arguments.
fn call(
    strings: &mut StringTable<'_>,
    slots: &[(u16, u16)],
    opcode: u8,
    operands: &[Operand<'_>],
    arguments: &[Place<'_>],
) -> Result<Instruction>
    requires slots { AllByRecursion (ArePair (length strings.old.strings)) slots.now }
    requires opcode { operands_of opcode ≡ Some (length operands.now, true) }
    ensures instruction { IfOk result (λ i. IsShapedInstruction (length strings.new.strings) (plain_instruction i)) }
    ensures spelled { IfOk result (λ i. SpellsForm (record { table = strings.new; slots = slots.now }) (plain_instruction i) (record { opcode = opcode; fixed = operands.now; more = arguments.now })) }
    ensures goes { GoesOn strings.old strings.new }
{
    let fixed = operand_data(strings, slots, operands)?;
    let more = place_data(strings, slots, arguments)?;
    Ok(Instruction {
        opcode,
        fixed,
        more,
    })
}

// What a return gives, which without a value is None.
fn given<'a>(value: &Option<Place<'a>>) -> Operand<'a>
    ensures { result ≡ given value.now }
{
    match value {
        Some(value) => Operand::At(*value),
        None => Operand::Nothing,
    }
}

// ---- opcodes

fn unary_opcode(opcode: Unary) -> u8
    ensures operands { operands_of result ≡ Some (2, false) }
    ensures code { result ≡ unary_code opcode }
{
    match opcode {
        Unary::Not => NOT,
        Unary::INeg => INEG,
        Unary::Assign => ASSIGN,
        Unary::Cast => CAST,
        Unary::ArrayLength => ARRAY_LENGTH,
    }
}

fn binary_opcode(opcode: Binary) -> u8
    ensures operands { operands_of result ≡ Some (3, false) }
    ensures code { result ≡ binary_code opcode }
{
    match opcode {
        Binary::IAdd => IADD,
        Binary::ISub => ISUB,
        Binary::IMul => IMUL,
        Binary::IDiv => IDIV,
        Binary::IMod => IMOD,
        Binary::StrCat => STRCAT,
        Binary::CmpEq => CMP_EQ,
        Binary::CmpLt => CMP_LT,
        Binary::CmpLe => CMP_LE,
        Binary::CmpGt => CMP_GT,
        Binary::CmpGe => CMP_GE,
        Binary::ArrayGetElement => ARRAY_GETELEMENT,
    }
}

fn search_opcode(opcode: Search) -> u8
    ensures operands { operands_of result ≡ Some (4, false) }
    ensures code { result ≡ search_code opcode }
{
    match opcode {
        Search::First => ARRAY_FINDELEMENT,
        Search::Last => ARRAY_RFINDELEMENT,
    }
}

fn jump_opcode(decided: bool) -> u8
    ensures operands { operands_of result ≡ Some (2, false) }
    ensures code { result ≡ jump_code decided }
{
    if decided { JMPT } else { JMPF }
}
