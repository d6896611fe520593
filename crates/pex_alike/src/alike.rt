// Code of two functions, compared.
ghost use Rattle.std.specs.Prelude.{◌≡◌, ◌↔◌, IsTrue, map, take, drop};
ghost use Rattle.pex_values.specs.Plain.{plain_function, plain_instruction};
ghost use Rattle.pex_alike.specs.SameCode.{SameEach, SameFunction, SameInstruction, SameKinds, SameOperand, name_count};
ghost use Rattle.pex_alike.specs.FunctionNaming.{naming};

use crate::function_names::{FunctionNames, same_string, same_word};
use papy_base::Text;
use pex_values::{
    CALL_METHOD, CALL_PARENT, CALL_STATIC, Datum, Instruction, PROPGET, PROPSET, PexFunction,
};

/// Whether two operands, each among the names of its function, are the same.
#[tactic(auto, unfolding(crate::specs::SameCode::SameOperand))]
pub(crate) fn same_operand(
    these: FunctionNames<'_>,
    those: FunctionNames<'_>,
    a: Datum,
    b: Datum,
) -> bool
    ensures { IsTrue result ↔ SameOperand (naming these.entry) (naming those.entry) a b }
{
    match (a, b) {
        (Datum::Word(a), Datum::Word(b)) => same_word(these, those, a, b),
        (Datum::Quoted(a), Datum::Quoted(b)) => same_string(these.strings, those.strings, a, b),
        (Datum::Word(_), _) | (Datum::Quoted(_), _) => false,
        _ => a == b,
    }
}

#[tactic(auto, unfolding(crate::specs::SameCode::SameEach))]
fn same_operands(
    these: FunctionNames<'_>,
    those: FunctionNames<'_>,
    xs: &[Datum],
    ys: &[Datum],
) -> bool
    ensures { IsTrue result ↔ SameEach (SameOperand (naming these.entry) (naming those.entry)) xs.now ys.now }
{
    xs.len() == ys.len()
        && xs
            .iter()
            .zip(ys)
            .all(|(x, y)| same_operand(these, those, *x, *y))
}

// How many of an instruction's first operands are names of functions, properties or scripts.
fn name_count(opcode: u8) -> usize
    ensures { result ≡ name_count opcode }
{
    match opcode {
        CALL_STATIC => 2,
        CALL_METHOD | CALL_PARENT | PROPGET | PROPSET => 1,
        _ => 0,
    }
}

// The first operands, as many or all, and those behind them.
fn parted(operands: &[Datum], count: usize) -> (&[Datum], &[Datum])
    ensures first { result.0.now ≡ take count operands.now }
    ensures rest { result.1.now ≡ drop count operands.now }
{
    operands.split_at(count.min(operands.len()))
}

#[tactic(auto, unfolding(crate::specs::SameCode::SameInstruction))]
fn same_instruction(
    these: FunctionNames<'_>,
    those: FunctionNames<'_>,
    a: &Instruction,
    b: &Instruction,
) -> bool
    ensures { IsTrue result ↔ SameInstruction (naming these.entry) (naming those.entry) (plain_instruction a.now) (plain_instruction b.now) }
{
    let count = name_count(a.opcode);
    let (a_names, a_operands) = parted(&a.fixed, count);
    let (b_names, b_operands) = parted(&b.fixed, count);
    a.opcode == b.opcode
        && same_operands(these.bare(), those.bare(), a_names, b_names)
        && same_operands(these, those, a_operands, b_operands)
        && same_operands(these, those, &a.more, &b.more)
}

#[tactic(auto, unfolding(crate::specs::SameCode::SameEach))]
fn same_instructions(
    these: FunctionNames<'_>,
    those: FunctionNames<'_>,
    xs: &[Instruction],
    ys: &[Instruction],
) -> bool
    ensures { IsTrue result ↔ SameEach (λ x y. SameInstruction (naming these.entry) (naming those.entry) (plain_instruction x) (plain_instruction y)) xs.now ys.now }
{
    xs.len() == ys.len()
        && xs
            .iter()
            .zip(ys)
            .all(|(x, y)| same_instruction(these, those, x, y))
}

fn same_code_of(
    these: FunctionNames<'_>,
    those: FunctionNames<'_>,
    xs: &[Instruction],
    ys: &[Instruction],
) -> bool
    ensures { IsTrue result ↔ SameEach (SameInstruction (naming these.entry) (naming those.entry)) (map plain_instruction xs.now) (map plain_instruction ys.now) }
{
    same_instructions(these, those, xs, ys)
}

#[tactic(auto, unfolding(crate::specs::SameCode::SameEach, crate::specs::SameCode::SameKinds))]
fn same_kinds(these: &[Text], those: &[Text], xs: &[(u16, u16)], ys: &[(u16, u16)]) -> bool
    ensures { IsTrue result ↔ SameKinds these.now those.now xs.now ys.now }
{
    xs.len() == ys.len()
        && xs
            .iter()
            .zip(ys)
            .all(|(x, y)| same_string(these, those, x.1, y.1))
}

/// Whether two functions, each with the strings of its file, have the same code.
#[tactic(auto, unfolding(crate::specs::SameCode::SameFunction))]
pub(crate) fn same_function(
    these: &[Text],
    those: &[Text],
    f: &PexFunction,
    g: &PexFunction,
) -> bool
    ensures { IsTrue result ↔ SameFunction these.now those.now (plain_function f.now) (plain_function g.now) }
{
    same_string(these, those, f.result, g.result)
        && same_string(these, those, f.doc, g.doc)
        && f.flags == g.flags
        && f.bits == g.bits
        && same_kinds(these, those, &f.parameters, &g.parameters)
        && same_kinds(these, those, &f.locals, &g.locals)
        && same_code_of(
            FunctionNames::of(these, f),
            FunctionNames::of(those, g),
            &f.code,
            &g.code,
        )
}
