// What instructions do, and what they use their operands for.
ghost use Rattle.std.specs.Prelude.{◌≡◌};
ghost use Rattle.pex_verify.specs.Uses as spec;

/// What an instruction does. Opcodes that ask the same of their operands share one.
#[derive(Clone, Copy, PartialEq, Eq)]
pub(crate) enum Action {
    /// nop
    Nothing,
    /// fadd, fsub, fmul, fdiv, fneg
    Float,
    /// iadd, isub, imul, idiv, imod
    Arithmetic,
    /// not
    Invert,
    /// ineg
    Negate,
    /// assign
    Assign,
    /// cast
    Cast,
    /// cmp_eq
    Equal,
    /// cmp_lt, cmp_le, cmp_gt, cmp_ge
    Order,
    /// jmp
    Jump,
    /// jmpt, jmpf
    JumpIf,
    /// callmethod
    CallMethod,
    /// callparent
    CallParent,
    /// callstatic
    CallStatic,
    /// return
    Return,
    /// strcat
    Join,
    /// propget
    GetProperty,
    /// propset
    SetProperty,
    /// array_create
    CreateArray,
    /// array_length
    ArrayLength,
    /// array_getelement
    GetElement,
    /// array_setelement
    SetElement,
    /// array_findelement, array_rfindelement
    FindElement,
}

/// What an instruction uses an operand for.
#[derive(Clone, Copy, PartialEq, Eq)]
pub(crate) enum Use {
    /// Its value is read.
    Read,
    /// A result is stored in it.
    Write,
    /// It is the name of a function, a property or a script.
    Name,
    /// It is a number that stands in the code: the offset of a jump, or the size of a new array.
    Number,
}

/// What the instructions of each opcode do, at the place of its code.
#[rattlefmt::skip]
static ACTIONS: [Action; 36] = [
    Action::Nothing,
    Action::Arithmetic, Action::Float, Action::Arithmetic, Action::Float, Action::Arithmetic,
    Action::Float, Action::Arithmetic, Action::Float, Action::Arithmetic,
    Action::Invert, Action::Negate, Action::Float, Action::Assign, Action::Cast,
    Action::Equal, Action::Order, Action::Order, Action::Order, Action::Order,
    Action::Jump, Action::JumpIf, Action::JumpIf,
    Action::CallMethod, Action::CallParent, Action::CallStatic,
    Action::Return, Action::Join, Action::GetProperty, Action::SetProperty,
    Action::CreateArray, Action::ArrayLength, Action::GetElement, Action::SetElement,
    Action::FindElement, Action::FindElement,
];

/// The last opcode.
const LAST: u8 = 0x23;

/// What instructions of this opcode do, none where it is over 23h.
pub(crate) fn action_of(opcode: u8) -> Option<Action>
    ensures { result ≡ spec.action_of opcode }
{
    if opcode > LAST {
        return None;
    }
    Some(ACTIONS[opcode as usize])
}

/// What an action uses its fixed operands for, in their order. Further operands are read.
pub(crate) fn uses_of(action: Action) -> &'static [Use]
    ensures { result.now ≡ spec.uses_of action }
{
    match action {
        Action::Nothing | Action::Float => &[],
        Action::Arithmetic | Action::Equal | Action::Order | Action::Join | Action::GetElement => {
            &[Use::Write, Use::Read, Use::Read]
        }
        Action::Invert | Action::Negate | Action::Assign | Action::Cast | Action::ArrayLength => &[
            Use::Write,
            Use::Read,
        ],
        Action::Jump => &[Use::Number],
        Action::JumpIf => &[Use::Read, Use::Number],
        Action::CallMethod | Action::GetProperty => &[Use::Name, Use::Read, Use::Write],
        Action::CallParent => &[Use::Name, Use::Write],
        Action::CallStatic => &[Use::Name, Use::Name, Use::Write],
        Action::Return => &[Use::Read],
        Action::SetProperty => &[Use::Name, Use::Read, Use::Read],
        Action::CreateArray => &[Use::Write, Use::Number],
        Action::SetElement => &[Use::Read, Use::Read, Use::Read],
        Action::FindElement => &[Use::Read, Use::Write, Use::Read, Use::Read],
    }
}
