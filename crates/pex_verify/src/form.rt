// The forms of instructions by opcode.
ghost use Rattle.std.specs.Prelude.{◌≡◌};
ghost use Rattle.pex_verify.specs.JudgedCode.{form_at};

/// The form of an instruction.
#[derive(Clone, Copy, PartialEq, Eq)]
pub(crate) enum Form {
    Plain(PlainForm),
    CallMethod,
    CallParent,
    CallStatic,
    PropGet,
    PropSet,
}

/// What looks nothing up by name. Instructions on floats have no form, and stand as nop.
#[derive(Clone, Copy, PartialEq, Eq)]
pub(crate) enum PlainForm {
    Nop,
    Two(TwoForm),
    Three(ThreeForm),
    Four(FourForm),
    Jmp,
    JmpT,
    JmpF,
    Return,
    ArrayCreate,
}

/// What has two operands that are read or written.
#[derive(Clone, Copy, PartialEq, Eq)]
pub(crate) enum TwoForm {
    Not,
    INeg,
    Assign,
    Cast,
    ArrayLength,
}

/// What has three.
#[derive(Clone, Copy, PartialEq, Eq)]
pub(crate) enum ThreeForm {
    IAdd,
    ISub,
    IMul,
    IDiv,
    IMod,
    CmpEq,
    CmpLt,
    CmpLe,
    CmpGt,
    CmpGe,
    StrCat,
    ArrayGetElement,
    ArraySetElement,
}

/// What has four.
#[derive(Clone, Copy, PartialEq, Eq)]
pub(crate) enum FourForm {
    ArrayFindElement,
    ArrayRFindElement,
}

/// The form of each opcode, at the place of its code.
#[rattlefmt::skip]
static FORMS: [Form; 36] = [
    Form::Plain(PlainForm::Nop), Form::Plain(PlainForm::Three(ThreeForm::IAdd)), Form::Plain(PlainForm::Nop),
    Form::Plain(PlainForm::Three(ThreeForm::ISub)), Form::Plain(PlainForm::Nop),
    Form::Plain(PlainForm::Three(ThreeForm::IMul)), Form::Plain(PlainForm::Nop),
    Form::Plain(PlainForm::Three(ThreeForm::IDiv)), Form::Plain(PlainForm::Nop),
    Form::Plain(PlainForm::Three(ThreeForm::IMod)), Form::Plain(PlainForm::Two(TwoForm::Not)),
    Form::Plain(PlainForm::Two(TwoForm::INeg)), Form::Plain(PlainForm::Nop),
    Form::Plain(PlainForm::Two(TwoForm::Assign)), Form::Plain(PlainForm::Two(TwoForm::Cast)),
    Form::Plain(PlainForm::Three(ThreeForm::CmpEq)), Form::Plain(PlainForm::Three(ThreeForm::CmpLt)),
    Form::Plain(PlainForm::Three(ThreeForm::CmpLe)), Form::Plain(PlainForm::Three(ThreeForm::CmpGt)),
    Form::Plain(PlainForm::Three(ThreeForm::CmpGe)), Form::Plain(PlainForm::Jmp), Form::Plain(PlainForm::JmpT),
    Form::Plain(PlainForm::JmpF), Form::CallMethod, Form::CallParent, Form::CallStatic,
    Form::Plain(PlainForm::Return), Form::Plain(PlainForm::Three(ThreeForm::StrCat)), Form::PropGet, Form::PropSet,
    Form::Plain(PlainForm::ArrayCreate), Form::Plain(PlainForm::Two(TwoForm::ArrayLength)),
    Form::Plain(PlainForm::Three(ThreeForm::ArrayGetElement)),
    Form::Plain(PlainForm::Three(ThreeForm::ArraySetElement)),
    Form::Plain(PlainForm::Four(FourForm::ArrayFindElement)),
    Form::Plain(PlainForm::Four(FourForm::ArrayRFindElement)),
];

/// The last opcode.
const LAST: u8 = 0x23;

/// The form of instructions of this opcode.
pub(crate) fn form_of(opcode: u8) -> Form
    ensures { result ≡ form_at opcode }
{
    if opcode > LAST {
        return Form::Plain(PlainForm::Nop);
    }
    FORMS[opcode as usize]
}
