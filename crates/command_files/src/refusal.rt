//! Which rule a file breaks, and the line that tells it.
ghost use Rattle.std.specs.Prelude.{◌≡◌, ◌++◌, IfOk, codes};
ghost use Rattle.std.specs.Fmt.{decimal};
ghost use Rattle.command_files.specs.Refusal.{at_text, held_rule_text, journal_rule_text, lex_rule_text, lift_rule_text, line_rule_text, listing_rule_text, link_rule_text, member_text, pex_rule_text, place_text, refusal_line, rule_status, rule_text, scene_rule_text, type_rule_text, verify_rule_text};

use line_parser::LineRule;
use papy_base::{Made, Text};
use pex_codec::PexRule;
use pex_lift::LiftRule;
use pex_listing::ListingRule;
use pex_verify::VerifyRule;
use run_replay::JournalRule;
use scene_reader::SceneRule;
use script_lexer::LexRule;
use script_linker::LinkRule;
use stack_save::HeldRule;
use std::alloc::Global;
use type_rules::TypeRule;

/// Where in a file a rule is broken.
#[derive(Drop)]
pub enum Place {
    /// At so many bytes from the file's start.
    Offset(u32),
    /// On this line, from 1, or 0 for a file that is too large.
    Line(u32),
    /// In the file as a whole.
    Whole,
    /// In a compiled file's object: in one of its variables, properties, states or functions, where that is
    /// told, and there at the instruction of this number, from 0, where it is at one.
    Member {
        /// The object's name.
        object: Text,
        /// The name of the variable, property, state or state's function.
        member: Option<Text>,
        /// The number of the instruction.
        at: Option<u16>,
    },
}

/// A rule that a file breaks.
#[derive(Clone, Copy, PartialEq, Eq)]
pub enum Rule {
    /// One of the rules of compiled files.
    Pex(PexRule),
    /// One of the rules of listings.
    Listing(ListingRule),
    /// One of the rules of a script's lexical form.
    Lexical(LexRule),
    /// One of the rules of a script's lines and blocks.
    Grammar(LineRule),
    /// One of the rules of a set of scripts.
    Link(LinkRule),
    /// One of the rules of types and names.
    Typing(TypeRule),
    /// One of the rules of scenes.
    Scene(SceneRule),
    /// One of the rules of compiled files that run together.
    Verification(VerifyRule),
    /// One of the rules of held files.
    Held(HeldRule),
    /// One of the rules of journals.
    Journal(JournalRule),
    /// The rule of lifting.
    Lifting(LiftRule),
}

impl Rule {
    /// The status of a command that refuses a file by this rule.
    pub fn status(self) -> u8
        ensures { result ≡ rule_status self }
    {
        match self {
            Rule::Pex(_) => 6,
            Rule::Listing(_) => 8,
            Rule::Lexical(_) | Rule::Grammar(_) | Rule::Link(_) | Rule::Typing(_) => 5,
            Rule::Scene(_) => 7,
            Rule::Verification(_) => 9,
            Rule::Held(_) => 11,
            Rule::Journal(_) => 12,
            Rule::Lifting(_) => 13,
        }
    }

    /// The rule's code and name.
    fn text(self) -> &'static [u8]
        ensures { result.now ≡ rule_text self }
    {
        match self {
            Rule::Pex(rule) => pex_rule_text(rule),
            Rule::Listing(rule) => listing_rule_text(rule),
            Rule::Lexical(rule) => lex_rule_text(rule),
            Rule::Grammar(rule) => line_rule_text(rule),
            Rule::Link(rule) => link_rule_text(rule),
            Rule::Typing(rule) => type_rule_text(rule),
            Rule::Scene(rule) => scene_rule_text(rule),
            Rule::Verification(rule) => verify_rule_text(rule),
            Rule::Held(rule) => held_rule_text(rule),
            Rule::Journal(rule) => journal_rule_text(rule),
            Rule::Lifting(rule) => lift_rule_text(rule),
        }
    }
}

fn pex_rule_text(rule: PexRule) -> &'static [u8]
    ensures { result.now ≡ pex_rule_text rule }
{
    match rule {
        PexRule::BadMagic => b"P1 BadMagic",
        PexRule::BadVersion => b"P2 BadVersion",
        PexRule::BadGame => b"P3 BadGame",
        PexRule::BadDebugFlag => b"P4 BadDebugFlag",
        PexRule::BadKind => b"P5 BadKind",
        PexRule::BadOpcode => b"P6 BadOpcode",
        PexRule::BadCount => b"P7 BadCount",
        PexRule::BadIndex => b"P8 BadIndex",
        PexRule::BadSize => b"P9 BadSize",
        PexRule::Truncated => b"P10 Truncated",
        PexRule::Trailing => b"P11 Trailing",
        PexRule::TooLarge => b"P12 TooLarge",
    }
}

fn lex_rule_text(rule: LexRule) -> &'static [u8]
    ensures { result.now ≡ lex_rule_text rule }
{
    match rule {
        LexRule::BadByte => b"L1 BadByte",
        LexRule::OpenText => b"L2 OpenText",
        LexRule::BadEscape => b"L3 BadEscape",
        LexRule::FloatLiteral => b"L4 FloatLiteral",
        LexRule::FloatWord => b"L5 FloatWord",
        LexRule::NumberRange => b"L6 NumberRange",
        LexRule::TextTooLong => b"L7 TextTooLong",
        LexRule::OpenComment => b"L8 OpenComment",
        LexRule::TooLarge => b"L9 TooLarge",
    }
}

fn line_rule_text(rule: LineRule) -> &'static [u8]
    ensures { result.now ≡ line_rule_text rule }
{
    match rule {
        LineRule::BadLine => b"S1 BadLine",
        LineRule::TooDeep => b"S2 TooDeep",
        LineRule::BadBlock => b"S3 BadBlock",
    }
}

fn link_rule_text(rule: LinkRule) -> &'static [u8]
    ensures { result.now ≡ link_rule_text rule }
{
    match rule {
        LinkRule::DuplicateScript => b"N1 DuplicateScript",
        LinkRule::PreludeName => b"N2 PreludeName",
        LinkRule::UnknownParent => b"N3 UnknownParent",
        LinkRule::ExtendsCycle => b"N4 ExtendsCycle",
        LinkRule::UnknownImport => b"N5 UnknownImport",
        LinkRule::DuplicateMember => b"N6 DuplicateMember",
        LinkRule::TwoAutoStates => b"N7 TwoAutoStates",
        LinkRule::StateFunctionAlone => b"N8 StateFunctionAlone",
        LinkRule::SignatureDiffers => b"N9 SignatureDiffers",
        LinkRule::PropertyInParent => b"N10 PropertyInParent",
        LinkRule::DefaultOrder => b"N11 DefaultOrder",
        LinkRule::Limit => b"N12 Limit",
    }
}

fn type_rule_text(rule: TypeRule) -> &'static [u8]
    ensures { result.now ≡ type_rule_text rule }
{
    match rule {
        TypeRule::UnknownName => b"K1 UnknownName",
        TypeRule::UnknownType => b"K2 UnknownType",
        TypeRule::NoFunction => b"K3 NoFunction",
        TypeRule::NoProperty => b"K4 NoProperty",
        TypeRule::Arguments => b"K5 Arguments",
        TypeRule::NoConversion => b"K6 NoConversion",
        TypeRule::Operand => b"K7 Operand",
        TypeRule::NotAssignable => b"K8 NotAssignable",
        TypeRule::InstanceInGlobal => b"K9 InstanceInGlobal",
        TypeRule::ReturnValue => b"K10 ReturnValue",
        TypeRule::PropertyDirection => b"K11 PropertyDirection",
        TypeRule::ArraySize => b"K12 ArraySize",
        TypeRule::NoParent => b"K13 NoParent",
        TypeRule::DuplicateLocal => b"K14 DuplicateLocal",
        TypeRule::FunctionTooLarge => b"K15 FunctionTooLarge",
        TypeRule::NoValue => b"K16 NoValue",
    }
}

fn listing_rule_text(rule: ListingRule) -> &'static [u8]
    ensures { result.now ≡ listing_rule_text rule }
{
    match rule {
        ListingRule::BadLine => b"G1 BadLine",
        ListingRule::NotCanonical => b"G2 NotCanonical",
        ListingRule::BadName => b"G3 BadName",
        ListingRule::End => b"G4 End",
    }
}

fn scene_rule_text(rule: SceneRule) -> &'static [u8]
    ensures { result.now ≡ scene_rule_text rule }
{
    match rule {
        SceneRule::NotJson => b"C1 NotJson",
        SceneRule::Shape => b"C2 Shape",
        SceneRule::Limit => b"C3 Limit",
        SceneRule::NoScript => b"C4 NoScript",
        SceneRule::NoProperty => b"C5 NoProperty",
        SceneRule::NoFunction => b"C6 NoFunction",
        SceneRule::Arguments => b"C7 Arguments",
        SceneRule::UnboundNative => b"C8 UnboundNative",
        SceneRule::NoDevice => b"C9 NoDevice",
        SceneRule::DuplicateName => b"C10 DuplicateName",
    }
}

fn verify_rule_text(rule: VerifyRule) -> &'static [u8]
    ensures { result.now ≡ verify_rule_text rule }
{
    match rule {
        VerifyRule::FloatOpcode => b"V1 FloatOpcode",
        VerifyRule::FloatValue => b"V2 FloatValue",
        VerifyRule::UnknownParent => b"V3 UnknownParent",
        VerifyRule::ParentCycle => b"V4 ParentCycle",
        VerifyRule::DuplicateName => b"V5 DuplicateName",
        VerifyRule::UnknownVariable => b"V6 UnknownVariable",
        VerifyRule::OperandType => b"V7 OperandType",
        VerifyRule::JumpRange => b"V8 JumpRange",
        VerifyRule::ArgumentCount => b"V9 ArgumentCount",
        VerifyRule::UnknownFunction => b"V10 UnknownFunction",
        VerifyRule::SignatureDiffers => b"V11 SignatureDiffers",
        VerifyRule::TextTooLong => b"V12 TextTooLong",
        VerifyRule::TooMany => b"V13 TooMany",
        VerifyRule::BadPropertyBits => b"V14 BadPropertyBits",
    }
}

fn held_rule_text(rule: HeldRule) -> &'static [u8]
    ensures { result.now ≡ held_rule_text rule }
{
    match rule {
        HeldRule::BadMagic => b"H1 BadMagic",
        HeldRule::BadLayout => b"H2 BadLayout",
        HeldRule::BadFiles => b"H3 BadFiles",
        HeldRule::BadScene => b"H4 BadScene",
        HeldRule::BadState => b"H5 BadState",
        HeldRule::OtherDevices => b"H6 OtherDevices",
        HeldRule::TooLarge => b"H7 TooLarge",
    }
}

fn journal_rule_text(rule: JournalRule) -> &'static [u8]
    ensures { result.now ≡ journal_rule_text rule }
{
    match rule {
        JournalRule::BadLine => b"J1 BadLine",
        JournalRule::BadMove => b"J2 BadMove",
    }
}

fn lift_rule_text(rule: LiftRule) -> &'static [u8]
    ensures { result.now ≡ lift_rule_text rule }
{
    match rule {
        LiftRule::NotLifted => b"U1 NotLifted",
    }
}

fn append_member(line: &mut Vec<u8>, member: &Option<Text>) -> Made<()>
    ensures { IfOk result (λ _. line.new.items ≡ line.old.items ++ member_text member.now) }
{
    if let Some(name) = member {
        line.push(b'.')?;
        line.extend_from_slice(name.as_bytes())?;
    }
    Ok(())
}

fn append_instruction(alloc: Global, line: &mut Vec<u8>, at: Option<u16>) -> Made<()>
    ensures { IfOk result (λ _. line.new.items ≡ line.old.items ++ at_text at) }
{
    if let Some(number) = at {
        let text = format!(in alloc; ":{number}")?;
        line.extend_from_slice(text.as_bytes())?;
    }
    Ok(())
}

fn append_number(alloc: Global, line: &mut Vec<u8>, sign: &[u8], number: u32) -> Made<()>
    ensures { IfOk result (λ _. line.new.items ≡ line.old.items ++ (sign.now ++ (decimal number ++ codes ": "))) }
{
    let text = format!(in alloc; "{number}: ")?;
    line.extend_from_slice(sign)?;
    line.extend_from_slice(text.as_bytes())?;
    Ok(())
}

fn append_place(alloc: Global, line: &mut Vec<u8>, place: &Place) -> Made<()>
    ensures { IfOk result (λ _. line.new.items ≡ line.old.items ++ place_text place.now) }
{
    match place {
        Place::Offset(offset) => append_number(alloc, line, b"@", *offset),
        Place::Line(number) => append_number(alloc, line, b":", *number),
        Place::Whole => {
            line.extend_from_slice(b": ")?;
            Ok(())
        }
        Place::Member { object, member, at } => {
            line.extend_from_slice(b": ")?;
            line.extend_from_slice(object.as_bytes())?;
            append_member(line, member)?;
            append_instruction(alloc, line, *at)?;
            line.push(b' ')?;
            Ok(())
        }
    }
}

/// The line that tells which rule a file breaks and where: `FILE@OFFSET: RULE Name`,
/// `FILE:LINE: RULE Name`, `FILE: RULE Name`, or `FILE: OBJECT.MEMBER:AT RULE Name`, without `.MEMBER` or
/// `:AT` where there is none.
///
/// # Errors
///
/// `OutOfMemory` comes where there is no room for it.
pub fn refusal_line(alloc: Global, file: &[u8], place: &Place, rule: Rule) -> Made<Vec<u8>>
    ensures { IfOk result (λ line. line.items ≡ refusal_line file.now place.now rule) }
{
    let mut line = file.to_vec(alloc)?;
    append_place(alloc, &mut line, place)?;
    line.extend_from_slice(rule.text())?;
    line.push(b'\n')?;
    Ok(line)
}
