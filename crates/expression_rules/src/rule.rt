// The rules of types and names, and what is noted while a script is judged by them.
ghost use Rattle.std.specs.Prelude.{◌≡◌, ◌<◌, None, IsTrue, IsSome, IfSome};
ghost use Rattle.expression_rules.specs.Rules.{rule_number};
ghost use Rattle.papy_base.specs.Earliest.{IsFirst};

use papy_base::{BrokenRule, Earliest, Made, NumberedRule};
use std::alloc::Global;
use std::collections::HashSet;

// The most different texts that the calls of a script write out.
const TEXT_LIMIT: usize = 8_192;

// The most bytes of them together.
const TEXT_BYTES_LIMIT: usize = 524_288;

// A script of more nodes is too large, and each default argument is one at least.
const DEFAULT_LIMIT: u32 = 200_000;

/// The rules of types and names, in the order of their numbers, K1 to K16.
#[derive(Clone, Copy, Debug, PartialEq, Eq)]
pub enum TypeRule {
    /// K1: a word names nothing that is seen.
    UnknownName = 1,
    /// K2: the name of a type names none.
    UnknownType,
    /// K3: a call finds no function that may be called so.
    NoFunction,
    /// K4: a member is no property of the value's script, or `.Length` stands on no array.
    NoProperty,
    /// K5: an argument is too many, named wrongly or twice, stands after a named one, or is missing.
    Arguments,
    /// K6: a value doesn't convert to the type that is needed.
    NoConversion,
    /// K7: an operator doesn't take operands of these types, or `[ ]` stands on no array.
    Operand,
    /// K8: the target of an assignment can't be assigned to.
    NotAssignable,
    /// K9: a Global function uses an instance.
    InstanceInGlobal,
    /// K10: `Return` has a value in a function without result, or none in one with.
    ReturnValue,
    /// K11: a property is read or written that has no such direction.
    PropertyDirection,
    /// K12: the size of a new array isn't in 1 to 128.
    ArraySize,
    /// K13: `Parent` stands in a script without parent.
    NoParent,
    /// K14: a local or a parameter has the name of one that is still seen.
    DuplicateLocal,
    /// K15: a function or a script has too many nodes.
    FunctionTooLarge,
    /// K16: the result of a function without result is used.
    NoValue,
}

impl TypeRule {
    /// The rule's number, from 1 to 16.
    pub fn number(self) -> u8
        ensures { result ≡ rule_number self }
    {
        self as u8
    }
}

impl NumberedRule for TypeRule {
    ghost number_of = { rule_number };

    fn number(self) -> u8 {
        TypeRule::number(self)
    }
}

/// The first broken rule of a script, and the different texts that its calls write out: default texts, and
/// the names of Global functions as they are declared.
#[derive(Drop)]
pub struct ScriptNotes {
    alloc: Global,
    first: Earliest<TypeRule>,
    texts: HashSet<Vec<u8>>,
    text_bytes: usize,
    defaults: u32,
}

impl ScriptNotes {
    /// Nothing noted.
    pub fn new(alloc: Global) -> ScriptNotes
        ensures { result.first.found ≡ None }
    {
        ScriptNotes {
            alloc,
            first: Earliest { found: None },
            texts: HashSet::new(alloc),
            text_bytes: 0,
            defaults: 0,
        }
    }

    /// Notes that a rule is broken at this line. The first by line and rule number is kept.
    pub fn note(&mut self, line: u16, rule: TypeRule)
        ensures noted { IsSome self.new.first.found }
        ensures least { IfSome self.new.first.found (IsFirst rule_number self.old.first.found line rule) }
        ensures others { self.new.texts ≡ self.old.texts }
    {
        self.first.note(line, rule);
    }

    /// The first broken rule by line and rule number, with its line.
    pub fn first(&self) -> Option<BrokenRule<TypeRule>>
        ensures { result ≡ self.now.first.found }
    {
        self.first.found
    }

    /// Whether the calls of the script write out over 8,192 different texts, over 524,288 bytes of them
    /// together, or over 200,000 default arguments, of which no more than 200,001 are written out.
    pub fn writes_too_much(&self) -> bool
        ensures bytes { 524288 < self.now.text_bytes → IsTrue result }
        ensures defaults { 200000 < self.now.defaults → IsTrue result }
    {
        self.texts.len() > TEXT_LIMIT
            || self.text_bytes > TEXT_BYTES_LIMIT
            || self.defaults > DEFAULT_LIMIT
    }

    /// Notes that a call writes this text out.
    pub(crate) fn write_out(&mut self, text: &[u8]) -> Made<()>
        ensures { self.new.first ≡ self.old.first }
    {
        if self.texts.contains(text) {
            return Ok(());
        }
        self.texts.insert(text.to_vec(self.alloc)?)?;
        self.text_bytes = self.text_bytes.saturating_add(text.len());
        Ok(())
    }

    /// Notes that a default argument is written out, unless there are too many already.
    pub(crate) fn takes_default(&mut self) -> bool
        ensures { self.new.first ≡ self.old.first }
    {
        if self.defaults > DEFAULT_LIMIT {
            return false;
        }
        self.defaults += 1;
        true
    }
}
