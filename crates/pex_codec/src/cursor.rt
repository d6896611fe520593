//! Takes fields from the front of a file's bytes: numbers, strings, values, and those that stand together.

ghost use Rattle.std.specs.Prelude.{◌≡◌, ◌==◌, ◌+◌, ◌≤◌, ◌||◌, Some, Ok, Err, length, if◌then◌else◌, IfOk};
ghost use Rattle.pex_values.specs.Opcodes.{operands_of};
ghost use Rattle.papy_base.specs.declared.faults.Fault.TheVariants.{Broken};
ghost use Rattle.pex_codec.specs.declared.cursor.Stop.TheVariants.{Refused};
ghost use Rattle.pex_codec.specs.declared.faults.PexRule.TheVariants.{BadMagic, BadVersion, BadGame};

use crate::faults::PexRule;
use byteorder::{BigEndian, ByteOrder};
use papy_base::{Fault, Text};
use pex_values::{Datum, PexVariable, SizeForm, has_variable, operand_count};

/// The number that a file begins with.
const MAGIC: u32 = 0xFA57_C0DE;

/// The kind of a value that is an integer.
const INTEGER: u8 = 3;

/// The last kind of a value.
const LAST_KIND: u8 = 5;

/// What stops the taking of a part.
#[derive(Clone, Copy)]
pub(crate) enum Stop {
    /// The bytes end before the part does.
    Short,
    /// A field breaks a rule.
    Refused { offset: u32, rule: PexRule },
}

/// The part that was taken, or why it wasn't.
pub(crate) type Taken<T> = Result<T, Fault<Stop>>;

/// The part, or why it is refused.
#[inline(always)]
fn judged<T: Copy>(part: T, good: bool, offset: u32, rule: PexRule) -> Taken<T>
    ensures { result ≡ (if good then Ok part else Err (Broken (Refused offset rule))) }
{
    if good {
        return Ok(part);
    }
    Err(Fault::Broken(Stop::Refused { offset, rule }))
}

/// What the header says besides its strings.
#[derive(Clone, Copy)]
pub(crate) struct FileHeader {
    pub minor: u8,
    pub time: u64,
}

/// What stands before the parameters of a function, and their number.
#[derive(Clone, Copy)]
pub(crate) struct FunctionHead {
    pub result: u16,
    pub doc: u16,
    pub flags: u32,
    pub bits: u8,
    pub parameters: u16,
}

/// What stands before the functions of a property.
#[derive(Clone, Copy)]
pub(crate) struct PropertyHead {
    pub name: u16,
    pub kind: u16,
    pub doc: u16,
    pub flags: u32,
    pub bits: u8,
    pub variable: Option<u16>,
}

/// What stands before the variables of an object, their number, and the offset of its size.
#[derive(Clone, Copy)]
pub(crate) struct ObjectHead {
    pub name: u16,
    pub size_at: u32,
    pub size: u32,
    pub parent: u16,
    pub doc: u16,
    pub flags: u32,
    pub auto_state: u16,
    pub variables: u16,
}

/// What stands before the line numbers of a function, and their number.
#[derive(Clone, Copy)]
pub(crate) struct LinesHead {
    pub object: u16,
    pub state: u16,
    pub function: u16,
    pub kind: u8,
    pub lines: u16,
}

/// The header's strings and the string table.
#[derive(Drop)]
pub(crate) struct Texts {
    pub source: Text,
    pub user: Text,
    pub machine: Text,
    pub strings: Vec<Text>,
}

/// An opcode, how many operands it always has, and whether a count and that many more follow.
#[derive(Clone, Copy)]
pub(crate) struct Operation {
    pub opcode: u8,
    pub fixed: u8,
    pub more: bool,
}

/// The bytes that weren't taken yet.
#[derive(Clone, Copy)]
pub(crate) struct Cursor<'a> {
    /// The offset of the first of them from the file's start.
    pub(crate) at: u32,
    pub(crate) rest: &'a [u8],
    ghost within: { at + length rest.now ≤ 33554432 },
}

impl<'a> Cursor<'a> {
    ghost use Rattle.pex_codec.specs.Reading as reading;
    ghost use Rattle.pex_codec.specs.Taking.{Takes};

    /// So many bytes.
    #[inline(always)]
    #[tactic(auto, unfolding(crate::specs::Reading::bytes_at))]
    pub(crate) fn take(&mut self, count: usize) -> Taken<&'a [u8]>
        ensures taken { Takes (λ b. b.now) (reading.bytes_at count) result self.old self.new }
        ensures count { IfOk result (λ b. length b.now ≡ count) }
    {
        if self.rest.len() < count {
            return Err(Fault::Broken(Stop::Short));
        }
        let (taken, rest) = self.rest.split_at(count);
        let at = self.at + count as u32;
        *self = Cursor { at, rest };
        Ok(taken)
    }

    #[inline(always)]
    pub(crate) fn byte(&mut self) -> Taken<u8>
        ensures { Takes (λ n. n) reading.byte_at result self.old self.new }
    {
        let Some((byte, rest)) = self.rest.split_first() else {
            return Err(Fault::Broken(Stop::Short));
        };
        let at = self.at + 1;
        *self = Cursor { at, rest };
        Ok(*byte)
    }

    #[inline(always)]
    #[tactic(auto, unfolding(crate::specs::Reading::number_at))]
    pub(crate) fn u16(&mut self) -> Taken<u16>
        ensures { Takes (λ n. n) (reading.number_at 2) result self.old self.new }
    {
        Ok(BigEndian::read_u16(self.take(2)?))
    }

    #[inline(always)]
    #[tactic(auto, unfolding(crate::specs::Reading::number_at))]
    pub(crate) fn u32(&mut self) -> Taken<u32>
        ensures { Takes (λ n. n) (reading.number_at 4) result self.old self.new }
    {
        Ok(BigEndian::read_u32(self.take(4)?))
    }

    #[tactic(auto, unfolding(crate::specs::Reading::number_at))]
    pub(crate) fn u64(&mut self) -> Taken<u64>
        ensures { Takes (λ n. n) (reading.number_at 8) result self.old self.new }
    {
        Ok(BigEndian::read_u64(self.take(8)?))
    }

    /// A place in a table of so many strings.
    #[inline(always)]
    #[tactic(auto, unfolding(crate::specs::Reading::reference_at))]
    pub(crate) fn reference(&mut self, strings: u16) -> Taken<u16>
        ensures { Takes (λ n. n) (reading.reference_at strings) result self.old self.new }
    {
        let offset = self.at;
        let number = self.u16()?;
        judged(number, number < strings, offset, PexRule::BadIndex)
    }

    /// The number of bytes, and the bytes.
    #[tactic(auto, unfolding(crate::specs::Reading::string_at))]
    pub(crate) fn string(&mut self) -> Taken<&'a [u8]>
        ensures { Takes (λ b. b.now) reading.string_at result self.old self.new }
    {
        let length = self.u16()?;
        self.take(length as usize)
    }

    /// The kind of a value.
    #[inline(always)]
    #[tactic(auto, unfolding(crate::specs::Reading::kind_at))]
    pub(crate) fn kind(&mut self) -> Taken<u8>
        ensures { Takes (λ n. n) reading.kind_at result self.old self.new }
    {
        let offset = self.at;
        let kind = self.byte()?;
        judged(kind, kind <= LAST_KIND, offset, PexRule::BadKind)
    }

    /// An operand or an initial value.
    #[inline(always)]
    #[tactic(auto, unfolding(crate::specs::Reading::datum_at))]
    pub(crate) fn datum(&mut self, strings: u16) -> Taken<Datum>
        ensures { Takes (λ datum. datum) (reading.datum_at strings) result self.old self.new }
    {
        match self.kind()? {
            0 => Ok(Datum::NoneValue),
            1 => Ok(Datum::Word(self.reference(strings)?)),
            2 => Ok(Datum::Quoted(self.reference(strings)?)),
            3 => Ok(Datum::Int(self.u32()?.cast_signed())),
            4 => Ok(Datum::Float(self.u32()?)),
            _ => Ok(Datum::Bool(self.byte()?)),
        }
    }

    /// Two references, as of a name and a type.
    #[tactic(auto, unfolding(crate::specs::Reading::pair_at))]
    pub(crate) fn pair(&mut self, strings: u16) -> Taken<(u16, u16)>
        ensures { Takes (λ pair. pair) (reading.pair_at strings) result self.old self.new }
    {
        Ok((self.reference(strings)?, self.reference(strings)?))
    }

    /// An opcode, and what operands it has.
    #[inline(always)]
    #[tactic(auto, unfolding(crate::specs::Reading::opcode_at))]
    pub(crate) fn opcode(&mut self) -> Taken<Operation>
        ensures taken { Takes (λ operation. operation.opcode) reading.opcode_at result self.old self.new }
        ensures operands { IfOk result (λ operation. operands_of operation.opcode ≡ Some (operation.fixed, operation.more)) }
    {
        let offset = self.at;
        let opcode = self.byte()?;
        let rule = PexRule::BadOpcode;
        let stop = Fault::Broken(Stop::Refused { offset, rule });
        let (fixed, more) = operand_count(opcode).ok_or(stop)?;
        Ok(Operation {
            opcode,
            fixed,
            more,
        })
    }

    /// How many operands more there are.
    #[inline(always)]
    #[tactic(auto, unfolding(crate::specs::Reading::count_at))]
    pub(crate) fn count(&mut self) -> Taken<u32>
        ensures { Takes (λ n. n) reading.count_at result self.old self.new }
    {
        let offset = self.at;
        let kind = self.kind()?;
        judged(kind, kind == INTEGER, offset, PexRule::BadCount)?;
        let count = self.u32()?;
        judged(count, count < 1 << 31, offset, PexRule::BadCount)
    }

    /// A variable of a script.
    #[tactic(auto, unfolding(crate::specs::Reading::variable_at))]
    pub(crate) fn variable(&mut self, strings: u16) -> Taken<PexVariable>
        ensures { Takes (λ variable. variable) (reading.variable_at strings) result self.old self.new }
    {
        Ok(PexVariable {
            name: self.reference(strings)?,
            kind: self.reference(strings)?,
            flags: self.u32()?,
            value: self.datum(strings)?,
        })
    }

    /// A reference to a flag's name, and the number of its bit.
    #[tactic(auto, unfolding(crate::specs::Reading::flag_at))]
    pub(crate) fn flag(&mut self, strings: u16) -> Taken<(u16, u8)>
        ensures { Takes (λ flag. flag) (reading.flag_at strings) result self.old self.new }
    {
        Ok((self.reference(strings)?, self.byte()?))
    }

    /// 1 where debug information follows, else 0.
    #[tactic(auto, unfolding(crate::specs::Reading::debug_flag_at))]
    pub(crate) fn debug_flag(&mut self) -> Taken<u8>
        ensures { Takes (λ n. n) reading.debug_flag_at result self.old self.new }
    {
        let offset = self.at;
        let flag = self.byte()?;
        judged(flag, flag <= 1, offset, PexRule::BadDebugFlag)
    }

    /// Which form the size of an object has whose data ends here. Its field stands at the offset `size_at`.
    pub(crate) fn size_form(&mut self, size_at: u32, size: u32) -> Taken<SizeForm>
        ensures { Takes (λ form. form) (reading.size_form_at size_at size) result self.old self.new }
    {
        let end = u64::from(size_at) + u64::from(size);
        let at = u64::from(self.at);
        if end == at {
            return Ok(SizeForm::Counted);
        }
        judged(SizeForm::Bare, end + 4 == at, size_at, PexRule::BadSize)
    }

    #[tactic(auto, unfolding(crate::specs::Reading::heading_at))]
    pub(crate) fn heading(&mut self) -> Taken<FileHeader>
        ensures { Takes (λ head. head) reading.heading_at result self.old self.new }
    {
        let start = self.at;
        let magic = self.u32()?;
        judged(magic, magic == MAGIC, start, PexRule::BadMagic)?;
        let versions = self.at;
        let major = self.byte()?;
        judged(major, major == 3, versions, PexRule::BadVersion)?;
        let second = self.at;
        let minor = self.byte()?;
        judged(minor, minor == 1 || minor == 2, second, PexRule::BadVersion)?;
        let number = self.at;
        let game = self.u16()?;
        judged(game, game == 1, number, PexRule::BadGame)?;
        let time = self.u64()?;
        Ok(FileHeader { minor, time })
    }

    #[tactic(auto, unfolding(crate::specs::Reading::function_head_at))]
    pub(crate) fn function_head(&mut self, strings: u16) -> Taken<FunctionHead>
        ensures { Takes (λ head. head) (reading.function_head_at strings) result self.old self.new }
    {
        Ok(FunctionHead {
            result: self.reference(strings)?,
            doc: self.reference(strings)?,
            flags: self.u32()?,
            bits: self.byte()?,
            parameters: self.u16()?,
        })
    }

    #[tactic(auto, unfolding(crate::specs::Reading::property_head_at))]
    pub(crate) fn property_head(&mut self, strings: u16) -> Taken<PropertyHead>
        ensures { Takes (λ head. head) (reading.property_head_at strings) result self.old self.new }
    {
        let mut head = PropertyHead {
            name: self.reference(strings)?,
            kind: self.reference(strings)?,
            doc: self.reference(strings)?,
            flags: self.u32()?,
            bits: self.byte()?,
            variable: None,
        };
        if has_variable(head.bits) {
            head.variable = Some(self.reference(strings)?);
        }
        Ok(head)
    }

    #[tactic(auto, unfolding(crate::specs::Reading::object_head_at))]
    pub(crate) fn object_head(&mut self, strings: u16) -> Taken<ObjectHead>
        ensures { Takes (λ head. head) (reading.object_head_at strings) result self.old self.new }
    {
        Ok(ObjectHead {
            name: self.reference(strings)?,
            size_at: self.at,
            size: self.u32()?,
            parent: self.reference(strings)?,
            doc: self.reference(strings)?,
            flags: self.u32()?,
            auto_state: self.reference(strings)?,
            variables: self.u16()?,
        })
    }

    #[tactic(auto, unfolding(crate::specs::Reading::lines_head_at))]
    pub(crate) fn lines_head(&mut self, strings: u16) -> Taken<LinesHead>
        ensures { Takes (λ head. head) (reading.lines_head_at strings) result self.old self.new }
    {
        Ok(LinesHead {
            object: self.reference(strings)?,
            state: self.reference(strings)?,
            function: self.reference(strings)?,
            kind: self.byte()?,
            lines: self.u16()?,
        })
    }
}
