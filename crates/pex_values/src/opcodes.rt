ghost use Rattle.std.specs.Prelude.{◌≡◌};
ghost use Rattle.pex_values.specs.Opcodes.{operands_of};

/// An opcode's name, how many operands it always has, and whether a count and that many more follow.
#[derive(Clone, Copy, PartialEq, Eq)]
pub struct Opcode {
    pub name: &'static str,
    pub fixed: u8,
    pub more: bool,
}

/// The opcodes, each at the place of its code.
#[rattlefmt::skip]
pub static OPCODES: [Opcode; 36] = [
    Opcode { name: "nop", fixed: 0, more: false },
    Opcode { name: "iadd", fixed: 3, more: false },
    Opcode { name: "fadd", fixed: 3, more: false },
    Opcode { name: "isub", fixed: 3, more: false },
    Opcode { name: "fsub", fixed: 3, more: false },
    Opcode { name: "imul", fixed: 3, more: false },
    Opcode { name: "fmul", fixed: 3, more: false },
    Opcode { name: "idiv", fixed: 3, more: false },
    Opcode { name: "fdiv", fixed: 3, more: false },
    Opcode { name: "imod", fixed: 3, more: false },
    Opcode { name: "not", fixed: 2, more: false },
    Opcode { name: "ineg", fixed: 2, more: false },
    Opcode { name: "fneg", fixed: 2, more: false },
    Opcode { name: "assign", fixed: 2, more: false },
    Opcode { name: "cast", fixed: 2, more: false },
    Opcode { name: "cmp_eq", fixed: 3, more: false },
    Opcode { name: "cmp_lt", fixed: 3, more: false },
    Opcode { name: "cmp_le", fixed: 3, more: false },
    Opcode { name: "cmp_gt", fixed: 3, more: false },
    Opcode { name: "cmp_ge", fixed: 3, more: false },
    Opcode { name: "jmp", fixed: 1, more: false },
    Opcode { name: "jmpt", fixed: 2, more: false },
    Opcode { name: "jmpf", fixed: 2, more: false },
    Opcode { name: "callmethod", fixed: 3, more: true },
    Opcode { name: "callparent", fixed: 2, more: true },
    Opcode { name: "callstatic", fixed: 3, more: true },
    Opcode { name: "return", fixed: 1, more: false },
    Opcode { name: "strcat", fixed: 3, more: false },
    Opcode { name: "propget", fixed: 3, more: false },
    Opcode { name: "propset", fixed: 3, more: false },
    Opcode { name: "array_create", fixed: 2, more: false },
    Opcode { name: "array_length", fixed: 2, more: false },
    Opcode { name: "array_getelement", fixed: 3, more: false },
    Opcode { name: "array_setelement", fixed: 3, more: false },
    Opcode { name: "array_findelement", fixed: 4, more: false },
    Opcode { name: "array_rfindelement", fixed: 4, more: false },
];

/// The last opcode.
const LAST: u8 = 0x23;

/// How many operands an opcode always has, and whether more follow. None exactly where the opcode is
/// over 23h.
pub fn operand_count(opcode: u8) -> Option<(u8, bool)>
    ensures { result ≡ operands_of opcode }
{
    if opcode > LAST {
        return None;
    }
    let entry = OPCODES[opcode as usize];
    Some((entry.fixed, entry.more))
}
