//! The values that compiled Papyrus files (PEX 3.1 and 3.2) spell, and the opcodes of their code.
//!
//! The format is that of UESP's page "Skyrim Mod:File Formats/PEX" (Compiled Script File).
#![tactic(auto)]

mod bits;
mod codes;
mod debug;
mod fields;
mod opcodes;
mod values;

pub use bits::{has_read, has_variable, has_write};
pub use codes::{
    ARRAY_CREATE, ARRAY_FINDELEMENT, ARRAY_GETELEMENT, ARRAY_LENGTH, ARRAY_RFINDELEMENT,
    ARRAY_SETELEMENT, ASSIGN, CALL_METHOD, CALL_PARENT, CALL_STATIC, CAST, CMP_EQ, CMP_GE, CMP_GT,
    CMP_LE, CMP_LT, IADD, IDIV, IMOD, IMUL, INEG, ISUB, JMP, JMPF, JMPT, NOT, PROPGET, PROPSET,
    RETURN, STRCAT,
};
pub use debug::{PexDebug, PexLines};
pub use fields::{put_byte, put_u16, put_u32, put_u64};
pub use opcodes::{OPCODES, Opcode, operand_count};
pub use values::{
    Datum, Instruction, Pex, PexFunction, PexObject, PexProperty, PexState, PexVariable, SizeForm,
};

/// The most bytes that a file may have: 16 MiB.
pub const FILE_LIMIT: u32 = 16_777_216;
