// The opcodes that crates tell apart, by their names in the table. Each lists its operands in their order.

/// iadd: a variable, and two integers whose sum it gets.
pub const IADD: u8 = 0x01;

/// isub: a variable, and two integers whose difference it gets.
pub const ISUB: u8 = 0x03;

/// imul: a variable, and two integers whose product it gets.
pub const IMUL: u8 = 0x05;

/// idiv: a variable, and two integers whose quotient it gets.
pub const IDIV: u8 = 0x07;

/// imod: a variable, and two integers whose remainder it gets.
pub const IMOD: u8 = 0x09;

/// not: a variable, and a value: it gets whether this counts as false.
pub const NOT: u8 = 0x0A;

/// ineg: a variable, and an integer whose negative it gets.
pub const INEG: u8 = 0x0B;

/// assign: a variable, and the value that it gets.
pub const ASSIGN: u8 = 0x0D;

/// cast: a variable, and a value that it gets as one of its own type.
pub const CAST: u8 = 0x0E;

/// cmp_eq: a variable, and two values: it gets whether they are equal.
pub const CMP_EQ: u8 = 0x0F;

/// cmp_lt: a variable, and two integers: it gets whether the first is less.
pub const CMP_LT: u8 = 0x10;

/// cmp_le: a variable, and two integers: it gets whether the first is less or equal.
pub const CMP_LE: u8 = 0x11;

/// cmp_gt: a variable, and two integers: it gets whether the first is greater.
pub const CMP_GT: u8 = 0x12;

/// cmp_ge: a variable, and two integers: it gets whether the first is greater or equal.
pub const CMP_GE: u8 = 0x13;

/// jmp: an offset, to which it jumps. It counts from the instruction itself, as every offset.
pub const JMP: u8 = 0x14;

/// jmpt: a value and an offset, to which it jumps where the value counts as true.
pub const JMPT: u8 = 0x15;

/// jmpf: a value and an offset, to which it jumps where the value counts as false.
pub const JMPF: u8 = 0x16;

/// callmethod: the name of a method, its object, the variable that gets the result, and the arguments.
pub const CALL_METHOD: u8 = 0x17;

/// callparent: the name of a method of the parent, the variable that gets the result, and the arguments.
pub const CALL_PARENT: u8 = 0x18;

/// callstatic: a script, the name of a global function of it, the variable that gets the result, and the arguments.
pub const CALL_STATIC: u8 = 0x19;

/// return: the value that the function ends with.
pub const RETURN: u8 = 0x1A;

/// strcat: a variable, and two texts: it gets the first with the second behind it.
pub const STRCAT: u8 = 0x1B;

/// propget: the name of a property, its object, and the variable that gets its value.
pub const PROPGET: u8 = 0x1C;

/// propset: the name of a property, its object, and the value that it gets.
pub const PROPSET: u8 = 0x1D;

/// array_create: a variable, and the length of the new array that it gets.
pub const ARRAY_CREATE: u8 = 0x1E;

/// array_length: a variable, and the array whose length it gets.
pub const ARRAY_LENGTH: u8 = 0x1F;

/// array_getelement: a variable, and the array and the index of the element that it gets.
pub const ARRAY_GETELEMENT: u8 = 0x20;

/// array_setelement: an array, the index of an element, and the value that the element gets.
pub const ARRAY_SETELEMENT: u8 = 0x21;

/// array_findelement: an array, a variable, a value and an index. The variable gets the index of the first such element from
/// there on, and -1 where there is none.
pub const ARRAY_FINDELEMENT: u8 = 0x22;

/// array_rfindelement: as array_findelement, from the index downward.
pub const ARRAY_RFINDELEMENT: u8 = 0x23;
