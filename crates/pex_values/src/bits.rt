ghost use Rattle.std.specs.Prelude.{◌≡◌};
ghost use Rattle.pex_values.specs.Bits as spec;

/// Whether the bits of a property ask for a variable: it is an auto property.
pub fn has_variable(bits: u8) -> bool
    ensures { result ≡ spec.has_variable bits }
{
    bits & 4 != 0
}

/// Whether the bits of a property ask for a read function: it is readable and not auto.
pub fn has_read(bits: u8) -> bool
    ensures { result ≡ spec.has_read bits }
{
    bits & 5 == 1
}

/// Whether the bits of a property ask for a write function: it is writable and not auto.
pub fn has_write(bits: u8) -> bool
    ensures { result ≡ spec.has_write bits }
{
    bits & 6 == 2
}
