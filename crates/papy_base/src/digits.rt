// Decimal digits, as listings and journals have them.
ghost use Rattle.std.specs.Prelude.{◌≡◌};
ghost use Rattle.papy_base.specs.Digits.{decimal_number, has_leading_zero};

/// The number that decimal digits write. None where a byte is no digit, or where the number has more than 64 bits.
/// No digits write 0.
pub fn decimal_number(digits: &[u8]) -> Option<u64>
    ensures { result ≡ decimal_number digits.now }
{
    let mut number: u64 = 0;
    for digit in digits {
        if !digit.is_ascii_digit() {
            return None;
        }
        number = number
            .checked_mul(10)?
            .checked_add(u64::from(*digit - b'0'))?;
    }
    Some(number)
}

/// Whether a zero stands before another digit.
pub fn has_leading_zero(digits: &[u8]) -> bool
    ensures { result ≡ has_leading_zero digits.now }
{
    digits.len() > 1 && digits.first() == Some(&b'0')
}
