ghost use Rattle.std.specs.Prelude.{◌≡◌, pos, IfOk};
ghost use Rattle.std.specs.Fmt.{signed_decimal};
ghost use Rattle.papy_base.specs.Decimal.{IsInt, int_value};

use crate::faults::Made;
use crate::text::Text;
use std::alloc::Global;

/// The number that a text writes: an optional `-` and one or more decimal digits, within 32 bits.
/// Every other text gives 0.
pub fn read_int(text: &[u8]) -> i32
    ensures number { IsInt text.now → result ≡ int_value text.now }
    ensures other { ¬ IsInt text.now → result ≡ pos 0 }
{
    if text.first() == Some(&b'+') {
        return 0;
    }
    match std::str::from_utf8(text) {
        Ok(digits) => digits.parse::<i32>().unwrap_or(0),
        Err(_) => 0,
    }
}

/// The decimal text of the number, with a `-` in front where it is below 0.
pub fn write_int(alloc: Global, n: i32) -> Made<Text>
    ensures { IfOk result (λ text. text ≡ signed_decimal n) }
{
    let digits = format!(in alloc; "{n}")?;
    Text::try_from_bytes(alloc, digits.as_bytes())
}
