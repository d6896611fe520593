//! The forms of fields: decimal and hexadecimal numbers, references, and strings in quotes.

ghost use Rattle.std.specs.Prelude.{◌≡◌, ℕ, List, ◌<◌, ◌≤◌, ◌==◌, ◌&&◌, not, pos, neg_ℤ, nat_le, nat_lt, drop, [], ◌∷◌, length, vec_len, ◌||◌, false, is_some, option_map, Some, None, IfOk, IfSome, IsTrue, if◌then◌else◌};
ghost use Rattle.std.specs.Char.{is_ascii_digit, is_ascii_uppercase};
ghost use Rattle.std.specs.Fmt.{decimal, signed_decimal};
ghost use Rattle.std.specs.List.{flat_map, list_all};
ghost use Rattle.std.specs.Str.{bytes_eq};
ghost use Rattle.pex_values.specs.Shape.{IsReference};
ghost use Rattle.papy_base.specs.Digits.{decimal_number};
ghost use Rattle.pex_listing.specs.Breaks.{AtByte, AtEscape, AtHigh, digits_rule, front, integer_rule, number_in, number_rule, reference_rule, size_rule, string_in};
ghost use Rattle.pex_listing.specs.Fields.{Spells, byte_of, cut_first, kind_of, place_rule, short_string};
ghost use Rattle.pex_listing.specs.Left.{IsTableOf, reference_rule_of, rule_of};
ghost use Rattle.pex_listing.specs.Lines.{eight_digits, field, quoted, two_digits};
ghost use Rattle.pex_listing.specs.Kinds.{kind_field};
ghost use Rattle.pex_listing.specs.Listing.{size_form};
ghost use Rattle.pex_listing.specs.Numbers.{are_digits, hex_value};
ghost use Rattle.pex_listing.specs.Spelled.{spelled_in, two_byte};
ghost use Rattle.pex_listing.specs.declared.faults.ListingRule.TheVariants.{BadLine};

use crate::faults::ListingRule;
use crate::showing::put_string;
use crate::strings::{StringWords, is_word};
use itoa::{Buffer, Integer};
use papy_base::{Made, Text, decimal_number};
use pex_values::SizeForm;
use std::alloc::Global;

/// The most bytes of a string.
const LONGEST: usize = 65_535;

/// The digits of a number, and whether a minus stands before them.
fn split_minus(field: &[u8]) -> (&[u8], bool)
    ensures whole { field.now ≡ (if result.1 then 45 ∷ result.0.now else result.0.now) }
    ensures minus { result.1 ≡ (front field.now == 45) }
{
    match field {
        [b'-', digits @ ..] => (digits, true),
        _ => (field, false),
    }
}

/// Whether the bytes are one or more decimal digits.
fn is_digits(bytes: &[u8]) -> bool
    ensures { result ≡ are_digits bytes.now }
{
    !bytes.is_empty() && each_is_digit(bytes)
}

fn each_is_digit(bytes: &[u8]) -> bool
    ensures { result ≡ list_all is_ascii_digit bytes.now }
{
    bytes.iter().all(|byte| byte.is_ascii_digit())
}

/// Whether a field is the one spelling of a number.
fn is_spelling<N: Integer>(field: &[u8], number: N) -> bool
    ensures { result ≡ bytes_eq field.now (N.text number) }
{
    Buffer::new().format(number).as_bytes() == field
}

fn is_within(number: u64, least: u64, most: u64) -> bool
    ensures { result ≡ (nat_le least number && nat_le number most) }
{
    least <= number && number <= most
}

fn is_below_zero(is_negative: bool, magnitude: u64) -> bool
    ensures { result ≡ (is_negative && not (magnitude == 0)) }
{
    is_negative && magnitude != 0
}

/// The number without sign, or `-0`, that a field spells, and whether this is its one spelling. None where it isn't from
/// the least to the most.
pub(crate) fn unsigned_of(field: &[u8], least: u64, most: u64) -> Option<(u64, bool)>
    ensures least { IfSome result (λ p. least ≤ p.0) }
    ensures most { IfSome result (λ p. p.0 ≤ most) }
    ensures canonical { IfSome result (λ p. IsTrue p.1 → field.now ≡ decimal p.0) }
    ensures rule { rule_of result ≡ number_rule least most field.now }
    ensures value { IfSome result (λ p. p.0 ≡ number_in field.now) }
{
    let (digits, is_negative) = split_minus(field);
    if !is_digits(digits) {
        return None;
    }
    let number = decimal_number(digits)?;
    if !is_within(number, least, most) {
        return None;
    }
    if is_below_zero(is_negative, number) {
        return None;
    }
    Some((number, is_spelling(field, number)))
}

/// The number of this sign and magnitude. None where it doesn't fit.
fn with_sign(is_negative: bool, magnitude: u64) -> Option<i32>
    ensures value { IfSome result (λ n. n ≡ (if is_negative then neg_ℤ (pos magnitude) else pos magnitude)) }
    ensures fits { is_some result ≡ (if is_negative then nat_le magnitude 2147483648 else nat_lt magnitude 2147483648) }
{
    let magnitude = i64::try_from(magnitude).ok()?;
    if is_negative {
        return i32::try_from(-magnitude).ok();
    }
    i32::try_from(magnitude).ok()
}

/// The number with a sign that a field spells, and whether this is its one spelling.
pub(crate) fn signed_of(field: &[u8]) -> Option<(i32, bool)>
    ensures canonical { IfSome result (λ p. IsTrue p.1 → field.now ≡ signed_decimal p.0) }
    ensures rule { rule_of result ≡ integer_rule field.now }
{
    let (digits, is_negative) = split_minus(field);
    if !is_digits(digits) {
        return None;
    }
    let magnitude = decimal_number(digits)?;
    let number = with_sign(is_negative, magnitude)?;
    Some((number, is_spelling(field, number)))
}

/// The value of a hexadecimal digit of either case.
fn hex_value(digit: u8) -> Option<u8>
    ensures value { result ≡ hex_value digit }
    ensures below { IfSome result (λ n. n < 16) }
{
    match digit {
        b'0'..=b'9' => Some(digit - b'0'),
        b'a'..=b'f' => Some(digit - b'a' + 10),
        b'A'..=b'F' => Some(digit - b'A' + 10),
        _ => None,
    }
}

/// The byte of two hexadecimal digits of either case, and whether both are lower case.
fn hex_byte(high: u8, low: u8) -> Option<(u8, bool)>
    ensures canonical { IfSome result (λ p. IsTrue p.1 → two_digits p.0 ≡ high ∷ low ∷ []) }
    ensures value { option_map (λ p. p.0) result ≡ byte_of high low }
    ensures lower { IfSome result (λ p. p.1 ≡ (not (is_ascii_uppercase high) && not (is_ascii_uppercase low))) }
{
    let byte = hex_value(high)? * 16 + hex_value(low)?;
    let is_lower = !high.is_ascii_uppercase() && !low.is_ascii_uppercase();
    Some((byte, is_lower))
}

fn both(first: bool, second: bool) -> bool
    ensures { result ≡ (first && second) }
{
    first && second
}

/// The bytes of eight hexadecimal digits of either case, and whether all are lower case.
fn hex_bytes(digits: &[u8]) -> Option<([u8; 4], bool)>
    ensures canonical { IfSome result (λ p. IsTrue p.1 → flat_map two_digits p.0 ≡ digits.now) }
    ensures rule { rule_of result ≡ digits_rule digits.now }
{
    let [a, b, c, d, e, f, g, h] = digits else {
        return None;
    };
    let first = hex_byte(*a, *b)?;
    let second = hex_byte(*c, *d)?;
    let third = hex_byte(*e, *f)?;
    let fourth = hex_byte(*g, *h)?;
    let is_lower = both(both(first.1, second.1), both(third.1, fourth.1));
    Some(([first.0, second.0, third.0, fourth.0], is_lower))
}

/// The number that eight hexadecimal digits spell, and whether this is its one spelling.
pub(crate) fn hexadecimal_of(field: &[u8]) -> Option<(u32, bool)>
    ensures canonical { IfSome result (λ p. IsTrue p.1 → field.now ≡ eight_digits p.0) }
    ensures rule { rule_of result ≡ digits_rule field.now }
{
    let (bytes, is_lower) = hex_bytes(field)?;
    Some((u32::from_be_bytes(bytes), is_lower))
}

/// The first byte, and those behind it.
fn split_byte(bytes: &[u8]) -> Option<(u8, &[u8])>
    ensures { option_map {U = ℕ × List ℕ} (λ p. (p.0, p.1.now)) result ≡ cut_first bytes.now }
{
    match bytes {
        [first, rest @ ..] => Some((*first, rest)),
        _ => None,
    }
}

/// The byte that two hexadecimal digits spell, which stand behind `\x`, and what follows them.
fn coded(bytes: &[u8]) -> Option<(u8, &[u8])>
    ensures shorter { IfSome result (λ s. length s.1.now < length bytes.now) }
    ensures spelled { Spells AtHigh bytes.now (option_map (λ s. (s.0, s.1.now)) result) }
{
    let (high, behind) = split_byte(bytes)?;
    let (low, rest) = split_byte(behind)?;
    let byte = hex_byte(high, low)?;
    Some((byte.0, rest))
}

/// Whether a byte stands behind `\` as it is.
fn is_escaped(byte: u8) -> bool
    ensures { result ≡ ((byte == 34) || (byte == 92)) }
{
    byte == b'"' || byte == b'\\'
}

/// The byte that is spelled behind `\`, and what follows it.
fn escape(bytes: &[u8]) -> Option<(u8, &[u8])>
    ensures shorter { IfSome result (λ s. length s.1.now < length bytes.now) }
    ensures spelled { Spells AtEscape bytes.now (option_map (λ s. (s.0, s.1.now)) result) }
{
    let (first, rest) = split_byte(bytes)?;
    if is_escaped(first) {
        return Some((first, rest));
    }
    if first == b'x' {
        return coded(rest);
    }
    None
}

/// Whether a byte stands in quotes as it is, but for those that need a `\`.
fn is_plain(byte: u8) -> bool
    ensures { result ≡ (nat_le 32 byte && nat_le byte 126) }
{
    0x20 <= byte && byte <= 0x7E
}

/// The first byte that is spelled, and what follows it. None where the bytes spell none.
fn first_byte(bytes: &[u8]) -> Option<(u8, &[u8])>
    requires { bytes_eq bytes.now (34 ∷ []) ≡ false }
    ensures shorter { IfSome result (λ s. length s.1.now < length bytes.now) }
    ensures spelled { Spells AtByte bytes.now (option_map (λ s. (s.0, s.1.now)) result) }
{
    let (first, rest) = split_byte(bytes)?;
    if first == b'"' {
        return None;
    }
    if first == b'\\' {
        return escape(rest);
    }
    if is_plain(first) {
        return Some((first, rest));
    }
    None
}

/// What stands behind the first quote.
fn behind_quote(field: &[u8]) -> Option<&[u8]>
    ensures { option_map (λ text. text.now) result ≡ (if front field.now == 34 then Some (drop 1 field.now) else None) }
{
    match field {
        [b'"', text @ ..] => Some(text),
        _ => None,
    }
}

fn is_last_quote(bytes: &[u8]) -> bool
    ensures { result ≡ bytes_eq bytes.now (34 ∷ []) }
{
    bytes == b"\"".as_slice()
}

/// The string that a field in quotes spells. None where it spells none, or one of over 65,535 bytes.
pub(crate) fn unquote(alloc: Global, field: &[u8]) -> Made<Option<Text>>
    ensures { IfOk result (λ found. short_string (string_in field.now) ≡ found) }
{
    let mut bytes = Vec::new(alloc);
    let Some(text) = behind_quote(field) else {
        return Ok(None);
    };
    let mut rest = text;
    while !is_last_quote(rest) {
        let Some((byte, behind)) = first_byte(rest) else {
            return Ok(None);
        };
        if bytes.len() >= LONGEST {
            return Ok(None);
        }
        bytes.push(byte)?;
        rest = behind;
    }
    Ok(Some(Text::try_from_bytes(alloc, &bytes)?))
}

/// Whether a field is the one spelling of a string.
pub(crate) fn is_quoted(alloc: Global, field: &[u8], string: &Text) -> Made<bool>
    ensures { IfOk result (λ is. is ≡ bytes_eq field.now (quoted string.now)) }
{
    let mut spelled = Vec::new(alloc);
    put_string(&mut spelled, string)?;
    Ok(spelled.as_slice() == field)
}

/// What the size field of an object says that it counts.
pub(crate) fn size_form_of(word: &[u8]) -> Option<SizeForm>
    ensures spelled { IfSome result (λ form. size_form form ≡ field word.now) }
    ensures rule { size_rule word.now ≡ (if is_some result then None else Some BadLine) }
{
    if word == b"counted".as_slice() {
        return Some(SizeForm::Counted);
    }
    if word == b"bare".as_slice() {
        return Some(SizeForm::Bare);
    }
    None
}

/// What the first field of a value says that it is.
#[derive(Clone, Copy)]
pub(crate) enum ValueKind {
    Nothing,
    Name,
    Text,
    Integer,
    Real,
    Truth,
}

/// The kind of value that has this word.
pub(crate) fn value_kind_of(word: &[u8]) -> Option<ValueKind>
    ensures spelled { IfSome result (λ kind. kind_field kind ≡ field word.now) }
    ensures kind { result ≡ kind_of word.now }
{
    if word == b"none".as_slice() {
        return Some(ValueKind::Nothing);
    }
    if word == b"id".as_slice() {
        return Some(ValueKind::Name);
    }
    if word == b"text".as_slice() {
        return Some(ValueKind::Text);
    }
    if word == b"int".as_slice() {
        return Some(ValueKind::Integer);
    }
    if word == b"float".as_slice() {
        return Some(ValueKind::Real);
    }
    if word == b"bool".as_slice() {
        return Some(ValueKind::Truth);
    }
    None
}

/// What stands behind `#`.
fn behind_sign(field: &[u8]) -> Option<&[u8]>
    ensures { option_map (λ digits. digits.now) result ≡ (if front field.now == 35 then Some (drop 1 field.now) else None) }
{
    match field {
        [b'#', digits @ ..] => Some(digits),
        _ => None,
    }
}

/// The number of decimal digits, where it fits a reference.
fn small_number(digits: &[u8]) -> Option<u16>
    ensures { result ≡ two_byte (decimal_number digits.now) }
{
    u16::try_from(decimal_number(digits)?).ok()
}

/// The place that a reference asks for, by its digits or by the first string that is this word. None where it is too
/// high for any table, or where no string is this word.
fn place_of(names: &StringWords, field: &[u8]) -> Result<Option<u16>, ListingRule>
    ensures { (strings : List (List ℕ)) → IsTableOf strings names.now → place_rule strings field.now result ≡ reference_rule strings field.now }
{
    if is_word(field) {
        return Ok(names.place_of(field));
    }
    let Some(digits) = behind_sign(field) else {
        return Err(ListingRule::BadLine);
    };
    if !is_digits(digits) {
        return Err(ListingRule::BadLine);
    }
    Ok(small_number(digits))
}

/// The string that a reference names, and whether this is its one spelling.
pub(crate) fn reference_of(names: &StringWords, field: &[u8]) -> Result<(u16, bool), ListingRule>
    ensures known { IfOk result (λ p. IsReference (vec_len names.now.spelled) p.0) }
    ensures canonical { IfOk result (λ p. IsTrue p.1 → field.now ≡ spelled_in names.now p.0) }
    ensures rule { (strings : List (List ℕ)) → IsTableOf strings names.now → reference_rule_of result ≡ reference_rule strings field.now }
{
    let place = place_of(names, field)?.ok_or(ListingRule::BadName)?;
    match names.spelling_of(place) {
        Some(spelled) if spelled == field => Ok((place, true)),
        Some(_) => Ok((place, false)),
        None => Err(ListingRule::BadName),
    }
}
