//! What holds of listings.

ghost use Rattle.std.specs.Prelude.{◌≡◌, ℕ, ℤ, ◌<◌, ◌≤◌, ◌^◌, List, length, Some, None, FitsSigned};
ghost use Rattle.std.specs.Fmt.{decimal, signed_decimal};
ghost use Rattle.std.specs.Int.{w32};
ghost use Rattle.std.specs.List.{AllByRecursion};
ghost use Rattle.pex_values.specs.Plain.{PlainPex};
ghost use Rattle.pex_values.specs.Shape.{IsReference, IsWellShaped};
ghost use Rattle.pex_listing.specs.Breaks.{digits_rule, integer_rule, number_rule, reference_rule, string_in};
ghost use Rattle.pex_listing.specs.Lines.{eight_digits, quoted, reference};
ghost use Rattle.pex_listing.specs.Listing.{listing};

/// A listing tells its value: well shaped values with one listing are equal.
pub fn one_value()
    ensures { (v w : PlainPex) → IsWellShaped v → IsWellShaped w → listing v ≡ listing w → v ≡ w }
{}

/// A field in its one spelling breaks no rule.
pub fn spelled_fields_break_no_rule()
    ensures number { (least most n : ℕ) → least ≤ n → n ≤ most → most < 2 ^ 64 → number_rule least most (decimal n) ≡ None }
    ensures integer { (z : ℤ) → FitsSigned w32 z → integer_rule (signed_decimal z) ≡ None }
    ensures digits { (n : ℕ) → digits_rule (eight_digits n) ≡ None }
    ensures reference { (strings : List (List ℕ)) (place : ℕ) → IsReference (length strings) place → reference_rule strings (reference strings place) ≡ None }
    ensures string { (text : List ℕ) → AllByRecursion (λ byte. byte < 256) text → string_in (quoted text) ≡ Some text }
{}
