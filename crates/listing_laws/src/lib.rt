//! The listing of a value is never refused: its lines break no rule, so `assemble` gives the value back. The laws are the contracts of functions that do
//! nothing, or only look at a value.
#![tactic(auto)]

ghost use Rattle.std.specs.Prelude.{◌≡◌, None, Result, IfOk};
ghost use Rattle.std.specs.List.{AllByRecursion};
ghost use Rattle.pex_values.specs.declared.values.Pex.{Pex};
ghost use Rattle.pex_values.specs.Fit.{Fits};
ghost use Rattle.pex_values.specs.Plain.{PlainPex, plain};
ghost use Rattle.pex_values.specs.Shape.{IsWellShaped};
ghost use Rattle.pex_listing.specs.Assembled.{TellsBreak};
ghost use Rattle.pex_listing.specs.Breaks.{list_break};
ghost use Rattle.pex_listing.specs.Listing.{listing};
ghost use Rattle.pex_listing.specs.declared.faults.ListingFault.{ListingFault};
ghost use Rattle.listing_laws.specs.Round.{AreBytes, GivesBack, HasBytes};

use papy_base::Text;
use pex_listing::one_value;
use pex_values::Pex;

/// The listing of a well shaped value that fits a file, and whose strings hold bytes, breaks no rule.
pub fn listings_break_no_rule()
    ensures { (v : PlainPex) → IsWellShaped v → Fits v → HasBytes v → list_break (listing v) ≡ None }
{}

/// Whatever answers a value's listing as `assemble` promises gives that value, or finds no memory.
pub fn listings_give_their_values()
    ensures { (v : PlainPex) (result : Result Pex ListingFault) → IsWellShaped v → Fits v → HasBytes v
        → IfOk result (λ w. IsWellShaped (plain w)) → IfOk result (λ w. listing v ≡ listing (plain w)) → TellsBreak (list_break (listing v)) result
        → GivesBack v result }
{
    one_value();
    listings_break_no_rule();
}

fn are_bytes(bytes: &[u8])
    ensures { AreBytes bytes.now }
{}

fn text_holds_bytes(text: &Text)
    ensures { AreBytes text.now }
{
    are_bytes(text.as_bytes());
}

fn texts_hold_bytes(texts: &[Text])
    ensures { AllByRecursion AreBytes texts.now }
{
    for text in texts {
        text_holds_bytes(text);
    }
}

/// The strings of each value in memory hold bytes, as the laws ask.
pub fn values_hold_bytes(value: &Pex)
    ensures { HasBytes (plain value.now) }
{
    text_holds_bytes(&value.source);
    text_holds_bytes(&value.user);
    text_holds_bytes(&value.machine);
    texts_hold_bytes(value.strings.as_slice());
}
