// That the scripts of a set that was verified offer what its outline says, in every state.
ghost use Rattle.pex_verify.specs.Offering.{HavePlaces, KeepsTypes, TellsFunctions};
ghost use Rattle.pex_verify.specs.Plain.{outline_of, scripts_of};
ghost use Rattle.pex_verify.specs.Sets.{LoadedSet};
ghost use Rattle.pex_verify.specs.Whole.{IsWholeSet};

/// The outline of a set that was verified tells the functions of the empty states of its scripts, in order; and what is
/// found in an empty state, from a script upward, is found with the same parameters and result in every state.
/// Places of native functions have 16 bits.
pub fn verified_scripts_offer_what_they_tell()
    ensures tells { (set : LoadedSet) → IsWholeSet set → TellsFunctions (outline_of set) (scripts_of set) }
    ensures keeps { (set : LoadedSet) → IsWholeSet set → KeepsTypes (outline_of set) (scripts_of set) }
    ensures places { (set : LoadedSet) → IsWholeSet set → HavePlaces (outline_of set) }
{}
