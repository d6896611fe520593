// That the outline of a set that was verified is what its files say, as far as names, Auto states and variables go.
ghost use Rattle.std.specs.Prelude.{map};
ghost use Rattle.std.specs.List.{AllByRecursion, AllZip};
ghost use Rattle.pex_meaning.specs.Meant.{homes_of};
ghost use Rattle.pex_values.specs.Plain.{plain};
ghost use Rattle.pex_verify.specs.AsMeant.{IsOutlineMeant, IsReady};
ghost use Rattle.pex_verify.specs.Plain.{outline_of};
ghost use Rattle.pex_verify.specs.Sets.{LoadedSet};
ghost use Rattle.pex_verify.specs.Whole.{IsWholeSet};

/// The scripts of a set that was verified are those of the prelude and then the objects of its files, in order, each with
/// its name and its Auto state, and with the names, the types and the initial values of its variables. Each initial value is
/// of its variable's type, and the variable of an Auto property has the property's type.
pub fn verified_outlines_are_as_meant()
    ensures meant { (set : LoadedSet) → IsWholeSet set → AllZip IsOutlineMeant (outline_of set) (homes_of (map plain set.files)) }
    ensures ready { (set : LoadedSet) → IsWholeSet set → AllByRecursion IsReady (outline_of set) }
{}
