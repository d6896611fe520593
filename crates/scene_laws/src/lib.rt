//! A scene that is bound to a set of scripts fits it. The law is the contract of a function that does nothing.
#![tactic(auto)]

ghost use Rattle.std.specs.Prelude.{List, map};
ghost use Rattle.core_tree.specs.declared.outline.OutlineScript.{OutlineScript};
ghost use Rattle.core_tree.specs.declared.scene.Scene.{Scene};
ghost use Rattle.core_tree.specs.Outlines.{script_shape};
ghost use Rattle.core_tree.specs.Scenes.{scene_shape};
ghost use Rattle.code_meaning.specs.Code.{Script};
ghost use Rattle.run_laws.specs.TypedCode.{code_types};
ghost use Rattle.scene_binder.specs.Bound.{IsBound};
ghost use Rattle.run_laws.specs.Keeps.{SceneFits};
ghost use Rattle.pex_verify.specs.Plain.{outline_of, scripts_of};
ghost use Rattle.pex_verify.specs.Sets.{LoadedSet};
ghost use Rattle.pex_verify.specs.Whole.{IsWholeSet};
ghost use Rattle.scene_laws.specs.Offers.{Offers, OutlineFits};

use pex_verify::{
    verified_outlines_are_as_meant, verified_scripts_offer_what_they_tell, verified_sets_are_typed,
};

/// Where the outline and the code of a set offer what `OutlineFits` and `Offers` say, the values of each scene that is bound to the outline are of the types of
/// their variables and parameters, its natives have bindings that their types allow, and its calls find functions that take their arguments.
pub fn scene_fits()
    ensures { (outlines : List OutlineScript) (scripts : List Script) (scene : Scene) → OutlineFits outlines → Offers outlines scripts → IsBound outlines scene → SceneFits (code_types (map script_shape outlines) scripts) (scene_shape scene) }
{}

/// Each scene that is bound to a set that was verified fits it.
pub fn verified_scenes_fit()
    ensures { (set : LoadedSet) (scene : Scene) → IsWholeSet set → IsBound set.outline scene → SceneFits (code_types (outline_of set) (scripts_of set)) (scene_shape scene) }
{
    verified_outlines_are_as_meant();
    verified_scripts_offer_what_they_tell();
    verified_sets_are_typed();
    scene_fits();
}
