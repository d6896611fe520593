// That the code of a set which was verified is typed, and what its runs keep.
ghost use Rattle.std.specs.Prelude.{ℕ, List};
ghost use Rattle.std.specs.List.{AllByRecursion};
ghost use Rattle.core_tree.specs.declared.DeviceKind.{DeviceKind};
ghost use Rattle.core_tree.specs.Scenes.{SceneShape};
ghost use Rattle.run_laws.specs.Fits.{by_types, NextTurnFits};
ghost use Rattle.run_laws.specs.Keeps.{KeepsFit, SceneFits};
ghost use Rattle.code_meaning.specs.Engine.{code_engine, code_states};
ghost use Rattle.run_laws.specs.TypedCode.{IsTypedSet, code_types};
ghost use Rattle.pex_verify.specs.Plain.{outline_of, scripts_of};
ghost use Rattle.pex_verify.specs.Sets.{LoadedSet};
ghost use Rattle.pex_verify.specs.Whole.{IsWholeSet};

/// Each function of a set that was verified has typed code, and no script is above itself. So its bodies are entered with
/// what fits, and come to their next act with what fits: in a run from a scene whose values fit, whichever stack has its
/// turn goes on with variables, arrays, slots, arguments and replies of their types.
pub fn verified_sets_are_typed()
    ensures typed { (set : LoadedSet) → IsWholeSet set → IsTypedSet (outline_of set) (scripts_of set) }
    ensures keeps { (set : LoadedSet) → IsWholeSet set → KeepsFit (code_types (outline_of set) (scripts_of set)) (code_engine (outline_of set) (scripts_of set)) }
    ensures runs { (set : LoadedSet) → IsWholeSet set → (scene : SceneShape) (kinds : List DeviceKind) (turns : ℕ) → SceneFits (code_types (outline_of set) (scripts_of set)) scene
        → AllByRecursion (NextTurnFits (by_types (code_types (outline_of set) (scripts_of set))) scene) (code_states (outline_of set) (scripts_of set) scene kinds turns) }
{}
