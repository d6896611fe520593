// What typed scripts and typed code keep in a run.
ghost use Rattle.std.specs.Prelude.{ℕ, List};
ghost use Rattle.std.specs.List.{AllByRecursion};
ghost use Rattle.core_tree.specs.declared.DeviceKind.{DeviceKind};
ghost use Rattle.core_tree.specs.Outlines.{ScriptShape};
ghost use Rattle.core_tree.specs.Scenes.{SceneShape};
ghost use Rattle.core_tree.specs.Set as trees;
ghost use Rattle.script_meaning.specs.First.{first_state};
ghost use Rattle.script_meaning.specs.Source.{source_engine};
ghost use Rattle.script_meaning.specs.Turns.{states_from};
ghost use Rattle.code_meaning.specs.Code.{Script};
ghost use Rattle.code_meaning.specs.Engine.{code_engine, code_states};
ghost use Rattle.run_laws.specs.Fits.{by_types, NextTurnFits};
ghost use Rattle.run_laws.specs.Keeps.{KeepsFit, SceneFits};
ghost use Rattle.run_laws.specs.TypedCode as typed_code;
ghost use Rattle.run_laws.specs.TypedCode.{code_types};
ghost use Rattle.run_laws.specs.TypedTrees as typed_trees;
ghost use Rattle.run_laws.specs.TypedTrees.{source_types};

/// Where each function of a set is typed, its bodies are entered with what fits, and come to their next act with
/// what fits. So in a run from a scene whose values fit, whichever stack has its turn goes on with variables,
/// arrays, locals, arguments and replies of their types.
pub fn typed_scripts_keep_what_fits()
    ensures keeps { (outline : List ScriptShape) (scripts : List trees.Script) → typed_trees.IsTypedSet outline scripts → KeepsFit (source_types outline scripts) (source_engine outline scripts) }
    ensures runs { (outline : List ScriptShape) (scripts : List trees.Script) → typed_trees.IsTypedSet outline scripts → (scene : SceneShape) (kinds : List DeviceKind) (turns : ℕ) → SceneFits (source_types outline scripts) scene → AllByRecursion (NextTurnFits (by_types (source_types outline scripts)) scene) (states_from scene (source_engine outline scripts) turns (first_state outline scene kinds)) }
{}

/// The same of typed code, with slots in the place of locals.
pub fn typed_code_keeps_what_fits()
    ensures keeps { (outline : List ScriptShape) (scripts : List Script) → typed_code.IsTypedSet outline scripts → KeepsFit (code_types outline scripts) (code_engine outline scripts) }
    ensures runs { (outline : List ScriptShape) (scripts : List Script) → typed_code.IsTypedSet outline scripts → (scene : SceneShape) (kinds : List DeviceKind) (turns : ℕ) → SceneFits (code_types outline scripts) scene → AllByRecursion (NextTurnFits (by_types (code_types outline scripts)) scene) (code_states outline scripts scene kinds turns) }
{}
