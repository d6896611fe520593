// What each state of a run of loaded code holds.
ghost use Rattle.std.specs.Prelude.{ℕ, List};
ghost use Rattle.core_tree.specs.declared.DeviceKind.{DeviceKind};
ghost use Rattle.core_tree.specs.Outlines.{ScriptShape};
ghost use Rattle.core_tree.specs.Scenes.{SceneShape};
ghost use Rattle.script_meaning.specs.First.{first_state};
ghost use Rattle.script_meaning.specs.Stacks.{State};
ghost use Rattle.script_meaning.specs.Turns.{begun, step};
ghost use Rattle.code_meaning.specs.Code.{Script};
ghost use Rattle.code_meaning.specs.Engine.{code_engine};
ghost use Rattle.code_meaning.specs.LookUp.{Body};
ghost use Rattle.run_laws.specs.Fits.{by_types, TurnFits};
ghost use Rattle.run_laws.specs.Holding.{StateHolds, TurnStops, InstancesThere};
ghost use Rattle.run_laws.specs.Keeps.{KeepsFit, SceneFits, first_known};
ghost use Rattle.run_laws.specs.TypedCode.{code_types};

/// Where the code of a set keeps what fits, and the values of a scene fit, the first state of a run holds what fits, the beginning of a turn
/// and each step keep that, and of a state that holds it: whichever stack has its turn goes on with what fits, and comes to its next act
/// with what fits; and the instance of each frame, and of each call that is to be entered, is one of the scene.
pub fn code_states_hold()
    ensures first { (outline : List ScriptShape) (scripts : List Script) → KeepsFit (code_types outline scripts) (code_engine outline scripts) → (scene : SceneShape) (kinds : List DeviceKind) → SceneFits (code_types outline scripts) scene → StateHolds (code_types outline scripts) (first_known outline scene) (first_state outline scene kinds) }
    ensures begins { (outline : List ScriptShape) (scripts : List Script) → KeepsFit (code_types outline scripts) (code_engine outline scripts) → (scene : SceneShape) → SceneFits (code_types outline scripts) scene → (state : State Body) → StateHolds (code_types outline scripts) (first_known outline scene) state → StateHolds (code_types outline scripts) (first_known outline scene) (begun scene state) }
    ensures steps { (outline : List ScriptShape) (scripts : List Script) → KeepsFit (code_types outline scripts) (code_engine outline scripts) → (scene : SceneShape) → SceneFits (code_types outline scripts) scene → (state : State Body) → StateHolds (code_types outline scripts) (first_known outline scene) state → StateHolds (code_types outline scripts) (first_known outline scene) (step scene (code_engine outline scripts) state) }
    ensures turns { (outline : List ScriptShape) (scripts : List Script) → KeepsFit (code_types outline scripts) (code_engine outline scripts) → (scene : SceneShape) → SceneFits (code_types outline scripts) scene → (state : State Body) → StateHolds (code_types outline scripts) (first_known outline scene) state → (k : ℕ) → TurnFits (by_types (code_types outline scripts)) scene state k }
    ensures stops { (outline : List ScriptShape) (scripts : List Script) → KeepsFit (code_types outline scripts) (code_engine outline scripts) → (scene : SceneShape) → SceneFits (code_types outline scripts) scene → (state : State Body) → StateHolds (code_types outline scripts) (first_known outline scene) state → (k : ℕ) → TurnStops (code_types outline scripts) (code_engine outline scripts) scene state k }
    ensures there { (outline : List ScriptShape) (scripts : List Script) (scene : SceneShape) (state : State Body) → StateHolds (code_types outline scripts) (first_known outline scene) state → InstancesThere state }
{}
