// What holds of each world of a run of loaded code, as of the runs of every engine.
ghost use Rattle.std.specs.Prelude.{◌≡◌, ℕ, List};
ghost use Rattle.std.specs.List.{AllByRecursion};
ghost use Rattle.core_tree.specs.declared.DeviceKind.{DeviceKind};
ghost use Rattle.core_tree.specs.Outlines.{ScriptShape};
ghost use Rattle.core_tree.specs.Scenes.{SceneShape};
ghost use Rattle.run_laws.specs.Exclusive.{Exclusive};
ghost use Rattle.script_meaning.specs.Stacks.{State};
ghost use Rattle.run_laws.specs.Touch.{state_with, instance_in_turn, but_for, DifferElsewhere};
ghost use Rattle.script_meaning.specs.Turns.{turned};
ghost use Rattle.script_meaning.specs.World.{Instance};
ghost use Rattle.code_meaning.specs.Code.{Script};
ghost use Rattle.code_meaning.specs.Engine.{code_engine, code_states};
ghost use Rattle.run_laws.specs.Exclusive.{GoesOn};
ghost use Rattle.code_meaning.specs.LookUp.{Body};

/// Each stack stands in one place, and no two stacks own one instance.
pub fn code_run_is_exclusive()
    ensures { (outline : List ScriptShape) (scripts : List Script) (scene : SceneShape) (kinds : List DeviceKind) (turns : ℕ) → AllByRecursion Exclusive (code_states outline scripts scene kinds turns) }
{}

/// Where a stack that has started is neither done nor asleep, some stack is ready.
pub fn code_run_goes_on()
    ensures { (outline : List ScriptShape) (scripts : List Script) (scene : SceneShape) (kinds : List DeviceKind) (turns : ℕ) → AllByRecursion GoesOn (code_states outline scripts scene kinds turns) }
{}

/// A turn changes no variable and no state of an instance but the one that its stack is on, and all else
/// that it does is the same, whatever those variables and states are.
pub fn code_turn_touches_its_own()
    ensures kept { (outline : List ScriptShape) (scripts : List Script) (scene : SceneShape) (state : State Body) (k : ℕ) → (turned scene (code_engine outline scripts) state k).world.instances ≡ but_for (instance_in_turn state k) state.world.instances (turned scene (code_engine outline scripts) state k).world.instances }
    ensures same { (outline : List ScriptShape) (scripts : List Script) (scene : SceneShape) (state : State Body) (k : ℕ) (others : List Instance) → DifferElsewhere (instance_in_turn state k) state.world.instances others → turned scene (code_engine outline scripts) (state_with others state) k ≡ state_with (but_for (instance_in_turn state k) others (turned scene (code_engine outline scripts) state k).world.instances) (turned scene (code_engine outline scripts) state k) }
{}
