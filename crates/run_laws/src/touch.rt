// What a turn touches.
ghost use Rattle.std.specs.Prelude.{◌≡◌, ℕ, List};
ghost use Rattle.core_tree.specs.Scenes.{SceneShape};
ghost use Rattle.script_meaning.specs.Stacks.{Engine, State};
ghost use Rattle.run_laws.specs.Touch.{state_with, instance_in_turn, but_for, DifferElsewhere};
ghost use Rattle.script_meaning.specs.Turns.{turned};
ghost use Rattle.script_meaning.specs.World.{Instance};

/// A turn changes no variable and no state of an instance but the one that its stack is on, and all else
/// that it does is the same, whatever those variables and states are.
pub fn turn_touches_its_own<B>()
    ensures kept { (scene : SceneShape) (engine : Engine B) (state : State B) (k : ℕ) → (turned scene engine state k).world.instances ≡ but_for (instance_in_turn state k) state.world.instances (turned scene engine state k).world.instances }
    ensures same { (scene : SceneShape) (engine : Engine B) (state : State B) (k : ℕ) (others : List Instance) → DifferElsewhere (instance_in_turn state k) state.world.instances others → turned scene engine (state_with others state) k ≡ state_with (but_for (instance_in_turn state k) others (turned scene engine state k).world.instances) (turned scene engine state k) }
{}
