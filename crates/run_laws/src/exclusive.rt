// Each stack stands in one place, no two stacks own one instance, and a run comes to no standstill.
//
// The laws hold of every engine, whatever its bodies of type `B` are.
ghost use Rattle.std.specs.Prelude.{ℕ, List};
ghost use Rattle.std.specs.List.{AllByRecursion};
ghost use Rattle.core_tree.specs.declared.DeviceKind.{DeviceKind};
ghost use Rattle.core_tree.specs.Outlines.{ScriptShape};
ghost use Rattle.core_tree.specs.Scenes.{SceneShape};
ghost use Rattle.run_laws.specs.Exclusive.{Exclusive, GoesOn};
ghost use Rattle.script_meaning.specs.First.{first_state};
ghost use Rattle.script_meaning.specs.Stacks.{Engine, State};
ghost use Rattle.script_meaning.specs.Turns.{step, states_from};

/// In the first world of a run no stack stands anywhere.
pub fn first_is_exclusive<B>()
    ensures { (outline : List ScriptShape) (scene : SceneShape) (kinds : List DeviceKind) → Exclusive (first_state {Body = B} outline scene kinds) }
{}

/// Every step of a run keeps each stack in one place, with the frames that it needs there.
pub fn step_is_exclusive<B>()
    ensures { (scene : SceneShape) (engine : Engine B) (state : State B) → Exclusive state → Exclusive (step scene engine state) }
{}

/// So does every world of a run from its first one on, whatever the number of turns.
pub fn run_is_exclusive<B>()
    ensures { (scene : SceneShape) (engine : Engine B) (outline : List ScriptShape) (kinds : List DeviceKind) (turns : ℕ) → AllByRecursion Exclusive (states_from scene engine turns (first_state outline scene kinds)) }
{}

/// Where a stack that has started is neither done nor asleep, some stack is ready.
pub fn some_stack_is_ready<B>()
    ensures { (state : State B) → Exclusive state → GoesOn state }
{}
