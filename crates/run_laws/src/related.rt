// Two engines that do the same.
ghost use Rattle.std.specs.Prelude.{◌≡◌, ℕ, Bool, List, Option, map};
ghost use Rattle.std.specs.List.{AllByRecursion};
ghost use Rattle.core_tree.specs.declared.DeviceKind.{DeviceKind};
ghost use Rattle.core_tree.specs.Outlines.{ScriptShape};
ghost use Rattle.core_tree.specs.Scenes.{SceneShape};
ghost use Rattle.script_meaning.specs.First.{first_state};
ghost use Rattle.run_laws.specs.Fits.{Types, by_types, NextTurnFits};
ghost use Rattle.run_laws.specs.Keeps.{KeepsFit, SceneFits};
ghost use Rattle.run_laws.specs.Related.{EnginesAlike, DoAlike};
ghost use Rattle.script_meaning.specs.Stacks.{Engine};
ghost use Rattle.script_meaning.specs.Turns.{states_from};

/// Bodies of one engine that are related to bodies of another one, by the instance on which both run and whether they wait for a reply, and the types
/// of the scripts to which they belong.
pub trait Related<C> {
    ghost related: { Option ℕ → Bool → Self → C → Type 0 };

    ghost types: { Types Self };
}

/// Two engines whose related bodies open alike and come to equal acts in equal worlds, wherever all that they
/// get fits, have equal runs of worlds, provided that in each turn of the one run what the chosen stack goes on
/// with fits. That is so where the one engine keeps what fits and the scene begins with it.
pub fn related_engines_run_alike<B: Related<C>, C>()
    ensures fitting { (left : Engine B) (right : Engine C) → EnginesAlike (by_types B.types) B.related left right → (scene : SceneShape) (outline : List ScriptShape) (kinds : List DeviceKind) (turns : ℕ) → AllByRecursion (NextTurnFits (by_types B.types) scene) (states_from scene left turns (first_state outline scene kinds)) → map (λ state. state.world) (states_from scene left turns (first_state outline scene kinds)) ≡ map (λ state. state.world) (states_from scene right turns (first_state outline scene kinds)) }
    ensures kept { (left : Engine B) (right : Engine C) → EnginesAlike (by_types B.types) B.related left right → KeepsFit B.types left → (scene : SceneShape) (kinds : List DeviceKind) (turns : ℕ) → SceneFits B.types scene → map (λ state. state.world) (states_from scene left turns (first_state B.types.outline scene kinds)) ≡ map (λ state. state.world) (states_from scene right turns (first_state B.types.outline scene kinds)) }
{}

/// Two engines are alike where the one keeps what fits, and related bodies open alike and come to equal acts with
/// equal effects wherever all that they get fits: that bodies go on with what fits need not be shown of both.
pub fn engines_are_alike_where_one_keeps_what_fits<B: Related<C>, C>()
    ensures { (left : Engine B) (right : Engine C) → KeepsFit B.types left → DoAlike (by_types B.types) B.related left right → EnginesAlike (by_types B.types) B.related left right }
{}
