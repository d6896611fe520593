//! Whether a run has ended.

ghost use Rattle.std.specs.Prelude.{◌≡◌, ◌≤◌, ◌<◌, ◌&&◌, ℕ, map};
ghost use Rattle.core_tree.specs.Scenes.{call_shape, scene_shape};
ghost use Rattle.script_meaning.specs.Turns.{all_done, has_ended, no_call_left};
ghost use Rattle.script_meaning.specs.World.{World};
ghost use Rattle.stack_places.specs.Ending.{calls_before};
ghost use Rattle.stack_places.specs.Places.{IsAway, placed, standings};

use crate::places::Places;
use core_tree::{Scene, TurnOrder};

impl Places {
    /// Whether a run of a scene has ended after so many turns, in which so many stacks have started: after the scene's number of turns, or
    /// in round order where every stack is done and no call is to come.
    pub fn has_ended(&self, scene: &Scene, turn: u32, started: u16) -> bool
        requires begun { started ≡ calls_before turn (map call_shape scene.now.calls.items) }
        requires once { (k : ℕ) → k < started → standings self.now.lists k ≤ 1 }
        requires none_else { (k : ℕ) → started ≤ k → IsAway self.now.lists k }
        ensures { (world : World) → world.turn ≡ turn → world.started ≡ started → result ≡ has_ended (scene_shape scene.now) (placed self.now.lists world) }
    {
        if turn == scene.turns {
            return true;
        }
        match &scene.order {
            TurnOrder::Round => self.has_nothing_left(scene, turn, started),
            TurnOrder::List(_) => false,
        }
    }

    // Whether every stack is done and no call is to come.
    fn has_nothing_left(&self, scene: &Scene, turn: u32, started: u16) -> bool
        requires begun { started ≡ calls_before turn (map call_shape scene.now.calls.items) }
        requires once { (k : ℕ) → k < started → standings self.now.lists k ≤ 1 }
        requires none_else { (k : ℕ) → started ≤ k → IsAway self.now.lists k }
        ensures { (world : World) → world.turn ≡ turn → world.started ≡ started → result ≡ all_done (placed self.now.lists world) && no_call_left (map call_shape scene.now.calls.items) (placed self.now.lists world) }
    {
        if !self.are_all_done(started) {
            return false;
        }
        usize::from(started) >= scene.calls.len()
    }
}
