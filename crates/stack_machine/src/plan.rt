//! What is resolved when the machine starts, so that no turn looks it up.

ghost use Rattle.std.specs.Prelude.{◌≡◌, ◌<◌, IfOk, length, map};
ghost use Rattle.std.specs.List.{All};
ghost use Rattle.stack_machine.specs.Plans.{ArePlanned};

use core_tree::{BoundCall, Scene};
use papy_base::{Made, Text};
use pex_verify::Loaded;
use std::alloc::Global;

/// A call of the scene: when it begins, its number in the scene, and the number of its function's name.
#[derive(Clone, Copy, PartialEq, Eq)]
pub struct PlannedCall {
    pub turn: u32,
    pub number: usize,
    pub name: Option<usize>,
}

/// What is resolved when the machine starts.
#[derive(Drop)]
pub struct Plan {
    /// The scene's calls in order of their turns, those of one turn in the scene's order. A stack's number is
    /// that of its call here.
    pub calls: Vec<PlannedCall>,
    /// The state of an instance that isn't there.
    pub no_state: Text,
}

impl Plan {
    /// The plan of a scene that is bound to the loaded scripts.
    pub fn of(alloc: Global, loaded: &Loaded, scene: &Scene) -> Made<Plan>
        ensures { IfOk result (λ plan. ArePlanned plan.calls.items scene.now.calls.items) }
    {
        let no_state = Text::try_from_bytes(alloc, &[])?;
        let calls = calls_in_order(alloc, loaded, &scene.calls)?;
        Ok(Plan { calls, no_state })
    }
}

fn calls_in_order(alloc: Global, loaded: &Loaded, calls: &[BoundCall]) -> Made<Vec<PlannedCall>>
    ensures { IfOk result (λ planned. ArePlanned planned.items calls.now) }
{
    let mut planned = planned_calls(alloc, loaded, calls)?;
    planned.sort_by_key(|call| call.turn)?;
    Ok(planned)
}

fn planned_calls(alloc: Global, loaded: &Loaded, calls: &[BoundCall]) -> Made<Vec<PlannedCall>>
    ensures turns { IfOk result (λ planned. map (λ call. call.turn) planned.items ≡ map (λ call. call.turn) calls.now) }
    ensures numbers { IfOk result (λ planned. All (λ call. call.number < length calls.now) planned.items) }
{
    let mut planned = Vec::with_capacity(alloc, calls.len())?;
    for (number, call) in calls.iter().enumerate() {
        planned.push(PlannedCall {
            turn: call.turn,
            number,
            name: loaded.name_number(alloc, call.function.as_bytes())?,
        })?;
    }
    Ok(planned)
}
