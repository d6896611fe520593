//! The scene of a sample: the hub, and its workers, each of which starts at turn 0.
ghost use Rattle.std.specs.Prelude.{◌≡◌, ◌∷◌, IfOk, map};
ghost use Rattle.std.specs.List.{range_with_len};
ghost use Rattle.scene_reader.specs.Default.{call_plan, instance_plan};
ghost use Rattle.run_commands.specs.Sample.{IsSampleScene, hub_plan, start_plan, worker_name, worker_plan, worker_script};

use core_tree::{SceneCall, SceneInstance, SceneTree, SceneValue, TurnOrder};
use papy_base::{Made, Text};
use std::alloc::Global;

/// The most turns of a scene.
const TURNS: u32 = 1_000_000;

/// The hub's instance.
const HUB: &[u8] = b"hub";

fn hub(alloc: Global) -> Made<SceneInstance>
    ensures { IfOk result (λ instance. instance_plan instance ≡ hub_plan) }
{
    Ok(SceneInstance {
        name: Text::try_from_bytes(alloc, HUB)?,
        script: Text::try_from_bytes(alloc, b"Hub")?,
        set: Vec::new(alloc),
    })
}

/// The name of the instance of this worker.
fn worker_name(alloc: Global, number: u8) -> Made<Text>
    ensures { IfOk result (λ name. name ≡ worker_name number) }
{
    let name = format!(in alloc; "w{number}")?;
    Text::try_from_bytes(alloc, name.as_bytes())
}

/// The name of the script of this worker.
fn worker_script(alloc: Global, number: u8) -> Made<Text>
    ensures { IfOk result (λ name. name ≡ worker_script number) }
{
    let name = format!(in alloc; "W{number}")?;
    Text::try_from_bytes(alloc, name.as_bytes())
}

fn worker(alloc: Global, number: u8) -> Made<SceneInstance>
    ensures { IfOk result (λ instance. instance_plan instance ≡ worker_plan number) }
{
    let mut set = Vec::new(alloc);
    let target = Text::try_from_bytes(alloc, b"Target")?;
    set.push((
        target,
        SceneValue::Instance(Text::try_from_bytes(alloc, HUB)?),
    ))?;
    Ok(SceneInstance {
        name: worker_name(alloc, number)?,
        script: worker_script(alloc, number)?,
        set,
    })
}

fn start(alloc: Global, number: u8) -> Made<SceneCall>
    ensures { IfOk result (λ call. call_plan call ≡ start_plan number) }
{
    Ok(SceneCall {
        turn: 0,
        instance: worker_name(alloc, number)?,
        function: Text::try_from_bytes(alloc, b"OnInit")?,
        arguments: Vec::new(alloc),
    })
}

fn instances(alloc: Global, workers: u8) -> Made<Vec<SceneInstance>>
    ensures { IfOk result (λ found. map instance_plan found.items ≡ hub_plan ∷ map worker_plan (range_with_len 0 workers)) }
{
    let mut instances = Vec::new(alloc);
    instances.push(hub(alloc)?)?;
    for number in 0..workers {
        instances.push(worker(alloc, number)?)?;
    }
    Ok(instances)
}

fn calls(alloc: Global, workers: u8) -> Made<Vec<SceneCall>>
    ensures { IfOk result (λ found. map call_plan found.items ≡ map start_plan (range_with_len 0 workers)) }
{
    let mut calls = Vec::new(alloc);
    for number in 0..workers {
        calls.push(start(alloc, number)?)?;
    }
    Ok(calls)
}

/// The scene of a hub and so many workers, whose property `Target` is the hub, with one call of `OnInit` on each
/// worker at turn 0, round order, 1,000,000 turns and quantum 1.
pub fn sample_scene(alloc: Global, workers: u8) -> Made<SceneTree>
    ensures { IfOk result (IsSampleScene workers) }
{
    Ok(SceneTree {
        instances: instances(alloc, workers)?,
        calls: calls(alloc, workers)?,
        natives: Vec::new(alloc),
        tapes: Vec::new(alloc),
        order: TurnOrder::Round,
        turns: TURNS,
        quantum: 1,
    })
}
