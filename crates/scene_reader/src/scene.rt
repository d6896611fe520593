// From the bytes of a scene file to its scene, and the scene of a script without a file.
ghost use Rattle.std.specs.Prelude.{◌≡◌, IfErr, IfNone, IfOk, IfSome, None, OnOk, Some, codes};
ghost use Rattle.core_tree.specs.Scenes.{OrderShape, order_shape};
ghost use Rattle.serde_json.specs.Data.{object as as_data};
ghost use Rattle.serde_json.specs.Find.{as_object, get as get_in};
ghost use Rattle.serde_json.specs.View.{members_view, view};
ghost use Rattle.scene_reader.specs.Default.{IsDefaultScene};
ghost use Rattle.scene_reader.specs.Document.{IsRefusal};
ghost use Rattle.scene_reader.specs.Limits.{Keeps, KeepsLimits, IsQuantum, OrderKeeps};
ghost use Rattle.scene_reader.specs.Plan.{scene_plan};
ghost use Rattle.scene_reader.specs.Reading.{Finds};
ghost use Rattle.scene_reader.specs.SceneOf.{order, parts, quantum_from, scene, version_in};
ghost use Rattle.scene_reader.specs.SceneText.{ByForm, ByText, IsRefusedBy, IsScene, IsTextFault, IsUpgraded, json_in, judged, scene_of_text, text_rule, with_version_2};
ghost use Rattle.scene_reader.specs.declared.fault.PartFault.TheVariants.{Shape as NotOfForm};

use crate::document::read_document;
use crate::fault::{PartFault, ReadFault, SceneFault, SceneRule};
use crate::parts::{
    CALL_LIMIT, FILE_LIMIT, INSTANCE_LIMIT, Item, ORDER_LIMIT, QUANTUM_LIMIT, SceneReader, Version,
    check_keys, count,
};
use core_tree::{Binding, SceneCall, SceneInstance, SceneTree, TurnOrder};
use papy_base::{Made, Name, OutOfMemory, Text};
use serde_json::{Map, Value};
use std::alloc::Global;

// The keys of a scene's object.
#[rattlefmt::skip]
const KEYS: [&str; 8] = [
    "version", "instances", "calls", "order", "turns", "natives", "tapes", "quantum",
];

/// The scene of a file's bytes.
///
/// # Errors
///
/// `Limit` (C3) comes where there are over 16 MiB; else `NotJson` (C1) where they are no JSON text; else
/// `Shape` (C2) where the text has not the form of a scene; else `Limit` where it passes a limit.
/// `OutOfMemory` comes where there is no room.
pub fn read_scene(alloc: Global, bytes: &[u8]) -> Result<SceneTree, SceneFault>
    ensures limits { IfOk result KeepsLimits }
    ensures text { ByText (text_rule bytes.now) result }
    ensures scene { IsScene (scene_of_text bytes.now) result }
{
    let value = read_value(alloc, bytes)?;
    scene_of(alloc, &value)
}

/// The compact text of the same scene with version 2, with the keys of each object in byte order.
///
/// # Errors
///
/// Those of `read_scene`.
#[tactic(auto, using(crate::proofs::Found::memory_refusal))]
pub fn upgrade_scene(alloc: Global, bytes: &[u8]) -> Result<Vec<u8>, SceneFault>
    ensures text { ByText (text_rule bytes.now) result }
    ensures refused { IsRefusedBy (scene_of_text bytes.now) result }
    ensures upgraded { IfOk result (λ text. IsUpgraded bytes.now text.items) }
{
    let value = read_value(alloc, bytes)?;
    let tree = scene_of(alloc, &value)?;
    drop(tree);
    let Some(object) = object_of(value) else {
        return Err(SceneFault::of(SceneRule::Shape));
    };
    let value = upgraded(alloc, object)?;
    Ok(value.to_vec(alloc)?)
}

// The object that the value is.
fn object_of(value: Value) -> Option<Map<String, Value>>
    ensures is { IfSome result (λ object. view value ≡ as_data (members_view object.entries)) }
    ensures other { IfNone result (as_object (view value) ≡ None) }
{
    match value {
        Value::Object(object) => Some(object),
        other => {
            drop(other);
            None
        }
    }
}

// The object with `version` 2.
fn upgraded(alloc: Global, object: Map<String, Value>) -> Made<Value>
    ensures { IfOk result (λ value. view value ≡ with_version_2 (as_data (members_view object.entries))) }
{
    let mut object = object;
    serde_json::put(&mut object, alloc, "version", Value::from(2u64))?;
    Ok(Value::Object(object))
}

fn read_value(alloc: Global, bytes: &[u8]) -> Result<Value, SceneFault>
    ensures rule { OnOk result (text_rule bytes.now ≡ None) }
    ensures read { IfOk result (λ value. json_in bytes.now ≡ Some (view value)) }
    ensures refused { IfErr result (IsTextFault bytes.now) }
{
    if bytes.len() > FILE_LIMIT {
        return Err(SceneFault::of(SceneRule::Limit));
    }
    match read_bytes(alloc, bytes) {
        Ok(value) => Ok(value),
        Err(fault) => Err(SceneFault::of_text(fault)),
    }
}

// The JSON value of the bytes.
fn read_bytes(alloc: Global, bytes: &[u8]) -> Result<Value, ReadFault>
    ensures ok { IfOk result (λ value. json_in bytes.now ≡ Some (view value)) }
    ensures err { IsRefusal result → json_in bytes.now ≡ None }
{
    match simdutf8::compat::from_utf8(bytes) {
        Ok(text) => read_document(alloc, text),
        Err(_) => Err(ReadFault::Invalid),
    }
}

// The scene that the value is.
fn scene_of(alloc: Global, value: &Value) -> Result<SceneTree, SceneFault>
    ensures limits { IfOk result KeepsLimits }
    ensures form { ByForm result }
    ensures scene { IsScene (judged (scene (view value.now))) result }
{
    let mut broken = false;
    let tree = match tree_of(alloc, &mut broken, value) {
        Ok(tree) => tree,
        Err(fault) => return Err(SceneFault::of_part(fault)),
    };
    if broken {
        drop(tree);
        return Err(SceneFault::of(SceneRule::Limit));
    }
    Ok(tree)
}

fn tree_of(alloc: Global, broken: &mut bool, value: &Value) -> Result<SceneTree, PartFault>
    ensures limits { IfOk result (λ tree. Keeps broken.old broken.new (KeepsLimits tree)) }
    ensures found { Finds broken.old broken.new (scene (view value.now)) scene_plan result }
{
    check_keys(value, &KEYS)?;
    let version = version_of(value)?;
    parts_of(SceneReader { alloc, version }, broken, value)
}

fn parts_of(reader: SceneReader, broken: &mut bool, value: &Value) -> Result<SceneTree, PartFault>
    ensures limits { IfOk result (λ tree. Keeps broken.old broken.new (KeepsLimits tree)) }
    ensures found { Finds broken.old broken.new (parts reader.version (view value.now)) scene_plan result }
{
    let quantum = quantum_of(reader.version, broken, value)?;
    let turns = reader.needed::<u32>(broken, value, "turns")?;
    let order = reader.needed::<TurnOrder>(broken, value, "order")?;
    let instances = reader.needed_list::<SceneInstance>(
        broken,
        value,
        "instances",
        INSTANCE_LIMIT,
    )?;
    let calls = reader.needed_list::<SceneCall>(broken, value, "calls", CALL_LIMIT)?;
    let natives = reader.optional_entries::<Binding>(broken, value, "natives")?;
    let tapes = reader.optional_list::<Vec<i32>>(broken, value, "tapes")?;
    Ok(SceneTree {
        instances,
        calls,
        natives,
        tapes,
        order,
        turns,
        quantum,
    })
}

// The version of the scene that the value is to be.
fn version_of(value: &Value) -> Result<Version, PartFault>
    ensures version { IfOk result (λ version. version_in (view value.now) ≡ Some version) }
    ensures other { IfErr result (λ fault. (fault ≡ NotOfForm) × (version_in (view value.now) ≡ None)) }
{
    let Some(found) = value.get("version") else {
        return Err(PartFault::Shape);
    };
    match found.as_u64() {
        Some(1) => Ok(Version::One),
        Some(2) => Ok(Version::Two),
        _ => Err(PartFault::Shape),
    }
}

// The key belongs to version 2.
fn quantum_of(version: Version, broken: &mut bool, value: &Value) -> Result<u32, PartFault>
    ensures limits { IfOk result (λ quantum. Keeps broken.old broken.new (IsQuantum quantum)) }
    ensures found { Finds broken.old broken.new (quantum_from version (get_in (codes "quantum") (view value.now))) (λ quantum. quantum) result }
{
    let Some(found) = value.get("quantum") else {
        return Ok(1);
    };
    match version {
        Version::One => Err(PartFault::Shape),
        Version::Two => count(broken, found, 1, QUANTUM_LIMIT),
    }
}

// Which stack gets a turn: `"round"`, or an array of stacks.
impl Item for TurnOrder {
    ghost Plan = { OrderShape };

    ghost plan = { order_shape };

    ghost reading = { λ _. order };

    ghost keeps = { OrderKeeps };

    fn read(reader: SceneReader, broken: &mut bool, value: &Value) -> Result<TurnOrder, PartFault> {
        let Some(text) = value.as_str() else {
            return Ok(TurnOrder::List(reader.short_list::<u16>(broken, value, ORDER_LIMIT)?));
        };
        if text == "round" {
            Ok(TurnOrder::Round)
        } else {
            Err(PartFault::Shape)
        }
    }
}

// The name of the one instance.
const INSTANCE: &[u8] = b"it";

/// The scene of one instance `it` of the script, with one call of `OnInit` at turn 0 without arguments,
/// round order, 10,000 turns and quantum 1.
///
/// # Errors
///
/// `OutOfMemory` comes where there is no room.
pub fn default_scene(alloc: Global, script: &Name) -> Made<SceneTree>
    ensures { IfOk result (IsDefaultScene script.now) }
{
    let instance = SceneInstance {
        name: Text::try_from_bytes(alloc, INSTANCE)?,
        script: Text::try_from_bytes(alloc, script.as_bytes())?,
        set: Vec::new(alloc),
    };
    let call = SceneCall {
        turn: 0,
        instance: Text::try_from_bytes(alloc, INSTANCE)?,
        function: Text::try_from_bytes(alloc, b"OnInit")?,
        arguments: Vec::new(alloc),
    };
    Ok(SceneTree {
        instances: vec![in alloc; instance]?,
        calls: vec![in alloc; call]?,
        natives: Vec::new(alloc),
        tapes: Vec::new(alloc),
        order: TurnOrder::Round,
        turns: 10_000,
        quantum: 1,
    })
}
