// Turns of the machine, and the report behind them.
ghost use Rattle.std.specs.Prelude.{◌<◌, ◌≡◌, IfOk, None, vec_len};

use core_tree::{Scene, Value};
use latent_natives::{Device, Dice, Latch, Sum, Tape};
use papy_base::{Made, OutOfMemory};
use papy_io::MemorySink;
use pex_listing::assemble;
use pex_verify::{Loaded, verify};
use scene_runner::{bind, read_scene, write_closing};
use stack_machine::{Machine, Status, TurnEnd, TurnFault};
use std::alloc::Global;
use std::process::Abort;
use std::test::Fail;

// A counter whose `Add` traces, adds and calls itself.
static COUNTER: &[u8] =
    b"pex 2 0\nsource \"\"\nuser \"\"\nmachine \"\"\nstring \"\"\nstring \"Counter\"\nstring \"::Count_var\"\n\
    string \"Int\"\nstring \"Count\"\nstring \"Add\"\nstring \"None\"\nstring \"n\"\nstring \"::none\"\n\
    string \"Debug\"\nstring \"Trace\"\nstring \"begin\"\nstring \"self\"\nnodebug\n\
    object Counter bare #0 #0 0 #0\nvariable ::Count_var Int 0 int 0\nproperty Count Int #0 0 7 ::Count_var\n\
    state #0\nfunction Add None #0 0 0\nparam n Int\nlocal ::none None\n\
    callstatic id Debug id Trace id ::none text begin int 0\niadd id ::Count_var id ::Count_var id n\n\
    callmethod id Add id self id ::none id n\nreturn none\n";

// Two calls of it, and an idle turn between them.
static TWO_ADD: &[u8] = b"{\"version\":1,\"instances\":[{\"name\":\"a\",\"script\":\"Counter\"}],\
    \"calls\":[{\"turn\":0,\"instance\":\"a\",\"function\":\"Add\",\"arguments\":[2]},\
    {\"turn\":0,\"instance\":\"a\",\"function\":\"Add\",\"arguments\":[3]}],\
    \"order\":[0,5,1,0,0,0],\"turns\":6}";

fn four_devices(alloc: Global) -> Result<Vec<Box<dyn Device>>, Fail> {
    let mut devices: Vec<Box<dyn Device>> = Vec::new(alloc);
    devices.push(Box::new(alloc, Tape::new(alloc)?)?)?;
    devices.push(Box::new(alloc, Sum::new(alloc)?)?)?;
    devices.push(Box::new(alloc, Latch::new(alloc)?)?)?;
    devices.push(Box::new(alloc, Dice::new(alloc)?)?)?;
    Ok(devices)
}

fn loaded_of(alloc: Global, listing: &[u8]) -> Made<Loaded> {
    let file = assemble(alloc, listing).map_err(|_| OutOfMemory)?;
    let files = vec![in alloc; file]?;
    verify(alloc, files).map_err(|_| OutOfMemory)
}

fn bound_to(alloc: Global, loaded: &Loaded, scene: &[u8]) -> Made<Scene>
    ensures instances { IfOk result (λ scene. vec_len scene.instances < 65536) }
    ensures calls { IfOk result (λ scene. vec_len scene.calls < 65536) }
{
    let Ok(tree) = read_scene(alloc, scene) else {
        return Err(OutOfMemory);
    };
    match bind(alloc, tree, loaded.outline(), 4) {
        Ok(scene) => Ok(scene),
        Err(_) => Err(OutOfMemory),
    }
}

fn machine_of(alloc: Global, devices: &mut Vec<Box<dyn Device>>) -> Made<Machine>
    ensures { IfOk result (λ machine. machine.fault ≡ None) }
{
    let loaded = loaded_of(alloc, COUNTER)?;
    let bound = bound_to(alloc, &loaded, TWO_ADD)?;
    Machine::start(alloc, loaded, bound, devices)
}

// None of a stack that hasn't started.
fn status_of(machine: &Machine, stack: u16) -> Option<Status> {
    if stack < machine.stack_count() {
        return Some(machine.status_of(stack));
    }
    None
}

fn owner_of(machine: &Machine, instance: u16) -> Option<u16> {
    if usize::from(instance) < machine.scene().instances.len() {
        return machine.owner_of(instance);
    }
    None
}

#[test]
fn a_failed_write_is_answered_from_then_on(rt: HostRuntime) -> Result<(), Fail> {
    let alloc = rt.alloc();
    let mut devices = four_devices(alloc)?;
    let mut machine = machine_of(alloc, &mut devices)?;
    fails_at_its_third_line(&rt, alloc, &mut machine, &mut devices)
}

// The machine is lent, since its end on each way out of this function would be proved once more.
fn fails_at_its_third_line(
    rt: &impl Abort,
    alloc: Global,
    machine: &mut Machine,
    devices: &mut Vec<Box<dyn Device>>,
) -> Result<(), Fail>
    requires { machine.old.fault ≡ None }
{
    let mut sink = MemorySink::new(alloc, vec![in alloc; 2]?);
    assert_eq!(rt; machine.turn(&mut sink, devices)?, TurnEnd::Ran(0));
    assert_eq!(rt; machine.stack_count(), 2);
    assert_eq!(rt; status_of(machine, 0), Some(Status::Waits(0)));
    assert_eq!(rt; status_of(machine, 1), Some(Status::Ready));
    assert_eq!(rt; machine.turn(&mut sink, devices)?, TurnEnd::Idle);
    assert_eq!(rt; machine.turn(&mut sink, devices)?, TurnEnd::Ran(1));
    assert_eq!(rt; machine.turn(&mut sink, devices)?, TurnEnd::Ran(0));
    assert_eq!(rt; owner_of(machine, 0), Some(0));
    let report =
        b"turns 4\na : Counter @\n  Count = 2\nstack 0 ready\nstack 1 waits a\n".as_slice();
    closes_with(rt, alloc, machine, report)?;
    let failed = Some(TurnFault::WriteFault);
    assert_eq!(rt; machine.turn(&mut sink, devices).err(), failed);
    assert_eq!(rt; machine.turn(&mut sink, devices).err(), failed);
    assert!(rt; sink.bytes() == b"#0 begin\n#1 begin\n".as_slice());
    assert_eq!(rt; machine.turns_done(), 4);
    let count = machine.variable_at(0, 6, 0)?;
    assert!(rt; matches!(&count, Value::Int(2)));
    Ok(())
}

fn closes_with(rt: &impl Abort, alloc: Global, machine: &Machine, report: &[u8]) -> Result<(), Fail>
    requires { machine.now.fault ≡ None }
{
    let mut sink = MemorySink::new(alloc, Vec::new(alloc));
    assert!(rt; write_closing(alloc, machine, &mut sink).is_ok());
    assert!(rt; sink.bytes() == report);
    Ok(())
}
