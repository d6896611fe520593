use crate::frame::FrameState;
use core_tree::{CoreType, DeviceKind, Value};
use papy_base::Text;

/// The state of a run after some turns, without its output and without the scripts and the scene that it runs.
///
/// Instances, stacks, arrays and devices are given by their numbers. A stack that is in none of the lists of owners,
/// waiters, free stacks and sleepers is done.
#[derive(Drop)]
pub struct MachineState {
    /// How many turns are done.
    pub turn: u32,
    /// The stack that had the last turn.
    pub last: Option<u16>,
    /// Of each instance the text of its state, and the values of its scripts' variables from the topmost script down,
    /// each script's in file order.
    pub instances: Vec<(Text, Vec<Value>)>,
    /// Each owned instance with the stack that owns it, in order of instances.
    pub owners: Vec<(u16, u16)>,
    /// Instances with the stacks that wait for them, in order of joining.
    pub waiters: Vec<(u16, u16)>,
    /// The stacks that need no instance, in ascending order.
    pub free: Vec<u16>,
    /// The sleeping stacks with the turns at which they are due, in order of stacks.
    pub asleep: Vec<(u16, u32)>,
    /// The element type of each array with its elements.
    pub arrays: Vec<(CoreType, Vec<Value>)>,
    /// The kind of each device with its cells and the place of the next cell.
    pub devices: Vec<(DeviceKind, Vec<i32>, u64)>,
    /// The frames of each stack that has started, outermost first.
    pub stacks: Vec<Vec<FrameState>>,
}
