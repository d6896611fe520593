//! What every device offers, and calls of one device of a list.

ghost use Rattle.std.specs.Prelude.{◌≡◌, ◌<◌, OnOk, OnErr, vec_len, map, slice_set};
ghost use Rattle.core_tree.specs.Device.{DeviceState, device_at, load, device_step};
ghost use Rattle.latent_natives.specs.Devices.{SameKinds};

use core_tree::DeviceKind;
use papy_base::Made;

/// A device that native functions call: a kind, a list of cells and a place among them.
pub trait Device: Drop {
    /// The kind, the cells and the place.
    ghost device_state: { Self → DeviceState };

    /// Loads these cells, from the place `at` on, as the kind says.
    ///
    /// # Errors
    ///
    /// `OutOfMemory` comes where the cells find no room. Then nothing has changed.
    fn load(&mut self, cells: &[i32], at: u64) -> Made<()>
        ensures ok { OnOk result
            (device_state self.new ≡ load (device_state self.old).kind cells.now at) }
        ensures err { OnErr result (device_state self.new ≡ device_state self.old) }
        ensures kind { (device_state self.new).kind ≡ (device_state self.old).kind };

    /// Replies to a call with these arguments. Missing arguments count as 0. It takes no memory.
    fn call(&mut self, args: &[i32]) -> i32
        ensures reply { result ≡ (device_step (device_state self.old) args.now).0 }
        ensures after { device_state self.new ≡ (device_step (device_state self.old) args.now).1 }
        ensures kind { (device_state self.new).kind ≡ (device_state self.old).kind };

    /// The kind, which no call changes.
    fn kind(&self) -> DeviceKind
        ensures { result ≡ (device_state self.now).kind };

    /// The cells.
    fn cells(&self) -> &[i32]
        ensures { result.now ≡ (device_state self.now).cells };

    /// The place of the next cell to be read, which is their number at the end.
    fn place(&self) -> u64
        ensures { result ≡ (device_state self.now).place };
}

fn load_one(device: &mut Box<dyn Device>, cells: &[i32], at: u64) -> Made<()>
    ensures ok { OnOk result
        (device_state device.new ≡ load (device_state device.old).kind cells.now at) }
    ensures err { OnErr result (device_state device.new ≡ device_state device.old) }
    ensures kind { (device_state device.new).kind ≡ (device_state device.old).kind }
{
    device.load(cells, at)
}

fn call_one(device: &mut Box<dyn Device>, args: &[i32]) -> i32
    ensures reply { result ≡ (device_step (device_state device.old) args.now).0 }
    ensures after { device_state device.new ≡ (device_step (device_state device.old) args.now).1 }
    ensures kind { (device_state device.new).kind ≡ (device_state device.old).kind }
{
    device.call(args)
}

/// Loads the device at a place of a list, and no other.
///
/// # Errors
///
/// `OutOfMemory` comes where the cells find no room. Then no device has changed.
pub fn load_device(
    devices: &mut Vec<Box<dyn Device>>,
    place: usize,
    cells: &[i32],
    at: u64,
) -> Made<()>
    requires { place < vec_len devices.old }
    ensures ok { let before = map (λ d. device_state d) devices.old.items in
        OnOk result (map (λ d. device_state d) devices.new.items
        ≡ slice_set before place (load (device_at before place).kind cells.now at)) }
    ensures err { OnErr result (map (λ d. device_state d) devices.new.items
        ≡ map (λ d. device_state d) devices.old.items) }
    ensures kinds { SameKinds (map (λ d. device_state d) devices.old.items)
        (map (λ d. device_state d) devices.new.items) }
{
    load_one(&mut devices[place], cells, at)
}

/// Calls the device at a place of a list, and no other.
pub fn call_device(devices: &mut Vec<Box<dyn Device>>, place: usize, args: &[i32]) -> i32
    requires { place < vec_len devices.old }
    ensures reply { let before = map (λ d. device_state d) devices.old.items in
        result ≡ (device_step (device_at before place) args.now).0 }
    ensures after { let before = map (λ d. device_state d) devices.old.items in
        map (λ d. device_state d) devices.new.items
        ≡ slice_set before place (device_step (device_at before place) args.now).1 }
    ensures kinds { SameKinds (map (λ d. device_state d) devices.old.items)
        (map (λ d. device_state d) devices.new.items) }
{
    call_one(&mut devices[place], args)
}
