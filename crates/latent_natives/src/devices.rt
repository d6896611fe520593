//! The devices: tapes and dice, which go from cell to cell, sums and latches.

ghost use Rattle.std.specs.Prelude.{◌≡◌, ◌≤ℤ◌, ◌-ℤ◌, ◌+ℤ◌, pos, [], ◌∷◌, IsOkAnd};
ghost use Rattle.std.specs.Int.RustNames.{unsigned_abs};
ghost use Rattle.core_tree.specs.declared.DeviceKind.TheVariants as kinds;
ghost use Rattle.core_tree.specs.Device.{DeviceState, load, argument, number_in_range, wrapping_sum};

use crate::device::Device;
use core_tree::DeviceKind;
use papy_base::Made;
use std::alloc::Global;
use std::marker::Model;

/// A device whose calls reply with one cell after another, and with 0 past the end.
#[derive(Drop)]
pub struct Tape {
    cells: Vec<i32>,
    place: usize,
}

impl Model for Tape {
    ghost Value = { DeviceState };

    ghost view = { λ t. record { kind = kinds.Tape; cells = t.cells.items; place = t.place } };
}

impl Tape {
    /// A tape with no cells. It takes no memory, and so is never refused.
    pub fn new(alloc: Global) -> Made<Tape>
        ensures { IsOkAnd result (λ t. t ≡ load kinds.Tape [] 0) }
    {
        Ok(Tape {
            cells: Vec::new(alloc),
            place: 0,
        })
    }
}

impl Device for Tape {
    ghost device_state = { λ t. record t { kind = kinds.Tape } };

    fn load(&mut self, cells: &[i32], at: u64) -> Made<()> {
        self.cells = Vec::from_slice(*self.cells.allocator(), cells)?;
        self.place = cells.len().min(at as usize);
        Ok(())
    }

    fn call(&mut self, _args: &[i32]) -> i32 {
        let Some(&cell) = self.cells.get(self.place) else {
            return 0;
        };
        self.place += 1;
        cell
    }

    fn kind(&self) -> DeviceKind {
        DeviceKind::Tape
    }

    fn cells(&self) -> &[i32] {
        &self.cells
    }

    fn place(&self) -> u64 {
        self.place as u64
    }
}

/// A device whose calls add all their arguments to its cell and reply with it. The sum wraps.
#[derive(Drop)]
pub struct Sum {
    cell: [i32; 1],
}

impl Model for Sum {
    ghost Value = { DeviceState };

    ghost view = { λ s. record { kind = kinds.Sum; cells = s.cell; place = 0 } };
}

impl Sum {
    /// A sum of nothing. It takes no memory, and so is never refused.
    pub fn new(_alloc: Global) -> Made<Sum>
        ensures { IsOkAnd result (λ s. s ≡ load kinds.Sum [] 0) }
    {
        Ok(Sum { cell: [0] })
    }
}

impl Device for Sum {
    ghost device_state = { λ s. record s { kind = kinds.Sum; place = 0 } };

    fn load(&mut self, cells: &[i32], _at: u64) -> Made<()> {
        self.cell = [sum_from(0, cells)];
        Ok(())
    }

    fn call(&mut self, args: &[i32]) -> i32 {
        let total = sum_from(self.cell[0], args);
        self.cell = [total];
        total
    }

    fn kind(&self) -> DeviceKind {
        DeviceKind::Sum
    }

    fn cells(&self) -> &[i32] {
        &self.cell
    }

    fn place(&self) -> u64 {
        0
    }
}

/// A device whose calls reply with its cell, which then becomes the first argument, if there is one.
#[derive(Drop)]
pub struct Latch {
    cell: [i32; 1],
}

impl Model for Latch {
    ghost Value = { DeviceState };

    ghost view = { λ l. record { kind = kinds.Latch; cells = l.cell; place = 0 } };
}

impl Latch {
    /// A latch that holds 0. It takes no memory, and so is never refused.
    pub fn new(_alloc: Global) -> Made<Latch>
        ensures { IsOkAnd result (λ l. l ≡ load kinds.Latch [] 0) }
    {
        Ok(Latch { cell: [0] })
    }
}

impl Device for Latch {
    ghost device_state = { λ l. record l { kind = kinds.Latch; place = 0 } };

    fn load(&mut self, cells: &[i32], _at: u64) -> Made<()> {
        self.cell = [cells.last().copied().unwrap_or(0)];
        Ok(())
    }

    fn call(&mut self, args: &[i32]) -> i32 {
        let reply = self.cell[0];
        if let Some(&first) = args.first() {
            self.cell = [first];
        }
        reply
    }

    fn kind(&self) -> DeviceKind {
        DeviceKind::Latch
    }

    fn cells(&self) -> &[i32] {
        &self.cell
    }

    fn place(&self) -> u64 {
        0
    }
}

/// The sum of a number and a list of numbers, which wraps at 32 bits.
fn sum_from(first: i32, numbers: &[i32]) -> i32
    ensures { result ≡ wrapping_sum (first ∷ numbers.now) }
{
    let mut total = first;
    for number in numbers {
        total = total.wrapping_add(*number);
    }
    total
}

/// A device whose calls take the ends of a range and reply with a number in it, chosen by one cell
/// after another. Past the last cell, and where the range is empty, they reply with its low end.
#[derive(Drop)]
pub struct Dice {
    cells: Vec<i32>,
    place: usize,
}

impl Model for Dice {
    ghost Value = { DeviceState };

    ghost view = { λ d. record { kind = kinds.Dice; cells = d.cells.items; place = d.place } };
}

impl Dice {
    /// Dice with no cells. They take no memory, and so are never refused.
    pub fn new(alloc: Global) -> Made<Dice>
        ensures { IsOkAnd result (λ d. d ≡ load kinds.Dice [] 0) }
    {
        Ok(Dice {
            cells: Vec::new(alloc),
            place: 0,
        })
    }
}

impl Device for Dice {
    ghost device_state = { λ d. record d { kind = kinds.Dice } };

    fn load(&mut self, numbers: &[i32], at: u64) -> Made<()> {
        self.cells = Vec::from_slice(*self.cells.allocator(), numbers)?;
        self.place = numbers.len().min(at as usize);
        Ok(())
    }

    fn call(&mut self, args: &[i32]) -> i32 {
        let low = argument_at(args, 0);
        let high = argument_at(args, 1);
        if high < low {
            return low;
        }
        let Some(&number) = self.cells.get(self.place) else {
            return low;
        };
        self.place += 1;
        choose(low, high, number)
    }

    fn kind(&self) -> DeviceKind {
        DeviceKind::Dice
    }

    fn cells(&self) -> &[i32] {
        &self.cells
    }

    fn place(&self) -> u64 {
        self.place as u64
    }
}

/// The argument at a place, or 0 where it is missing.
fn argument_at(arguments: &[i32], place: usize) -> i32
    ensures { result ≡ argument arguments.now place }
{
    arguments.get(place).copied().unwrap_or(0)
}

/// How many numbers there are from `low` to `high`.
fn range_size(low: i32, high: i32) -> u64
    requires { low ≤ℤ high }
    ensures size { result ≡ unsigned_abs (high -ℤ low +ℤ pos 1) }
    ensures whole { pos result ≡ high -ℤ low +ℤ pos 1 }
{
    u64::from(high.abs_diff(low)) + 1
}

/// A number from `low` to `high`, chosen by a cell that is read as an unsigned number.
fn choose(low: i32, high: i32, cell: i32) -> i32
    requires { low ≤ℤ high }
    ensures { result ≡ number_in_range low high cell }
{
    let offset = u64::from(cell.cast_unsigned()) % range_size(low, high);
    (i64::from(low) + offset as i64) as i32
}
