//! The bytes of a held file to its files, its scene and its state.

ghost use Rattle.std.specs.Prelude.{◌≡◌, ◌^◌, ◌++◌, ⊤, ℕ, List, [], map, MatchOption};
ghost use Rattle.std.specs.List.{flat_map};
ghost use Rattle.machine_state.specs.Plain.{PlainState, plain};
ghost use Rattle.machine_state.specs.Ranges.{IsU16, IsPairInRange, IsSleeperInRange, IsInRange};
ghost use Rattle.machine_state.specs.Savable.{FitsFourBytes, IsSavable, firsts};
ghost use Rattle.pex_values.specs.Spelling as pex;
ghost use Rattle.stack_save.specs.Held.{LoadGives, HasHeading, Spells};
ghost use Rattle.stack_save.specs.Loading.{IsLayout, ReadsLayout, DecodesFiles, held_fields, plain_layout, lent};
ghost use Rattle.stack_save.specs.Parts.{AreAscending, AreItems, AreParts, IsPart, Takes};
ghost use Rattle.stack_save.specs.Reading as reading;
ghost use Rattle.stack_save.specs.Spelling as spell;

use crate::fault::{HeldFault, HeldRule, Taken, refused};
use crate::fields::Cursor;
use crate::items::take_list;
use crate::{HEADING, HELD_LIMIT};
use machine_state::MachineState;
use pex_codec::decode;
use pex_values::Pex;
use std::alloc::Global;

// ---- the state of the machine

fn take_owners(cursor: &mut Cursor<'_>) -> Taken<Vec<(u16, u16)>>
    ensures { Takes (λ owners. owners.items) (AreAscending firsts IsPairInRange) (pex.list pex.pair) reading.owners_at result cursor.old.rest.now cursor.new.rest.now }
{
    let owners: Vec<(u16, u16)> = take_list(cursor)?;
    if !owners.is_sorted_by(|a, b| a.0 < b.0) {
        return Err(refused(HeldRule::BadLayout));
    }
    Ok(owners)
}

fn take_free(cursor: &mut Cursor<'_>) -> Taken<Vec<u16>>
    ensures { Takes (λ free. free.items) (AreAscending (λ free. free) IsU16) (pex.list pex.two_bytes) reading.free_at result cursor.old.rest.now cursor.new.rest.now }
{
    let free: Vec<u16> = take_list(cursor)?;
    if !free.is_sorted_by(|a, b| *a < *b) {
        return Err(refused(HeldRule::BadLayout));
    }
    Ok(free)
}

fn take_asleep(cursor: &mut Cursor<'_>) -> Taken<Vec<(u16, u32)>>
    ensures { Takes (λ asleep. asleep.items) (AreAscending firsts IsSleeperInRange) (pex.list spell.sleeper) reading.asleep_at result cursor.old.rest.now cursor.new.rest.now }
{
    let asleep: Vec<(u16, u32)> = take_list(cursor)?;
    if !asleep.is_sorted_by(|a, b| a.0 < b.0) {
        return Err(refused(HeldRule::BadLayout));
    }
    Ok(asleep)
}

#[tactic(auto, unfolding(crate::specs::Reading::state_at, crate::specs::Reading::locks_at, crate::specs::Reading::things_at))]
fn take_state(cursor: &mut Cursor<'_>) -> Taken<MachineState>
    ensures { Takes plain (IsPart IsSavable IsInRange) spell.state reading.state_at result cursor.old.rest.now cursor.new.rest.now }
{
    Ok(MachineState {
        turn: cursor.take_u32()?,
        last: cursor.take_number_or_none()?,
        instances: take_list(cursor)?,
        owners: take_owners(cursor)?,
        waiters: take_list(cursor)?,
        free: take_free(cursor)?,
        asleep: take_asleep(cursor)?,
        arrays: take_list(cursor)?,
        devices: take_list(cursor)?,
        stacks: take_list(cursor)?,
    })
}

// ---- the file

/// What a held file holds.
#[derive(Drop)]
pub struct Held {
    /// The PEX files.
    pub files: Vec<Pex>,
    /// The bytes of the scene file.
    pub scene: Vec<u8>,
    pub state: MachineState,
}

/// A held file with its PEX files and its scene as they stand in its bytes.
#[derive(Drop)]
pub(crate) struct HeldParts<'a> {
    pub(crate) files: Vec<&'a [u8]>,
    pub(crate) scene: &'a [u8],
    pub(crate) state: MachineState,
}

/// So many files.
fn take_each_file<'a>(cursor: &mut Cursor<'a>, count: usize) -> Taken<Vec<&'a [u8]>>
    ensures { Takes (λ files. map lent files.items) (AreItems count FitsFourBytes (λ file. ⊤)) (flat_map spell.long_string) (reading.items_at reading.long_string_at count) result cursor.old.rest.now cursor.new.rest.now }
{
    let mut files = Vec::new(cursor.alloc);
    'files: for _ in 0..count {
        let file = cursor.take_long_string()?;
        files.push(file)?;
    }
    Ok(files)
}

#[tactic(auto, unfolding(crate::specs::Reading::list_at))]
fn take_files<'a>(cursor: &mut Cursor<'a>) -> Taken<Vec<&'a [u8]>>
    ensures { Takes (λ files. map lent files.items) (AreParts (2 ^ 16) FitsFourBytes (λ file. ⊤)) (pex.list spell.long_string) (reading.list_at reading.long_string_at) result cursor.old.rest.now cursor.new.rest.now }
{
    let count = cursor.take_u16()?;
    take_each_file(cursor, count as usize)
}

/// What stands behind the heading.
#[tactic(auto, unfolding(crate::specs::Reading::held_at))]
fn take_layout<'a>(cursor: &mut Cursor<'a>) -> Taken<HeldParts<'a>>
    ensures { Takes plain_layout IsLayout held_fields reading.held_at result cursor.old.rest.now cursor.new.rest.now }
{
    Ok(HeldParts {
        files: take_files(cursor)?,
        scene: cursor.take_long_string()?,
        state: take_state(cursor)?,
    })
}

/// The layout of a file with these bytes behind its heading.
fn read_layout<'a>(alloc: Global, bytes: &'a [u8]) -> Taken<HeldParts<'a>>
    ensures { ReadsLayout bytes.now result }
{
    let mut cursor = Cursor { rest: bytes, alloc };
    let layout = take_layout(&mut cursor)?;
    if !cursor.rest.is_empty() {
        drop(layout);
        return Err(refused(HeldRule::BadLayout));
    }
    Ok(layout)
}

/// The values of the PEX files.
#[tactic(auto, using(crate::proofs::Faults::breaks_files))]
fn decode_files(alloc: Global, files: &[&[u8]]) -> Result<Vec<Pex>, HeldFault>
    ensures { DecodesFiles (map lent files.now) result }
{
    let mut values = Vec::new(alloc);
    for file in files {
        let value = decode(alloc, file)?;
        values.push(value)?;
    }
    Ok(values)
}

/// The bytes behind the heading.
fn behind_heading(bytes: &[u8]) -> Option<&[u8]>
    ensures { MatchOption result (¬ HasHeading bytes.now) (λ rest. bytes.now ≡ spell.heading ++ rest.now) }
{
    match bytes {
        [0x50, 0x48, 0x4C, 0x44, 1, rest @ ..] => Some(rest),
        _ => None,
    }
}

/// The files, the scene and the state of a held file. The rules H7, H1, H2 and H3 are judged in this order: H3 is broken
/// here where a PEX file in it can't be decoded.
pub fn load(alloc: Global, bytes: &[u8]) -> Result<Held, HeldFault>
    ensures { LoadGives bytes.now result }
{
    if bytes.len() > HELD_LIMIT as usize {
        return Err(refused(HeldRule::TooLarge));
    }
    let Some(rest) = behind_heading(bytes) else {
        return Err(refused(HeldRule::BadMagic));
    };
    let layout = read_layout(alloc, rest)?;
    Ok(Held {
        files: decode_files(alloc, &layout.files)?,
        scene: layout.scene.to_vec(alloc)?,
        state: layout.state,
    })
}

/// A held file tells the files, the scene and the state that it spells, and no held file is a proper first part of
/// another: where bytes spell some, and these bytes with others behind them spell some, these are the same and there are
/// no others. So loading what was saved gives back what was saved.
pub fn one_spelling()
    ensures files { (files files' : List (List ℕ)) (scene scene' : List ℕ) (state state' : PlainState) (bytes rest : List ℕ) → Spells files scene state bytes → Spells files' scene' state' (bytes ++ rest) → files ≡ files' }
    ensures scene { (files files' : List (List ℕ)) (scene scene' : List ℕ) (state state' : PlainState) (bytes rest : List ℕ) → Spells files scene state bytes → Spells files' scene' state' (bytes ++ rest) → scene ≡ scene' }
    ensures state { (files files' : List (List ℕ)) (scene scene' : List ℕ) (state state' : PlainState) (bytes rest : List ℕ) → Spells files scene state bytes → Spells files' scene' state' (bytes ++ rest) → state ≡ state' }
    ensures whole { (files files' : List (List ℕ)) (scene scene' : List ℕ) (state state' : PlainState) (bytes rest : List ℕ) → Spells files scene state bytes → Spells files' scene' state' (bytes ++ rest) → rest ≡ [] }
{}
