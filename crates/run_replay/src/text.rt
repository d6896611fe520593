//! The text of a journal.

ghost use Rattle.std.specs.Prelude.{◌≡◌, ◌∷◌, [], IfOk, map};
ghost use Rattle.std.specs.String.{string_bytes};
ghost use Rattle.run_replay.specs.Lines.{Heading, Instance, Turn, End, Moved, ended_line, journal_text};

use crate::lock_move::LockMove;
use papy_base::{Made, Text};
use std::alloc::Global;

// The line of a move, with its end.
fn move_line(alloc: Global, moved: LockMove) -> Made<String>
    ensures { IfOk result (λ line. string_bytes line ≡ ended_line (Moved moved)) }
{
    let line = match moved {
        LockMove::Join(stack, instance) => format!(in alloc; "join {stack} {instance}\n")?,
        LockMove::Take(stack, instance) => format!(in alloc; "take {stack} {instance}\n")?,
        LockMove::Release(stack, instance) => format!(in alloc; "release {stack} {instance}\n")?,
        LockMove::Free(stack) => format!(in alloc; "free {stack}\n")?,
        LockMove::Leave(stack) => format!(in alloc; "leave {stack}\n")?,
        LockMove::Sleep(stack, until) => format!(in alloc; "sleep {stack} {until}\n")?,
        LockMove::Done(stack) => format!(in alloc; "done {stack}\n")?,
        LockMove::Run(stack) => format!(in alloc; "run {stack}\n")?,
        LockMove::Idle => format!(in alloc; "idle\n")?,
    };
    Ok(line)
}

/// The first lines of a journal, which name the instances in order.
pub fn heading(alloc: Global, names: &Vec<Text>) -> Made<Vec<u8>>
    ensures { IfOk result (λ text. text.items ≡ journal_text (Heading ∷ map Instance names.now.items)) }
{
    let mut text = b"journal 1\n".to_vec(alloc)?;
    for name in names {
        text.extend_from_slice(b"instance ")?;
        text.extend_from_slice(name.as_bytes())?;
        text.push(b'\n')?;
    }
    Ok(text)
}

/// The lines of a turn: its number, and then its moves in order.
pub fn turn_text(alloc: Global, turn: u32, moves: &Vec<LockMove>) -> Made<Vec<u8>>
    ensures { IfOk result (λ text. text.items ≡ journal_text (Turn turn ∷ map Moved moves.now.items)) }
{
    let line = format!(in alloc; "turn {turn}\n")?;
    let mut text = line.as_bytes().to_vec(alloc)?;
    for moved in moves {
        let line = move_line(alloc, *moved)?;
        text.extend_from_slice(line.as_bytes())?;
    }
    Ok(text)
}

/// The last line of a journal, with the number of turns.
pub fn ending(alloc: Global, turns: u32) -> Made<Vec<u8>>
    ensures { IfOk result (λ text. text.items ≡ journal_text (End turns ∷ [])) }
{
    let line = format!(in alloc; "end {turns}\n")?;
    Ok(line.as_bytes().to_vec(alloc)?)
}
