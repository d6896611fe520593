//! A set of stacks, kept as bits of words.

ghost use Rattle.std.specs.Prelude.{◌≡◌, ◌<◌, ◌≤◌, ◌+◌, ◌*◌, ◌-◌, ◌==◌, ℕ, true, false, IfOk, IfSome, IfNone, vec_len, find, if◌then◌else◌};
ghost use Rattle.std.specs.Option.{ForSome};
ghost use Rattle.std.specs.Int.{bit_at};
ghost use Rattle.lock_queue.specs.Ready.{is_member};
ghost use Rattle.lock_queue.specs.LockTable.{is_some_of, numbers_from};

use std::alloc::{AllocError, Global};

/// A set of stacks. Its least member is found by reading words.
#[derive(Drop)]
pub struct ReadySet {
    words: Vec<u64>,
    // Stacks have numbers of 16 bits.
    ghost bounded: { vec_len words ≤ 1024 },
}

impl ReadySet {
    /// No member, and room for stacks below this number.
    pub fn with_room(alloc: Global, stacks: u16) -> Result<ReadySet, AllocError>
        ensures room { IfOk result (λ s. stacks ≤ 64 * vec_len s.words) }
        ensures empty { IfOk result (λ s. (k : ℕ) → is_member s.words.items k ≡ false) }
    {
        let words = vec![in alloc; 0u64; usize::from(stacks).div_ceil(64)]?;
        Ok(ReadySet { words })
    }

    /// Puts a stack in or takes it out.
    pub fn set(&mut self, stack: u16, is_in: bool)
        requires { stack < 64 * vec_len self.old.words }
        ensures room { vec_len self.new.words ≡ vec_len self.old.words }
        ensures members { (k : ℕ) → is_member self.new.words.items k
            ≡ (if k == stack then is_in else is_member self.old.words.items k) }
    {
        let place = usize::from(stack / 64);
        let word = self.words[place];
        self.words[place] = with_bit(word, stack % 64, is_in);
    }

    /// Puts a stack in, if one is given.
    pub fn insert(&mut self, stack: Option<u16>)
        requires { ForSome stack (λ s. s < 64 * vec_len self.old.words) }
        ensures room { vec_len self.new.words ≡ vec_len self.old.words }
        ensures members { (k : ℕ) → is_member self.new.words.items k
            ≡ (if is_some_of k stack then true else is_member self.old.words.items k) }
    {
        if let Some(stack) = stack {
            self.set(stack, true);
        }
    }

    /// The least member from a number on.
    pub fn first_from(&self, start: usize) -> Option<usize>
        ensures found { IfSome result (λ k. (start ≤ k) × (is_member self.now.words.items k ≡ true)) }
        ensures least { IfSome result (λ k. (j : ℕ) → start ≤ j → j < k
            → is_member self.now.words.items j ≡ false) }
        ensures none { IfNone result ((j : ℕ) → start ≤ j → is_member self.now.words.items j ≡ false) }
    {
        let mut from = (start % 64) as u32;
        for index in start / 64..self.words.len() {
            if let Some(place) = lowest_bit(self.words[index], from) {
                return Some(64 * index + place as usize);
            }
            from = 0;
        }
        None
    }

    /// The first member from a number on, or else from 0.
    pub fn next_from(&self, start: usize) -> Option<usize>
        ensures { (bound : ℕ) → start ≤ bound
            → ((j : ℕ) → bound ≤ j → is_member self.now.words.items j ≡ false)
            → result ≡ find (is_member self.now.words.items) (numbers_from start bound) }
    {
        match self.first_from(start) {
            Some(stack) => Some(stack),
            None => self.first_from(0),
        }
    }
}

fn with_bit(word: u64, place: u16, is_set: bool) -> u64
    requires { place < 64 }
    ensures { (k : ℕ) → k < 64 → (bit_at result k == 1)
        ≡ (if k == place then is_set else bit_at word k == 1) }
{
    let bit = 1u64 << place;
    if is_set { word | bit } else { word & !bit }
}

fn lowest_bit(word: u64, from: u32) -> Option<u32>
    requires { from < 64 }
    ensures found { IfSome result (λ k. (from ≤ k) × (k < 64) × (bit_at word k ≡ 1)) }
    ensures least { IfSome result (λ k. (j : ℕ) → from ≤ j → j < k → bit_at word j ≡ 0) }
    ensures none { IfNone result ((j : ℕ) → from ≤ j → j < 64 → bit_at word j ≡ 0) }
{
    let rest = word & (u64::MAX << from);
    if rest == 0 {
        None
    } else {
        Some(rest.trailing_zeros())
    }
}
