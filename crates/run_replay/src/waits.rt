//! What is counted of a journal.

ghost use Rattle.std.specs.Prelude.{◌≡◌, ◌<◌, ◌^◌, ℕ, map, slice_index};
ghost use Rattle.run_replay.specs.Book.{added};

use papy_base::Text;

/// What a legal journal names and counts.
#[derive(Debug, Drop)]
pub struct Waits {
    /// The number of turns.
    pub turns: u32,
    /// The name of each instance, in order, with the number of turns for which stacks waited for it, all together.
    pub instances: Vec<(Text, u64)>,
}

/// A count grows.
pub(crate) fn add_to(instance: u16, amount: u32, instances: &mut Vec<(Text, u64)>)
    requires { (i : ℕ) → slice_index (map (λ p. p.1) instances.old.items) i < 2 ^ 63 }
    ensures names { map (λ p. p.0) instances.new.items ≡ map (λ p. p.0) instances.old.items }
    ensures counts { map (λ p. p.1) instances.new.items ≡ added (map (λ p. p.1) instances.old.items) instance amount }
{
    let at = usize::from(instance);
    if at < instances.len() {
        instances[at].1 += u64::from(amount);
    }
}
