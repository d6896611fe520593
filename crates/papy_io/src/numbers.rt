//! Numbers of calls, and counts of 64 bits that stay at their last value.
ghost use Rattle.std.specs.Prelude.{◌≡◌, ◌↔◌, IsTrue, Contains};
ghost use Rattle.papy_io.specs.Count.{counted, counted_by};

/// Tells whether a number is listed.
pub(crate) fn is_listed(numbers: &[u32], number: u64) -> bool
    ensures { IsTrue result ↔ Contains numbers.now number }
{
    numbers.iter().any(|listed| u64::from(*listed) == number)
}

/// The count after one more.
pub(crate) fn counted(count: u64) -> u64
    ensures { result ≡ counted count }
{
    count.saturating_add(1)
}

/// The count after so many more.
pub(crate) fn counted_by(count: u64, more: u64) -> u64
    ensures { result ≡ counted_by count more }
{
    count.saturating_add(more)
}
