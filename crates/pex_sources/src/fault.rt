use papy_base::Fault;

/// The files aren't what a compiler writes.
#[derive(Clone, Copy, PartialEq, Eq)]
pub struct NotFound;

/// Why files have no sources.
pub type SourceFault = Fault<NotFound>;

/// What is read isn't what a compiler writes, or not in this way.
pub(crate) const NOT_FOUND: SourceFault = Fault::Broken(NotFound);

/// What was found, or why nothing was.
pub(crate) type Attempt<T> = Result<T, SourceFault>;

/// `NotFound` comes unless this holds.
pub(crate) fn check(holds: bool) -> Attempt<()> {
    if holds { Ok(()) } else { Err(NOT_FOUND) }
}
