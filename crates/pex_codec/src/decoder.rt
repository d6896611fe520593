//! Takes the bytes of a file, in any pieces or at once.

ghost use Rattle.std.specs.Prelude.{◌≡◌, IfOk, []};
ghost use Rattle.pex_codec.specs.DecoderState.{Follows, GoesOver, IsOpen, TakesPiece};
ghost use Rattle.pex_codec.specs.Decoding.{IsNew, FeedGives, EndGives, FinishGives, GotAll, DecoderOf, Decodes, Judges};

use crate::cursor::{Cursor, Stop, Taken};
use crate::faults::{PexFault, PexRule};
use crate::file::pex;
use crate::scan::Scan;
use papy_base::{Fault, Made, OutOfMemory};
use pex_values::{FILE_LIMIT, Pex};
use std::alloc::Global;
use std::marker::Model;

/// How far a decoder has come.
#[derive(Clone, Copy)]
pub enum Standing {
    /// The value isn't complete.
    Reading,
    /// The value is complete.
    Complete,
    /// The bytes were refused, or no memory was found.
    Refused(PexFault),
}

/// What a piece led to.
#[derive(Clone, Copy, Debug, PartialEq, Eq)]
pub enum Fed {
    /// All of the piece was taken, and the value isn't complete.
    More,
    /// The value is complete. It ended after so many bytes of the piece.
    Done { taken: usize },
}

/// The bytes that were taken, the offset of the first that belongs to the open item, and what is to come from there on.
#[derive(Drop)]
pub(crate) struct ScannedBytes {
    pub(crate) bytes: Vec<u8>,
    pub(crate) open: u32,
    pub(crate) scan: Scan,
}

impl ScannedBytes {
    pub(crate) fn new(alloc: Global) -> Made<ScannedBytes>
        ensures open { IfOk result IsOpen }
        ensures none { IfOk result (λ t. t.bytes.items ≡ []) }
    {
        let scan = Scan::new(alloc)?;
        Ok(ScannedBytes {
            bytes: Vec::new(alloc),
            open: 0,
            scan,
        })
    }

    /// Goes over the bytes from the open item on.
    fn go_over(&mut self) -> Taken<()>
        requires { Follows self.old }
        ensures { GoesOver self.old result self.new }
    {
        let mut cursor = Cursor {
            at: self.open,
            rest: &self.bytes[self.open as usize..],
        };
        let outcome = self.scan.go_on(&mut cursor);
        self.open = cursor.at;
        outcome
    }

    /// Takes of a piece what is left of 16 MiB, and goes over it.
    pub(crate) fn take(&mut self, piece: &[u8]) -> Result<Fed, PexFault>
        requires { IsOpen self.old }
        ensures { TakesPiece self.old piece.now result self.new }
    {
        let before = self.bytes.len();
        let count = piece.len().min(FILE_LIMIT as usize - before);
        self.bytes.extend_from_slice(&piece[..count])?;
        match self.go_over() {
            Ok(()) => {
                let end = self.open as usize;
                self.bytes.truncate(end);
                Ok(Fed::Done {
                    taken: end - before,
                })
            }
            Err(Fault::Broken(Stop::Short)) if count < piece.len() => {
                Err(PexRule::TooLarge.broken_at(FILE_LIMIT))
            }
            Err(Fault::Broken(Stop::Short)) => Ok(Fed::More),
            Err(Fault::Broken(Stop::Refused { offset, rule })) => Err(rule.broken_at(offset)),
            Err(Fault::OutOfMemory) => Err(PexFault::OutOfMemory),
        }
    }
}

/// Reads a value from the bytes that spell it. They come in any pieces, and no cut between them changes an
/// answer. It keeps the bytes that it took, at most 16 MiB, and what is to come behind them.
#[derive(Drop)]
pub struct Decoder {
    alloc: Global,
    taken: ScannedBytes,
    standing: Standing,
}

impl Model for Decoder {
    ghost use Rattle.pex_codec.specs.Decoding.{Progress};

    ghost Value = { Progress };

    ghost use Rattle.pex_codec.specs.DecoderState.{progress_of, IsSound};

    ghost view = { progress_of };

    ghost invariant = { IsSound };
}

impl Decoder {
    /// Has taken no byte.
    pub fn new(alloc: Global) -> Made<Decoder>
        ensures { IfOk result IsNew }
    {
        let taken = ScannedBytes::new(alloc)?;
        Ok(Decoder {
            alloc,
            taken,
            standing: Standing::Reading,
        })
    }

    /// Takes the next piece. `More` says that all of it was taken, and `Done` that the value ended within it. Before
    /// the value's end an empty piece is answered `More`.
    /// An empty piece after the value's end is answered `Done { taken: 0 }`, any other one there is `Trailing`.
    /// The rules of the file are judged as `PexRule` says. After a refusal, or want of memory, each further
    /// call answers the same.
    pub fn feed(&mut self, piece: &[u8]) -> Result<Fed, PexFault>
        ensures { FeedGives self.old piece.now result self.new }
    {
        let outcome = match self.standing {
            Standing::Refused(fault) => return Err(fault),
            Standing::Complete if piece.is_empty() => return Ok(Fed::Done { taken: 0 }),
            Standing::Complete => Err(PexRule::Trailing.broken_at(self.taken.bytes.len() as u32)),
            Standing::Reading => self.taken.take(piece),
        };
        self.standing = match outcome {
            Ok(Fed::More) => Standing::Reading,
            Ok(Fed::Done { .. }) => Standing::Complete,
            Err(fault) => Standing::Refused(fault),
        };
        outcome
    }

    /// The value that the bytes spell. `Truncated` comes where they spell none, and `OutOfMemory` where there is no memory for it.
    pub fn end(self) -> Result<Pex, PexFault>
        ensures { EndGives self result }
    {
        self.finish()?;
        match pex(self.alloc, &self.taken.bytes) {
            Ok(value) => Ok(value),
            // Bytes that spell a value are read, so only memory was wanting.
            Err(_) => Err(PexFault::OutOfMemory),
        }
    }

    /// Ok where the bytes so far spell a value. It answers as `end` does, and needs no memory, since it makes no value.
    pub fn finish(&self) -> Result<(), PexFault>
        ensures { FinishGives self.now result }
    {
        match self.standing {
            Standing::Refused(fault) => Err(fault),
            Standing::Complete => Ok(()),
            Standing::Reading => Err(PexRule::Truncated.broken_at(self.taken.bytes.len() as u32)),
        }
    }
}

/// Hands all bytes of a file to a decoder. Where some follow the value, that is its refusal.
fn feed_all(decoder: &mut Decoder, bytes: &[u8]) -> Result<(), PexFault>
    requires { IsNew decoder.old }
    ensures { GotAll bytes.now result decoder.new }
{
    match decoder.feed(bytes)? {
        Fed::Done { taken } if taken < bytes.len() => {
            decoder.feed(&bytes[taken..])?;
        }
        Fed::Done { .. } | Fed::More => {}
    }
    Ok(())
}

/// A decoder that got all bytes of a file.
fn decoder_of(alloc: Global, bytes: &[u8]) -> Result<Decoder, PexFault>
    ensures { DecoderOf bytes.now result }
{
    let mut decoder = Decoder::new(alloc)?;
    feed_all(&mut decoder, bytes)?;
    Ok(decoder)
}

/// The value that all of the bytes spell.
///
/// # Errors
///
/// `Broken` has the first rule that the bytes break, and its offset, as a `Decoder` tells them: `Truncated` where they end before a
/// value does, `Trailing` where some follow one. `OutOfMemory` comes where no memory was found.
pub fn decode(alloc: Global, bytes: &[u8]) -> Result<Pex, PexFault>
    ensures { Decodes bytes.now result }
{
    decoder_of(alloc, bytes)?.end()
}

/// Ok where the bytes spell a value. It answers as `decode` does, and makes no value, so it takes less time and memory.
pub fn judge(alloc: Global, bytes: &[u8]) -> Result<(), PexFault>
    ensures { Judges bytes.now result }
{
    decoder_of(alloc, bytes)?.finish()
}
