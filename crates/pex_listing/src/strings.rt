//! The strings of a file by their bytes, and how references to them are spelled.

ghost use Rattle.std.specs.Prelude.{◌≡◌, ◌<◌, ◌≤◌, None, ◌∷◌, ◌++◌, length, vec_len, if◌then◌else◌, IfOk, IfSome, OnOk, map};
ghost use Rattle.std.specs.Fmt.{decimal};
ghost use Rattle.std.specs.List.{list_all, range_with_len};
ghost use Rattle.pex_listing.specs.Lines.{field, is_word_byte, is_word, reference};
ghost use Rattle.pex_listing.specs.Spelled.{HasWords, Noted, place_in, spelled_in, two_byte};

use itoa::Buffer;
use papy_base::{Made, Text};
use std::alloc::{AllocError, Global};
use std::collections::HashMap;

/// The most bytes of a string that a reference is spelled by.
const LONGEST_WORD: usize = 64;

/// Where the strings of a file stand, and how references to them are spelled.
#[derive(Drop)]
pub(crate) struct StringWords {
    /// The first place of each string that is a word.
    first: HashMap<Vec<u8>, usize>,
    /// The spelling of the reference to each string.
    pub spelled: Vec<Vec<u8>>,
}

fn is_word_byte(byte: u8) -> bool
    ensures { result ≡ is_word_byte byte }
{
    byte.is_ascii_alphanumeric() || matches!(byte, b'_' | b':' | b'.' | b'[' | b']')
}

fn are_word_bytes(bytes: &[u8]) -> bool
    ensures { result ≡ list_all is_word_byte bytes.now }
{
    bytes.iter().all(|byte| is_word_byte(*byte))
}

/// Whether a reference may be spelled by these bytes: one or more letters, digits, or `_ : . [ ]`.
pub(crate) fn is_word(bytes: &[u8]) -> bool
    ensures { result ≡ is_word bytes.now }
{
    !bytes.is_empty() && are_word_bytes(bytes)
}

/// How a reference to the string at this place is spelled: by its bytes where they are its own word, else by `#` and the
/// place.
fn spelling(alloc: Global, string: &[u8], place: usize, is_own_word: bool) -> Made<Vec<u8>>
    ensures { IfOk result (λ bytes. bytes.items ≡ (if is_own_word then string.now else 35 ∷ decimal place)) }
{
    if is_own_word {
        return Ok(Vec::from_slice(alloc, string)?);
    }
    let mut bytes = Vec::new(alloc);
    bytes.push(b'#')?;
    bytes.extend_from_slice(Buffer::new().format(place).as_bytes())?;
    Ok(bytes)
}

impl StringWords {
    pub(crate) fn new(alloc: Global, strings: &[Text]) -> Made<StringWords>
        ensures words { IfOk result (λ table. HasWords strings.now table) }
        ensures spelled { IfOk result (λ table. map (λ bytes. bytes.items) table.spelled.items ≡ map (reference strings.now) (range_with_len 0 (length strings.now))) }
        ensures count { IfOk result (λ table. vec_len table.spelled ≡ length strings.now) }
    {
        let mut words = StringWords {
            first: HashMap::new(alloc),
            spelled: Vec::new(alloc),
        };
        for (place, text) in strings.iter().enumerate() {
            let string = text.as_bytes();
            let is_own_word = words.note(alloc, string, place)?;
            let spelled = spelling(alloc, string, place, is_own_word)?;
            words.spelled.push(spelled)?;
        }
        Ok(words)
    }

    /// Notes the place of a string, which follows those that were noted, and says whether it is a word of its own.
    fn note(&mut self, alloc: Global, string: &[u8], place: usize) -> Made<bool>
        ensures { IfOk result (λ own. Noted self.old self.new string.now place own) }
    {
        if !is_word(string) {
            return Ok(false);
        }
        if self.first.contains_key(string) {
            return Ok(false);
        }
        self.first.insert(Vec::from_slice(alloc, string)?, place)?;
        Ok(string.len() <= LONGEST_WORD)
    }

    /// The first place of a string of these bytes, which are a word.
    pub(crate) fn place_of(&self, bytes: &[u8]) -> Option<u16>
        ensures { result ≡ two_byte (place_in self.now bytes.now) }
    {
        u16::try_from(*self.first.get(bytes)?).ok()
    }

    /// How a reference to the string at this place is spelled, if there is one.
    pub(crate) fn spelling_of(&self, place: u16) -> Option<&[u8]>
        ensures spelled { IfSome result (λ bytes. bytes.now ≡ spelled_in self.now place) }
        ensures known { IfSome result (λ _. place < vec_len self.now.spelled) }
        ensures unknown { result ≡ None → vec_len self.now.spelled ≤ place }
    {
        match self.spelled.get(place as usize) {
            Some(spelled) => Some(spelled.as_slice()),
            None => None,
        }
    }

    /// Adds a reference as a field.
    pub(crate) fn put(&self, out: &mut Vec<u8>, place: u16) -> Result<(), AllocError>
        ensures { OnOk result (out.new.items ≡ out.old.items ++ field (spelled_in self.now place)) }
    {
        out.push(b' ')?;
        match self.spelled.get(place as usize) {
            Some(spelled) => out.extend_from_slice(spelled.as_slice()),
            None => {
                out.push(b'#')?;
                out.extend_from_slice(Buffer::new().format(place).as_bytes())
            }
        }
    }
}
