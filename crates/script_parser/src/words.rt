// How many different words, texts and documentation texts a file has.
ghost use Rattle.std.specs.Prelude.{◌≡◌, ◌↔◌, true, [], ◌∷◌, IfOk, OnOk, IsTrue};
ghost use Rattle.std.specs.List.{list_any};
ghost use Rattle.std.specs.Str.{bytes_eq};
ghost use Rattle.indexmap.specs.IndexSet.{insert_all};
ghost use Rattle.script_parser.specs.Held.{held};
ghost use Rattle.script_parser.specs.Words.{word_of, words_in, words_of, CountsDifferent};

use indexmap::IndexSet;
use papy_base::{Made, OutOfMemory};
use script_lexer::{Line, Spanned, Token};
use std::alloc::Global;

// The number of places where words are looked up before the set of all is.
const PLACES: usize = 256;

// The byte lists that were added, each once.
#[derive(Drop)]
struct Words<'a> {
    all: IndexSet<&'a [u8]>,
    // At the place of a byte list that was added lately its index in `all`: most words came lately.
    lately: Vec<usize>,
}

/// The number of different byte lists among the lines' words, texts and documentation texts.
pub(crate) fn count_words(alloc: Global, lines: &[Line]) -> Made<u32>
    ensures { IfOk result (λ count. CountsDifferent (words_of lines.now) count) }
{
    let lately = vec![in alloc; 0; PLACES]?;
    let mut words = Words {
        all: IndexSet::new(alloc),
        lately,
    };
    for line in lines {
        add_words(&mut words, line.tokens.as_slice())?;
    }
    let count = words.all.len();
    // A set of 2^32 words finds no memory first.
    if count > u32::MAX as usize {
        return Err(OutOfMemory);
    }
    Ok(count as u32)
}

fn add_words<'a>(words: &mut Words<'a>, tokens: &'a [Spanned]) -> Made<()>
    ensures { OnOk result
        (held words.new.all ≡ insert_all bytes_eq (held words.old.all) (words_in tokens.now)) }
{
    for spanned in tokens {
        add_word(words, &spanned.token)?;
    }
    Ok(())
}

fn add_word<'a>(words: &mut Words<'a>, token: &'a Token) -> Made<()>
    ensures { OnOk result
        (held words.new.all ≡ insert_all bytes_eq (held words.old.all) (word_of token.now)) }
{
    match token {
        Token::Word(name) => add_bytes(words, name.as_bytes()),
        Token::Quoted(text) => add_bytes(words, text.as_bytes()),
        Token::Doc(text) => add_bytes(words, text.as_bytes()),
        _ => Ok(()),
    }
}

fn add_bytes<'a>(words: &mut Words<'a>, bytes: &'a [u8]) -> Made<()>
    ensures { OnOk result
        (held words.new.all ≡ insert_all bytes_eq (held words.old.all) (bytes.now ∷ [])) }
{
    let place = place_of(bytes);
    if came_lately(words, place, bytes) {
        return Ok(());
    }
    insert(words, place, bytes)
}

// Whether the byte list at this place is this one.
fn came_lately(words: &Words<'_>, place: usize, bytes: &[u8]) -> bool
    ensures { IsTrue result → list_any (bytes_eq bytes.now) (held words.now.all) ≡ true }
{
    let Some(index) = words.lately.get(place) else {
        return false;
    };
    match words.all.get_index(*index) {
        Some(word) => are_same(bytes, word),
        None => false,
    }
}

// For the few bytes of a word this is quicker than the comparison of slices.
fn are_same(left: &[u8], right: &[u8]) -> bool
    ensures { IsTrue result ↔ left.now ≡ right.now }
{
    left.len() == right.len() && left.iter().zip(right).all(|(a, b)| a == b)
}

// It is rare, so it stays out of the way of the words that came lately.
#[inline(never)]
fn insert<'a>(words: &mut Words<'a>, place: usize, bytes: &'a [u8]) -> Made<()>
    ensures { OnOk result
        (held words.new.all ≡ insert_all bytes_eq (held words.old.all) (bytes.now ∷ [])) }
{
    let (index, _) = words.all.insert_full(bytes)?;
    note(&mut words.lately, place, index);
    Ok(())
}

fn note(lately: &mut Vec<usize>, place: usize, index: usize) {
    if let Some(last) = lately.get_mut(place) {
        *last = index;
    }
}

// The place of a byte list, by its ends and its length.
fn place_of(bytes: &[u8]) -> usize {
    match (bytes.first(), bytes.last()) {
        (Some(first), Some(last)) => {
            let ends = usize::from(*first) + usize::from(*last) * 33;
            (ends + bytes.len() % PLACES * 1089) % PLACES
        }
        _ => 0,
    }
}
