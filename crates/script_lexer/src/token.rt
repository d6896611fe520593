use crate::keyword::Keyword;
use crate::sign::Sign;
use papy_base::{Name, Text};

/// A token, with what it means.
#[derive(Drop)]
pub enum Token {
    /// A word that is no keyword, as it is spelled: at most 255 bytes.
    Word(Name),
    /// A keyword, in any case.
    Key(Keyword),
    /// A number. `0xFFFFFFFF` is -1.
    Int(i32),
    /// A text, with its escapes read: at most 1,024 bytes.
    Quoted(Text),
    /// A documentation, the bytes between its braces: at most 65,535.
    Doc(Text),
    /// A sign.
    Sign(Sign),
}

/// A token and where it stands: the bytes of the file from `from` to before `until`, which count from
/// 0 and include a byte order mark.
#[derive(Drop)]
pub struct Spanned {
    pub token: Token,
    pub from: u32,
    pub until: u32,
}
