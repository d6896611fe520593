// What bytes stand for: what the first of a piece opens, and the classes of those that stand in a row.
ghost use Rattle.std.specs.Prelude.{◌≡◌, ◌≤◌, length};
ghost use Rattle.std.specs.List.{prefix_len};
ghost use Rattle.script_lexer.specs.Bytes.{class_test, is_word_start, opening_of, stays_in_line};

/// What the first byte of a piece opens.
#[derive(Clone, Copy)]
pub enum Opening {
    /// A blank is one byte.
    Blank,
    LineEnd,
    /// A backslash, which joins two physical lines.
    Join,
    Comment,
    Documentation,
    /// A quote opens a text.
    Quote,
    Number,
    Word,
    Sign,
    /// No piece begins with this byte.
    Nothing,
}

impl Opening {
    /// What a piece opens with this byte.
    #[tactic(auto, unfolding(crate::specs::Bytes::opening_of))]
    pub fn of(byte: u8) -> Opening
        ensures { result ≡ opening_of byte }
    {
        match byte {
            _ if is_word_start(byte) => Opening::Word,
            b' ' | b'\t' | b'\r' => Opening::Blank,
            b'\n' => Opening::LineEnd,
            b'\\' => Opening::Join,
            b';' => Opening::Comment,
            b'{' => Opening::Documentation,
            b'"' => Opening::Quote,
            b'0'..=b'9' => Opening::Number,
            b'!' | b'%' | b'&' | b'('..=b'/' | b'<'..=b'>' | b'[' | b']' | b'|' => Opening::Sign,
            _ => Opening::Nothing,
        }
    }

    /// Whether pieces that open so hold no line end. Other pieces may hold some.
    pub fn stays_in_line(self) -> bool
        ensures { result ≡ stays_in_line self }
    {
        matches!(self, Opening::Word | Opening::Number | Opening::Sign)
    }
}

/// A class of bytes that stand in a row.
#[derive(Clone, Copy)]
pub enum ByteClass {
    /// Space, tab and carriage return.
    Blank,
    /// What a comment up to the line's end may hold.
    Comment,
    /// What a documentation may hold.
    Documentation,
    Digit,
    HexDigit,
    /// Letters, digits and `_`.
    Word,
}

/// Whether a word may begin with the byte.
pub fn is_word_start(byte: u8) -> bool
    ensures { result ≡ is_word_start byte }
{
    byte.is_ascii_alphabetic() || byte == b'_'
}

impl ByteClass {
    fn holds(self, byte: u8) -> bool
        ensures { result ≡ class_test self byte }
    {
        match self {
            ByteClass::Blank => byte == b' ' || byte == b'\t' || byte == b'\r',
            ByteClass::Comment => byte != b'\n',
            ByteClass::Documentation => byte != b'}',
            ByteClass::Digit => byte.is_ascii_digit(),
            ByteClass::HexDigit => byte.is_ascii_hexdigit(),
            ByteClass::Word => is_word_start(byte) || byte.is_ascii_digit(),
        }
    }

    /// How many bytes at the front are of the class.
    pub fn run_len(self, bytes: &[u8]) -> usize
        ensures run { result ≡ prefix_len (class_test self) bytes.now }
        ensures within { result ≤ length bytes.now }
    {
        for (at, byte) in bytes.iter().enumerate() {
            if !self.holds(*byte) {
                return at;
            }
        }
        bytes.len()
    }
}
