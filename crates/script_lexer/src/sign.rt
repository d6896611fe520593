ghost use Rattle.std.specs.Prelude.{◌≡◌};
ghost use Rattle.script_lexer.specs.Words.{sign_of_byte, sign_before_equal, sign_of_bytes};

/// A sign of one or two bytes.
#[derive(Clone, Copy, Debug, PartialEq, Eq)]
pub enum Sign {
    /// `(`
    OpenParen,
    /// `)`
    CloseParen,
    /// `[`
    OpenBracket,
    /// `]`
    CloseBracket,
    /// `,`
    Comma,
    /// `.`
    Dot,
    /// `=`
    Assign,
    /// `==`
    Equal,
    /// `!=`
    NotEqual,
    /// `<`
    Less,
    /// `>`
    Greater,
    /// `<=`
    LessEqual,
    /// `>=`
    GreaterEqual,
    /// `+`
    Plus,
    /// `-`
    Minus,
    /// `*`
    Star,
    /// `/`
    Slash,
    /// `%`
    Percent,
    /// `!`
    Not,
    /// `&&`
    And,
    /// `||`
    Or,
    /// `+=`
    PlusAssign,
    /// `-=`
    MinusAssign,
    /// `*=`
    StarAssign,
    /// `/=`
    SlashAssign,
    /// `%=`
    PercentAssign,
}

impl Sign {
    /// The sign that is this byte.
    pub(crate) fn of_byte(byte: u8) -> Option<Sign>
        ensures { result ≡ sign_of_byte byte }
    {
        match byte {
            b'(' => Some(Sign::OpenParen),
            b')' => Some(Sign::CloseParen),
            b'[' => Some(Sign::OpenBracket),
            b']' => Some(Sign::CloseBracket),
            b',' => Some(Sign::Comma),
            b'.' => Some(Sign::Dot),
            b'=' => Some(Sign::Assign),
            b'<' => Some(Sign::Less),
            b'>' => Some(Sign::Greater),
            b'+' => Some(Sign::Plus),
            b'-' => Some(Sign::Minus),
            b'*' => Some(Sign::Star),
            b'/' => Some(Sign::Slash),
            b'%' => Some(Sign::Percent),
            b'!' => Some(Sign::Not),
            _ => None,
        }
    }

    /// The sign that is this byte and `=`.
    fn before_equal(byte: u8) -> Option<Sign>
        ensures { result ≡ sign_before_equal byte }
    {
        match byte {
            b'=' => Some(Sign::Equal),
            b'!' => Some(Sign::NotEqual),
            b'<' => Some(Sign::LessEqual),
            b'>' => Some(Sign::GreaterEqual),
            b'+' => Some(Sign::PlusAssign),
            b'-' => Some(Sign::MinusAssign),
            b'*' => Some(Sign::StarAssign),
            b'/' => Some(Sign::SlashAssign),
            b'%' => Some(Sign::PercentAssign),
            _ => None,
        }
    }

    /// The sign that is these two bytes.
    pub(crate) fn of_bytes(first: u8, second: u8) -> Option<Sign>
        ensures { result ≡ sign_of_bytes first second }
    {
        match (first, second) {
            (_, b'=') => Sign::before_equal(first),
            (b'&', b'&') => Some(Sign::And),
            (b'|', b'|') => Some(Sign::Or),
            _ => None,
        }
    }
}
