ghost use Rattle.std.specs.Prelude.{◌≡◌, ◌≢◌, ◌<◌, ◌↔◌, IsTrue, Some, MatchOption};
ghost use Rattle.papy_base.specs.Case.{folded};
ghost use Rattle.script_lexer.specs.declared.keyword.Keyword.{Keyword};
ghost use Rattle.script_lexer.specs.Words.{keyword_spelling, keyword_place};

/// A word that Papyrus keeps for itself, in any case of its letters.
#[derive(Clone, Copy, Debug, PartialEq, Eq)]
pub enum Keyword {
    As,
    Auto,
    AutoReadOnly,
    Bool,
    Else,
    ElseIf,
    EndEvent,
    EndFunction,
    EndIf,
    EndProperty,
    EndState,
    EndWhile,
    Event,
    Extends,
    False,
    Float,
    Function,
    Global,
    If,
    Import,
    Int,
    Length,
    Native,
    New,
    None,
    Parent,
    Property,
    Return,
    ScriptName,
    /// The word `Self`.
    SelfWord,
    State,
    String,
    True,
    While,
}

impl Keyword {
    /// The keyword's letters, all small.
    pub fn spelling(self) -> &'static [u8]
        ensures { result.now ≡ keyword_spelling self }
    {
        match self {
            Keyword::As => b"as",
            Keyword::Auto => b"auto",
            Keyword::AutoReadOnly => b"autoreadonly",
            Keyword::Bool => b"bool",
            Keyword::Else => b"else",
            Keyword::ElseIf => b"elseif",
            Keyword::EndEvent => b"endevent",
            Keyword::EndFunction => b"endfunction",
            Keyword::EndIf => b"endif",
            Keyword::EndProperty => b"endproperty",
            Keyword::EndState => b"endstate",
            Keyword::EndWhile => b"endwhile",
            Keyword::Event => b"event",
            Keyword::Extends => b"extends",
            Keyword::False => b"false",
            Keyword::Float => b"float",
            Keyword::Function => b"function",
            Keyword::Global => b"global",
            Keyword::If => b"if",
            Keyword::Import => b"import",
            Keyword::Int => b"int",
            Keyword::Length => b"length",
            Keyword::Native => b"native",
            Keyword::New => b"new",
            Keyword::None => b"none",
            Keyword::Parent => b"parent",
            Keyword::Property => b"property",
            Keyword::Return => b"return",
            Keyword::ScriptName => b"scriptname",
            Keyword::SelfWord => b"self",
            Keyword::State => b"state",
            Keyword::String => b"string",
            Keyword::True => b"true",
            Keyword::While => b"while",
        }
    }

    /// The keyword that the word is in small letters.
    pub(crate) fn of(word: &[u8]) -> Option<Keyword>
        ensures { MatchOption result ((k : Keyword) → folded word.now ≢ keyword_spelling k) (λ k. folded word.now ≡ keyword_spelling k) }
    {
        match candidate(word) {
            Some(keyword) if is_spelled(word, keyword.spelling()) => Some(keyword),
            _ => None,
        }
    }
}

// Whether the word is this spelling in small letters. For few bytes this is quicker than the comparison of slices.
fn is_spelled(word: &[u8], spelling: &[u8]) -> bool
    ensures { IsTrue result ↔ folded word.now ≡ spelling.now }
{
    word.len() == spelling.len()
        && word
            .iter()
            .zip(spelling)
            .all(|(byte, letter)| byte.to_ascii_lowercase() == *letter)
}

/// The keyword at each place, which is the only one that a word of that place can be.
#[rattlefmt::skip]
static CANDIDATES: [Option<Keyword>; 64] = [
    Some(Keyword::Return), Some(Keyword::If), None, Some(Keyword::False), None, None,
    Some(Keyword::As), None, Some(Keyword::Parent), Some(Keyword::Property),
    Some(Keyword::ScriptName), None, Some(Keyword::AutoReadOnly), None, None, Some(Keyword::Native),
    Some(Keyword::EndProperty), Some(Keyword::True), Some(Keyword::Float), None, None, None,
    Some(Keyword::Auto), Some(Keyword::Int), Some(Keyword::Function), None, Some(Keyword::Extends),
    Some(Keyword::Import), Some(Keyword::Else), None, Some(Keyword::Bool), None,
    Some(Keyword::EndState), None, None, Some(Keyword::None), None, None, None,
    Some(Keyword::Event), Some(Keyword::Length), Some(Keyword::New), Some(Keyword::While),
    Some(Keyword::EndEvent), None, Some(Keyword::EndIf), None, None, Some(Keyword::EndWhile),
    Some(Keyword::ElseIf), None, None, None, None, None, Some(Keyword::SelfWord),
    Some(Keyword::String), Some(Keyword::Global), None, None, None, Some(Keyword::EndFunction),
    Some(Keyword::State), None,
];

// The place of a word among the candidates, which its first, middle and last letters give in any case.
fn place_of(word: &[u8]) -> usize
    ensures value { result ≡ keyword_place (folded word.now) }
    ensures within { result < 64 }
{
    if word.len() < 2 {
        return 0;
    }
    let first = word[0].to_ascii_lowercase() as usize;
    let middle = word[word.len() / 2].to_ascii_lowercase() as usize;
    let last = word[word.len() - 1].to_ascii_lowercase() as usize;
    (3 * first + 4 * middle + 13 * last) % 64
}

// The only keyword that the word can be, in any case.
fn candidate(word: &[u8]) -> Option<Keyword>
    ensures { (k : Keyword) → folded word.now ≡ keyword_spelling k → result ≡ Some k }
{
    CANDIDATES[place_of(word)]
}
