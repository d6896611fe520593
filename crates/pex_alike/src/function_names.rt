// What the names in the code of a function mean.
ghost use Rattle.std.specs.Prelude.{◌≡◌, ◌↔◌, IsTrue};
ghost use Rattle.std.specs.Str.{bytes_eq};
ghost use Rattle.papy_base.specs.Case.{folded};
ghost use Rattle.pex_values.specs.Plain.{plain_function};
ghost use Rattle.pex_alike.specs.SameCode.{SameString, SameWord, meaning_of, naming_of, no_slots, place_in, without_slots};
ghost use Rattle.pex_alike.specs.FunctionNaming.{naming};

use papy_base::Text;
use pex_set::text_at;
use pex_values::PexFunction;

/// The strings of a file, and references to the names and types of a function's parameters and locals.
#[derive(Clone, Copy)]
pub(crate) struct FunctionNames<'a> {
    pub strings: &'a [Text],
    pub parameters: &'a [(u16, u16)],
    pub locals: &'a [(u16, u16)],
}

/// What a name means: a parameter or a local by its place, or what has the name elsewhere.
#[derive(Clone, Copy, PartialEq, Eq)]
pub(crate) enum Meaning {
    Parameter(usize),
    Local(usize),
    ByName,
}

/// Whether two references, each into its strings, give the same string.
#[tactic(auto, unfolding(crate::specs::SameCode::SameString))]
pub(crate) fn same_string(these: &[Text], those: &[Text], a: u16, b: u16) -> bool
    ensures { IsTrue result ↔ SameString these.now those.now a b }
{
    text_at(these, a) == text_at(those, b)
}

// Whether the two are the same with the case of A to Z ignored.
fn same_name(a: &[u8], b: &[u8]) -> bool
    ensures { result ≡ bytes_eq (folded a.now) (folded b.now) }
{
    a.eq_ignore_ascii_case(b)
}

fn place_in(strings: &[Text], pairs: &[(u16, u16)], reference: u16) -> Option<usize>
    ensures { result ≡ place_in strings.now pairs.now reference }
{
    let name = text_at(strings, reference);
    pairs
        .iter()
        .position(|pair| same_name(text_at(strings, pair.0), name))
}

impl<'a> FunctionNames<'a> {
    /// Those of a function.
    pub(crate) fn of(strings: &'a [Text], function: &'a PexFunction) -> FunctionNames<'a>
        ensures { naming result ≡ naming_of strings.now (plain_function function.now) }
    {
        FunctionNames {
            strings,
            parameters: &function.parameters,
            locals: &function.locals,
        }
    }

    /// The names of what stands in no function.
    pub(crate) fn outside(strings: &'a [Text]) -> FunctionNames<'a>
        ensures { naming result ≡ no_slots strings.now }
    {
        FunctionNames {
            strings,
            parameters: &[],
            locals: &[],
        }
    }

    /// The names of a function without parameters and locals.
    pub(crate) fn bare(self) -> FunctionNames<'a>
        ensures { naming result ≡ without_slots (naming self.entry) }
    {
        FunctionNames::outside(self.strings)
    }

    /// What the name at this reference means.
    pub(crate) fn meaning(self, reference: u16) -> Meaning
        ensures { result ≡ meaning_of (naming self.entry) reference }
    {
        if let Some(place) = place_in(self.strings, self.parameters, reference) {
            return Meaning::Parameter(place);
        }
        match place_in(self.strings, self.locals, reference) {
            Some(place) => Meaning::Local(place),
            None => Meaning::ByName,
        }
    }
}

/// Whether two names, each among those of its function, are the same parameter or local by its place, or the same name of something else.
#[tactic(auto, unfolding(crate::specs::SameCode::SameWord))]
pub(crate) fn same_word(these: FunctionNames<'_>, those: FunctionNames<'_>, a: u16, b: u16) -> bool
    ensures { IsTrue result ↔ SameWord (naming these.entry) (naming those.entry) a b }
{
    let meaning = these.meaning(a);
    meaning == those.meaning(b)
        && (meaning != Meaning::ByName || same_string(these.strings, those.strings, a, b))
}
