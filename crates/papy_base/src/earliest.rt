// The first broken rule of a file.
ghost use Rattle.std.specs.Prelude.{◌≡◌, ◌↔◌, ◌∷◌, [], ℕ, false, IfSome, IsSome, IsTrue};
ghost use Rattle.papy_base.specs.Earliest.{Before, FindsAmong, IsFirst};

/// A rule of a list of rules.
pub trait NumberedRule: Copy {
    ghost number_of: { Self → ℕ };

    /// The rule's number in its list.
    fn number(self) -> u8
        ensures { result ≡ number_of self };
}

/// A broken rule, and the line of the thing that breaks it.
#[derive(Clone, Copy, PartialEq, Eq)]
pub struct BrokenRule<R> {
    pub line: u16,
    pub rule: R,
}

/// The first broken rule of a file among those that were noted: the one on the least line, and there
/// the one with the least number.
#[derive(Clone, Copy)]
pub struct Earliest<R> {
    pub found: Option<BrokenRule<R>>,
}

impl<R: NumberedRule> Earliest<R> {
    /// Notes that a thing of this line breaks the rule.
    pub fn note(&mut self, line: u16, rule: R)
        ensures noted { IsSome self.new.found }
        ensures least { IfSome self.new.found (IsFirst R.number_of self.old.found line rule) }
    {
        match self.found {
            Some(known) if !comes_before(line, rule, known) => {}
            _ => self.found = Some(BrokenRule { line, rule }),
        }
    }

    /// Notes the rule where `is_broken` says that the thing breaks it.
    pub fn note_if(&mut self, is_broken: bool, line: u16, rule: R)
        ensures among { FindsAmong (line ∷ []) self.old self.new }
        ensures noted { IsTrue is_broken → IsSome self.new.found }
        ensures first { IsTrue is_broken → IfSome self.new.found (IsFirst R.number_of self.old.found line rule) }
        ensures kept { is_broken ≡ false → self.new ≡ self.old }
    {
        if is_broken {
            self.note(line, rule);
        }
    }
}

fn comes_before<R: NumberedRule>(line: u16, rule: R, other: BrokenRule<R>) -> bool
    ensures { IsTrue result ↔ Before R.number_of line rule other }
{
    line < other.line || (line == other.line && rule.number() < other.rule.number())
}
