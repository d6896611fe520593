ghost use Rattle.std.specs.Prelude.{◌≡◌, ◌≢◌, ℕ, ◌-◌, List, [], ◌++◌, length, take, Result, Ok, Err};
ghost use Rattle.pex_values.specs.declared.values.Pex.{Pex};
ghost use Rattle.pex_values.specs.Fit.{limit};
ghost use Rattle.pex_values.specs.Plain.{PlainPex};
ghost use Rattle.pex_codec.specs.declared.faults.PexRule.{PexRule};
ghost use Rattle.pex_codec.specs.declared.faults.PexFault.{PexFault};
ghost use Rattle.pex_codec.specs.declared.faults.PexFault.TheVariants.{OutOfMemory};
ghost use Rattle.pex_codec.specs.declared.decoder.Fed.{Fed};
ghost use Rattle.pex_codec.specs.declared.decoder.Fed.TheVariants.{More, Done};
ghost use Rattle.pex_codec.specs.declared.decoder.Standing.TheVariants as standing;
ghost use Rattle.pex_codec.specs.Decoding.{reading, Breaks, IsSpelling, Progress, IsNew, FeedGives, EndGives};
ghost use Rattle.pex_codec.specs.Laws.{AreBytes, SpellsFirst, counted_on, SameOutcome, EndsBehind, GivesBack, SameRefusal};
ghost use Rattle.pex_codec.specs.Reading.{Got};
ghost use Rattle.pex_codec.specs.Spells.{Spells};

/// A value that is well shaped and fits has one spelling, and no spelling is a proper first part of another: where
/// bytes spell a value, and these bytes with others behind them spell one, it is the same value and there are no others.
pub fn one_spelling()
    ensures one { (v : PlainPex) (x y : List ℕ) → Spells v x → Spells v y → x ≡ y }
    ensures same { (v w : PlainPex) (x rest : List ℕ) → Spells v x → Spells w (x ++ rest) → v ≡ w }
    ensures whole { (v w : PlainPex) (x rest : List ℕ) → Spells v x → Spells w (x ++ rest) → rest ≡ [] }
{}

/// What spells a value is read as that value, whatever follows it, and what is read as a value spells it.
pub fn reading_is_exact()
    ensures complete { (v : PlainPex) (bytes rest : List ℕ) → Spells v bytes → reading (bytes ++ rest) ≡ Got v (length bytes) (take (limit - length bytes) rest) }
    ensures sound { (v : PlainPex) (bytes : List ℕ) (k : ℕ) (rest : List ℕ) → AreBytes bytes → reading bytes ≡ Got v k rest → SpellsFirst v k bytes }
{}

/// No cut between pieces changes an answer. What two pieces lead to, where the first is answered `More`, both at once may
/// lead to. Where a first piece is answered `Done`, or refused, it is answered so with others behind it. And one state and one
/// piece have one answer, want of memory aside, so these are the answers.
pub fn pieces_add_up()
    ensures goes_on { (r : Result Fed PexFault) (old mid new : Progress) (p q : List ℕ)
        → FeedGives old p (Ok More) mid → FeedGives mid q r new → FeedGives old (p ++ q) (counted_on (length p) r) new }
    ensures stays_done { (old mid : Progress) (p q : List ℕ) (n : ℕ) → old.standing ≡ standing.Reading
        → FeedGives old p (Ok (Done n)) mid → FeedGives old (p ++ q) (Ok (Done n)) mid }
    ensures stays_refused { (fault : PexFault) (old mid : Progress) (p q : List ℕ)
        → FeedGives old p (Err fault) mid → FeedGives old (p ++ q) (Err fault) mid }
    ensures one_answer { (r s : Result Fed PexFault) (old a b : Progress) (piece : List ℕ)
        → FeedGives old piece r a → FeedGives old piece s b → r ≢ Err OutOfMemory → s ≢ Err OutOfMemory → SameOutcome r s a b }
{}

/// What `encode` gives for a value, fed in one piece to a new decoder, ends the value behind its last byte, and `end`
/// gives that very value, where memory is found.
pub fn encoded_is_decoded()
    ensures fed { (r : Result Fed PexFault) (v : PlainPex) (bytes : List ℕ) (new fed : Progress)
        → Spells v bytes → IsNew new → FeedGives new bytes r fed → EndsBehind (length bytes) r }
    ensures ended { (result : Result Pex PexFault) (v : PlainPex) (bytes : List ℕ) (n : ℕ) (new fed : Progress)
        → Spells v bytes → IsNew new → FeedGives new bytes (Ok (Done n)) fed → EndGives fed result → GivesBack v result }
{}

/// Bytes break at most one rule, at one place, and none where they spell a value.
pub fn one_refusal()
    ensures one { (bytes : List ℕ) (o p : ℕ) (a b : PexRule) → Breaks bytes o a → Breaks bytes p b → SameRefusal o p a b }
    ensures none { (bytes : List ℕ) (offset : ℕ) (rule : PexRule) → IsSpelling bytes → ¬ Breaks bytes offset rule }
{}
