// Members of two objects, compared by name, whatever their order.
ghost use Rattle.std.specs.Prelude.{◌↔◌, ℕ, List, IsTrue, map, option_map};
ghost use Rattle.std.specs.List.{All, Any};
ghost use Rattle.pex_values.specs.Plain.{PlainFunction, PlainProperty, PlainState, plain, plain_function, plain_named, plain_object, plain_property, plain_state};
ghost use Rattle.pex_values.specs.declared.values.PexVariable.{PexVariable};
ghost use Rattle.pex_alike.specs.SameCode.{SameCode, SameEach, SameFunction, SameMembers, SameNamed, SameObject, SameOption, SameProperty, SameState, SameString, SameVariable};

use crate::alike::{same_function, same_operand};
use crate::function_names::{FunctionNames, same_string};
use papy_base::Text;
use pex_values::{Pex, PexFunction, PexObject, PexProperty, PexState, PexVariable};

/// What an object or a state has several of, each with a name.
trait Member {
    ghost Plain: { Type 0 };

    ghost plain: { Self → Plain };

    ghost IsLike: { List (List ℕ) → List (List ℕ) → Plain → Plain → Type 0 };

    /// Whether the two, each with the strings of its file, are the same.
    fn is_like(&self, other: &Self, these: &[Text], those: &[Text]) -> bool
        ensures { IsTrue result ↔ IsLike these.now those.now (plain self.now) (plain other.now) };
}

impl Member for PexVariable {
    ghost Plain = { PexVariable };

    ghost plain = { λ variable. variable };

    ghost IsLike = { SameVariable };

    #[tactic(auto, unfolding(crate::specs::SameCode::SameVariable))]
    fn is_like(&self, other: &PexVariable, these: &[Text], those: &[Text]) -> bool {
        same_string(these, those, self.name, other.name)
            && same_string(these, those, self.kind, other.kind)
            && self.flags == other.flags
            && same_operand(
                FunctionNames::outside(these),
                FunctionNames::outside(those),
                self.value,
                other.value,
            )
    }
}

impl Member for PexProperty {
    ghost Plain = { PlainProperty };

    ghost plain = { plain_property };

    ghost IsLike = { SameProperty };

    #[tactic(auto, unfolding(crate::specs::SameCode::SameProperty))]
    fn is_like(&self, other: &PexProperty, these: &[Text], those: &[Text]) -> bool {
        same_string(these, those, self.name, other.name)
            && same_string(these, those, self.kind, other.kind)
            && same_string(these, those, self.doc, other.doc)
            && self.flags == other.flags
            && self.bits == other.bits
            && same_variable_name(these, those, self.variable, other.variable)
            && same_accessor(these, those, &self.read, &other.read)
            && same_accessor(these, those, &self.write, &other.write)
    }
}

impl Member for (u16, PexFunction) {
    ghost Plain = { ℕ × PlainFunction };

    ghost plain = { plain_named };

    ghost IsLike = { SameNamed };

    #[tactic(auto, unfolding(crate::specs::SameCode::SameNamed))]
    fn is_like(&self, other: &(u16, PexFunction), these: &[Text], those: &[Text]) -> bool {
        same_string(these, those, self.0, other.0) && same_function(these, those, &self.1, &other.1)
    }
}

impl Member for PexState {
    ghost Plain = { PlainState };

    ghost plain = { plain_state };

    ghost IsLike = { SameState };

    #[tactic(auto, unfolding(crate::specs::SameCode::SameState))]
    fn is_like(&self, other: &PexState, these: &[Text], those: &[Text]) -> bool {
        same_string(these, those, self.name, other.name)
            && same_plain(these, those, &self.functions, &other.functions)
    }
}

#[tactic(auto, unfolding(crate::specs::SameCode::SameOption))]
fn same_variable_name(these: &[Text], those: &[Text], a: Option<u16>, b: Option<u16>) -> bool
    ensures { IsTrue result ↔ SameOption (SameString these.now those.now) a b }
{
    match (a, b) {
        (Some(a), Some(b)) => same_string(these, those, a, b),
        (None, None) => true,
        _ => false,
    }
}

#[tactic(auto, unfolding(crate::specs::SameCode::SameOption))]
fn same_accessor(
    these: &[Text],
    those: &[Text],
    f: &Option<PexFunction>,
    g: &Option<PexFunction>,
) -> bool
    ensures { IsTrue result ↔ SameOption (SameFunction these.now those.now) (option_map plain_function f.now) (option_map plain_function g.now) }
{
    match (f, g) {
        (Some(f), Some(g)) => same_function(these, those, f, g),
        (None, None) => true,
        _ => false,
    }
}

// Whether one of the members is like this one. The one at this place is looked at first.
fn has_like<T: Member>(member: &T, others: &[T], at: usize, these: &[Text], those: &[Text]) -> bool
    ensures { IsTrue result ↔ Any (λ other. T.IsLike these.now those.now (T.plain member.now) (T.plain other)) others.now }
{
    if at < others.len() && member.is_like(&others[at], these, those) {
        return true;
    }
    others
        .iter()
        .any(|other| member.is_like(other, these, those))
}

// Whether this one is like one of the members, of which the one at this place is looked at first.
fn is_like_one<T: Member>(
    member: &T,
    others: &[T],
    at: usize,
    these: &[Text],
    those: &[Text],
) -> bool
    ensures { IsTrue result ↔ Any (λ other. T.IsLike these.now those.now (T.plain other) (T.plain member.now)) others.now }
{
    if at < others.len() && others[at].is_like(member, these, those) {
        return true;
    }
    others
        .iter()
        .any(|other| other.is_like(member, these, those))
}

fn each_has_like<T: Member>(xs: &[T], ys: &[T], these: &[Text], those: &[Text]) -> bool
    ensures { IsTrue result ↔ All (λ x. Any (λ y. T.IsLike these.now those.now (T.plain x) (T.plain y)) ys.now) xs.now }
{
    for (at, x) in xs.iter().enumerate() {
        if !has_like(x, ys, at, these, those) {
            return false;
        }
    }
    true
}

fn each_is_like_one<T: Member>(xs: &[T], ys: &[T], these: &[Text], those: &[Text]) -> bool
    ensures { IsTrue result ↔ All (λ y. Any (λ x. T.IsLike these.now those.now (T.plain x) (T.plain y)) xs.now) ys.now }
{
    for (at, y) in ys.iter().enumerate() {
        if !is_like_one(y, xs, at, these, those) {
            return false;
        }
    }
    true
}

#[tactic(auto, unfolding(crate::specs::SameCode::SameMembers))]
fn same_members<T: Member>(these: &[Text], those: &[Text], xs: &[T], ys: &[T]) -> bool
    ensures { IsTrue result ↔ SameMembers (λ x y. T.IsLike these.now those.now (T.plain x) (T.plain y)) xs.now ys.now }
{
    xs.len() == ys.len()
        && each_has_like(xs, ys, these, those)
        && each_is_like_one(xs, ys, these, those)
}

// The same, said of the members without what holds them.
fn same_plain<T: Member>(these: &[Text], those: &[Text], xs: &[T], ys: &[T]) -> bool
    ensures { IsTrue result ↔ SameMembers (T.IsLike these.now those.now) (map T.plain xs.now) (map T.plain ys.now) }
{
    same_members(these, those, xs, ys)
}

#[tactic(auto, unfolding(crate::specs::SameCode::SameObject))]
fn same_object(these: &[Text], those: &[Text], a: &PexObject, b: &PexObject) -> bool
    ensures { IsTrue result ↔ SameObject these.now those.now (plain_object a.now) (plain_object b.now) }
{
    same_string(these, those, a.name, b.name)
        && same_string(these, those, a.parent, b.parent)
        && same_string(these, those, a.doc, b.doc)
        && a.flags == b.flags
        && same_string(these, those, a.auto_state, b.auto_state)
        && same_members(these, those, &a.variables, &b.variables)
        && same_plain(these, those, &a.properties, &b.properties)
        && same_plain(these, those, &a.states, &b.states)
}

#[tactic(auto, unfolding(crate::specs::SameCode::SameEach))]
fn same_objects(v: &Pex, w: &Pex) -> bool
    ensures { IsTrue result ↔ SameEach (λ x y. SameObject v.now.strings.items w.now.strings.items (plain_object x) (plain_object y)) v.now.objects.items w.now.objects.items }
{
    let (these, those) = (v.strings.as_slice(), w.strings.as_slice());
    v.objects.len() == w.objects.len()
        && v.objects
            .iter()
            .zip(&w.objects)
            .all(|(x, y)| same_object(these, those, x, y))
}

/// Whether two values have the same code: the same objects in order, whose variables, properties, states and functions agree,
/// whatever their order, where references are read as their strings, and parameters and locals go by their places.
pub fn same_code(v: &Pex, w: &Pex) -> bool
    ensures { IsTrue result ↔ SameCode (plain v.now) (plain w.now) }
{
    same_objects(v, w)
}
