// What a function gives and takes, compared with what it has to.
ghost use Rattle.std.specs.Prelude.{◌≡◌, ◌↔◌, IsTrue, position};
ghost use Rattle.std.specs.List.{list_any};
ghost use Rattle.papy_base.specs.Case.{SameIgnoringCase};
ghost use Rattle.script_linker.specs.Signature.{SameType, SameResult, SameParameters, SameSignature, HasType, TakesOne, IsGet, IsSet, IsAccessor, IsPlainEvent, HasLateParameter, has_default, has_no_default};

use line_parser::{Heading, Parameter, TypeName};
use papy_base::Name;

pub(crate) fn same_type(a: &TypeName, b: &TypeName) -> bool
    ensures { IsTrue result ↔ SameType a.now b.now }
{
    a.is_array == b.is_array && a.word.same(&b.word)
}

fn same_result(a: &Option<TypeName>, b: &Option<TypeName>) -> bool
    ensures { IsTrue result ↔ SameResult a.now b.now }
{
    match (a, b) {
        (Some(a), Some(b)) => same_type(a, b),
        (None, None) => true,
        _ => false,
    }
}

fn same_parameters(a: &[Parameter], b: &[Parameter]) -> bool
    ensures { IsTrue result ↔ SameParameters a.now b.now }
{
    a.len() == b.len() && a.iter().zip(b).all(|(a, b)| same_type(&a.kind, &b.kind))
}

/// Whether the two have the same result, parameter types, Global and Native.
pub(crate) fn same_signature(a: &Heading, b: &Heading) -> bool
    ensures { IsTrue result ↔ SameSignature a.now b.now }
{
    same_result(&a.result, &b.result)
        && same_parameters(a.parameters.as_slice(), b.parameters.as_slice())
        && a.is_global == b.is_global
        && a.is_native == b.is_native
}

/// Whether it has no parameter and no result, and is neither Global nor Native.
pub(crate) fn is_plain_event(heading: &Heading) -> bool
    ensures { IsTrue result ↔ IsPlainEvent heading.now }
{
    heading.parameters.is_empty()
        && heading.result.is_none()
        && !heading.is_global
        && !heading.is_native
}

/// Whether it is a `Get` or a `Set` of a property of this type.
pub(crate) fn is_accessor(heading: &Heading, kind: &TypeName) -> bool
    ensures { IsTrue result ↔ IsAccessor heading.now kind.now }
{
    !heading.is_global && !heading.is_native && (is_get(heading, kind) || is_set(heading, kind))
}

fn is_get(heading: &Heading, kind: &TypeName) -> bool
    ensures { IsTrue result ↔ IsGet heading.now kind.now }
{
    is_word(&heading.name, b"Get")
        && heading.parameters.is_empty()
        && has_type(&heading.result, kind)
}

fn is_set(heading: &Heading, kind: &TypeName) -> bool
    ensures { IsTrue result ↔ IsSet heading.now kind.now }
{
    is_word(&heading.name, b"Set")
        && heading.result.is_none()
        && takes_one(heading.parameters.as_slice(), kind)
}

fn has_type(found: &Option<TypeName>, kind: &TypeName) -> bool
    ensures { IsTrue result ↔ HasType found.now kind.now }
{
    found.as_ref().is_some_and(|found| same_type(found, kind))
}

fn takes_one(parameters: &[Parameter], kind: &TypeName) -> bool
    ensures { IsTrue result ↔ TakesOne parameters.now kind.now }
{
    matches!(parameters, [only] if same_type(&only.kind, kind))
}

/// Whether the name is this word, with the case ignored.
pub(crate) fn is_word(name: &Name, word: &[u8]) -> bool
    ensures { IsTrue result ↔ SameIgnoringCase name.now word.now }
{
    name.as_bytes().eq_ignore_ascii_case(word)
}

/// Whether a parameter without default follows one with a default.
pub(crate) fn has_late_parameter(parameters: &[Parameter]) -> bool
    ensures { IsTrue result ↔ HasLateParameter parameters.now }
{
    match first_default(parameters) {
        Some(first) => lacks_default(&parameters[first..]),
        None => false,
    }
}

fn first_default(parameters: &[Parameter]) -> Option<usize>
    ensures { result ≡ position has_default parameters.now }
{
    parameters.iter().position(|one| one.default.is_some())
}

fn lacks_default(parameters: &[Parameter]) -> bool
    ensures { result ≡ list_any has_no_default parameters.now }
{
    parameters.iter().any(|one| one.default.is_none())
}
