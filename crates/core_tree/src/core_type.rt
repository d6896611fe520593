// The types of values.

ghost use Rattle.std.specs.Prelude.{◌≡◌, IfSome, IsTrue, not};
ghost use Rattle.core_tree.specs.InRange.{ResultInRange, Signatures, TypeInRange};
ghost use Rattle.core_tree.specs.Values.{element_kind, holds_none, is_array_type};

/// A type of values. A script is given by its number in its set.
#[derive(Clone, Copy, Debug, PartialEq, Eq)]
pub enum CoreType {
    Int,
    Bool,
    /// `String`
    Text,
    /// The instances of this script and of those below it, and None.
    Script(u16),
    IntArray,
    BoolArray,
    TextArray,
    ScriptArray(u16),
}

impl CoreType {
    /// Whether None is a value of this type: it is that of a script or of arrays.
    pub fn holds_none(self) -> bool
        ensures { result ≡ holds_none self }
    {
        !matches!(self, CoreType::Int | CoreType::Bool | CoreType::Text)
    }

    /// The type of the elements, where this is the type of an array.
    pub fn element(self) -> Option<CoreType>
        ensures element { result ≡ element_kind self }
        ensures no_array { IfSome result (λ element. IsTrue (not (is_array_type element))) }
        ensures in_range { (functions : Signatures) → TypeInRange functions self → ResultInRange functions result }
    {
        match self {
            CoreType::IntArray => Some(CoreType::Int),
            CoreType::BoolArray => Some(CoreType::Bool),
            CoreType::TextArray => Some(CoreType::Text),
            CoreType::ScriptArray(script) => Some(CoreType::Script(script)),
            _ => None,
        }
    }
}
