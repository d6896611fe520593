ghost use Rattle.std.specs.Prelude.{◌≡◌, IfOk, IsTrue, OnErr};
ghost use Rattle.core_tree.specs.InRange.{LiteralInRange};
ghost use Rattle.core_tree.specs.Values.{default_result, is_text};

use crate::core_type::CoreType;
use papy_base::{Made, Text};
use std::alloc::Global;

/// A value of a running script.
#[derive(Drop)]
pub enum Value {
    /// The None of a script type or an array type.
    NoneValue,
    Int(i32),
    Bool(bool),
    Text(Text),
    /// The instance of this number.
    Instance(u16),
    /// The array of this number.
    Array(u16),
}

impl Value {
    /// What a place of a type holds before anything is stored in it: 0, False, the empty text or None. It is None too
    /// where there is no type. `OutOfMemory` comes only of a text.
    pub fn default_of(alloc: Global, kind: Option<CoreType>) -> Made<Value>
        ensures value { IfOk result (λ value. value ≡ default_result kind) }
        ensures in_range { IfOk result LiteralInRange }
    {
        Ok(match kind {
            Some(CoreType::Int) => Value::Int(0),
            Some(CoreType::Bool) => Value::Bool(false),
            Some(CoreType::Text) => Value::Text(Text::try_from_bytes(alloc, b"")?),
            _ => Value::NoneValue,
        })
    }

    /// An equal value. `OutOfMemory` comes only of a text.
    pub fn try_clone(&self, alloc: Global) -> Made<Value>
        ensures copy { IfOk result (λ value. value ≡ self.now) }
        ensures memory { OnErr result (IsTrue (is_text self.now)) }
    {
        Ok(match self {
            Value::NoneValue => Value::NoneValue,
            Value::Int(number) => Value::Int(*number),
            Value::Bool(truth) => Value::Bool(*truth),
            Value::Text(text) => Value::Text(text.try_clone(alloc)?),
            Value::Instance(instance) => Value::Instance(*instance),
            Value::Array(array) => Value::Array(*array),
        })
    }
}
