//! Instructions that call or return: what each of them asks for, and where the reply goes.

ghost use Rattle.std.specs.Prelude.{◌≡◌, ℕ, List, IfOk, IsSome, None, OnOk};
ghost use Rattle.std.specs.Option.{option_copied};
ghost use Rattle.std.specs.declared.alloc.Global.{Global};
ghost use Rattle.std.specs.declared.vec.Vec.{Vec};
ghost use Rattle.loaded_code.specs.declared.instruction.LoadedInstruction.TheVariants as loaded;
ghost use Rattle.loaded_code.specs.declared.operand.Operand.{Operand};
ghost use Rattle.body_runner.specs.Calls.{reply_result};
ghost use Rattle.body_runner.specs.Leaving.{is_native_in, IsLeaving, IsPlaced, Leaves, MakesOrRefuses, Refuses};
ghost use Rattle.body_runner.specs.Operands.{worth};
ghost use Rattle.body_runner.specs.Settings.{method_at};
ghost use Rattle.body_runner.specs.Sights.{IsThere};
ghost use Rattle.body_runner.specs.Steps.{Gives};
ghost use Rattle.body_runner.specs.Values.{instance_in};

use crate::body::{Home, Inner};
use crate::frame::{Call, CallWay};
use core_tree::Value;
use loaded_code::{LoadedInstruction, MethodPlace, Operand};
use machine_state::Way;
use papy_base::{Made, StackFault};
use std::alloc::Global;

/// What an instruction that calls or returns asks for.
#[derive(Drop)]
pub enum Event {
    /// No call can be made, and the next instruction follows.
    Refused(StackFault),
    /// A call that needs a frame.
    Called(Call),
    /// A call of a global native.
    Native {
        at: MethodPlace,
        arguments: Vec<Value>,
    },
    /// The body returned this value.
    Returned(Value),
}

impl Home<'_> {
    /// What an instruction that calls or returns asks for. Any other would return None, and is never asked.
    pub fn leave(&self, inner: &mut Inner<'_>, instruction: &LoadedInstruction) -> Made<Event>
        ensures { IsThere self.now.instance inner.old.store.now.instances → IsLeaving self.now.turn.now.setting.now.loaded instruction.now → IfOk result (λ event. Leaves self.now instruction.now event inner.old inner.new) }
    {
        match instruction {
            LoadedInstruction::CallMethod {
                number,
                object,
                result,
                arguments,
                ..
            } => self.call_method(inner, *number, object, result, arguments),
            LoadedInstruction::CallParent {
                number,
                result,
                arguments,
                ..
            } => self.call_parent(inner, *number, result, arguments),
            LoadedInstruction::CallStatic {
                function,
                result,
                arguments,
                ..
            } => self.call_static(inner, *function, result, arguments),
            LoadedInstruction::Return { value } => Ok(Event::Returned(self.value(inner, value)?)),
            LoadedInstruction::PropGet {
                number,
                object,
                result,
                ..
            } => self.get_property(inner, *number, object, result),
            LoadedInstruction::PropSet {
                number,
                object,
                value,
                ..
            } => self.set_property(inner, *number, object, value),
            _ => Ok(Event::Returned(Value::NoneValue)),
        }
    }

    fn call_method(
        &self,
        inner: &mut Inner<'_>,
        name: Option<usize>,
        object: &Operand,
        to: &Operand,
        arguments: &[Operand],
    ) -> Made<Event>
        ensures { IsThere self.now.instance inner.old.store.now.instances → IsSome name → (text : List ℕ) (more : Vec Operand Global) → more.items ≡ arguments.now → IfOk result (λ event. Leaves self.now (loaded.CallMethod text name object.now to.now more) event inner.old inner.new) }
    {
        let Some(name) = name else {
            return self.refuse(inner, to, StackFault::NoneCall);
        };
        let Some(instance) = self.target(inner, object)? else {
            return self.refuse(inner, to, StackFault::NoneCall);
        };
        let arguments = self.arguments(inner, arguments)?;
        let way = CallWay::Method(name);
        self.call(inner, to, called(Some(instance), way, arguments))
    }

    fn call_parent(
        &self,
        inner: &mut Inner<'_>,
        name: Option<usize>,
        to: &Operand,
        arguments: &[Operand],
    ) -> Made<Event>
        ensures { IsThere self.now.instance inner.old.store.now.instances → IsSome name → (text : List ℕ) (more : Vec Operand Global) → more.items ≡ arguments.now → IfOk result (λ event. Leaves self.now (loaded.CallParent text name to.now more) event inner.old inner.new) }
    {
        let Some(name) = name else {
            return self.refuse(inner, to, StackFault::NoneCall);
        };
        let arguments = self.arguments(inner, arguments)?;
        let way = CallWay::Parent {
            script: self.script,
            name,
        };
        self.call(inner, to, called(self.instance, way, arguments))
    }

    // A global native needs no frame.
    fn call_static(
        &self,
        inner: &mut Inner<'_>,
        function: Option<MethodPlace>,
        to: &Operand,
        arguments: &[Operand],
    ) -> Made<Event>
        ensures { IsThere self.now.instance inner.old.store.now.instances → (script : ℕ) (text : List ℕ) (more : Vec Operand Global) → IsPlaced self.now.turn.now.setting.now.loaded script text function → more.items ≡ arguments.now → IfOk result (λ event. Leaves self.now (loaded.CallStatic script text function to.now more) event inner.old inner.new) }
    {
        let Some(at) = function else {
            return self.refuse(inner, to, StackFault::NoneCall);
        };
        let arguments = self.arguments(inner, arguments)?;
        if self.is_native(at) {
            return Ok(Event::Native { at, arguments });
        }
        self.call(inner, to, called(None, CallWay::Global(at), arguments))
    }

    fn get_property(
        &self,
        inner: &mut Inner<'_>,
        name: Option<usize>,
        object: &Operand,
        to: &Operand,
    ) -> Made<Event>
        ensures { IsThere self.now.instance inner.old.store.now.instances → IsSome name → (text : List ℕ) → IfOk result (λ event. Leaves self.now (loaded.PropGet text name object.now to.now) event inner.old inner.new) }
    {
        let Some(name) = name else {
            return self.refuse(inner, to, StackFault::NoneProperty);
        };
        let Some(instance) = self.target(inner, object)? else {
            return self.refuse(inner, to, StackFault::NoneProperty);
        };
        let arguments = Vec::new(self.turn.alloc);
        let way = CallWay::Get(name);
        self.call(inner, to, called(Some(instance), way, arguments))
    }

    // It has no result.
    fn set_property(
        &self,
        inner: &Inner<'_>,
        name: Option<usize>,
        object: &Operand,
        value: &Operand,
    ) -> Made<Event>
        ensures { IsSome name → (text : List ℕ) → IfOk result (λ event. Leaves self.now (loaded.PropSet text name object.now value.now) event inner.now inner.now) }
    {
        let Some(name) = name else {
            return Ok(Event::Refused(StackFault::NoneProperty));
        };
        let Some(instance) = self.target(inner, object)? else {
            return Ok(Event::Refused(StackFault::NoneProperty));
        };
        let value = self.value(inner, value)?;
        if !self.has_room {
            drop(value);
            return Ok(Event::Refused(StackFault::FrameLimit));
        }
        let arguments = vec![in self.turn.alloc; value]?;
        let way = CallWay::Set(name);
        Ok(Event::Called(called(Some(instance), way, arguments)))
    }

    // The instance that an operand is, none where it is None.
    fn target(&self, inner: &Inner<'_>, object: &Operand) -> Made<Option<u16>>
        ensures { IfOk result (λ target. target ≡ instance_in (worth self.now inner.now object.now)) }
    {
        match self.value(inner, object)? {
            Value::Instance(instance) => Ok(Some(instance)),
            other => {
                drop(other);
                Ok(None)
            }
        }
    }

    fn is_native(&self, at: MethodPlace) -> bool
        ensures { result ≡ is_native_in (method_at self.now.turn.now.setting.now.loaded.scripts at) }
    {
        match self.turn.setting.method(at) {
            Some(function) => function.is_native,
            None => false,
        }
    }

    // A call that needs a frame, where there is room for it.
    fn call(&self, inner: &mut Inner<'_>, to: &Operand, call: Call) -> Made<Event>
        ensures { IfOk result (λ event. MakesOrRefuses self.now.has_room self.now inner.old inner.new to.now call event) }
    {
        if !self.has_room {
            drop(call);
            return self.refuse(inner, to, StackFault::FrameLimit);
        }
        Ok(Event::Called(call))
    }

    // A call that isn't made gives the default of its type, and the body goes on.
    fn refuse(&self, inner: &mut Inner<'_>, to: &Operand, fault: StackFault) -> Made<Event>
        ensures { IfOk result (λ event. Refuses self.now inner.old inner.new to.now fault event) }
    {
        self.write_default(inner, to)?;
        Ok(Event::Refused(fault))
    }

    /// Stores the reply to a call.
    pub fn give(&self, inner: &mut Inner<'_>, call: &LoadedInstruction, reply: Value) -> Made<()>
        ensures { IsThere self.now.instance inner.old.store.now.instances → OnOk result (Gives self.now call.now reply inner.old inner.new) }
    {
        match reply_result(call) {
            Some(operand) => self.write(inner, operand, reply),
            None => {
                drop(reply);
                Ok(())
            }
        }
    }
}

fn called(instance: Option<u16>, way: CallWay, arguments: Vec<Value>) -> Call
    ensures { result ≡ record { instance = instance; way = way; arguments = arguments; kept = None } }
{
    Call {
        instance,
        way,
        arguments,
        kept: None,
    }
}

/// The operand that takes the reply of a call, none of what is no call, and of the writing of a property.
pub fn reply_result(instruction: &LoadedInstruction) -> Option<&Operand>
    ensures { option_copied result ≡ reply_result instruction.now }
{
    match instruction {
        LoadedInstruction::CallMethod { result, .. } => Some(result),
        LoadedInstruction::CallParent { result, .. } => Some(result),
        LoadedInstruction::CallStatic { result, .. } => Some(result),
        LoadedInstruction::PropGet { result, .. } => Some(result),
        _ => None,
    }
}

/// Whether an instruction calls, as the use of a property does.
pub fn is_call(instruction: &LoadedInstruction) -> bool {
    matches!(
        instruction,
        LoadedInstruction::CallMethod { .. }
            | LoadedInstruction::CallParent { .. }
            | LoadedInstruction::CallStatic { .. }
            | LoadedInstruction::PropGet { .. }
            | LoadedInstruction::PropSet { .. }
    )
}

/// How an instruction of a script that calls names its function, none of one that doesn't call.
///
/// # Errors
///
/// `OutOfMemory` comes where there is no room.
pub fn called_way(
    alloc: Global,
    instruction: &LoadedInstruction,
    script: u16,
) -> Made<Option<Way>> {
    Ok(match instruction {
        LoadedInstruction::CallMethod { name, .. } => Some(Way::Method(name.try_clone(alloc)?)),
        LoadedInstruction::CallParent { name, .. } => Some(Way::Parent {
            script,
            name: name.try_clone(alloc)?,
        }),
        LoadedInstruction::CallStatic { script, name, .. } => Some(Way::Global {
            script: *script,
            name: name.try_clone(alloc)?,
        }),
        LoadedInstruction::PropGet { name, .. } => Some(Way::Get(name.try_clone(alloc)?)),
        LoadedInstruction::PropSet { name, .. } => Some(Way::Set(name.try_clone(alloc)?)),
        _ => None,
    })
}
