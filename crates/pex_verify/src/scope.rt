// What is seen where code stands, and the lists in which its names are looked up.
ghost use Rattle.std.specs.Prelude.{◌≡◌, ◌<◌, [], ◌∷◌, ◌++◌, vec_len, IfOk, OnOk, IfSome, IsTrue, slice_get, slice_index_or};
ghost use Rattle.pex_verify.specs.Judgement.{IsFor, IsSeenIn, Takes, TakesCast, stored_by, type_by, variable_type};
ghost use Rattle.pex_verify.specs.Soundness.{IsIdentifier};
ghost use Rattle.pex_verify.specs.declared.value_type.ValueType.TheVariants.{Unknown};

use crate::fault::{Refusal, VerifyFault};
use crate::judged::JudgedOperand;
use crate::scripts::SetHeads;
use crate::sources::{DefaultMembers, FileLines, SetFile};
use crate::value_type::{BOOL, INT, TEXT, ValueType};
use core_tree::{CoreType, OutlineVariable};
use papy_base::Made;
use pex_values::PexObject;
use std::alloc::Global;

/// The parameters and locals of a function, or the variables of a script, and the place of the first one of each name.
/// The next list takes no time to begin.
#[derive(Drop)]
pub(crate) struct NamedList<T> {
    pub(crate) list: Vec<T>,
    // By the number of the name: the number of the list that had it last, and its place there.
    places: Vec<(usize, u16)>,
    // The number of the list, which isn't 0.
    number: usize,
}

/// The types of the parameters and locals of a function.
pub(crate) type SlotList = NamedList<ValueType>;

impl<T: Drop> NamedList<T> {
    /// An empty list, for so many names.
    pub(crate) fn new(alloc: Global, names: usize) -> Made<NamedList<T>>
        ensures { IfOk result (λ named. named.list.items ≡ []) }
    {
        Ok(NamedList {
            list: Vec::new(alloc),
            places: vec![in alloc; (0, 0); names]?,
            number: 1,
        })
    }

    /// Begins the next list, which is empty.
    pub(crate) fn clear(&mut self)
        ensures { self.new.list.items ≡ [] }
    {
        self.list.clear();
        self.number = self.number.saturating_add(1);
    }

    /// Adds an item of a new name behind the others. Only the first 65,536 can be named.
    pub(crate) fn add(&mut self, name: usize, item: T) -> Made<()>
        ensures { OnOk result (self.new.list.items ≡ self.old.list.items ++ item ∷ []) }
    {
        if let (Ok(place), Some(entry)) = (
            u16::try_from(self.list.len()),
            self.places.get_mut(name),
        ) {
            *entry = (self.number, place);
        }
        self.list.push(item)?;
        Ok(())
    }

    /// The place of the item of this name.
    pub(crate) fn place(&self, name: usize) -> Option<u16>
        ensures { IfSome result (λ n. n < vec_len self.now.list) }
    {
        let (list, place) = *self.places.get(name)?;
        let is_here = list == self.number && usize::from(place) < self.list.len();
        is_here.then_some(place)
    }
}

/// The script in which code stands.
#[derive(Clone, Copy)]
pub(crate) struct Home<'a> {
    pub(crate) alloc: Global,
    pub(crate) set: &'a SetHeads,
    /// The members of every script without parent.
    pub(crate) members: &'a DefaultMembers<'a>,
    /// The script's number.
    pub(crate) here: u16,
    pub(crate) source: &'a SetFile<'a>,
    pub(crate) lines: &'a FileLines<'a>,
    pub(crate) object: &'a PexObject,
    pub(crate) variables: &'a NamedList<OutlineVariable>,
}

impl Home<'_> {
    /// The fault of a refusal in the object's member of this name.
    pub(crate) fn fault_in(&self, member: &[u8], refusal: Refusal) -> VerifyFault {
        self.source
            .site(self.object)
            .fault_in(self.alloc, member, refusal)
    }
}

/// What the code of one function sees.
#[derive(Clone, Copy)]
pub(crate) struct FunctionScope<'a> {
    pub(crate) home: &'a Home<'a>,
    /// The file that has the function's strings.
    pub(crate) source: &'a SetFile<'a>,
    pub(crate) slots: &'a SlotList,
    pub(crate) is_global: bool,
    /// The function's result.
    pub(crate) answer: ValueType,
}

impl FunctionScope<'_> {
    /// What the name of this number means where it is read or written: the first of a parameter or local, a variable
    /// of the script, the instance, and its state that has the name. Global functions see the first alone.
    pub(crate) fn meaning(&self, name: usize) -> Option<JudgedOperand>
        ensures meant { IfSome result (IsIdentifier (vec_len self.now.slots.now.list) (vec_len self.now.home.now.variables.now.list)) }
        ensures seen { IfSome result (IsSeenIn self.now.is_global) }
    {
        if let Some(place) = self.slots.place(name) {
            return Some(JudgedOperand::Slot(place));
        }
        if self.is_global {
            return None;
        }
        if let Some(place) = self.home.variables.place(name) {
            return Some(JudgedOperand::Variable(place));
        }
        let set = self.home.set;
        if Some(name) == set.instance_word {
            Some(JudgedOperand::Instance)
        } else if Some(name) == set.state_word {
            Some(JudgedOperand::State)
        } else {
            None
        }
    }

    /// What an operand's value is. A name that stands for itself has none.
    pub(crate) fn type_of(&self, operand: &JudgedOperand) -> ValueType
        ensures { result ≡ type_by self.now operand.now }
    {
        match operand {
            JudgedOperand::NoneValue => ValueType::Nothing,
            JudgedOperand::Word(_) => ValueType::Unknown,
            JudgedOperand::Quoted(_) | JudgedOperand::State => TEXT,
            JudgedOperand::Int(_) => INT,
            JudgedOperand::Bool(_) => BOOL,
            JudgedOperand::Slot(place) => self.slot_type(*place),
            JudgedOperand::Variable(place) => self.variable_type(*place),
            JudgedOperand::Instance => ValueType::Of(CoreType::Script(self.home.here)),
        }
    }

    fn slot_type(&self, place: u16) -> ValueType
        ensures { result ≡ slice_index_or self.now.slots.now.list.items place Unknown }
    {
        let found = self.slots.list.get(usize::from(place));
        found.copied().unwrap_or(ValueType::Unknown)
    }

    fn variable_type(&self, place: u16) -> ValueType
        ensures { result ≡ variable_type (slice_get self.now.home.now.variables.now.list.items place) }
    {
        match self.home.variables.list.get(usize::from(place)) {
            Some(variable) => ValueType::Of(variable.kind),
            None => ValueType::Unknown,
        }
    }

    /// The type of what can be stored in an operand, none where it isn't a parameter, a local, a variable or
    /// the state.
    pub(crate) fn stored_type(&self, operand: &JudgedOperand) -> Option<ValueType>
        ensures { result ≡ stored_by self.now operand.now }
    {
        match operand {
            JudgedOperand::Slot(_) | JudgedOperand::Variable(_) | JudgedOperand::State => Some(
                self.type_of(operand),
            ),
            _ => None,
        }
    }

    /// Whether the operand is a value of exactly this type.
    pub(crate) fn is_of(&self, operand: &JudgedOperand, wanted: ValueType) -> bool
        ensures { IsTrue result → type_by self.now operand.now ≡ wanted }
    {
        self.type_of(operand) == wanted
    }

    /// Whether the operand's value fits this type.
    pub(crate) fn fits(&self, operand: &JudgedOperand, wanted: ValueType) -> bool
        ensures { IsTrue result → IsFor self.now wanted operand.now }
    {
        self.home.set.fits(self.type_of(operand), wanted)
    }

    /// Whether a value of this type can be stored in the operand. What has the type None takes any value.
    pub(crate) fn takes(&self, to: &JudgedOperand, value: ValueType) -> bool
        ensures { IsTrue result → Takes self.now to.now value }
    {
        match self.stored_type(to) {
            Some(ValueType::Nothing) => true,
            Some(wanted) => self.home.set.fits(value, wanted),
            None => false,
        }
    }

    /// The same of a value that is cast to the operand's type.
    pub(crate) fn takes_cast(&self, to: &JudgedOperand, value: ValueType) -> bool
        ensures { IsTrue result → TakesCast self.now to.now value }
    {
        match self.stored_type(to) {
            Some(ValueType::Nothing) => true,
            Some(wanted) => self.home.set.casts(value, wanted),
            None => false,
        }
    }
}
