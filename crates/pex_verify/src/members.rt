// Where the machine and the rules find the methods and properties of scripts.
ghost use Rattle.std.specs.Prelude.{◌≡◌, [], ◌∷◌, length, IfOk, IfSome, OnOk};
ghost use Rattle.pex_verify.specs.Members.{owner_in, member_of, properties_of, functions_of, methods_in, methods_of_state, methods_of_states, with_methods, with_properties, with_script};
ghost use Rattle.pex_set.specs.Inherited.{found_in};
ghost use Rattle.pex_set.specs.Names.{empty_name};
ghost use Rattle.papy_base.specs.Lineage.{AreAmong, AreRooted};
ghost use Rattle.papy_base.specs.Ranks.{is_below, span_at, IsDescentOf};
ghost use Rattle.pex_verify.specs.Tables.{Inherits};

use crate::scripts::{PropertySignature, ScriptHead, Signature};
use loaded_code::MethodPlace;
use papy_base::{Descent, Made};
use pex_set::{EMPTY_NAME, FileNames, Inherited, MemberPlace, OwnMembers};
use pex_values::{PexFunction, PexObject, PexState};
use std::alloc::Global;

/// The methods and properties of scripts, as they are collected.
#[derive(Drop)]
pub(crate) struct MemberLists {
    descent: Descent,
    methods: OwnMembers,
    properties: OwnMembers,
}

impl MemberLists {
    /// No members of scripts with these parents.
    pub(crate) fn new(alloc: Global, parents: &[Option<usize>]) -> Made<MemberLists>
        ensures methods { IfOk result (λ lists. lists.methods ≡ []) }
        ensures properties { IfOk result (λ lists. lists.properties ≡ []) }
        ensures count { IfOk result (λ lists. length lists.descent ≡ length parents.now) }
        ensures descent { IfOk result (λ lists. AreAmong parents.now → AreRooted parents.now → IsDescentOf parents.now lists.descent) }
    {
        Ok(MemberLists {
            descent: Descent::of(alloc, parents)?,
            methods: OwnMembers::new(alloc),
            properties: OwnMembers::new(alloc),
        })
    }

    /// Adds the members of the next script, which has this number, and those that it lacks.
    pub(crate) fn add(
        &mut self,
        number: usize,
        names: &FileNames,
        object: &PexObject,
        head: &ScriptHead,
    ) -> Made<()>
        ensures { OnOk result (self.new ≡ with_script self.old number names.now object.now head.now) }
    {
        self.add_properties(number, head.properties.as_slice())?;
        self.add_functions(number, head.empty_state, head.functions.as_slice())?;
        self.add_states(number, names, object.states.as_slice())
    }

    fn add_properties(&mut self, object: usize, properties: &[PropertySignature]) -> Made<()>
        ensures { OnOk result (self.new ≡ with_properties self.old (properties_of (owner_in self.old object) properties.now)) }
    {
        for (place, property) in properties.iter().enumerate() {
            let member = MemberPlace {
                object,
                state: 0,
                place,
            };
            let span = self.descent.span(object);
            self.properties
                .add((EMPTY_NAME, property.name), member, span)?;
        }
        Ok(())
    }

    // The functions of the empty state.
    fn add_functions(&mut self, object: usize, state: usize, functions: &[Signature]) -> Made<()>
        ensures { OnOk result (self.new ≡ with_methods self.old (functions_of (owner_in self.old object) state functions.now)) }
    {
        for (place, function) in functions.iter().enumerate() {
            self.add_method(object, state, place, (EMPTY_NAME, function.name))?;
        }
        Ok(())
    }

    // The functions of the states that have a name.
    fn add_states(&mut self, object: usize, names: &FileNames, states: &[PexState]) -> Made<()>
        ensures { OnOk result (self.new ≡ with_methods self.old (methods_of_states (owner_in self.old object) names.now 0 states.now)) }
    {
        for (place, state) in states.iter().enumerate() {
            self.add_state(object, names, place, state)?;
        }
        Ok(())
    }

    fn add_state(
        &mut self,
        object: usize,
        names: &FileNames,
        place: usize,
        state: &PexState,
    ) -> Made<()>
        ensures { OnOk result (self.new ≡ with_methods self.old (methods_of_state (owner_in self.old object) names.now place state.now)) }
    {
        let name = names.number(state.name);
        if name == EMPTY_NAME {
            return Ok(());
        }
        self.add_state_functions(object, names, (place, name), state.functions.as_slice())
    }

    // The functions of the state at this place, which has a name of this number.
    fn add_state_functions(
        &mut self,
        object: usize,
        names: &FileNames,
        state: (usize, usize),
        functions: &[(u16, PexFunction)],
    ) -> Made<()>
        ensures { OnOk result (self.new ≡ with_methods self.old (methods_in (owner_in self.old object) names.now state.0 state.1 functions.now)) }
    {
        for (place, function) in functions.iter().enumerate() {
            let name = names.number(function.0);
            self.add_method(object, state.0, place, (state.1, name))?;
        }
        Ok(())
    }

    fn add_method(
        &mut self,
        object: usize,
        state: usize,
        place: usize,
        names: (usize, usize),
    ) -> Made<()>
        ensures { OnOk result (self.new ≡ with_methods self.old (member_of (owner_in self.old object) state names place ∷ [])) }
    {
        let member = MemberPlace {
            object,
            state,
            place,
        };
        self.methods.add(names, member, self.descent.span(object))
    }

    /// What each script has from itself upward.
    pub(crate) fn inherited(self, alloc: Global) -> Made<MemberTable>
        ensures descent { IfOk result (λ table. table.descent ≡ self.descent) }
        ensures methods { IfOk result (λ table. Inherits self.methods table.methods) }
        ensures properties { IfOk result (λ table. Inherits self.properties table.properties) }
    {
        Ok(MemberTable {
            descent: self.descent,
            methods: self.methods.inherited(alloc)?,
            properties: self.properties.inherited(alloc)?,
        })
    }
}

/// The methods and properties of the scripts of a set.
#[derive(Drop)]
pub(crate) struct MemberTable {
    descent: Descent,
    // By the numbers of a state's and a function's names.
    methods: Inherited,
    // By the empty name and that of a property.
    properties: Inherited,
}

impl MemberTable {
    /// The nearest method of the name in states of this name, from the script upward.
    pub(crate) fn in_state(&self, script: usize, state: usize, name: usize) -> Option<MemberPlace>
        ensures { result ≡ found_in self.now.methods (state, name) (span_at self.now.descent script).start }
    {
        self.methods.find((state, name), self.rank(script))
    }

    /// The nearest property of the name, from the script upward.
    pub(crate) fn property(&self, script: usize, name: usize) -> Option<MemberPlace>
        ensures { result ≡ found_in self.now.properties (empty_name, name) (span_at self.now.descent script).start }
    {
        self.properties.find((EMPTY_NAME, name), self.rank(script))
    }

    /// Whether the parent is the script itself or stands above it.
    pub(crate) fn is_child(&self, script: u16, parent: u16) -> bool
        ensures { result ≡ is_below self.now.descent script parent }
    {
        self.descent
            .is_below(usize::from(script), usize::from(parent))
    }

    fn rank(&self, script: usize) -> usize
        ensures { result ≡ (span_at self.now.descent script).start }
    {
        self.descent.span(script).start
    }
}

/// The place of a method with the number of its script.
pub(crate) fn method_place(found: MemberPlace) -> Option<MethodPlace>
    ensures { IfSome result (λ place. place.script ≡ found.object) }
{
    Some(MethodPlace {
        script: u16::try_from(found.object).ok()?,
        state: found.state,
        place: found.place,
    })
}
