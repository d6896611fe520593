//! How variables, properties, states and objects are taken and written.

ghost use Rattle.std.specs.Prelude.{◌≡◌, ◌≤◌, ◌++◌, map, refl, OnOk, ⊤};
ghost use Rattle.std.proofs.lemmas.List.{map-id};
ghost use Rattle.std.proofs.Common.{sym};
ghost use Rattle.pex_values.specs.declared.values.PexVariable.{PexVariable};
ghost use Rattle.pex_values.specs.Fit.{IsCounted, FitsState, FitsProperty, FitsObject};
ghost use Rattle.pex_values.specs.Plain.{PlainObject, PlainProperty, PlainState, plain_object, plain_property, plain_state};
ghost use Rattle.pex_values.specs.Spelling as spell;
ghost use Rattle.pex_codec.specs.Reading as reading;
ghost use Rattle.pex_codec.specs.Writing.{counted_fits, Writes, FitEach, HasSize};

use crate::code::{put_datum, put_optional_function, take_optional_function};
use crate::cursor::{Cursor, Taken};
use crate::faults::EncodeFault;
use crate::items::{Item, put_list, set_u32, take_items, take_list};
use pex_values::{
    FILE_LIMIT, PexObject, PexProperty, PexState, PexVariable, SizeForm, has_read, has_write,
    put_byte, put_u16, put_u32,
};
use std::alloc::{AllocError, Global};

impl Item for PexVariable {
    ghost Plain = { PexVariable };

    ghost plain = { λ variable. variable };

    ghost plain_each = { λ items. items };

    ghost at = { reading.variable_at };

    ghost fits = { λ _. ⊤ };

    ghost list_fits = { IsCounted };

    ghost spelling = { spell.variable };

    ghost each = { λ items. sym (map-id items) };

    ghost listed = { counted_fits };

    fn take(_alloc: Global, cursor: &mut Cursor<'_>, strings: u16) -> Taken<Self> {
        cursor.variable(strings)
    }

    #[tactic(auto, unfolding(pex_values::specs::Spelling::variable))]
    fn write(&self, out: &mut Vec<u8>) -> Result<(), EncodeFault> {
        put_u16(out, self.name)?;
        put_u16(out, self.kind)?;
        put_u32(out, self.flags)?;
        put_datum(out, self.value)?;
        Ok(())
    }
}

impl Item for PexState {
    ghost Plain = { PlainState };

    ghost plain = { plain_state };

    ghost plain_each = { λ items. map plain_state items };

    ghost at = { reading.state_at };

    ghost fits = { FitsState };

    ghost list_fits = { FitEach FitsState };

    ghost spelling = { spell.state };

    ghost each = { λ _. refl };

    ghost listed = { λ items. record { all = λ fit. fit; fit = λ all. all } };

    #[tactic(auto, unfolding(crate::specs::Reading::state_at))]
    fn take(alloc: Global, cursor: &mut Cursor<'_>, strings: u16) -> Taken<Self> {
        let name = cursor.reference(strings)?;
        let functions = take_list(alloc, cursor, strings)?;
        Ok(PexState { name, functions })
    }

    #[tactic(auto, unfolding(pex_values::specs::Spelling::state))]
    fn write(&self, out: &mut Vec<u8>) -> Result<(), EncodeFault> {
        put_u16(out, self.name)?;
        put_list(out, &self.functions)?;
        Ok(())
    }
}

/// The fields of a property that stand before those that its bits ask for.
fn put_property_heading(out: &mut Vec<u8>, property: &PexProperty) -> Result<(), AllocError>
    ensures { OnOk result (out.new.items ≡ out.old.items ++ (spell.two_bytes property.now.name
        ++ spell.two_bytes property.now.kind ++ spell.two_bytes property.now.doc ++ spell.four_bytes property.now.flags
        ++ spell.one_byte property.now.bits)) }
{
    put_u16(out, property.name)?;
    put_u16(out, property.kind)?;
    put_u16(out, property.doc)?;
    put_u32(out, property.flags)?;
    put_byte(out, property.bits)
}

fn put_optional_reference(out: &mut Vec<u8>, reference: Option<u16>) -> Result<(), AllocError>
    ensures { OnOk result (out.new.items ≡ out.old.items ++ spell.optional spell.two_bytes reference) }
{
    match reference {
        None => Ok(()),
        Some(reference) => put_u16(out, reference),
    }
}

impl Item for PexProperty {
    ghost Plain = { PlainProperty };

    ghost plain = { plain_property };

    ghost plain_each = { λ items. map plain_property items };

    ghost at = { reading.property_at };

    ghost fits = { FitsProperty };

    ghost list_fits = { FitEach FitsProperty };

    ghost spelling = { spell.property };

    ghost each = { λ _. refl };

    ghost listed = { λ items. record { all = λ fit. fit; fit = λ all. all } };

    #[tactic(auto, unfolding(crate::specs::Reading::property_at))]
    fn take(alloc: Global, cursor: &mut Cursor<'_>, strings: u16) -> Taken<Self> {
        let head = cursor.property_head(strings)?;
        Ok(PexProperty {
            name: head.name,
            kind: head.kind,
            doc: head.doc,
            flags: head.flags,
            bits: head.bits,
            variable: head.variable,
            read: take_optional_function(alloc, cursor, strings, has_read(head.bits))?,
            write: take_optional_function(alloc, cursor, strings, has_write(head.bits))?,
        })
    }

    #[tactic(auto, unfolding(pex_values::specs::Spelling::property))]
    fn write(&self, out: &mut Vec<u8>) -> Result<(), EncodeFault> {
        put_property_heading(out, self)?;
        put_optional_reference(out, self.variable)?;
        put_optional_function(out, &self.read)?;
        put_optional_function(out, &self.write)?;
        Ok(())
    }
}

/// The fields of an object's data that stand before its lists.
fn put_object_heading(out: &mut Vec<u8>, object: &PexObject) -> Result<(), AllocError>
    ensures { OnOk result (out.new.items ≡ out.old.items ++ (spell.two_bytes object.now.parent
        ++ spell.two_bytes object.now.doc ++ spell.four_bytes object.now.flags ++ spell.two_bytes object.now.auto_state)) }
{
    put_u16(out, object.parent)?;
    put_u16(out, object.doc)?;
    put_u32(out, object.flags)?;
    put_u16(out, object.auto_state)
}

/// An object's data: all but its name and size.
#[tactic(auto, unfolding(pex_values::specs::Spelling::object_data))]
fn put_object_data(out: &mut Vec<u8>, object: &PexObject) -> Result<(), EncodeFault>
    ensures { Writes result out.old.items out.new.items (FitsObject (plain_object object.now)) (spell.object_data (plain_object object.now)) }
{
    put_object_heading(out, object)?;
    put_list(out, &object.variables)?;
    put_list(out, &object.properties)?;
    put_list(out, &object.states)?;
    Ok(())
}

fn size_field(form: SizeForm, len: u32) -> u32
    requires { len ≤ FILE_LIMIT }
    ensures { result ≡ spell.size_of form len }
{
    match form {
        SizeForm::Counted => len + 4,
        SizeForm::Bare => len,
    }
}

impl Item for PexObject {
    ghost Plain = { PlainObject };

    ghost plain = { plain_object };

    ghost plain_each = { λ items. map plain_object items };

    ghost at = { reading.object_at };

    ghost fits = { HasSize };

    ghost list_fits = { FitEach HasSize };

    ghost spelling = { spell.object };

    ghost each = { λ _. refl };

    ghost listed = { λ items. record { all = λ fit. fit; fit = λ all. all } };

    #[tactic(auto, unfolding(crate::specs::Reading::object_at))]
    fn take(alloc: Global, cursor: &mut Cursor<'_>, strings: u16) -> Taken<Self> {
        let head = cursor.object_head(strings)?;
        let variables = take_items(alloc, cursor, strings, head.variables as usize)?;
        let properties = take_list(alloc, cursor, strings)?;
        let states = take_list(alloc, cursor, strings)?;
        let size_form = cursor.size_form(head.size_at, head.size)?;
        Ok(PexObject {
            name: head.name,
            size_form,
            parent: head.parent,
            doc: head.doc,
            flags: head.flags,
            auto_state: head.auto_state,
            variables,
            properties,
            states,
        })
    }

    #[tactic(auto, unfolding(pex_values::specs::Spelling::object))]
    fn write(&self, out: &mut Vec<u8>) -> Result<(), EncodeFault> {
        put_u16(out, self.name)?;
        let size = out.len();
        put_u32(out, 0)?;
        let data = out.len();
        put_object_data(out, self)?;
        let len = out.len() - data;
        if len > FILE_LIMIT as usize {
            return Err(EncodeFault::TooManyItems);
        }
        set_u32(out, size, size_field(self.size_form, len as u32));
        Ok(())
    }
}
