//! What native functions are bound to.

ghost use Rattle.std.specs.Prelude.{◌≡◌};
ghost use Rattle.body_runner.specs.Settings.{binding_in};

use core_tree::{Binding, BoundNative, Outline};
use loaded_code::MethodPlace;
use papy_base::Made;
use std::alloc::Global;

/// What native functions are bound to.
#[derive(Drop)]
pub struct Bindings {
    /// For each script, what each function of its empty state does where it is a native.
    pub natives: Vec<Vec<Option<Binding>>>,
}

impl Bindings {
    /// Those of a scene that is bound to the outline.
    ///
    /// # Errors
    ///
    /// `OutOfMemory` comes where there is no room.
    pub fn of(alloc: Global, outline: &Outline, bound: &[BoundNative]) -> Made<Bindings> {
        let mut natives = no_bindings(alloc, outline)?;
        bind_natives(&mut natives, bound);
        Ok(Bindings { natives })
    }

    /// What a native function does.
    pub fn of_native(&self, native: MethodPlace) -> Option<Binding>
        ensures { result ≡ binding_in self.now.natives.items native }
    {
        *self
            .natives
            .get(usize::from(native.script))?
            .get(native.place)?
    }
}

fn no_bindings(alloc: Global, outline: &Outline) -> Made<Vec<Vec<Option<Binding>>>> {
    let mut natives = Vec::with_capacity(alloc, outline.scripts.len())?;
    for script in &outline.scripts {
        natives.push(vec![in alloc; None; script.functions.len()]?)?;
    }
    Ok(natives)
}

fn bind_natives(natives: &mut Vec<Vec<Option<Binding>>>, bound: &[BoundNative]) {
    for native in bound.iter().rev() {
        if let Some(functions) = natives.get_mut(usize::from(native.script)) {
            if let Some(binding) = functions.get_mut(usize::from(native.function)) {
                *binding = Some(native.binding);
            }
        }
    }
}
