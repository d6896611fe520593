//! What a machine was made of.

ghost use Rattle.std.specs.Prelude.{◌≡◌};

use crate::machine::Machine;
use body_runner::Setting;
use core_tree::Scene;
use pex_verify::Loaded;

impl Machine {
    /// The scripts and the scene that the machine was made of, from which another one can be made. What its run has come to is let go.
    pub fn into_parts(self) -> (Loaded, Scene)
        ensures outline { result.0.outline ≡ self.outline }
        ensures scene { result.1 ≡ self.scene }
    {
        let Machine {
            setting,
            plan,
            world,
            ..
        } = self;
        drop(plan);
        drop(world);
        let Setting {
            loaded,
            scene,
            bindings,
        } = setting;
        drop(bindings);
        (loaded, scene)
    }
}
