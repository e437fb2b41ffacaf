//! A list of systems that are played one after another.
ghost use Rattle.std.specs.Prelude.{◌≡◌, ◌++◌, ◌∷◌, [], IfOk, IfErr, OnErr, OnOk};

use crate::system_rule::SystemRule;
use std::alloc::{AllocError, AllocFailed, Global};
use std::marker::Model;

/// The systems of a phase, first to last (docs/MODEL.md, "The rule of systems"). Contracts see a list.
#[derive(Debug)]
pub struct Phase {
    alloc: Global,
    systems: Vec<SystemRule>,
}

impl Drop for Phase {
    fn drop(self) {
        let Phase {
            alloc: _,
            systems: _,
        } = self;
    }
}

impl Model for Phase {
    ghost use Rattle.std.specs.Prelude.{List};
    ghost use Rattle.scene_systems.specs.declared.system_rule.SystemRule.{SystemRule as Data};

    ghost Value = { List Data };

    ghost view = { λ p. p.systems.items };
}

/// Equal systems in the same order, or an error where no memory was found.
fn clone_systems(alloc: Global, systems: &[SystemRule]) -> Result<Vec<SystemRule>, AllocError>
    ensures { IfOk result (λ copies. copies.items ≡ systems.now) }
{
    let mut copies = Vec::new(alloc);
    for system in systems {
        copies.push(system.try_clone()?)?;
    }
    Ok(copies)
}

impl Phase {
    /// A phase without systems. It takes no memory.
    pub fn new(alloc: Global) -> Phase
        ensures { result ≡ [] }
    {
        Phase {
            alloc,
            systems: Vec::new(alloc),
        }
    }

    /// Puts a system last, or hands it back where no memory was found, and then the phase is as it was.
    pub fn push(&mut self, system: SystemRule) -> Result<(), AllocFailed<SystemRule>>
        ensures put { OnOk result (self.new ≡ self.old ++ system ∷ []) }
        ensures same { OnErr result (self.new ≡ self.old) }
        ensures back { IfErr result (λ failed. failed.value ≡ system) }
    {
        self.systems.push(system)
    }

    /// The systems, first to last.
    pub fn systems(&self) -> &[SystemRule]
        ensures { result.now ≡ self.now }
    {
        self.systems.as_slice()
    }

    /// An equal phase, or an error where no memory was found.
    pub fn try_clone(&self) -> Result<Phase, AllocError>
        ensures { IfOk result (λ copy. copy ≡ self.now) }
    {
        Ok(Phase {
            alloc: self.alloc,
            systems: clone_systems(self.alloc, self.systems.as_slice())?,
        })
    }
}
