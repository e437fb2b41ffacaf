//! A system as a rule.
ghost use Rattle.std.specs.Prelude.{◌≡◌, IfOk};

use crate::filter::Filter;
use crate::step::Steps;
use scene_kinds::Text;
use std::alloc::AllocError;

/// A system: a name, the rows that it is for, and what it does with them, step by step (docs/MODEL.md, "The rule of
/// systems"). Whether a schedule takes it is said where the schedule is made.
#[derive(Debug)]
pub struct SystemRule {
    pub name: Text,
    pub filter: Filter,
    pub steps: Steps,
}

impl Drop for SystemRule {
    fn drop(self) {
        let SystemRule {
            name: _,
            filter: _,
            steps: _,
        } = self;
    }
}

impl SystemRule {
    /// An equal system, or an error where no memory was found.
    pub fn try_clone(&self) -> Result<SystemRule, AllocError>
        ensures { IfOk result (λ copy. copy ≡ self.now) }
    {
        Ok(SystemRule {
            name: self.name.try_clone()?,
            filter: self.filter,
            steps: self.steps.try_clone()?,
        })
    }
}
