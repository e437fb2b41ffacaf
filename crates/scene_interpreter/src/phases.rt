//! The phases of systems that a script has made.
ghost use Rattle.std.specs.Prelude.{◌≡◌, ◌≢◌, ◌++◌, ◌∷◌, [], None, Some, IfOk, IfErr, IfSome, OnErr, OnOk, OnSome};
ghost use Rattle.scene_kinds.specs.Answers.{refusal_of};
ghost use Rattle.scene_kinds.specs.declared.fault.Fault.TheVariants.{NoMemory};
ghost use Rattle.scene_schedule.specs.Schedule.{schedule_fault};
ghost use Rattle.scene_interpreter.specs.Phases.{with_phase, with_system};

use scene_kinds::{Refusal, Schema};
use scene_schedule::{Schedule, clone_phases};
use scene_systems::{Phase, SystemRule as Rule};
use std::alloc::{AllocError, Global};
use std::marker::Model;

/// The phases of a script, first to last (docs/SCRIPTS.md, "Systems"). Contracts see a list of lists of systems.
#[derive(Drop)]
pub(crate) struct Phases {
    alloc: Global,
    list: Vec<Phase>,
    /// The schedule that they made last, so that it is checked once for all advances until they change.
    made: Option<Schedule>,
}

impl Model for Phases {
    ghost use Rattle.std.specs.Prelude.{◌≡◌, List, IfSome};
    ghost use Rattle.scene_systems.specs.declared.system_rule.SystemRule.{SystemRule as Data};

    ghost Value = { List (List Data) };

    ghost view = { λ p. p.list.items };

    ghost invariant = { λ p. IfSome p.made (λ s. s.phases ≡ p.list.items) };
}

impl Phases {
    /// No phases. It takes no memory.
    pub(crate) fn new(alloc: Global) -> Self
        ensures { result ≡ [] }
    {
        Phases {
            alloc,
            list: Vec::new(alloc),
            made: None,
        }
    }

    /// Adds a phase without systems, or finds no memory, and then the phases are as they were.
    pub(crate) fn add_phase(&mut self) -> Result<(), AllocError>
        ensures added { OnOk result (self.new ≡ with_phase self.old) }
        ensures same { OnErr result (self.new ≡ self.old) }
    {
        self.made = None;
        self.list.push(Phase::new(self.alloc))?;
        Ok(())
    }

    /// Makes a phase of one system where there is none, or finds no memory, and then there is still none.
    fn add_first(&mut self, rule: Rule) -> Result<(), AllocError>
        requires { self.old ≡ [] }
        ensures added { OnOk result (self.new ≡ (rule ∷ []) ∷ []) }
        ensures same { OnErr result (self.new ≡ self.old) }
    {
        self.made = None;
        let mut phase = Phase::new(self.alloc);
        phase.push(rule)?;
        self.list.push(phase)?;
        Ok(())
    }

    /// Puts a system last in the last phase, which it makes where there is none; or finds no memory, and then the
    /// phases are as they were.
    #[tactic(auto, using(crate::proofs::PhaseLaws::put_last))]
    pub(crate) fn add_system(&mut self, rule: Rule) -> Result<(), AllocError>
        ensures added { OnOk result (self.new ≡ with_system self.old rule) }
        ensures same { OnErr result (self.new ≡ self.old) }
    {
        self.made = None;
        match self.list.pop() {
            None => self.add_first(rule),
            Some(phase) => {
                let mut last = phase;
                let pushed = last.push(rule);
                self.list.push_reserved(last);
                Ok(pushed?)
            }
        }
    }

    /// Drops all phases.
    pub(crate) fn clear(&mut self)
        ensures { self.new ≡ [] }
    {
        self.made = None;
        self.list = Vec::new(self.alloc);
    }

    /// The phases, first to last.
    pub(crate) fn as_slice(&self) -> &[Phase]
        ensures { result.now ≡ self.now }
    {
        self.list.as_slice()
    }

    /// The schedule that the phases made last, where that is for worlds with this schema.
    fn made_for(&self, schema: &Schema) -> Option<Schedule>
        ensures answer { IfSome result (λ s. s ≡ record { schema = schema.now; phases = self.now }) }
        ensures sound { OnSome result (schedule_fault schema.now self.now ≡ None) }
    {
        let made = self.made.as_ref()?;
        if made.is_for(schema) {
            made.try_clone().ok()
        } else {
            None
        }
    }

    /// The schedule that the phases make for worlds with this schema. The phases stay. It costs the steps of all systems
    /// at the first time after a change, and for each phase the square of its number of steps, and else the kinds.
    ///
    /// Refused: `BadRule`, `Conflict` and `NoMemory`, as a schedule is.
    pub(crate) fn schedule(&mut self, schema: &Schema) -> Result<Schedule, Refusal>
        ensures answer { IfOk result (λ s. s ≡ record { schema = schema.now; phases = self.old }) }
        ensures sound { OnOk result (schedule_fault schema.now self.old ≡ None) }
        ensures refused { IfErr result (λ r. r ≢ refusal_of NoMemory
            → (schedule_fault schema.now self.old ≡ Some r.fault) × (r ≡ refusal_of r.fault)) }
        ensures same { self.new ≡ self.old }
    {
        if let Some(made) = self.made_for(schema) {
            return Ok(made);
        }
        let phases = clone_phases(self.alloc, self.list.as_slice())?;
        let schedule = Schedule::new(self.alloc, schema, phases)?;
        self.made = schedule.try_clone().ok();
        Ok(schedule)
    }
}
