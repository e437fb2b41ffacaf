//! Schedules.
ghost use Rattle.std.specs.Prelude.{◌≡◌, ◌≢◌, ◌↔◌, IfOk, IfErr, OnOk, IsTrue, None, Some, slice_get};
ghost use Rattle.scene_kinds.specs.Answers.{refusal_of};
ghost use Rattle.scene_kinds.specs.declared.fault.Fault.TheVariants.{NoMemory};
ghost use Rattle.scene_schedule.specs.Schedule.{ScheduleState, IsSchedule, schedule_fault};

use crate::conflict::first_clash;
use crate::rule::first_bad;
use scene_kinds::{Fault, Refusal, Schema};
use scene_systems::Phase;
use std::alloc::{AllocError, Global};
use std::marker::Model;
use std::sync::Arc;

/// The kinds of a schema, and phases.
#[derive(Debug)]
struct Plan {
    schema: Schema,
    phases: Vec<Phase>,
}

impl Drop for Plan {
    fn drop(self) {
        let Plan {
            schema: _,
            phases: _,
        } = self;
    }
}

/// A list of phases that was checked for the kinds of a schema (docs/MODEL.md, "The rule of schedules"): each system is
/// one that a schedule may have, and no two systems of a phase are in each other's way.
///
/// Contracts see the kinds and the phases.
#[derive(Debug)]
pub struct Schedule {
    /// Shared by all its clones: who advances over and over gives an equal schedule each time.
    plan: Arc<Plan>,
}

impl Drop for Schedule {
    fn drop(self) {
        let Schedule { plan: _ } = self;
    }
}

impl Model for Schedule {
    ghost use Rattle.scene_schedule.specs.Schedule.{ScheduleState, IsSchedule};

    ghost Value = { ScheduleState };

    ghost view = { λ s. record { schema = s.plan.value.schema; phases = s.plan.value.phases.items } };

    ghost invariant = { λ s. IsSchedule (record { schema = s.plan.value.schema; phases = s.plan.value.phases.items }) };
}

/// Whether a kind has the same name and shape in both schemas, or is in neither.
fn same_kind(a: &Schema, b: &Schema, kind: u8) -> bool
    ensures { IsTrue result ↔ (slice_get a.now kind ≡ slice_get b.now kind) }
{
    a.name_of(kind) == b.name_of(kind) && a.shape_of(kind) == b.shape_of(kind)
}

/// Whether two schemas have the same kinds: as many, each with the same name and shape under its number.
pub fn same_schema(a: &Schema, b: &Schema) -> bool
    ensures { IsTrue result ↔ (a.now ≡ b.now) }
{
    let count = a.len();
    if b.len() != count {
        return false;
    }
    'kinds: for kind in 0..count as u8 {
        if !same_kind(a, b, kind) {
            return false;
        }
    }
    true
}

/// The first fault of a list of phases.
fn schedule_fault(schema: &Schema, phases: &[Phase]) -> Option<Fault>
    ensures { result ≡ schedule_fault schema.now phases.now }
{
    let fault = first_bad(schema, phases);
    if fault.is_some() {
        return fault;
    }
    first_clash(phases)
}

/// Equal phases in the same order, or an error where no memory was found. It costs the systems and their steps.
pub fn clone_phases(alloc: Global, phases: &[Phase]) -> Result<Vec<Phase>, AllocError>
    ensures { IfOk result (λ copies. copies.items ≡ phases.now) }
{
    let mut copies = Vec::new(alloc);
    for phase in phases {
        copies.push(phase.try_clone()?)?;
    }
    Ok(copies)
}

impl Schedule {
    /// A schedule of these phases for worlds with this schema.
    ///
    /// Refused, in this order: `BadRule` with the place of the first system, by phase and then by place, that breaks a
    /// rule (docs/MODEL.md, "The rule of schedules"), `Conflict` with the first two systems of a phase of which one
    /// writes a kind that the other reads or writes, `NoMemory`. Then the phases are dropped. It costs the steps of all
    /// systems, and for each phase the square of its number of steps.
    pub fn new(alloc: Global, schema: &Schema, phases: Vec<Phase>) -> Result<Schedule, Refusal>
        ensures answer { IfOk result (λ s. s ≡ record { schema = schema.now; phases = phases.items }) }
        ensures sound { OnOk result (schedule_fault schema.now phases.items ≡ None) }
        ensures refused { IfErr result (λ r. r ≢ refusal_of NoMemory
            → (schedule_fault schema.now phases.items ≡ Some r.fault) × (r ≡ refusal_of r.fault)) }
    {
        match schedule_fault(schema, phases.as_slice()) {
            Some(fault) => Err(Refusal::from(fault)),
            None => {
                let schema = schema.try_clone()?;
                let plan = Arc::new(alloc, Plan { schema, phases })?;
                Ok(Schedule { plan })
            }
        }
    }

    /// Whether the schedule was made for this schema: for the same kinds under the same numbers.
    pub fn is_for(&self, schema: &Schema) -> bool
        ensures { IsTrue result ↔ (self.now.schema ≡ schema.now) }
    {
        same_schema(&self.plan.schema, schema)
    }

    /// The phases, first to last, and what always holds of them.
    pub fn phases(&self) -> &[Phase]
        ensures list { result.now ≡ self.now.phases }
        ensures sound { IsSchedule self.now }
    {
        self.plan.phases.as_slice()
    }

    /// The schema that the schedule was made for.
    pub fn schema(&self) -> &Schema
        ensures { result.now ≡ self.now.schema }
    {
        &self.plan.schema
    }

    /// An equal schedule, which shares the memory of this one, or an error where too many share it. It costs the same
    /// for any schedule.
    pub fn try_clone(&self) -> Result<Schedule, AllocError>
        ensures { IfOk result (λ copy. copy ≡ self.now) }
    {
        Ok(Schedule {
            plan: Arc::try_clone(&self.plan)?,
        })
    }
}
