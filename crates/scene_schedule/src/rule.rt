//! Which systems a schedule may have, and the first that it may not.
ghost use Rattle.std.specs.Prelude.{◌≡◌, ◌≤◌, ◌&&◌, nat_lt, length, None, All};
ghost use Rattle.std.specs.List.{list_all, list_any};
ghost use Rattle.scene_schedule.specs.Schedule.{knows, is_ready, is_good_step, is_row, writes_first, is_step_count, is_good_rule, bad_in_phase, bad_from};

use crate::cells::can_spawn;
use scene_kinds::{Fault, KindSet, KindSetMethods, Schema, Shape, good_name};
use scene_systems::{Phase, RowStep, Step, SystemRule};

/// How many steps a system may have.
const MOST_STEPS: usize = 16;

/// How many systems a phase may have, and how many phases a schedule.
const MOST: usize = 64;

/// Whether each kind of a set is in the schema.
fn knows(schema: &Schema, set: KindSet) -> bool
    ensures { result ≡ knows schema.now set }
{
    'kinds: for kind in set.kinds() {
        if kind as usize >= schema.len() {
            return false;
        }
    }
    true
}

/// Whether each matching row has a kind, and the kind has this shape.
fn is_ready(schema: &Schema, need: KindSet, shape: Shape, kind: u8) -> bool
    ensures { result ≡ is_ready schema.now need shape kind }
{
    match schema.shape_of(kind) {
        Some(found) => need.contains(kind) && found == shape,
        None => false,
    }
}

/// Whether a system that needs these kinds may have a step.
fn is_good_step(schema: &Schema, need: KindSet, step: &Step) -> bool
    ensures { result ≡ is_good_step schema.now need step.now }
{
    match step {
        Step::Row(RowStep::AddVec { to, by }) => {
            is_ready(schema, need, Shape::Vec3, *to) && is_ready(schema, need, Shape::Vec3, *by)
        }
        Step::Row(RowStep::AddInt { to, .. }) => is_ready(schema, need, Shape::Int, *to),
        Step::DespawnAtZero { kind } => is_ready(schema, need, Shape::Int, *kind),
        Step::SpawnChild { cells } => can_spawn(schema, cells),
        Step::CountInto { name } => good_name(name.as_str()),
    }
}

fn are_good_steps(schema: &Schema, need: KindSet, steps: &[Step]) -> bool
    ensures { result ≡ list_all (is_good_step schema.now need) steps.now }
{
    steps.iter().all(|step| is_good_step(schema, need, step))
}

/// Whether a step writes.
fn is_row(step: &Step) -> bool
    ensures { result ≡ is_row step.now }
{
    matches!(step, Step::Row(_))
}

fn any_row(steps: &[Step]) -> bool
    ensures { result ≡ list_any is_row steps.now }
{
    steps.iter().any(|step| is_row(step))
}

/// Whether no step that writes stands behind one that queues.
fn writes_first(steps: &[Step]) -> bool
    ensures { result ≡ writes_first steps.now }
{
    'places: for at in 0..steps.len() {
        if !is_row(&steps[at]) {
            return !any_row(&steps[at + 1..]);
        }
    }
    true
}

fn is_step_count(count: usize) -> bool
    ensures { result ≡ is_step_count count }
{
    0 < count && count <= MOST_STEPS
}

/// Whether a schedule over these kinds may have a system.
fn is_good_rule(schema: &Schema, rule: &SystemRule) -> bool
    ensures { result ≡ is_good_rule schema.now rule.now }
{
    let need = rule.filter.need;
    let steps = rule.steps.as_slice();
    let is_named = good_name(rule.name.as_str());
    let is_known = knows(schema, need) && knows(schema, rule.filter.without);
    let in_order = is_step_count(steps.len()) && writes_first(steps);
    is_named && is_known && in_order && are_good_steps(schema, need, steps)
}

/// Whether a phase may have a system at a place.
fn may_stand(schema: &Schema, at: usize, rule: &SystemRule) -> bool
    ensures { result ≡ (nat_lt at 64 && is_good_rule schema.now rule.now) }
{
    at < MOST && is_good_rule(schema, rule)
}

/// The first bad system of a phase.
fn bad_in_phase(schema: &Schema, phase: u32, rules: &[SystemRule]) -> Option<Fault>
    ensures { result ≡ bad_in_phase schema.now phase 0 rules.now }
{
    'places: for at in 0..rules.len() {
        if !may_stand(schema, at, &rules[at]) {
            let system = at as u32;
            return Some(Fault::BadRule { phase, system });
        }
    }
    None
}

/// The first bad system of a list of phases.
pub(crate) fn first_bad(schema: &Schema, phases: &[Phase]) -> Option<Fault>
    ensures fault { result ≡ bad_from schema.now 0 phases.now }
    ensures few { result ≡ None → All (λ rules. length rules ≤ 64) phases.now }
    ensures few_phases { result ≡ None → length phases.now ≤ 64 }
{
    'places: for at in 0..phases.len() {
        if at >= MOST {
            return Some(Fault::BadRule {
                phase: 64,
                system: 0,
            });
        }
        let fault = bad_in_phase(schema, at as u32, phases[at].systems());
        if fault.is_some() {
            return fault;
        }
    }
    None
}
