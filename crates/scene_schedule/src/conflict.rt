//! Systems of a phase that are in each other's way.
ghost use Rattle.std.specs.Prelude.{◌≡◌, ◌≤◌, ◌<◌, ◌+◌, length, All};
ghost use Rattle.scene_schedule.specs.Schedule.{step_touches, touches, step_disturbs, disturbs, clash, clash_among, clash_in_phase, clash_from};

use scene_kinds::Fault;
use scene_systems::{Phase, RowStep, Step, SystemRule};

/// Whether a step reads a kind, or writes it.
fn step_touches(kind: u8, step: &Step) -> bool
    ensures { result ≡ step_touches kind step.now }
{
    match step {
        Step::Row(RowStep::AddVec { to, by }) => *to == kind || *by == kind,
        Step::Row(RowStep::AddInt { to, .. }) => *to == kind,
        Step::DespawnAtZero { kind: read } => *read == kind,
        _ => false,
    }
}

/// Whether a system reads a kind, or writes it.
fn touches(rule: &SystemRule, kind: u8) -> bool
    ensures { result ≡ touches rule.now kind }
{
    rule.steps
        .as_slice()
        .iter()
        .any(|step| step_touches(kind, step))
}

/// Whether a step writes a kind that a system reads or writes.
fn step_disturbs(other: &SystemRule, step: &Step) -> bool
    ensures { result ≡ step_disturbs other.now step.now }
{
    match step {
        Step::Row(row_step) => touches(other, row_step.target()),
        _ => false,
    }
}

/// Whether a system writes a kind that another one reads or writes.
fn disturbs(rule: &SystemRule, other: &SystemRule) -> bool
    ensures { result ≡ disturbs rule.now other.now }
{
    rule.steps
        .as_slice()
        .iter()
        .any(|step| step_disturbs(other, step))
}

/// Whether one of two systems writes what the other reads or writes, whatever their filters.
fn clash(a: &SystemRule, b: &SystemRule) -> bool
    ensures { result ≡ clash a.now b.now }
{
    disturbs(a, b) || disturbs(b, a)
}

/// The first of the later systems of a phase that clashes with the one at a place.
fn clash_among(phase: u32, first: u32, rule: &SystemRule, others: &[SystemRule]) -> Option<Fault>
    requires { first + length others.now < 64 }
    ensures { result ≡ clash_among phase first (first + 1) rule.now others.now }
{
    let mut second = first + 1;
    'others: for other in others {
        if clash(rule, other) {
            return Some(Fault::Conflict {
                phase,
                first,
                second,
            });
        }
        second += 1;
    }
    None
}

/// The first two systems of a phase that clash: by the first of them, then by the second.
fn clash_in_phase(phase: u32, rules: &[SystemRule]) -> Option<Fault>
    requires { length rules.now ≤ 64 }
    ensures { result ≡ clash_in_phase phase 0 rules.now }
{
    'places: for at in 0..rules.len() {
        let fault = clash_among(phase, at as u32, &rules[at], &rules[at + 1..]);
        if fault.is_some() {
            return fault;
        }
    }
    None
}

/// The first two systems that clash, phase by phase. It costs, for each phase, the square of its number of steps.
pub(crate) fn first_clash(phases: &[Phase]) -> Option<Fault>
    requires few { All (λ rules. length rules ≤ 64) phases.now }
    requires few_phases { length phases.now ≤ 64 }
    ensures { result ≡ clash_from 0 phases.now }
{
    'places: for at in 0..phases.len() {
        let conflict = clash_in_phase(at as u32, phases[at].systems());
        if conflict.is_some() {
            return conflict;
        }
    }
    None
}
