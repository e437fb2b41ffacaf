//! The turns of one worker.
ghost use Rattle.std.specs.Prelude.{◌≡◌, ◌≢◌, ◌≤◌, ◌<◌, ◌%◌, ◌+◌, None, Ok, Err, IfOk, length, slice_index_or, slice_set};
ghost use Rattle.scene_schedule.specs.Sound.{IsSoundPhase};
ghost use Rattle.scene_schedule.specs.Turns.{AreTurns, IsTurn};

use crate::gate::{Gate, Gated};
use crate::output::RowChanges;
use crate::systems::system_output;
use scene_kinds::Refusal;
use scene_queue::Queue;
use scene_systems::SystemRule;
use std::alloc::{AllocError, Global};
use std::marker::Model;

/// What a worker made of the systems of a phase, by system; the places of others' systems are empty. Contracts see a
/// list.
#[derive(Drop)]
pub(crate) struct Turns {
    list: Vec<Option<Result<(RowChanges, Queue), Refusal>>>,
}

impl Model for Turns {
    ghost use Rattle.std.specs.Prelude.{List, Option};
    ghost use Rattle.scene_schedule.specs.Turns.{SystemMade};

    ghost Value = { List (Option SystemMade) };

    ghost view = { λ t. t.list.items };
}

impl Turns {
    /// Takes out what was made of the system at a place.
    pub(crate) fn take(&mut self, at: usize) -> Option<Result<(RowChanges, Queue), Refusal>>
        ensures taken { result ≡ slice_index_or self.old at None }
        ensures rest { self.new ≡ slice_set self.old at None }
    {
        if at < self.list.len() {
            std::mem::replace(&mut self.list[at], None)
        } else {
            None
        }
    }
}

/// Runs a system where it is the worker's, once its gate is passed.
fn turn<G: Gate>(
    alloc: Global,
    gated: &Gated<G>,
    at: usize,
    rule: &SystemRule,
    workers: usize,
    worker: usize,
) -> Option<Result<(RowChanges, Queue), Refusal>>
    requires workers { (worker < workers) × (workers ≤ 16) }
    requires few { (at < 64) × (length rule.now.steps ≤ 16) }
    ensures { IsTurn (G.passed gated.now.gate.now) workers worker gated.now.world.now.world at rule.now result }
{
    if at % workers != worker {
        return None;
    }
    let world = gated.pass(worker as u32, at as u32);
    Some(system_output(alloc, world, at as u32, rule))
}

/// Runs the systems of a worker, one after another, each on the opening world.
pub(crate) fn make_turns<G: Gate>(
    alloc: Global,
    gated: &Gated<G>,
    rules: &[SystemRule],
    workers: usize,
    worker: usize,
) -> Result<Turns, AllocError>
    requires workers { (worker < workers) × (workers ≤ 16) }
    requires sound { IsSoundPhase gated.now.world.now.world.schema rules.now }
    ensures { IfOk result (AreTurns (G.passed gated.now.gate.now) workers worker gated.now.world.now.world 0 rules.now) }
{
    let mut list = Vec::new(alloc);
    'systems: for at in 0..rules.len() {
        list.push(turn(alloc, gated, at, &rules[at], workers, worker))?;
    }
    Ok(Turns { list })
}
