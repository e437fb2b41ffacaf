//! Advances on two workers.
ghost use Rattle.scene_schedule.specs.Calls.{IsRunOf};
ghost use Rattle.scene_schedule.specs.Sound.{IsSoundPhase};

use scene_kinds::Refusal;
use scene_lock_tests::Gate;
use scene_schedule::{Advance, PhaseOutput, RunBy, Schedule, run_shared};
use scene_systems::SystemRule;
use scene_undo::{Editor, Made};
use scene_world::World;
use std::alloc::Global;
use std::thread::Threads;

/// A gate before systems that holds each until two have come, for a bounded number of turns.
#[derive(Drop)]
pub struct TwoWorkers {
    came: Gate,
    met: Gate,
}

impl TwoWorkers {
    pub fn new() -> TwoWorkers {
        TwoWorkers {
            came: Gate::new(),
            met: Gate::new(),
        }
    }

    /// Whether two were at the gate at once.
    pub fn have_met(&self) -> bool {
        self.met.is_at(2)
    }
}

impl scene_schedule::Gate for TwoWorkers {
    ghost use Rattle.std.specs.Prelude.{⊤};

    ghost passed = { λ gate worker system. ⊤ };

    fn pass(&self, _worker: u32, _system: u32) {
        self.came.raise();
        if self.came.wait_for(2) {
            self.met.raise();
        }
    }
}

/// Advances on two workers as `Editor::advance` does, but past a gate that sees them.
pub fn advance_past<R: Threads + Sync>(
    rt: &R,
    alloc: Global,
    editor: &mut Editor,
    schedule: &Schedule,
    gate: &TwoWorkers,
) -> Result<Made, Refusal> {
    let call = |world: &World, rules: &[SystemRule]| -> Result<PhaseOutput, Refusal>
        requires { IsSoundPhase world.now.world.schema rules.now }
        ensures { IsRunOf world.now.world rules.now result }
    { run_shared(rt, alloc, world, rules, 2, gate) };
    let runner = RunBy { call };
    editor.run(&Advance { schedule, runner })
}
