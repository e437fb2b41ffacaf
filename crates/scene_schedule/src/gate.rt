//! What is called before each system of a phase on several threads.
ghost use Rattle.std.specs.Prelude.{◌≡◌, ℕ};

use scene_world::World;

/// A gate, which each worker passes before each of its systems (docs/MODEL.md, "Many threads, one answer"). It sees
/// which worker runs which system; what the systems make doesn't hang on it.
///
/// The meaning that contracts use: `passed` says what holds once a worker has passed before a system.
pub trait Gate {
    ghost passed: { Self → ℕ → ℕ → Type 0 };

    /// Called by the thread of a worker, counted from 0, before the system at a place of the phase.
    fn pass(&self, worker: u32, system: u32)
        ensures { passed self.now worker system };
}

/// A gate that does nothing.
#[derive(Clone, Copy, Debug)]
pub struct OpenGate;

impl Gate for OpenGate {
    ghost use Rattle.std.specs.Prelude.{⊤};

    ghost passed = { λ gate worker system. ⊤ };

    fn pass(&self, _worker: u32, _system: u32) {}
}

/// The world that a phase begins with, behind its gate: a worker gets it by passing, so no system is run before that.
#[derive(Drop)]
pub(crate) struct Gated<'a, G> {
    world: &'a World,
    gate: &'a G,
}

impl<'a, G: Gate> Gated<'a, G> {
    pub(crate) fn new(world: &'a World, gate: &'a G) -> Gated<'a, G>
        ensures { (result.world.now ≡ world.now) × (result.gate.now ≡ gate.now) }
    {
        Gated { world, gate }
    }

    /// The world, for a worker's system at a place.
    pub(crate) fn pass(&self, worker: u32, system: u32) -> &'a World
        ensures world { result ≡ self.now.world }
        ensures passed { G.passed self.now.gate.now worker system }
    {
        self.gate.pass(worker, system);
        self.world
    }
}
