//! Phases on several threads: what they make, and what is refused, hangs neither on the workers nor on the gate.
ghost use Rattle.std.specs.Prelude.{⊤};

use super::schedule_tests::{Do, L, N, P, System, V, kinds, needs, schedule};
use scene_kinds::{Entity, Fault, Place, Refusal, Value};
use scene_schedule::{Gate, OpenGate, PhaseOutput, Schedule, run_phase, run_phase_alone};
use scene_world::World;
use std::alloc::Global;
use std::process::Abort;
use std::sync::atomic::{AtomicU64, Ordering};
use std::test::*;
use std::thread;
use std::thread::Threads;

/// How often a system came to the gate, and by which worker at last.
#[derive(Drop)]
struct Noted {
    times: AtomicU64,
    worker: AtomicU64,
}

impl Noted {
    fn new() -> Noted {
        Noted {
            times: AtomicU64::new(0),
            worker: AtomicU64::new(0),
        }
    }

    fn note(&self, worker: u32) {
        self.times.fetch_add(1, Ordering::SeqCst);
        self.worker.store(u64::from(worker), Ordering::SeqCst);
    }

    /// Whether it came once, by this worker.
    fn is_once_by(&self, worker: u64) -> bool {
        self.times.load(Ordering::SeqCst) == 1 && self.worker.load(Ordering::SeqCst) == worker
    }
}

/// A gate that notes which worker runs which system, and holds each system until so many have come, for a bounded
/// number of turns.
#[derive(Drop)]
struct Watch {
    wanted: u64,
    came: AtomicU64,
    gave_up: AtomicU64,
    systems: [Noted; 3],
}

impl Watch {
    fn new(wanted: u64) -> Watch {
        Watch {
            wanted,
            came: AtomicU64::new(0),
            gave_up: AtomicU64::new(0),
            systems: [Noted::new(), Noted::new(), Noted::new()],
        }
    }

    /// Whether so many systems came, each once, by the worker whose number its place leaves, and none waited in vain.
    fn saw(&self, systems: usize, workers: usize) -> bool {
        if self.came.load(Ordering::SeqCst) != systems as u64 || workers == 0 {
            return false;
        }
        for (at, noted) in self.systems.iter().enumerate().take(systems) {
            if !noted.is_once_by((at % workers) as u64) {
                return false;
            }
        }
        self.gave_up.load(Ordering::SeqCst) == 0
    }
}

impl Gate for Watch {
    ghost passed = { λ gate worker system. ⊤ };

    fn pass(&self, worker: u32, system: u32) {
        if let Some(noted) = self.systems.get(system as usize) {
            noted.note(worker);
        }
        self.came.fetch_add(1, Ordering::SeqCst);
        for _ in 0..10_000_000u32 {
            if self.came.load(Ordering::SeqCst) >= self.wanted {
                return;
            }
            thread::yield_now();
        }
        self.gave_up.fetch_add(1, Ordering::SeqCst);
    }
}

/// Places move by their speeds.
fn moving() -> System {
    needs(1 << P | 1 << V, &[Do::AddVec(P, V)])
}

/// A number grows by 1, and its rows are counted.
fn counting() -> System {
    needs(1 << N, &[Do::AddInt(N), Do::Count("counted")])
}

/// Rows without a rest go, and each row gets a child.
fn ending() -> System {
    needs(1 << L, &[Do::Zero(L), Do::Child(&[N])])
}

/// A rest grows by 1.
fn resting() -> System {
    needs(1 << L, &[Do::AddInt(L)])
}

/// Spawns a row that moves.
fn spawn_moving(alloc: Global, world: &mut World) -> Result<(), Refusal> {
    let place = Value::Vec3([1, 2, 3]);
    let speed = Value::Vec3([0, -1, 1]);
    let _entity = world.spawn(vec![in alloc; (P, place), (V, speed)]?)?;
    Ok(())
}

/// Spawns a row that counts.
fn spawn_counting(alloc: Global, world: &mut World) -> Result<(), Refusal> {
    let _entity = world.spawn(vec![in alloc; (N, Value::Int(0))]?)?;
    Ok(())
}

/// Spawns a row that moves, counts and has a rest.
fn spawn_both(alloc: Global, world: &mut World, number: i64, rest: i64) -> Result<(), Refusal> {
    let cells = vec![in alloc;
        (P, Value::Vec3([4, 5, 6])),
        (V, Value::Vec3([1, 1, 1])),
        (N, Value::Int(number)),
        (L, Value::Int(rest)),
    ]?;
    let _entity = world.spawn(cells)?;
    Ok(())
}

/// Spawns a row that moves, one that counts, and one that does both.
fn fill(alloc: Global, world: &mut World, number: i64, rest: i64) -> Result<(), Refusal> {
    spawn_moving(alloc, world)?;
    spawn_counting(alloc, world)?;
    spawn_both(alloc, world, number, rest)
}

/// What the first phase makes on so many workers. A schedule of another world is refused, as is a phase that isn't
/// there.
fn on_workers<R: Threads + Sync, G: Gate + Sync>(
    rt: &R,
    alloc: Global,
    world: &World,
    schedule: &Schedule,
    workers: usize,
    gate: &G,
) -> Result<PhaseOutput, Refusal> {
    let can_run = 0 < workers && workers <= 16 && !schedule.phases().is_empty();
    if !can_run || !schedule.is_for(world.schema()) {
        return Err(Refusal::from(Fault::OtherSchema));
    }
    run_phase(rt, alloc, world, schedule, 0, workers, gate)
}

/// The same in this thread.
fn alone(alloc: Global, world: &World, schedule: &Schedule) -> Result<PhaseOutput, Refusal> {
    if schedule.phases().is_empty() || !schedule.is_for(world.schema()) {
        return Err(Refusal::from(Fault::OtherSchema));
    }
    run_phase_alone(alloc, world, schedule, 0)
}

/// The rows and the queues that a phase makes on so many workers, as a text that tells all of them.
fn shown_on<R: Threads + Sync, G: Gate + Sync>(
    rt: &R,
    alloc: Global,
    world: &World,
    schedule: &Schedule,
    workers: usize,
    gate: &G,
) -> Result<String, Refusal> {
    let made = on_workers(rt, alloc, world, schedule, workers, gate)?;
    Ok(format!(in alloc; "{made:?}")?)
}

/// The same in this thread.
fn shown_alone(alloc: Global, world: &World, schedule: &Schedule) -> Result<String, Refusal> {
    let made = alone(alloc, world, schedule)?;
    Ok(format!(in alloc; "{made:?}")?)
}

/// So many workers come to the gate with their own of so many systems, and make what one thread makes.
fn makes<R: Threads + Abort + Sync>(
    rt: &R,
    alloc: Global,
    world: &World,
    schedule: &Schedule,
    workers: usize,
    systems: usize,
    gate: &Watch,
) {
    let shown = shown_on(rt, alloc, world, schedule, workers, gate).expect(rt, "a text");
    let wanted = shown_alone(alloc, world, schedule).expect(rt, "a text");
    assert_eq!(rt; shown, wanted, "{workers} workers");
    assert!(rt; gate.saw(systems, workers), "{workers} workers");
}

/// Each number of workers makes of three systems what one thread makes.
fn compare<R: Threads + Abort + Sync>(rt: &R, alloc: Global, world: &World, schedule: &Schedule) {
    for workers in [1, 2, 3, 8, 16] {
        makes(rt, alloc, world, schedule, workers, 3, &Watch::new(0));
    }
}

/// Why one thread is refused, if it is.
fn fault_alone(alloc: Global, world: &World, schedule: &Schedule) -> Option<Refusal> {
    match alone(alloc, world, schedule) {
        Ok(_) => None,
        Err(refusal) => Some(refusal),
    }
}

/// The same of so many workers.
fn fault_on<R: Threads + Sync>(
    rt: &R,
    alloc: Global,
    world: &World,
    schedule: &Schedule,
    workers: usize,
) -> Option<Refusal> {
    match on_workers(rt, alloc, world, schedule, workers, &OpenGate) {
        Ok(_) => None,
        Err(refusal) => Some(refusal),
    }
}

/// Each number of workers is refused as one thread is.
fn refuse<R: Threads + Abort + Sync>(rt: &R, alloc: Global, world: &World, schedule: &Schedule) {
    let wanted = Refusal {
        fault: Fault::Overflow(Entity {
            index: 2,
            generation: 1,
        }),
        place: Some(Place {
            phase: 0,
            queue: 1,
            command: 0,
        }),
    };
    assert_eq!(rt; fault_alone(alloc, world, schedule), Some(wanted));
    for workers in [1, 2, 3, 8, 16] {
        let fault = fault_on(rt, alloc, world, schedule, workers);
        assert_eq!(rt; fault, Some(wanted), "{workers} workers");
    }
}

/// What is tried on the three rows, whose second has a number, and whose third has that and a rest.
#[derive(Clone, Copy)]
enum Trial {
    Meets,
    Compares,
    Refuses,
}

impl Trial {
    fn run<R: Threads + Abort + Sync>(
        self,
        rt: &R,
        alloc: Global,
        world: &World,
        schedule: &Schedule,
    ) {
        match self {
            Trial::Meets => makes(rt, alloc, world, schedule, 2, 2, &Watch::new(2)),
            Trial::Compares => compare(rt, alloc, world, schedule),
            Trial::Refuses => refuse(rt, alloc, world, schedule),
        }
    }
}

/// Tries the phase of these systems on a world with three rows. No other function here drops a world, which is dear to
/// prove.
fn try_phase<R: Threads + Abort + Sync>(
    rt: &R,
    alloc: Global,
    systems: &[System],
    number: i64,
    rest: i64,
    trial: Trial,
) {
    let schedule = schedule(alloc, &[systems]).expect(rt, "a schedule");
    let kinds = kinds(alloc).expect(rt, "a schema");
    let mut world = World::new(alloc, kinds, 8);
    assert!(rt; fill(alloc, &mut world, number, rest).is_ok());
    trial.run(rt, alloc, &world, &schedule);
}

#[test]
fn two_workers_meet_at_the_gate(rt: HostRuntime) -> Result<(), Fail> {
    let systems = [moving(), counting()];
    try_phase(&rt, rt.alloc(), systems.as_slice(), 5, 1, Trial::Meets);
    Ok(())
}

#[test]
fn each_number_of_workers_makes_the_same(rt: HostRuntime) -> Result<(), Fail> {
    let systems = [moving(), counting(), ending()];
    try_phase(&rt, rt.alloc(), systems.as_slice(), 5, 0, Trial::Compares);
    Ok(())
}

#[test]
fn the_first_system_that_overflows_is_named(rt: HostRuntime) -> Result<(), Fail> {
    let systems = [moving(), counting(), resting()];
    let most = i64::MAX;
    try_phase(
        &rt,
        rt.alloc(),
        systems.as_slice(),
        most,
        most,
        Trial::Refuses,
    );
    Ok(())
}
