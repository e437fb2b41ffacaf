//! Frames that sessions submit, and a schedule that they advance.
ghost use Rattle.std.specs.Prelude.{◌≡◌, IfOk, length};

use scene_commands::{Command, Components};
use scene_kinds::{Refusal, Schema, Shape, Text, Value};
use scene_pass::Filter;
use scene_queue::Queue;
use scene_schedule::Schedule;
use scene_session::Call;
use scene_systems::{Phase, RowStep, Step, Steps, SystemRule};
use std::alloc::Global;

/// Every row.
pub const ALL: Filter = Filter {
    need: 0,
    without: 0,
};

/// The one kind A, of whole numbers.
pub(crate) fn one_kind(alloc: Global) -> Result<Schema, Refusal> {
    let mut schema = Schema::new(alloc);
    schema.add("A".to_string(alloc)?, Shape::Int)?;
    Ok(schema)
}

/// A system of one step, for each row with a number.
pub(crate) fn rule(alloc: Global, step: Step) -> Result<SystemRule, Refusal> {
    let mut steps = Vec::new(alloc);
    steps.push(step)?;
    Ok(SystemRule {
        name: Text::from("count".to_string(alloc)?),
        filter: Filter {
            need: 1,
            without: 0,
        },
        steps: Steps::from(steps),
    })
}

/// A schedule of one phase for that kind.
pub(crate) fn schedule(alloc: Global, phase: Phase) -> Result<Schedule, Refusal> {
    let mut phases = Vec::new(alloc);
    phases.push(phase)?;
    Schedule::new(alloc, &one_kind(alloc)?, phases)
}

/// A schedule that adds 1 to the number of each row.
pub fn counting_schedule(alloc: Global) -> Result<Schedule, Refusal> {
    let mut phase = Phase::new(alloc);
    phase.push(rule(alloc, Step::Row(RowStep::AddInt { to: 0, by: 1 }))?)?;
    schedule(alloc, phase)
}

/// A queue that spawns an entity with a number.
fn spawn(alloc: Global, number: i64) -> Result<Queue, Refusal> {
    let mut cells = Vec::new(alloc);
    cells.push((0, Value::Int(number)))?;
    let mut queue = Queue::new(alloc);
    queue.push(Command::Spawn(Components::from(cells)))?;
    Ok(queue)
}

/// The queues of a frame that spawns an entity with a number.
pub fn spawning(alloc: Global, number: i64) -> Result<Vec<Queue>, Refusal>
    ensures { IfOk result (λ queues. length queues.items ≡ 1) }
{
    let queue = spawn(alloc, number)?;
    let mut queues = Vec::new(alloc);
    queues.push(queue)?;
    Ok(queues)
}

/// The number that a frame of one spawn spawns.
pub fn number_of(call: &Call) -> Option<i64> {
    let Call::Submit(queues) = call else {
        return None;
    };
    let Command::Spawn(components) = queues.first()?.commands().first()? else {
        return None;
    };
    match components.as_slice().first()? {
        (_, Value::Int(number)) => Some(*number),
        _ => None,
    }
}
