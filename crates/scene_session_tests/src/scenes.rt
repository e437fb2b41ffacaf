//! Small states, and schedules of them.
ghost use Rattle.std.specs.Prelude.{◌≡◌, ◌≤◌, [], IfOk};
ghost use Rattle.scene_session.specs.State.{IsLegal};

use crate::frames::{one_kind, rule, schedule};
use scene_kinds::{Refusal, Schema, Text};
use scene_schedule::Schedule;
use scene_session::State;
use scene_systems::{Phase, Step, SystemRule};
use scene_undo::Editor;
use scene_world::World;
use std::alloc::Global;

/// A schedule of no phases for that kind.
pub fn empty_schedule(alloc: Global) -> Result<Schedule, Refusal> {
    let schema = one_kind(alloc)?;
    Schedule::new(alloc, &schema, Vec::new(alloc))
}

/// A system that counts the rows.
fn row_count(alloc: Global) -> Result<SystemRule, Refusal> {
    let name = Text::from("rows".to_string(alloc)?);
    rule(alloc, Step::CountInto { name })
}

/// A schedule of two systems, which may run at once.
pub fn two_systems(alloc: Global) -> Result<Schedule, Refusal> {
    let mut phase = Phase::new(alloc);
    phase.push(row_count(alloc)?)?;
    phase.push(row_count(alloc)?)?;
    schedule(alloc, phase)
}

/// A schedule of no phases for a world without kinds.
pub fn schedule_of_other_kinds(alloc: Global) -> Result<Schedule, Refusal> {
    Schedule::new(alloc, &Schema::new(alloc), Vec::new(alloc))
}

/// An editor of a world with that kind and no entities.
pub fn empty_editor(alloc: Global) -> Result<Editor, Refusal> {
    let world = World::new(alloc, one_kind(alloc)?, 1024);
    Ok(Editor::new(alloc, world))
}

/// Spawns so many entities without components.
fn spawn_empty(world: &mut World, alloc: Global, count: u32) -> Result<(), Refusal> {
    for _ in 0..count {
        let _entity = world.spawn(Vec::new(alloc))?;
    }
    Ok(())
}

/// An editor of a world with that kind and so many entities.
pub fn crowded_editor(alloc: Global, count: u32) -> Result<Editor, Refusal>
    requires { (1 ≤ count) × (count ≤ 1048576) }
{
    let mut world = World::new(alloc, one_kind(alloc)?, count);
    spawn_empty(&mut world, alloc, count)?;
    Ok(Editor::new(alloc, world))
}

/// A state of an empty editor, with no history so far.
pub fn empty_state(alloc: Global, limit: u32) -> Result<State, Refusal>
    requires { (1 ≤ limit) × (limit ≤ 1048576) }
    ensures legal { IfOk result (λ s. IsLegal s.opening s.history) }
    ensures empty { IfOk result (λ s. s.history ≡ []) }
{
    Ok(State::new(alloc, empty_editor(alloc)?, limit))
}
