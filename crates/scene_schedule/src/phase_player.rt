//! The phases of a schedule, however the systems of a phase are played.
ghost use Rattle.std.specs.Prelude.{◌≡◌, ◌≢◌, IfOk, IfErr, OnOk, Ok, Err};
ghost use Rattle.std.specs.Thread.{IsSync};
ghost use Rattle.scene_kinds.specs.Answers.{refusal_of};
ghost use Rattle.scene_kinds.specs.declared.fault.Fault.TheVariants.{NoMemory};
ghost use Rattle.scene_model.specs.Perform.{perform};
ghost use Rattle.scene_world.specs.Room.{IsWider};
ghost use Rattle.scene_world.specs.Stage.{act};
ghost use Rattle.scene_schedule.specs.Sound.{IsSoundPhase};
ghost use Rattle.scene_schedule.specs.Systems.{phase, place_in, in_phase, phases_from};

use crate::schedule::Schedule;
use scene_kinds::{Entity, Fault, Place, Refusal};
use scene_systems::SystemRule;
use scene_table::ColumnWriter;
use scene_world::Stage;
use std::alloc::Global;

/// How the systems of a phase are played on a stage: all on the opening world, or in their turn. Whichever it is, what
/// they do is the same (docs/MODEL.md, "The rule of schedules").
pub(crate) trait PhasePlayer {
    // What holds of a player that can be used.
    ghost can: { Self → Type 0 };

    /// Plays the systems of a phase on a stage, and applies their queues. Where they write columns, it is by the writer.
    /// It gives the entities that the queues spawned.
    fn play_systems<S: Stage, W: ColumnWriter>(
        &self,
        alloc: Global,
        writer: &W,
        rules: &[SystemRule],
        stage: &mut S,
    ) -> Result<Vec<Entity>, Refusal>
        requires ready { can self.now }
        requires sync { IsSync W.Runtime.row }
        requires sound { IsSoundPhase (S.seen stage.old).world.schema rules.now }
        ensures played { IfOk result (λ es. phase (act S.note) (λ t. t.world) rules.now (S.seen stage.old) ≡ Ok (es.items, S.seen stage.new)) }
        ensures refused { IfErr result (λ r. r ≢ refusal_of NoMemory → phase perform (λ w. w) rules.now (S.seen stage.old).world ≡ Err r) }
        ensures opening { S.opening stage.new ≡ S.opening stage.old }
        ensures wide { IsWider (S.room stage.old) (S.room stage.new) };
}

/// The refusal of a phase, with the phase's number in its place.
fn placed(refusal: Refusal, phase: u32) -> Refusal
    ensures { result ≡ record refusal { place = place_in phase refusal.place } }
{
    match refusal.place {
        None => refusal,
        Some(place) => Refusal {
            fault: refusal.fault,
            place: Some(Place {
                phase,
                queue: place.queue,
                command: place.command,
            }),
        },
    }
}

/// Runs a phase of this number on a stage.
fn play_phase<S: Stage, P: PhasePlayer, W: ColumnWriter>(
    alloc: Global,
    rules: &[SystemRule],
    number: u32,
    player: &P,
    writer: &W,
    stage: &mut S,
) -> Result<Vec<Entity>, Refusal>
    requires ready { P.can player.now }
    requires sync { IsSync W.Runtime.row }
    requires sound { IsSoundPhase (S.seen stage.old).world.schema rules.now }
    ensures played { IfOk result (λ es. in_phase number (phase (act S.note) (λ t. t.world) rules.now (S.seen stage.old))
        ≡ Ok (es.items, S.seen stage.new)) }
    ensures refused { IfErr result (λ r. r ≢ refusal_of NoMemory
        → in_phase number (phase perform (λ w. w) rules.now (S.seen stage.old).world) ≡ Err r) }
    ensures schema { OnOk result ((S.seen stage.new).world.schema ≡ (S.seen stage.old).world.schema) }
    ensures opening { S.opening stage.new ≡ S.opening stage.old }
    ensures wide { IsWider (S.room stage.old) (S.room stage.new) }
{
    match player.play_systems(alloc, writer, rules, stage) {
        Ok(spawned) => Ok(spawned),
        Err(refusal) => Err(placed(refusal, number)),
    }
}

/// Runs the phases of a schedule, one after another, on a stage whose world has the schedule's kinds.
pub(crate) fn play_phases<S: Stage, P: PhasePlayer, W: ColumnWriter>(
    alloc: Global,
    schedule: &Schedule,
    player: &P,
    writer: &W,
    stage: &mut S,
) -> Result<Vec<Entity>, Refusal>
    requires ready { P.can player.now }
    requires sync { IsSync W.Runtime.row }
    requires kinds { (S.seen stage.old).world.schema ≡ schedule.now.schema }
    ensures played { IfOk result (λ es. phases_from (act S.note) (λ t. t.world) 0 schedule.now.phases (S.seen stage.old)
        ≡ Ok (es.items, S.seen stage.new)) }
    ensures refused { IfErr result (λ r. r ≢ refusal_of NoMemory
        → phases_from perform (λ w. w) 0 schedule.now.phases (S.seen stage.old).world ≡ Err r) }
    ensures opening { S.opening stage.new ≡ S.opening stage.old }
    ensures wide { IsWider (S.room stage.old) (S.room stage.new) }
{
    let mut spawned = Vec::new(alloc);
    let mut at: u32 = 0;
    'phases: for phase in schedule.phases() {
        match play_phase(alloc, phase.systems(), at, player, writer, stage) {
            Ok(mut made) => {
                if spawned.append(&mut made).is_err() {
                    return Err(Refusal::from(Fault::NoMemory));
                }
            }
            Err(refusal) => return Err(refusal),
        }
        at += 1;
    }
    Ok(spawned)
}
