//! What users of schedules rely on, as contracts of functions without a body.
ghost use Rattle.std.specs.Prelude.{◌≡◌, ◌↔◌, [], ◌∷◌, None, Some, codes, pos};
ghost use Rattle.scene_kinds.specs.declared.fault.Fault.TheVariants.{BadRule, Conflict};
ghost use Rattle.scene_kinds.specs.declared.value.Value.TheVariants.{Int};
ghost use Rattle.scene_commands.specs.declared.command.Command.TheVariants.{Spawn, DespawnAllIfAlive, SetParent, PutResource};
ghost use Rattle.scene_commands.specs.declared.target.Target.TheVariants.{Id, New};
ghost use Rattle.scene_pass.specs.Examples.{three_tables, ent};
ghost use Rattle.scene_table.specs.declared.row_step.RowStep.TheVariants.{AddVec, AddInt};
ghost use Rattle.scene_systems.specs.declared.step.Step.TheVariants.{Row, DespawnAtZero, SpawnChild, CountInto};
ghost use Rattle.scene_schedule.specs.Examples.{three_kinds, doing, move, count_down, end_at_zero, idle, empty_phases};
ghost use Rattle.scene_schedule.specs.AtOnce.{SystemsSeeTheOpeningWorld, output_of, first_overflow};
ghost use Rattle.scene_schedule.specs.Schedule.{ScheduleState, IsSchedule, schedule_fault};
ghost use Rattle.scene_schedule.specs.Sound.{IsSound};
ghost use Rattle.scene_schedule.specs.Systems.{overflow_at};

/// A law: schedules are just the lists of at most 64 phases of at most 64 systems that break no rule and of which no
/// two in a phase are in each other's way: neither writes a kind that the other reads or writes.
pub fn schedules_are_just_what_is_sound()
    ensures { (s : ScheduleState) → IsSchedule s ↔ IsSound s.schema s.phases }
{}

/// A law: systems of which none is in another's way make in their turn, each on what those before it wrote, what each
/// of them makes of the opening world alone; and the first that overflows on the opening world is the one that is
/// refused.
pub fn systems_see_the_opening_world()
    ensures { SystemsSeeTheOpeningWorld }
{}

/// Worked examples, over the vectors P and V and the number N. `move` writes P and reads V, `count_down` writes N,
/// `end_at_zero` reads N, and `idle` has no step.
#[tactic(auto, unfolding(scene_kinds::specs::KindSet::kinds_from))]
pub fn worked_schedules()
    ensures no_phase { schedule_fault three_kinds [] ≡ None }
    ensures one_phase { schedule_fault three_kinds ((move ∷ count_down ∷ []) ∷ []) ≡ None }
    ensures two_phases { schedule_fault three_kinds ((count_down ∷ []) ∷ (end_at_zero ∷ end_at_zero ∷ []) ∷ []) ≡ None }
    ensures unknown_kind { schedule_fault [] ((move ∷ []) ∷ []) ≡ Some (BadRule 0 0) }
    ensures no_step { schedule_fault three_kinds ((move ∷ idle ∷ []) ∷ []) ≡ Some (BadRule 0 1) }
    ensures unneeded { schedule_fault three_kinds ([] ∷ (doing 1 (Row (AddVec 0 1) ∷ []) ∷ []) ∷ []) ≡ Some (BadRule 1 0) }
    ensures wrong_shape { schedule_fault three_kinds ((doing 7 (Row (AddInt 1 (pos 0)) ∷ []) ∷ []) ∷ []) ≡ Some (BadRule 0 0) }
    ensures late_write { schedule_fault three_kinds ((doing 7 (DespawnAtZero 2 ∷ Row (AddVec 0 1) ∷ []) ∷ []) ∷ []) ≡ Some (BadRule 0 0) }
    ensures many_phases { schedule_fault three_kinds (empty_phases 65) ≡ Some (BadRule 64 0) }
    ensures both_write { schedule_fault three_kinds ((move ∷ count_down ∷ move ∷ []) ∷ []) ≡ Some (Conflict 0 0 2) }
    ensures one_reads { schedule_fault three_kinds ((move ∷ []) ∷ (end_at_zero ∷ count_down ∷ []) ∷ []) ≡ Some (Conflict 1 0 1) }
    ensures bad_first { schedule_fault three_kinds ((move ∷ move ∷ []) ∷ (idle ∷ []) ∷ []) ≡ Some (BadRule 1 0) }
{}

/// Worked examples of what a system makes of a world by itself. In `three_tables` the entities 2, 1 and 0 have the
/// number 0 as their kind 0, and match in this order.
pub fn worked_systems()
    ensures at_zero { (output_of three_tables (doing 1 (DespawnAtZero 0 ∷ []))).commands
        ≡ DespawnAllIfAlive (Id (ent 2)) ∷ DespawnAllIfAlive (Id (ent 1)) ∷ DespawnAllIfAlive (Id (ent 0)) ∷ [] }
    ensures written { (output_of three_tables (doing 1 (Row (AddInt 0 (pos 1)) ∷ DespawnAtZero 0 ∷ CountInto (codes "n") ∷ []))).commands
        ≡ PutResource (codes "n") (Int (pos 3)) ∷ [] }
    ensures children { (output_of three_tables (doing 3 (SpawnChild [] ∷ SpawnChild [] ∷ []))).commands
        ≡ Spawn [] ∷ SetParent (New 0) (Id (ent 1)) ∷ Spawn [] ∷ SetParent (New 1) (Id (ent 0))
        ∷ Spawn [] ∷ SetParent (New 2) (Id (ent 1)) ∷ Spawn [] ∷ SetParent (New 3) (Id (ent 0)) ∷ [] }
    ensures fits { first_overflow three_tables 0 (doing 1 (Row (AddInt 0 (pos 9223372036854775807)) ∷ []) ∷ []) ≡ None }
    ensures overflow { first_overflow three_tables 0
        (end_at_zero ∷ doing 1 (Row (AddInt 0 (pos 1)) ∷ Row (AddInt 0 (pos 9223372036854775807)) ∷ []) ∷ [])
        ≡ Some (overflow_at 1 (ent 2, 1)) }
{}
