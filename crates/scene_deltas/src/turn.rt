//! Turns of runs that are made again and taken back.
ghost use Rattle.std.specs.Prelude.{◌≡◌, true};
ghost use Rattle.scene_deltas.specs.Deltas.{back_all, fwd_all, AllFitBack, AllFitOn};
ghost use Rattle.scene_deltas.specs.Segments.{IsOverTable, turn_deltas};

use scene_table::{ChangedTicks, WritesAlone, Written};
use scene_world::{RawChanges, World};

/// Whether the rows of the table of a turn's run are the run's.
fn has_rows_of(world: &World, written: &Written) -> bool
    ensures { result ≡ true → IsOverTable world.now.world written.now }
{
    let _tick = world.tick();
    let run = written.run();
    match world.rows_of(run.mask()) {
        Some(table) => run.stands_in(table),
        None => false,
    }
}

/// Takes the cells of a turn back one after another, the last first.
fn take_cells_back(world: &mut World, written: &Written)
    requires { AllFitBack (turn_deltas written.now) world.old.world }
    ensures world { world.new.world ≡ back_all (turn_deltas written.now) world.old.world }
    ensures room { world.new.room ≡ world.old.room }
{
    let mut left = written.len();
    while left > 0 {
        left -= 1;
        let cell = written.cell(left);
        let _after = world.set_cell(cell.entity, cell.kind, cell.before);
    }
}

/// Writes the cells of a turn again one after another.
fn make_cells_again(world: &mut World, written: &Written)
    requires { AllFitOn (turn_deltas written.now) world.old.world }
    ensures world { world.new.world ≡ fwd_all (turn_deltas written.now) world.old.world }
    ensures room { world.new.room ≡ world.old.room }
{
    let count = written.len();
    for number in 0..count {
        let cell = written.cell(number);
        let _before = world.set_cell(cell.entity, cell.kind, cell.after);
    }
}

/// Takes a turn of a run back, where each of its deltas fits back at its turn. It takes no memory. Where the rows are
/// those of the run, it writes the columns at once.
pub(crate) fn take_turn_back(world: &mut World, written: &Written)
    requires { AllFitBack (turn_deltas written.now) world.old.world }
    ensures world { world.new.world ≡ back_all (turn_deltas written.now) world.old.world }
    ensures room { world.new.room ≡ world.old.room }
{
    if has_rows_of(world, written) {
        world.put_run(
            &WritesAlone,
            written.run(),
            written.turns(),
            written.ticks_before(),
        );
    } else {
        take_cells_back(world, written);
    }
}

/// Makes a turn of a run again, where each of its deltas fits at its turn. It takes no memory. Where the rows are those
/// of the run, it writes the columns at once.
pub(crate) fn make_turn_again(world: &mut World, written: &Written)
    requires { AllFitOn (turn_deltas written.now) world.old.world }
    ensures world { world.new.world ≡ fwd_all (turn_deltas written.now) world.old.world }
    ensures room { world.new.room ≡ world.old.room }
{
    if has_rows_of(world, written) {
        let changed = ChangedTicks::same(written.tick());
        world.put_run(&WritesAlone, written.run(), written.turns() + 1, &changed);
    } else {
        make_cells_again(world, written);
    }
}
