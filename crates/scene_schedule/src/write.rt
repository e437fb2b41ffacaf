//! Writing what the systems of a phase made of their rows.
ghost use Rattle.std.specs.Prelude.{◌≡◌, [], None, Ok, OnOk, IfErr};
ghost use Rattle.scene_kinds.specs.Answers.{refusal_of};
ghost use Rattle.scene_kinds.specs.declared.fault.Fault.TheVariants.{NoMemory};
ghost use Rattle.scene_model.specs.Perform.{Insert};
ghost use Rattle.scene_machine.specs.Queue.{play, reached, whole};
ghost use Rattle.scene_world.specs.Room.{IsWider};
ghost use Rattle.scene_world.specs.Stage.{act};
ghost use Rattle.scene_schedule.specs.Output.{AreWritten};
ghost use Rattle.scene_schedule.specs.Systems.{writes_of, writes_of_cells, writes_of_row};

use crate::count::count_cells;
use crate::output::RowChanges;
use scene_kinds::{Entity, Fault, Refusal, Value};
use scene_pass::{Outcome, RowChange};
use scene_world::Stage;

/// Writes a copy of a value as an entity's cell of a kind.
fn write_cell<S: Stage>(
    entity: Entity,
    kind: u8,
    value: &Value,
    stage: &mut S,
) -> Result<(), Refusal>
    ensures written { OnOk result (act S.note (S.seen stage.old) (Insert entity kind value.now) ≡ Ok (None, S.seen stage.new)) }
    ensures refused { IfErr result (λ r. r ≡ refusal_of NoMemory) }
    ensures opening { S.opening stage.new ≡ S.opening stage.old }
    ensures wide { IsWider (S.room stage.old) (S.room stage.new) }
{
    let copy = value.try_clone()?;
    match stage.insert(entity, kind, copy) {
        Ok(()) => Ok(()),
        Err(_) => Err(Refusal::from(Fault::NoMemory)),
    }
}

/// Writes cells of an entity, by kind.
fn write_cells<S: Stage>(
    entity: Entity,
    cells: &[(u8, Value)],
    stage: &mut S,
) -> Result<(), Refusal>
    ensures written { OnOk result (play (act S.note) (writes_of_cells entity cells.now) (S.seen stage.old) ≡ whole (reached (S.seen stage.new) [])) }
    ensures refused { IfErr result (λ r. r ≡ refusal_of NoMemory) }
    ensures opening { S.opening stage.new ≡ S.opening stage.old }
    ensures wide { IsWider (S.room stage.old) (S.room stage.new) }
{
    for cell in cells {
        match write_cell(entity, cell.0, &cell.1, stage) {
            Ok(()) => (),
            Err(refusal) => return Err(refusal),
        }
    }
    Ok(())
}

/// Writes what was made of a row. A row of which a sum doesn't fit has nothing to write.
fn write_row<S: Stage>(row: &RowChange, stage: &mut S) -> Result<(), Refusal>
    ensures written { OnOk result (play (act S.note) (writes_of_row row.now) (S.seen stage.old) ≡ whole (reached (S.seen stage.new) [])) }
    ensures refused { IfErr result (λ r. r ≡ refusal_of NoMemory) }
    ensures opening { S.opening stage.new ≡ S.opening stage.old }
    ensures wide { IsWider (S.room stage.old) (S.room stage.new) }
{
    match &row.outcome {
        Outcome::Changed(cells) => write_cells(row.entity, cells.as_slice(), stage),
        Outcome::Overflow(_) => Ok(()),
    }
}

/// Writes the rows of a system one after another.
pub(crate) fn write_rows<S: Stage>(rows: &[RowChange], stage: &mut S) -> Result<(), Refusal>
    ensures written { OnOk result (play (act S.note) (writes_of rows.now) (S.seen stage.old) ≡ whole (reached (S.seen stage.new) [])) }
    ensures refused { IfErr result (λ r. r ≡ refusal_of NoMemory) }
    ensures opening { S.opening stage.new ≡ S.opening stage.old }
    ensures wide { IsWider (S.room stage.old) (S.room stage.new) }
{
    for row in rows {
        match write_row(row, stage) {
            Ok(()) => (),
            Err(refusal) => return Err(refusal),
        }
    }
    Ok(())
}

/// Writes the rows of the systems one after another.
fn write_systems<S: Stage>(rows: &[RowChanges], stage: &mut S) -> Result<(), Refusal>
    ensures written { OnOk result (AreWritten S.note rows.now (S.seen stage.old) (S.seen stage.new)) }
    ensures refused { IfErr result (λ r. r ≡ refusal_of NoMemory) }
    ensures opening { S.opening stage.new ≡ S.opening stage.old }
    ensures wide { IsWider (S.room stage.old) (S.room stage.new) }
{
    for changes in rows {
        match write_rows(changes.as_slice(), stage) {
            Ok(()) => (),
            Err(refusal) => return Err(refusal),
        }
    }
    Ok(())
}

/// Writes on a stage what the systems of a phase made of their rows: system by system, in a system row by row, and in a
/// row by kind (docs/MODEL.md, "The rule of schedules"). It costs what the inserts cost, and a copy of each value.
///
/// Refused: `NoMemory`, and then the cells before the refused one are written; the room for the notes of all cells is
/// made before the first, and with it that for `more` notes, of the commands that follow, so that these move none. No
/// cell is refused for another reason where the rows were made of the stage's own world. The world to which the stage
/// can be taken back, if it keeps a way back, stays, and no room is lost.
pub(crate) fn write_all<S: Stage>(
    rows: &[RowChanges],
    more: usize,
    stage: &mut S,
) -> Result<(), Refusal>
    ensures written { OnOk result (AreWritten S.note rows.now (S.seen stage.old) (S.seen stage.new)) }
    ensures refused { IfErr result (λ r. r ≡ refusal_of NoMemory) }
    ensures opening { S.opening stage.new ≡ S.opening stage.old }
    ensures wide { IsWider (S.room stage.old) (S.room stage.new) }
{
    match stage.make_room(count_cells(rows).saturating_add(more)) {
        Ok(()) => write_systems(rows, stage),
        Err(error) => Err(Refusal::from(error)),
    }
}
