//! What commands can be applied to: a world, or whatever keeps notes of what is done to one.
ghost use Rattle.std.specs.Prelude.{◌≡◌, true, false, List, [], Option, None, Ok, All, OnErr};
ghost use Rattle.std.specs.Thread.{IsSync};
ghost use Rattle.scene_model.specs.Commands.{spawn, despawn, despawn_recursive, insert, remove, set_parent, remove_parent, put_resource, remove_resource};
ghost use Rattle.scene_model.specs.Perform.{Spawn, Despawn, DespawnRecursive, Insert, Remove, SetParent, RemoveParent, PutResource, RemoveResource};
ghost use Rattle.scene_table.specs.Runs.{AreApart};
ghost use Rattle.scene_table.specs.Tables.{rows_at};
ghost use Rattle.scene_world.specs.Room.{IsWider, Room};
ghost use Rattle.scene_world.specs.Stage.{Opening, Staged, Note as NoteOf, AnswersNoted, act};
ghost use Rattle.scene_world.specs.Written.{FitAll, HasKindsOf, acted, inserts};

use crate::raw_changes::RawChanges;
use crate::world::World;
use scene_kinds::{Entity, KindSet, Refusal, Value};
use scene_table::{ChangedTicks, ColumnWriter, RowStep, Run};
use std::alloc::AllocError;
use std::convert::Infallible;

/// A world that the nine commands change, with notes of what they did (docs/MODEL.md, "The commands").
///
/// Each command answers what it answers on the world itself, refusals included, and want of memory. An accepted one
/// appends the notes that the world before it and the command fix; after a refusal world and notes are as they were.
/// The world to which the stage can be taken back, if it keeps a way back, and the tick of its record are the same
/// after every command, accepted or refused, and no room is lost (docs/MODEL.md, "Raw changes").
pub trait Stage {
    /// What is noted of a command. A `World` notes nothing.
    type Note;

    // The world and the notes so far.
    ghost seen: { Self → Staged Self.Note };

    // What it notes of a command that is accepted on a world.
    ghost note: { NoteOf Self.Note };

    // The world to which it can be taken back, and the tick of its record. A `World` keeps no way back.
    ghost opening: { Self → Option Opening };

    // The room of its world, which no command loses.
    ghost room: { Self → Room };

    /// The world as it is now.
    fn world(&self) -> &World
        ensures { result.now.world ≡ (seen self.now).world };

    /// Spawns an entity with these components, as `World::spawn` does.
    fn spawn(&mut self, cells: Vec<(u8, Value)>) -> Result<Entity, Refusal>
        ensures answer { AnswersNoted result (seen self.old) (seen self.new) note (Spawn cells.items) (λ w. spawn w cells.items) }
        ensures opening { opening self.new ≡ opening self.old }
        ensures wide { IsWider (room self.old) (room self.new) };

    /// Spawns an entity with components that are lent, as `spawn` does: their list needs no copy first.
    fn spawn_lent(&mut self, cells: &[(u8, Value)]) -> Result<Entity, Refusal>
        ensures answer { AnswersNoted result (seen self.old) (seen self.new) note (Spawn cells.now) (λ w. spawn w cells.now) }
        ensures opening { opening self.new ≡ opening self.old }
        ensures wide { IsWider (room self.old) (room self.new) };

    /// Despawns an entity without children, as `World::despawn` does.
    fn despawn(&mut self, entity: Entity) -> Result<(), Refusal>
        ensures answer { AnswersNoted result (seen self.old) (seen self.new) note (Despawn entity) (λ w. despawn w entity) }
        ensures opening { opening self.new ≡ opening self.old }
        ensures wide { IsWider (room self.old) (room self.new) };

    /// Despawns an entity and all below it, as `World::despawn_recursive` does.
    fn despawn_recursive(&mut self, entity: Entity) -> Result<(), Refusal>
        ensures answer { AnswersNoted result (seen self.old) (seen self.new) note (DespawnRecursive entity) (λ w. despawn_recursive w entity) }
        ensures opening { opening self.new ≡ opening self.old }
        ensures wide { IsWider (room self.old) (room self.new) };

    /// Gives an entity a component, or writes the one that is there, as `World::insert` does.
    fn insert(&mut self, entity: Entity, kind: u8, value: Value) -> Result<(), Refusal>
        ensures answer { AnswersNoted result (seen self.old) (seen self.new) note (Insert entity kind value) (λ w. insert w entity kind value) }
        ensures opening { opening self.new ≡ opening self.old }
        ensures wide { IsWider (room self.old) (room self.new) };

    /// Takes a component from an entity, as `World::remove` does.
    fn remove(&mut self, entity: Entity, kind: u8) -> Result<(), Refusal>
        ensures answer { AnswersNoted result (seen self.old) (seen self.new) note (Remove entity kind) (λ w. remove w entity kind) }
        ensures opening { opening self.new ≡ opening self.old }
        ensures wide { IsWider (room self.old) (room self.new) };

    /// Makes an entity the last child of another, as `World::set_parent` does.
    fn set_parent(&mut self, child: Entity, parent: Entity) -> Result<(), Refusal>
        ensures answer { AnswersNoted result (seen self.old) (seen self.new) note (SetParent child parent) (λ w. set_parent w child parent) }
        ensures opening { opening self.new ≡ opening self.old }
        ensures wide { IsWider (room self.old) (room self.new) };

    /// Takes an entity from its parent, as `World::remove_parent` does.
    fn remove_parent(&mut self, child: Entity) -> Result<(), Refusal>
        ensures answer { AnswersNoted result (seen self.old) (seen self.new) note (RemoveParent child) (λ w. remove_parent w child) }
        ensures opening { opening self.new ≡ opening self.old }
        ensures wide { IsWider (room self.old) (room self.new) };

    /// Puts a value at a name, as `World::put_resource` does.
    fn put_resource(&mut self, name: &str, value: Value) -> Result<(), Refusal>
        ensures answer { AnswersNoted result (seen self.old) (seen self.new) note (PutResource name.now value) (λ w. put_resource w name.now value) }
        ensures opening { opening self.new ≡ opening self.old }
        ensures wide { IsWider (room self.old) (room self.new) };

    /// Takes the value of a name away, as `World::remove_resource` does.
    fn remove_resource(&mut self, name: &str) -> Result<(), Refusal>
        ensures answer { AnswersNoted result (seen self.old) (seen self.new) note (RemoveResource name.now) (λ w. remove_resource w name.now) }
        ensures opening { opening self.new ≡ opening self.old }
        ensures wide { IsWider (room self.old) (room self.new) };

    /// Writes what row steps make of each row of the table of a kind set, by row, and in a row by kind: the world's tick
    /// is that at which the cells are changed (docs/MODEL.md, "The rule of systems"). Each row must have the kinds that
    /// the steps name, of which each writes its own, and none is added that is written. Whether all sums fit: where one
    /// doesn't, world and notes are as they were, as they are where no memory was found.
    fn write_steps<W: ColumnWriter>(
        &mut self,
        writer: &W,
        mask: KindSet,
        steps: &[RowStep],
    ) -> Result<bool, AllocError>
        requires sync { IsSync W.Runtime.row }
        requires apart { AreApart steps.now }
        requires kinds { All (λ row. HasKindsOf (seen self.old).world.schema steps.now row) (rows_at (seen self.old).world.tables mask) }
        ensures fit { result ≡ Ok true → FitAll steps.now (rows_at (seen self.old).world.tables mask)
            × (acted (act note) (inserts (seen self.old).world mask steps.now) (seen self.old) ≡ Ok (tt, seen self.new)) }
        ensures unfit { result ≡ Ok false → (FitAll steps.now (rows_at (seen self.old).world.tables mask) → ⊥)
            × (seen self.new ≡ seen self.old) }
        ensures full { OnErr result (seen self.new ≡ seen self.old) }
        ensures opening { opening self.new ≡ opening self.old }
        ensures wide { IsWider (room self.old) (room self.new) };

    /// Makes room for the notes of so many inserts of kinds that are there, which then take no memory for their notes
    /// (docs/JOURNAL.md, "The recorder"). World and notes are as they were, also where no memory was found.
    fn make_room(&mut self, cells: usize) -> Result<(), AllocError>
        ensures seen { seen self.new ≡ seen self.old }
        ensures opening { opening self.new ≡ opening self.old }
        ensures wide { IsWider (room self.old) (room self.new) };
}

/// A world is a stage that notes nothing.
impl Stage for World {
    type Note = Infallible;

    ghost seen = { λ w. record { world = w.world; notes = [] } };

    ghost note = { λ _ _. [] };

    ghost opening = { λ _. None };

    ghost room = { λ w. w.room };

    fn world(&self) -> &World {
        self
    }

    fn spawn(&mut self, cells: Vec<(u8, Value)>) -> Result<Entity, Refusal> {
        World::spawn(self, cells)
    }

    fn spawn_lent(&mut self, cells: &[(u8, Value)]) -> Result<Entity, Refusal> {
        let spawned = self.spawn_row_lent(cells)?;
        Ok(spawned.entity)
    }

    fn despawn(&mut self, entity: Entity) -> Result<(), Refusal> {
        World::despawn(self, entity)
    }

    fn despawn_recursive(&mut self, entity: Entity) -> Result<(), Refusal> {
        World::despawn_recursive(self, entity)
    }

    fn insert(&mut self, entity: Entity, kind: u8, value: Value) -> Result<(), Refusal> {
        World::insert(self, entity, kind, value)
    }

    fn remove(&mut self, entity: Entity, kind: u8) -> Result<(), Refusal> {
        World::remove(self, entity, kind)
    }

    fn set_parent(&mut self, child: Entity, parent: Entity) -> Result<(), Refusal> {
        World::set_parent(self, child, parent)
    }

    fn remove_parent(&mut self, child: Entity) -> Result<(), Refusal> {
        World::remove_parent(self, child)
    }

    fn put_resource(&mut self, name: &str, value: Value) -> Result<(), Refusal> {
        World::put_resource(self, name, value)
    }

    fn remove_resource(&mut self, name: &str) -> Result<(), Refusal> {
        World::remove_resource(self, name)
    }

    fn write_steps<W: ColumnWriter>(
        &mut self,
        writer: &W,
        mask: KindSet,
        steps: &[RowStep],
    ) -> Result<bool, AllocError> {
        let tick = self.tick();
        let Some(table) = self.rows_of(mask) else {
            return Ok(true);
        };
        match Run::new(self.alloc(), table, steps)? {
            Some(run) => {
                self.put_run(writer, &run, 1, &ChangedTicks::same(tick));
                Ok(true)
            }
            None => Ok(false),
        }
    }

    fn make_room(&mut self, _cells: usize) -> Result<(), AllocError> {
        Ok(())
    }
}
