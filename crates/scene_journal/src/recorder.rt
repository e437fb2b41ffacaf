//! A world that keeps a record of what is done to it, and can always go back.
ghost use Rattle.std.specs.Prelude.{◌≡◌, [], reverse, true, Some, OnOk, OnErr, string_bytes};
ghost use Rattle.std.specs.List.{filter};
ghost use Rattle.scene_kinds.specs.Answers.{Answers, Gives};
ghost use Rattle.scene_model.specs.Can.{can_set_tick};
ghost use Rattle.scene_model.specs.Commands.{raise_tick};
ghost use Rattle.scene_model.specs.Valid.{IsValid};
ghost use Rattle.scene_world.specs.FurtherKind.{declare};
ghost use Rattle.scene_world.specs.Room.{Holds, IsWider};
ghost use Rattle.scene_deltas.specs.Copies.{copies_again, copies_back};
ghost use Rattle.scene_deltas.specs.Notes.{deltas_of};
ghost use Rattle.scene_deltas.specs.Ready.{AreReady, AreReadyOn};
ghost use Rattle.scene_journal.specs.Records.{raised, record_of, redone, undone, RecordFitsBack, RecordFitsOn};
ghost use Rattle.scene_journal.specs.Recorder.{began, opening_of, recording, staged_of};

use crate::cuts::cut_each;
use crate::inserted::{insert, remove};
use crate::notes::{self, last_link, link_of};
use crate::record::FrameRecord;
use crate::runs::Runs;
use crate::spawned::{spawn, spawn_lent};
use crate::turns::write_steps;
use scene_deltas::{Delta, Deltas, is_sound, take_all_back};
use scene_kinds::{Entity, Fault, KindSet, Refusal, Shape, Value};
use scene_table::{ColumnWriter, RowStep};
use scene_world::{RawChanges, Stage, World};
use std::alloc::{AllocError, Global};
use std::marker::Model;

/// A world with the record of the frame that is being made: each accepted command notes its deltas, so that the world
/// from before can come back without memory (docs/JOURNAL.md, "The recorder").
///
/// Contracts see the world and the record.
#[derive(Debug)]
pub struct Recorder {
    alloc: Global,
    world: World,
    tick_before: u64,
    deltas: Deltas,
    runs: Runs,
}

impl Drop for Recorder {
    fn drop(self) {
        let Recorder {
            alloc: _,
            world: _,
            tick_before: _,
            deltas: _,
            runs: _,
        } = self;
    }
}

impl Model for Recorder {
    ghost use Rattle.scene_deltas.specs.Ready.{AreReady};
    ghost use Rattle.scene_journal.specs.Records.{record_of};
    ghost use Rattle.scene_journal.specs.LiveRuns.{AreKept};
    ghost use Rattle.scene_journal.specs.Recorder.{Recording, recording};

    ghost Value = { Recording };

    ghost view = { λ r. recording r.world (record_of r.tick_before r.deltas.items) };

    // Each delta can be taken back at its turn, with the memory that the world has, and each run that is said to be live
    // stands in the world's rows.
    ghost invariant = { λ r. ∥ AreReady r.world.room r.deltas.items r.world.world ∥₁ × AreKept r.world.world r.runs };
}

impl Recorder {
    /// A recorder that goes on with the record of a frame, or begins a new one where the record has no deltas yet. It
    /// takes no memory.
    pub fn new(alloc: Global, world: World, frame: FrameRecord) -> Recorder
        requires { AreReady world.room frame.deltas world.world }
        ensures { result ≡ recording world frame }
    {
        let (tick_before, deltas) = frame.into_parts();
        Recorder {
            alloc,
            world,
            tick_before,
            deltas,
            runs: Runs::new(alloc),
        }
    }

    /// The world as it is now, and the record. It takes no memory.
    pub fn into_parts(self) -> (World, FrameRecord)
        ensures parts { recording result.0 result.1 ≡ self }
        ensures ready { AreReady result.0.room result.1.deltas result.0.world }
    {
        let Recorder {
            world,
            tick_before,
            deltas,
            alloc: _,
            runs: _,
        } = self;
        (world, FrameRecord::new(tick_before, deltas))
    }

    /// The world from before all deltas: entities, rows and their order, ticks, the free list, links and resources
    /// (docs/JOURNAL.md, "The recorder"). It takes no memory, and costs what the deltas changed.
    pub fn revert(self) -> World
        ensures world { result.world ≡ opening_of self }
        ensures room { result.room ≡ self.room }
    {
        let Recorder {
            world,
            deltas,
            alloc: _,
            tick_before: _,
            runs: _,
        } = self;
        let mut before = world;
        take_all_back(&mut before, deltas);
        before
    }

    /// A recorder between two frames: this world, with a record that has no deltas. It takes no memory.
    pub fn idle(alloc: Global, world: World) -> Recorder
        ensures { result ≡ recording world (record_of world.world.tick []) }
    {
        let tick_before = world.tick();
        Recorder {
            alloc,
            world,
            tick_before,
            deltas: Deltas::new(alloc),
            runs: Runs::new(alloc),
        }
    }

    /// A law of every recorder: its world is valid, and has room for itself. It does nothing.
    pub fn world_is_sound(&self)
        ensures valid { IsValid self.now.world }
        ensures held { Holds self.now.room self.now.world }
    {
        is_sound(&self.world);
    }

    /// Begins the record of a further frame, where the record has no deltas: the world's tick is raised by one, and the
    /// record is of the tick before. It takes no memory.
    ///
    /// Refused: `TickFull` where the tick is the greatest of 64 bits; then world and record are as they were.
    pub fn begin(&mut self) -> Result<(), Refusal>
        requires { self.old.frame.deltas ≡ [] }
        ensures answer { Gives result self.old.world self.new.world (raise_tick self.old.world) }
        ensures frame { OnOk result (self.new.frame ≡ record_of self.old.world.tick []) }
        ensures same { OnErr result (self.new.frame ≡ self.old.frame) }
        ensures wide { IsWider self.old.room self.new.room }
    {
        let tick = self.world.tick();
        self.world.raise_tick()?;
        self.tick_before = tick;
        Ok(())
    }

    /// The record of the frame that is done, with no more memory than its deltas need. They can be taken back in the
    /// world as it is now, which the recorder keeps, with a record that has no deltas. It takes no memory.
    #[inline(always)]
    pub fn finish(&mut self) -> FrameRecord
        ensures record { result ≡ self.old.frame }
        ensures ready { AreReady self.new.room result.deltas self.new.world }
        ensures world { self.new.world ≡ self.old.world }
        ensures room { self.new.room ≡ self.old.room }
        ensures empty { self.new.frame.deltas ≡ [] }
    {
        self.runs.finish();
        self.deltas.shrink_to_fit();
        let deltas = std::mem::replace(&mut self.deltas, Deltas::new(self.alloc));
        FrameRecord::new(self.tick_before, deltas)
    }

    /// Takes the frame back: its deltas, the last first, and then the tick is the one from before. The record has no
    /// deltas then. It takes no memory, and costs what the deltas changed.
    pub fn cancel(&mut self)
        requires { can_set_tick (opening_of self.old) self.old.frame.tick_before ≡ true }
        ensures world { self.new.world ≡ undone self.old.frame self.old.world }
        ensures room { self.new.room ≡ self.old.room }
        ensures empty { self.new.frame.deltas ≡ [] }
    {
        let deltas = std::mem::replace(&mut self.deltas, Deltas::new(self.alloc));
        self.runs.end();
        self.runs.finish();
        take_all_back(&mut self.world, deltas);
        self.world.set_tick(self.tick_before);
    }

    /// Declares a kind between two frames, as `World::declare` does, which gives its number. The record stays, and so do
    /// the runs that are gone on with.
    ///
    /// Refused, in this order: `BadName`; `KindTaken`; `KindsFull` where there are 64 kinds; `NoMemory`. After a refusal
    /// the world is as it was, and the name is dropped.
    pub fn declare(&mut self, name: String, shape: Shape) -> Result<u8, Refusal>
        requires empty { self.old.frame.deltas ≡ [] }
        ensures answer { Answers result self.old.world self.new.world (declare self.old.world (string_bytes name) shape) }
        ensures frame { self.new.frame ≡ self.old.frame }
        ensures room { self.new.room ≡ self.old.room }
    {
        self.world.declare(name, shape)
    }

    /// Undoes a record between two frames, in a world that has room for that, by copies that were made before, as
    /// `FrameRecord::undo_copied` does. It takes no memory.
    pub fn undo_copied(&mut self, frame: &FrameRecord, copies: Vec<Delta>)
        requires empty { self.old.frame.deltas ≡ [] }
        requires fits { RecordFitsBack frame.now self.old.world }
        requires ready { AreReady self.old.room frame.now.deltas self.old.world }
        requires copies { copies.items ≡ filter copies_back frame.now.deltas }
        ensures done { self.new.world ≡ undone frame.now self.old.world }
        ensures room { self.new.room ≡ self.old.room }
        ensures empty { self.new.frame.deltas ≡ [] }
    {
        self.runs.end();
        frame.undo_copied(&mut self.world, copies);
    }

    /// Redoes a record between two frames, in a world that has room for that, by copies that were made before, as
    /// `FrameRecord::redo_copied` does. It takes no memory.
    pub fn redo_copied(&mut self, frame: &FrameRecord, copies: Vec<Delta>)
        requires empty { self.old.frame.deltas ≡ [] }
        requires fits { RecordFitsOn frame.now self.old.world }
        requires ready { AreReadyOn self.old.room frame.now.deltas (raised self.old.world) }
        requires copies { copies.items ≡ reverse (filter copies_again frame.now.deltas) }
        ensures done { self.new.world ≡ redone frame.now self.old.world }
        ensures room { self.new.room ≡ self.old.room }
        ensures empty { self.new.frame.deltas ≡ [] }
    {
        self.runs.end();
        frame.redo_copied(&mut self.world, copies);
    }
}

/// A recorder notes the deltas of each command that is accepted.
impl Stage for Recorder {
    type Note = Delta;

    ghost seen = { staged_of };

    ghost note = { deltas_of };

    ghost opening = { λ r. Some (began r) };

    ghost room = { λ r. r.room };

    fn world(&self) -> &World {
        &self.world
    }

    fn despawn(&mut self, entity: Entity) -> Result<(), Refusal> {
        is_sound(&self.world);
        self.runs.end();
        self.deltas.reserve(1)?;
        let row = self.world.despawn_row(entity)?;
        self.deltas.push_reserved(notes::despawned(entity, row));
        Ok(())
    }

    fn insert(&mut self, entity: Entity, kind: u8, value: Value) -> Result<(), Refusal> {
        is_sound(&self.world);
        self.runs.end();
        self.deltas.reserve(1)?;
        let delta = insert(&mut self.world, entity, kind, value)?;
        self.deltas.push_reserved(delta);
        Ok(())
    }

    fn remove(&mut self, entity: Entity, kind: u8) -> Result<(), Refusal> {
        is_sound(&self.world);
        self.runs.end();
        self.deltas.reserve(1)?;
        let delta = remove(&mut self.world, entity, kind)?;
        self.deltas.push_reserved(delta);
        Ok(())
    }

    fn set_parent(&mut self, child: Entity, parent: Entity) -> Result<(), Refusal> {
        is_sound(&self.world);
        let before = link_of(&self.world, child);
        let after = last_link(&self.world, child, parent);
        self.deltas.reserve(1)?;
        self.world.set_parent(child, parent)?;
        self.deltas.push_reserved(Delta::Linked {
            entity: child,
            before,
            after: Some(after),
        });
        Ok(())
    }

    fn remove_parent(&mut self, child: Entity) -> Result<(), Refusal> {
        is_sound(&self.world);
        let lost = link_of(&self.world, child);
        self.deltas.reserve(1)?;
        self.world.remove_parent(child)?;
        self.deltas.push_reserved(Delta::Linked {
            entity: child,
            before: lost,
            after: None,
        });
        Ok(())
    }

    fn put_resource(&mut self, name: &str, value: Value) -> Result<(), Refusal> {
        is_sound(&self.world);
        // This tells the prover that the value is in the range of its type.
        let _shape = value.shape();
        self.deltas.reserve(1)?;
        let delta = notes::put(self.alloc, &self.world, name, &value)?;
        self.world.put_resource(name, value)?;
        self.deltas.push_reserved(delta);
        Ok(())
    }

    fn remove_resource(&mut self, name: &str) -> Result<(), Refusal> {
        is_sound(&self.world);
        self.deltas.reserve(1)?;
        let delta = notes::taken(self.alloc, &self.world, name)?;
        self.world.remove_resource(name)?;
        self.deltas.push_reserved(delta);
        Ok(())
    }

    fn spawn(&mut self, cells: Vec<(u8, Value)>) -> Result<Entity, Refusal> {
        is_sound(&self.world);
        self.runs.end();
        self.deltas.reserve(1)?;
        let (entity, delta) = spawn(&mut self.world, cells)?;
        self.deltas.push_reserved(delta);
        Ok(entity)
    }

    fn spawn_lent(&mut self, cells: &[(u8, Value)]) -> Result<Entity, Refusal> {
        is_sound(&self.world);
        self.runs.end();
        self.deltas.reserve(1)?;
        let (entity, delta) = spawn_lent(&mut self.world, cells)?;
        self.deltas.push_reserved(delta);
        Ok(entity)
    }

    fn despawn_recursive(&mut self, entity: Entity) -> Result<(), Refusal> {
        is_sound(&self.world);
        self.runs.end();
        if !self.world.is_alive(entity) {
            return Err(Refusal::from(Fault::NoSuchEntity));
        }
        let order = self.world.links().post_order(entity)?;
        let mut made = cut_each(self.alloc, &mut self.world, order.as_slice())?;
        match self.deltas.append(&mut made) {
            Ok(()) => Ok(()),
            Err(error) => {
                take_all_back(&mut self.world, made);
                Err(Refusal::from(error))
            }
        }
    }

    fn write_steps<W: ColumnWriter>(
        &mut self,
        writer: &W,
        mask: KindSet,
        steps: &[RowStep],
    ) -> Result<bool, AllocError> {
        write_steps(
            self.alloc,
            writer,
            &mut self.world,
            &mut self.deltas,
            &mut self.runs,
            mask,
            steps,
        )
    }

    fn make_room(&mut self, cells: usize) -> Result<(), AllocError> {
        self.deltas.reserve(cells)
    }
}
