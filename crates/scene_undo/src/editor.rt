//! The editor: a world with the records of its frames, and how a frame is done on a world with its record.
ghost use Rattle.std.specs.Prelude.{◌≡◌, ◌≢◌, ◌≤◌, ◌<◌, ◌+◌, ◌∷◌, [], length, reverse, take, Ok, Err, IfOk, IfErr, OnOk, OnErr, string_bytes};
ghost use Rattle.scene_kinds.specs.Answers.{Answers, refusal_of};
ghost use Rattle.scene_kinds.specs.declared.fault.Fault.TheVariants.{NoMemory};
ghost use Rattle.scene_machine.specs.Frame.{Submit, call, framed};
ghost use Rattle.scene_machine.specs.Machine.{most_frames, opening, opening_with, redo, submitted, undo};
ghost use Rattle.scene_world.specs.Room.{IsWider};
ghost use Rattle.scene_queue.specs.Frames.{frame_of, lone_frame};
ghost use Rattle.scene_journal.specs.Frames.{frame_record, size};
ghost use Rattle.scene_deltas.specs.Notes.{deltas_of};
ghost use Rattle.scene_journal.specs.Records.{Record, undone};
ghost use Rattle.scene_undo.specs.declared.direction.Direction.TheVariants.{Undo, Redo};
ghost use Rattle.scene_undo.specs.BackAndForth.{IsWithinDepth, RedoThenUndo, UndoThenRedo};
ghost use Rattle.scene_undo.specs.Copies.{AreOfFirst};
ghost use Rattle.scene_undo.specs.Cursor.{cursor_of, since};
ghost use Rattle.scene_undo.specs.FurtherKind.{declare_throughout, with_kind_now};
ghost use Rattle.scene_undo.specs.Direction.{AllFit};
ghost use Rattle.scene_undo.specs.Editor.{IsRecordOf, at_depth, entities_of, items_of, machine_of, new_editor, with_rewinds};
ghost use Rattle.scene_undo.specs.Kept.{CanUndoWhereReady};
ghost use Rattle.scene_undo.specs.Parts.{NamesFrame};
ghost use Rattle.scene_undo.specs.Size.{IsNewestWithin};
ghost use Rattle.scene_undo.specs.Stacks.{IsRedone, IsUndone};
ghost use Rattle.scene_journal.specs.FirstFaults.{FutureFits, IsFaultOf, PastFits};

use crate::cursor::Cursor;
use crate::direction::Direction;
use crate::made::Made;
use crate::once::{FrameOnce, Lent, LoneCommand};
use crate::parts::{after_frames, try_records};
use crate::stacks::Stacks;
use scene_commands::Command;
use scene_journal::{Delta, FrameRecord, Recorder};
use scene_kinds::{Entity, Fault, Refusal, Shape};
use scene_queue::{Queue, Queues};
use scene_world::{Frame, Stage, World};
use std::alloc::Global;
use std::marker::Model;

/// A world that frames change, all or nothing, with every change taken back and made again on demand
/// (docs/JOURNAL.md, "The editor").
///
/// Contracts see the world, the records of the frames before it and of those that were undone, the count of undos, and
/// the depth: of how many frames a record is kept. `machine_of` makes of them the machine of saved worlds. Nothing but
/// the world now is kept as a world.
#[derive(Debug)]
pub struct Editor {
    pub(crate) alloc: Global,
    recorder: Recorder,
    pub(crate) stacks: Stacks,
    pub(crate) rewinds: u64,
}

impl Drop for Editor {
    fn drop(self) {
        let Editor {
            alloc: _,
            recorder: _,
            stacks: _,
            rewinds: _,
        } = self;
    }
}

impl Model for Editor {
    ghost use Rattle.std.specs.Prelude.{◌≡◌, ◌≤◌, [], length};
    ghost use Rattle.scene_undo.specs.Editor.{EditorState};
    ghost use Rattle.scene_undo.specs.Kept.{CanRedoAll, CanUndoAll};

    ghost Value = { EditorState };

    ghost view = { λ e. record { world = e.recorder.world; past = e.stacks.past; future = e.stacks.future; rewinds = e.rewinds; depth = e.stacks.depth } };

    // No frame is being recorded. Each record can be undone, or redone, at its turn, with the memory that the world
    // has. The past has no more records than the depth says.
    ghost invariant = { λ e. (e.recorder.frame.deltas ≡ [])
        × ∥ CanUndoAll e.recorder.room e.stacks.past e.recorder.world × CanRedoAll e.recorder.room e.stacks.future e.recorder.world ∥₁
        × (length e.stacks.past ≤ e.stacks.depth) };
}

/// The greatest depth that the lines of a script may set, and that of an editor where none was set.
pub const MOST_FRAMES: u32 = 1_048_576;

/// Does a frame in a recorder between two frames, all or nothing: it raises the tick and runs the frame, whose record
/// the recorder has then. After a refusal the world is as it was.
#[inline(always)]
fn frame<F: FrameOnce>(alloc: Global, recorder: &mut Recorder, asked: F) -> Result<Made, Refusal>
    requires can { F.can asked }
    requires empty { recorder.old.frame.deltas ≡ [] }
    ensures done { IfOk result (λ m. framed (F.does asked) recorder.old.world ≡ Ok (m.entities.items, recorder.new.world)) }
    ensures listed { IfOk result (F.lists asked) }
    ensures noted { IfOk result (λ m. IsRecordOf (F.plays asked) recorder.old.world recorder.new.world m.entities.items recorder.new.frame) }
    ensures can { OnOk result (CanUndoWhereReady recorder.new.frame recorder.new.world) }
    ensures back { OnOk result (undone recorder.new.frame recorder.new.world ≡ recorder.old.world) }
    ensures refused { IfErr result (λ r. r ≢ refusal_of NoMemory → framed (F.does asked) recorder.old.world ≡ Err r) }
    ensures same { OnErr result (recorder.new.world ≡ recorder.old.world) }
    ensures empty { OnErr result (recorder.new.frame.deltas ≡ []) }
    ensures wide { IsWider recorder.old.room recorder.new.room }
{
    recorder.world_is_sound();
    if let Err(refusal) = recorder.begin() {
        return Err(refusal);
    }
    match asked.apply(alloc, recorder) {
        Ok(made) => Ok(made),
        Err(refusal) => {
            recorder.cancel();
            Err(refusal)
        }
    }
}

impl Editor {
    /// An editor of this world, with no past and no future, no undos so far, and the greatest depth, 1,048,576 frames.
    /// It takes no memory.
    pub fn new(alloc: Global, world: World) -> Editor
        ensures state { result ≡ new_editor world.world most_frames }
        ensures machine { machine_of result ≡ opening world.world }
    {
        Editor::with_depth(alloc, world, MOST_FRAMES)
    }

    /// An editor of this world, with no past and no future and no undos so far, that keeps the newest `depth` frames
    /// (docs/MODEL.md, "The rule of undo"): what they changed is forgotten oldest first, so with a depth of 0 nothing
    /// can be undone. It takes no memory.
    pub fn with_depth(alloc: Global, world: World, depth: u32) -> Editor
        ensures state { result ≡ new_editor world.world depth }
        ensures machine { machine_of result ≡ opening_with world.world depth }
    {
        Editor {
            alloc,
            recorder: Recorder::idle(alloc, world),
            stacks: Stacks::new(alloc, depth),
            rewinds: 0,
        }
    }

    /// An editor of this world that keeps the newest `depth` frames, with these records of the frames before it, the
    /// oldest first, and of frames that were undone, the next one first, and no undos so far. All records are tried
    /// before any is dropped: it undoes all of the past and makes it again, and redoes all of the future and takes it
    /// back. So it costs twice what these do, and one look at all cells, however many frames there are; and it has a
    /// list of where the cells stand that were changed in the frames of the past.
    ///
    /// Refused, and then all is dropped: `BadRecord` where a record doesn't fit at its turn; the frames are numbered
    /// from the newest of the past, 0, to its oldest, and on from the next one of the future, and a delta by its place,
    /// or by the number of deltas where the record's tick is at fault (docs/JOURNAL.md, "Records"); `NoMemory`.
    pub fn from_parts(
        alloc: Global,
        world: World,
        past: Vec<FrameRecord>,
        future: Vec<FrameRecord>,
        depth: u32,
    ) -> Result<Editor, Refusal>
        ensures state { IfOk result (λ e. e ≡ record {
          world = world.world;
          past = take depth (reverse past.items);
          future = future.items;
          rewinds = 0;
          depth = depth;
        }) }
        ensures past { OnOk result (AllFit Undo (reverse past.items) world.world) }
        ensures future { OnOk result (AllFit Redo future.items world.world) }
        ensures refused { IfErr result (NamesFrame (IsFaultOf (reverse past.items) future.items world.world)) }
    {
        let mut tried = world;
        if let Err(refusal) = try_records(alloc, Direction::Undo, &mut tried, past.as_slice()) {
            return Err(refusal);
        }
        if let Err(refusal) = try_records(alloc, Direction::Redo, &mut tried, future.as_slice()) {
            let named = after_frames(refusal, past.len());
            return Err(named);
        }
        let stacks = Stacks::from_parts(alloc, past, future, depth)?;
        let recorder = Recorder::idle(alloc, tried);
        let rewinds = 0;
        Ok(Editor {
            alloc,
            recorder,
            stacks,
            rewinds,
        })
    }

    /// The records of the past that are kept, the oldest first, and those of the future, the next one first: what
    /// `from_parts` takes. Each fits at its turn: those of the past are undone from the world now, and those of the
    /// future redone (docs/JOURNAL.md, "Records").
    pub fn records(&self) -> (&[FrameRecord], &[FrameRecord])
        ensures past { reverse result.0.now ≡ self.now.past }
        ensures future { result.1.now ≡ self.now.future }
        ensures fit_back { PastFits self.now.past self.now.world }
        ensures fit_on { FutureFits self.now.future self.now.world }
    {
        self.stacks.records()
    }

    /// Of how many frames a record is kept.
    pub fn depth(&self) -> u32
        ensures { result ≡ self.now.depth }
    {
        self.stacks.depth()
    }

    /// Sets of how many frames a record is kept, and drops those beyond it, the oldest first (docs/MODEL.md, "The rule
    /// of undo"). It takes no memory, and costs the records that are dropped.
    pub fn set_depth(&mut self, depth: u32)
        ensures { self.new ≡ at_depth depth self.old }
    {
        self.stacks.set_depth(depth);
    }

    /// Sets how many undos there were, where an editor goes on from one that isn't there any more; all else stays. A
    /// cursor with this count is good from then on, whenever it was taken, and one with another count is `Rewound`. It
    /// takes no memory.
    pub fn set_rewinds(&mut self, rewinds: u64)
        ensures { self.new ≡ with_rewinds rewinds self.old }
    {
        self.rewinds = rewinds;
    }

    /// Declares a kind, and gives its number, which is its place in the schema: it goes last, in the world now and in
    /// each that an undo or a redo leads to (docs/MODEL.md, "The rule of declarations"). It is no frame, and isn't
    /// undone: tick, records, rewinds and depth stay. It costs as long as the name is.
    ///
    /// Refused, in this order, and then the editor is as it was, and the name is dropped: `BadName` where the name isn't
    /// good; `KindTaken` where a kind has it; `KindsFull` where there are 64 kinds; `NoMemory`.
    pub fn declare(&mut self, name: String, shape: Shape) -> Result<u8, Refusal>
        ensures machine { Answers result (machine_of self.old) (machine_of self.new)
            (declare_throughout (string_bytes name) shape (machine_of self.old)) }
        ensures records { OnOk result (self.new ≡ with_kind_now (string_bytes name) shape self.old) }
        ensures same { OnErr result (self.new ≡ self.old) }
    {
        self.recorder.declare(name, shape)
    }

    /// The world now.
    pub fn world(&self) -> &World
        ensures { result.now.world ≡ self.now.world }
    {
        self.recorder.world()
    }

    /// How many frames can be undone, one after another.
    pub fn undo_len(&self) -> usize
        ensures { result ≡ length self.now.past }
    {
        self.stacks.past_len()
    }

    /// How many undone frames can be redone, one after another.
    pub fn redo_len(&self) -> usize
        ensures { result ≡ length self.now.future }
    {
        self.stacks.future_len()
    }

    /// How many undos there were. It never falls but by `set_rewinds`.
    pub fn rewinds(&self) -> u64
        ensures { result ≡ self.now.rewinds }
    {
        self.rewinds
    }

    /// The cursor of now, since which written cells can be asked for (docs/MODEL.md, "The rule of queries").
    pub fn cursor(&self) -> Cursor
        ensures { result ≡ cursor_of (machine_of self.now) }
    {
        Cursor {
            rewinds: self.rewinds,
            tick: self.recorder.world().tick(),
        }
    }

    /// The tick after which the cells were written that a query since this cursor lists: what `changed_since` and
    /// `added_since` of scene_pass take.
    ///
    /// Refused: `Rewound`, with the count of rewinds now, where it isn't the cursor's, so that there was an undo since.
    pub fn since(&self, cursor: Cursor) -> Result<u64, Refusal>
        ensures { result ≡ since cursor (machine_of self.now) }
    {
        if cursor.rewinds == self.rewinds {
            Ok(cursor.tick)
        } else {
            Err(Refusal::from(Fault::Rewound(self.rewinds)))
        }
    }

    /// Does a frame, all or nothing: it raises the world's tick by one and applies the queues in order
    /// (docs/MODEL.md, "The rule of frames"). What was undone is forgotten. Its record has at most as many deltas as
    /// the frame has commands and takes descendants along. It costs what the frame changes, refused or not, and the
    /// records that are forgotten.
    ///
    /// Refused, in this order, and then the editor is as it was: `TickFull`; the first command's refusal, with its
    /// place; `NoMemory`.
    pub fn submit(&mut self, queues: &[Queue]) -> Result<Made, Refusal>
        requires { length queues.now ≤ 4294967295 }
        ensures machine { Answers (entities_of result) (machine_of self.old) (machine_of self.new)
            (call (machine_of self.old) (Submit (frame_of queues.now))) }
        ensures copy { IfOk result (λ m. m.copy.items ≡ m.entities.items) }
        ensures records { OnOk result ((self.new.past ≡ take self.old.depth (frame_record (frame_of queues.now) self.old.world ∷ self.old.past))
            × (self.new.future ≡ [])) }
        ensures few { OnOk result (IsNewestWithin (size (frame_of queues.now) self.old.world) self.new.past) }
        ensures same { OnErr result (self.new ≡ self.old) }
    {
        self.run(&Queues(queues))
    }

    /// Does a frame of one command as `submit` does one of a queue with it, but without the queue: what the command
    /// gives isn't copied, and the entity that it spawned, if any, is listed once. It costs what the command changes,
    /// refused or not, and the records that are forgotten.
    ///
    /// Refused as by `submit`, and then the editor is as it was; the command is dropped.
    #[inline(always)]
    pub fn submit_one(&mut self, command: Command) -> Result<Vec<Entity>, Refusal>
        ensures machine { Answers (items_of result) (machine_of self.old) (machine_of self.new)
            (call (machine_of self.old) (Submit (frame_of (lone_frame command)))) }
        ensures records { OnOk result ((self.new.past ≡ take self.old.depth (frame_record (frame_of (lone_frame command)) self.old.world ∷ self.old.past))
            × (self.new.future ≡ [])) }
        ensures few { OnOk result (IsNewestWithin (size (frame_of (lone_frame command)) self.old.world) self.new.past) }
        ensures same { OnErr result (self.new ≡ self.old) }
    {
        match self.run_once(LoneCommand(command)) {
            Ok(made) => {
                let Made { entities, .. } = made;
                Ok(entities)
            }
            Err(refusal) => Err(refusal),
        }
    }

    /// Does a frame of any kind, all or nothing: it raises the world's tick by one and runs the frame
    /// (docs/MODEL.md, "The rule of frames"). What was undone is forgotten. It costs what the frame does, refused or
    /// not, and the records that are forgotten. `submit` is this for queues; a kind of its own, outside of this crate,
    /// comes in by an `impl Frame`, and its frames are undone and redone as those of queues are.
    ///
    /// Refused, in this order, and then the editor is as it was: `TickFull`; the frame's first refusal; `NoMemory`.
    pub fn run<F: Frame>(&mut self, asked: &F) -> Result<Made, Refusal>
        requires { F.can asked.now }
        ensures machine { Answers (entities_of result) (machine_of self.old) (machine_of self.new)
            (submitted (machine_of self.old) (framed (F.does asked.now) self.old.world)) }
        ensures copy { IfOk result (λ m. m.copy.items ≡ m.entities.items) }
        ensures records { IfOk result (λ m. (r : Record) × (IsRecordOf (F.plays deltas_of asked.now) self.old.world self.new.world m.entities.items r
            × ((self.new.past ≡ take self.old.depth (r ∷ self.old.past)) × (self.new.future ≡ [])))) }
        ensures same { OnErr result (self.new ≡ self.old) }
    {
        self.run_once(Lent(asked))
    }

    /// The same of a frame that is used up.
    #[inline(always)]
    fn run_once<F: FrameOnce>(&mut self, asked: F) -> Result<Made, Refusal>
        requires { F.can asked }
        ensures machine { Answers (entities_of result) (machine_of self.old) (machine_of self.new)
            (submitted (machine_of self.old) (framed (F.does asked) self.old.world)) }
        ensures listed { IfOk result (F.lists asked) }
        ensures records { IfOk result (λ m. (r : Record) × (IsRecordOf (F.plays asked) self.old.world self.new.world m.entities.items r
            × ((self.new.past ≡ take self.old.depth (r ∷ self.old.past)) × (self.new.future ≡ [])))) }
        ensures same { OnErr result (self.new ≡ self.old) }
    {
        self.stacks.make_room()?;
        match frame(self.alloc, &mut self.recorder, asked) {
            Ok(made) => {
                self.stacks.keep(self.recorder.finish());
                Ok(made)
            }
            Err(refusal) => Err(refusal),
        }
    }

    /// Takes the newest frame back: entities, rows and their order, ticks, the free list, links and resources. It costs
    /// what the frame changed, and a copy of the cells of rows and of the texts that come back.
    ///
    /// Refused, in this order, and then the editor is as it was: `NothingToUndo`; `TickFull` where there were
    /// 18,446,744,073,709,551,615 undos; `NoMemory`.
    pub fn undo(&mut self) -> Result<(), Refusal>
        ensures machine { Answers result (machine_of self.old) (machine_of self.new) (undo (machine_of self.old)) }
        ensures records { OnOk result (IsUndone self.old.past self.old.future self.new.past self.new.future) }
        ensures same { OnErr result (self.new ≡ self.old) }
    {
        let Some(record) = self.stacks.newest() else {
            return Err(Refusal::from(Fault::NothingToUndo));
        };
        if self.rewinds == u64::MAX {
            return Err(Refusal::from(Fault::TickFull));
        }
        let copies = record.copies_to_undo()?;
        self.undo_copied(copies);
        Ok(())
    }

    /// Takes the newest frame back by the copies of its record, where an undo can be counted. It takes no memory.
    pub(crate) fn undo_copied(&mut self, copies: Vec<Delta>)
        requires copies { AreOfFirst Undo copies.items self.old.past }
        requires counted { self.old.rewinds < 18446744073709551615 }
        ensures machine { undo (machine_of self.old) ≡ Ok (tt, machine_of self.new) }
        ensures records { IsUndone self.old.past self.old.future self.new.past self.new.future }
        ensures counted { self.new.rewinds ≡ self.old.rewinds + 1 }
    {
        self.recorder.world_is_sound();
        let Some(record) = self.stacks.newest() else {
            unreachable!();
        };
        self.recorder.undo_copied(record, copies);
        self.stacks.undo();
        self.rewinds += 1;
    }

    /// Does the newest undone frame again. It costs what the frame changes, and a copy of the cells of rows and of the
    /// texts that come.
    ///
    /// Refused, in this order, and then the editor is as it was: `NothingToRedo`; `NoMemory`.
    pub fn redo(&mut self) -> Result<(), Refusal>
        ensures machine { Answers result (machine_of self.old) (machine_of self.new) (redo (machine_of self.old)) }
        ensures records { OnOk result (IsRedone self.old.depth self.old.past self.old.future self.new.past self.new.future) }
        ensures same { OnErr result (self.new ≡ self.old) }
    {
        let Some(record) = self.stacks.next() else {
            return Err(Refusal::from(Fault::NothingToRedo));
        };
        let copies = record.copies_to_redo()?;
        self.redo_copied(copies);
        Ok(())
    }

    /// Does the newest undone frame again by the copies of its record. It takes no memory.
    pub(crate) fn redo_copied(&mut self, copies: Vec<Delta>)
        requires { AreOfFirst Redo copies.items self.old.future }
        ensures machine { redo (machine_of self.old) ≡ Ok (tt, machine_of self.new) }
        ensures records { IsRedone self.old.depth self.old.past self.old.future self.new.past self.new.future }
        ensures depth { self.new.depth ≡ self.old.depth }
    {
        self.recorder.world_is_sound();
        let Some(record) = self.stacks.next() else {
            unreachable!();
        };
        self.recorder.redo_copied(record, copies);
        self.stacks.redo();
    }

    /// A law of every editor: its past has no more frames than the depth says. So an undo and then a redo give the same
    /// past, world and future. A redo and then an undo give the same world and future, and the same past, but for its
    /// oldest frame where the redo dropped that. It does nothing.
    pub fn undo_and_redo_come_back(&self)
        ensures within { IsWithinDepth (machine_of self.now) }
        ensures undo_redo { UndoThenRedo (machine_of self.now) }
        ensures redo_undo { RedoThenUndo (machine_of self.now) }
    {
        // This opens the editor to the prover.
        let _depth = self.stacks.depth();
    }
}
