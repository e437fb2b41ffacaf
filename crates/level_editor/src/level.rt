//! A level: things with names and positions, which an editor holds.
ghost use Rattle.std.specs.Prelude.{◌≡◌, Ok, OnErr, OnOk};
ghost use Rattle.scene_editor.specs.Editor.{machine_of};
ghost use Rattle.scene_editor.specs.Machine.{redo, undo};

use crate::error::LevelError;
use scene_editor::{
    CellName, Command, Components, Cursor, Editor, Entity, Fault, Filter, Made, Phase, Queue,
    Refusal, RowStep, Schedule, Schema, Shape, Step, Steps, SystemRule, Target, Text, Value, World,
    changed_since, load_editor_text, matching, save_editor_text,
};
use std::alloc::{AllocError, Global};

/// The kinds of a level, with the shapes of their values.
const KINDS: [(&str, Shape); 3] = [
    ("Name", Shape::Text),
    ("Position", Shape::Vec3),
    ("Velocity", Shape::Vec3),
];

/// The kind of names: its place in `KINDS`.
const NAME: u8 = 0;

/// The kind of positions: its place in `KINDS`.
const POSITION: u8 = 1;

/// The kind of velocities, which only moving things have: its place in `KINDS`.
const VELOCITY: u8 = 2;

/// How many slots a level has.
const SLOTS: u32 = 65_536;

/// How many changes can be taken back.
const KEPT: u32 = 1_000;

/// A drag of a selection, with the positions from which it began.
#[derive(Drop)]
pub struct Drag {
    starts: Vec<(Entity, [i64; 3])>,
}

/// A level. Each change is a frame of its editor, all or nothing.
#[derive(Drop)]
pub struct Level {
    alloc: Global,
    editor: Editor,
    motion: Schedule,
}

/// A position moved by an offset; at the end of its range it stays.
fn moved(from: [i64; 3], by: [i64; 3]) -> [i64; 3] {
    let [x, y, z] = from;
    let [right, up, back] = by;
    [
        x.saturating_add(right),
        y.saturating_add(up),
        z.saturating_add(back),
    ]
}

/// The components of a thing of this name, at the middle of the level.
fn thing(alloc: Global, name: &str) -> Result<Components, AllocError> {
    let name = Text::from(String::from_str(alloc, name)?);
    let cells = vec![in alloc;
        (NAME, Value::Text(name)),
        (POSITION, Value::Vec3([0, 0, 0])),
    ]?;
    Ok(Components::from(cells))
}

/// The schema of a level.
fn kinds(alloc: Global) -> Result<Schema, LevelError> {
    let mut schema = Schema::new(alloc);
    for (name, shape) in KINDS {
        let _kind = schema.add(String::from_str(alloc, name)?, shape)?;
    }
    Ok(schema)
}

/// The rule of motion: what has a velocity moves by it.
fn move_rule(alloc: Global) -> Result<SystemRule, AllocError> {
    let step = Step::Row(RowStep::AddVec {
        to: POSITION,
        by: VELOCITY,
    });
    Ok(SystemRule {
        name: Text::from(String::from_str(alloc, "move")?),
        filter: Filter {
            need: 1 << POSITION | 1 << VELOCITY,
            without: 0,
        },
        steps: Steps::from(vec![in alloc; step]?),
    })
}

/// The schedule of a level: one phase, in which things move.
fn motion(alloc: Global, kinds: &Schema) -> Result<Schedule, LevelError> {
    let mut phase = Phase::new(alloc);
    phase.push(move_rule(alloc)?)?;
    Ok(Schedule::new(alloc, kinds, vec![in alloc; phase]?)?)
}

impl Level {
    /// A level without things.
    pub fn open(alloc: Global) -> Result<Level, LevelError> {
        let kinds = kinds(alloc)?;
        let motion = motion(alloc, &kinds)?;
        let editor = Editor::with_depth(alloc, World::new(alloc, kinds, SLOTS), KEPT);
        Ok(Level {
            alloc,
            editor,
            motion,
        })
    }

    /// A level that was closed: it is as it was, with all that can be taken back and made again. A text of other kinds
    /// than a level's is refused.
    pub fn reopen(alloc: Global, text: &str) -> Result<Level, LevelError> {
        let motion = motion(alloc, &kinds(alloc)?)?;
        let editor = load_editor_text(alloc, text.as_bytes(), KEPT)?;
        if !motion.is_for(editor.world().schema()) {
            return Err(LevelError::Refused(Refusal::from(Fault::OtherSchema)));
        }
        Ok(Level {
            alloc,
            editor,
            motion,
        })
    }

    /// The text of the level, with all that can be taken back and made again.
    pub fn close(&self) -> Result<String, LevelError> {
        Ok(save_editor_text(self.alloc, &self.editor)?)
    }

    /// Does a frame of one queue.
    fn frame(&mut self, queue: Queue) -> Result<Made, LevelError>
        ensures same { OnErr result (self.new.editor ≡ self.old.editor) }
    {
        let queues = vec![in self.alloc; queue]?;
        Ok(self.editor.submit(queues.as_slice())?)
    }

    /// Spawns a root with parts below it, in one frame, and gives their entities, the root first.
    pub fn place(&mut self, root: &str, parts: &[&str]) -> Result<Vec<Entity>, LevelError>
        ensures same { OnErr result (self.new.editor ≡ self.old.editor) }
    {
        let mut queue = Queue::new(self.alloc);
        let parent = queue.spawn(thing(self.alloc, root)?)?;
        for part in parts {
            let child = queue.spawn(thing(self.alloc, *part)?)?;
            queue.push(Command::SetParent(child, parent))?;
        }
        let made = self.frame(queue)?;
        Ok(made.entities)
    }

    /// Begins to drag a selection.
    pub fn begin_drag(&self, selected: &[Entity]) -> Result<Drag, LevelError> {
        let mut starts = Vec::new(self.alloc);
        for entity in selected {
            starts.push((*entity, self.position(*entity)?))?;
        }
        Ok(Drag { starts })
    }

    /// Moves what is dragged so far from where the drag began, in one frame. Where one of the things is gone, none
    /// moves.
    pub fn drag_to(&mut self, drag: &Drag, offset: [i64; 3]) -> Result<(), LevelError>
        ensures same { OnErr result (self.new.editor ≡ self.old.editor) }
    {
        let mut queue = Queue::new(self.alloc);
        for (entity, start) in &drag.starts {
            let position = Value::Vec3(moved(*start, offset));
            queue.push(Command::Insert(Target::Id(*entity), POSITION, position))?;
        }
        let _made = self.frame(queue)?;
        Ok(())
    }

    /// Puts a thing last below another.
    pub fn put_below(&mut self, child: Entity, parent: Entity) -> Result<(), LevelError>
        ensures same { OnErr result (self.new.editor ≡ self.old.editor) }
    {
        let mut queue = Queue::new(self.alloc);
        queue.push(Command::SetParent(Target::Id(child), Target::Id(parent)))?;
        let _made = self.frame(queue)?;
        Ok(())
    }

    /// Deletes a thing and all below it.
    pub fn delete(&mut self, entity: Entity) -> Result<(), LevelError>
        ensures same { OnErr result (self.new.editor ≡ self.old.editor) }
    {
        let mut queue = Queue::new(self.alloc);
        queue.push(Command::DespawnAll(Target::Id(entity)))?;
        let _made = self.frame(queue)?;
        Ok(())
    }

    /// Gives a thing a velocity.
    pub fn push(&mut self, entity: Entity, velocity: [i64; 3]) -> Result<(), LevelError>
        ensures same { OnErr result (self.new.editor ≡ self.old.editor) }
    {
        let mut queue = Queue::new(self.alloc);
        let velocity = Value::Vec3(velocity);
        queue.push(Command::Insert(Target::Id(entity), VELOCITY, velocity))?;
        let _made = self.frame(queue)?;
        Ok(())
    }

    /// Lets time pass by one step: all that has a velocity moves, in one frame. Where something can't move any further,
    /// nothing moves.
    pub fn step(&mut self) -> Result<(), LevelError>
        ensures same { OnErr result (self.new.editor ≡ self.old.editor) }
    {
        let _made = self.editor.advance_alone(&self.motion)?;
        Ok(())
    }

    /// Takes the newest change back.
    pub fn undo(&mut self) -> Result<(), LevelError>
        ensures machine { OnOk result (undo (machine_of self.old.editor) ≡ Ok (tt, machine_of self.new.editor)) }
        ensures same { OnErr result (self.new.editor ≡ self.old.editor) }
    {
        Ok(self.editor.undo()?)
    }

    /// Makes the newest change that was taken back again.
    pub fn redo(&mut self) -> Result<(), LevelError>
        ensures machine { OnOk result (redo (machine_of self.old.editor) ≡ Ok (tt, machine_of self.new.editor)) }
        ensures same { OnErr result (self.new.editor ≡ self.old.editor) }
    {
        Ok(self.editor.redo()?)
    }

    /// How many changes can be taken back.
    pub fn undo_len(&self) -> usize {
        self.editor.undo_len()
    }

    /// Where a thing is.
    pub fn position(&self, entity: Entity) -> Result<[i64; 3], LevelError> {
        match self.editor.world().get(entity, POSITION)?.value {
            Value::Vec3(position) => Ok(*position),
            _ => Err(LevelError::Refused(Refusal::from(Fault::WrongShape))),
        }
    }

    /// Whether a thing has this name.
    fn is_named(&self, entity: Entity, name: &str) -> bool {
        match self.editor.world().get(entity, NAME) {
            Ok(cell) => match cell.value {
                Value::Text(text) => text.as_str() == name,
                _ => false,
            },
            Err(_) => false,
        }
    }

    /// The name of a kind.
    pub fn kind_name(&self, kind: u8) -> &str {
        self.editor.world().schema().name_of(kind).unwrap_or("")
    }

    /// The first thing of this name.
    pub fn find(&self, name: &str) -> Result<Entity, LevelError> {
        let things = matching(self.alloc, self.editor.world(), Filter::all())?;
        for entity in &things {
            if self.is_named(*entity, name) {
                return Ok(*entity);
            }
        }
        Err(LevelError::NoSuchName)
    }

    /// The level as it is now.
    pub fn cursor(&self) -> Cursor {
        self.editor.cursor()
    }

    /// The cells that were written since a cursor. A cursor of before an undo is refused.
    pub fn changed(&self, since: Cursor) -> Result<Vec<CellName>, LevelError> {
        let tick = self.editor.since(since)?;
        Ok(changed_since(self.alloc, self.editor.world(), Filter::all(), tick)?)
    }
}
