//! The garden: its kinds, how it opens, and what is done to it. Each change spawns equally many things.
ghost use Rattle.std.specs.Prelude.{◌≡◌, [], IfOk, length};
ghost use Rattle.scene_editor.specs.State.{IsLegal};

use crate::error::SharedError;
use scene_editor::{
    Components, Editor, Filter, Phase, Queue, RowStep, Schedule, Schema, Shape, State, Step, Steps,
    SystemRule, Text, Value, World,
};
use std::alloc::{AllocError, Global};

/// The kinds of the garden, with the shapes of their values.
const KINDS: [(&str, Shape); 4] = [
    ("Poured", Shape::Int),
    ("Drop", Shape::Tag),
    ("Lamp", Shape::Tag),
    ("Height", Shape::Int),
];

/// The kind of fountains, which says how often each has poured: its place in `KINDS`.
const POURED: u8 = 0;

/// The kind of drops: its place in `KINDS`.
const DROP: u8 = 1;

/// The kind of lamps: its place in `KINDS`.
const LAMP: u8 = 2;

/// The kind of trees, which says how high each is: its place in `KINDS`.
const HEIGHT: u8 = 3;

/// How many things each change spawns, and how many fountains there are, since each pours one drop at a time.
const THINGS: i64 = 100;

/// How many slots the garden has.
const SLOTS: u32 = 65_536;

/// How many entries its history may have.
const LIMIT: u32 = 1000;

/// What a frame spawns.
#[derive(Clone, Copy)]
pub enum Things {
    Fountains,
    Lamps,
    Trees,
}

impl Things {
    /// The cell of the thing of this number.
    fn cell(self, number: i64) -> (u8, Value) {
        match self {
            Things::Fountains => (POURED, Value::Int(0)),
            Things::Lamps => (LAMP, Value::Tag),
            Things::Trees => (HEIGHT, Value::Int(number)),
        }
    }

    /// The queues of a frame that spawns them.
    pub fn frame(self, alloc: Global) -> Result<Vec<Queue>, SharedError>
        ensures { IfOk result (λ queues. length queues.items ≡ 1) }
    {
        let mut queue = Queue::new(alloc);
        for number in 0..THINGS {
            let cells = vec![in alloc; self.cell(number)]?;
            let _thing = queue.spawn(Components::from(cells))?;
        }
        Ok(vec![in alloc; queue]?)
    }
}

fn kinds(alloc: Global) -> Result<Schema, SharedError> {
    let mut schema = Schema::new(alloc);
    for (name, shape) in KINDS {
        let _kind = schema.add(String::from_str(alloc, name)?, shape)?;
    }
    Ok(schema)
}

/// The rule by which each fountain pours a drop, and counts it.
fn pour_rule(alloc: Global) -> Result<SystemRule, AllocError> {
    let cells = Components::from(vec![in alloc; (DROP, Value::Tag)]?);
    let count = RowStep::AddInt { to: POURED, by: 1 };
    let steps = vec![in alloc; Step::Row(count), Step::SpawnChild { cells }]?;
    Ok(SystemRule {
        name: Text::from(String::from_str(alloc, "pour")?),
        filter: Filter {
            need: 1 << POURED,
            without: 0,
        },
        steps: Steps::from(steps),
    })
}

/// The schedule by which the garden advances: the fountains pour.
pub fn pouring(alloc: Global) -> Result<Schedule, SharedError> {
    let mut phase = Phase::new(alloc);
    phase.push(pour_rule(alloc)?)?;
    Ok(Schedule::new(alloc, &kinds(alloc)?, vec![in alloc; phase]?)?)
}

/// A garden of fountains alone, whose history is empty so far.
pub fn open(alloc: Global) -> Result<State, SharedError>
    ensures legal { IfOk result (λ s. IsLegal s.opening s.history) }
    ensures empty { IfOk result (λ s. s.history ≡ []) }
{
    let fountains = Things::Fountains.frame(alloc)?;
    let mut editor = Editor::new(alloc, World::new(alloc, kinds(alloc)?, SLOTS));
    let _made = editor.submit(fountains.as_slice())?;
    Ok(State::new(alloc, editor, LIMIT))
}
