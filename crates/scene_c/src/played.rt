//! A call on an open scene, by its code.
ghost use Rattle.std.specs.Prelude.{◌≡◌, ◌≢◌, ◌++◌, ◌∷◌, [], if◌then◌else◌, is_some};
ghost use Rattle.scene_commands.specs.declared.command.Command.TheVariants.{Spawn};
ghost use Rattle.scene_script.specs.declared.script_line.Line.TheVariants.{Do};
ghost use Rattle.scene_interpreter.specs.Answer.{said_of};
ghost use Rattle.scene_interpreter.specs.Changes.{frame_is_open};
ghost use Rattle.scene_interpreter.specs.Interpreter.{interpreter_of, interpreter_reply, without_frame};
ghost use Rattle.scene_interpreter.specs.Said.{bad_in};
ghost use Rattle.scene_interpreter.specs.WholeFrame.{queue_said};
ghost use Rattle.scene_c.specs.OpenScene.{KeepsAnswer};
ghost use Rattle.scene_c.specs.Calls.{GivesMore, Played, SaysJson, SaysWhy, WasRead, code_of, halt_code, said_code, says};

use crate::open_scene::OpenScene;
use crate::value::{SceneCell, shown_cell};
use crate::{BAD, DONE, LOST, NO_MEMORY, REFUSED, UNTOLD};
use scene_commands::{Command, Components};
use scene_interpreter::{Halt, LineAnswer};
use scene_kinds::{Entity, Value};
use scene_queue::Queue;
use scene_script::Line;
use scene_session::Reply;
use std::alloc::Global;

/// The code of an answer, by what it means.
fn answer_code(answer: &LineAnswer) -> u32
    ensures { result ≡ said_code (said_of answer.now) }
{
    match answer {
        LineAnswer::Replied(Reply::Refused(_)) | LineAnswer::Fault(_) => REFUSED,
        LineAnswer::Bad(_) => BAD,
        _ => DONE,
    }
}

/// The code of what want of memory left.
pub(crate) fn halt_code(halt: Halt) -> u32
    ensures { result ≡ halt_code halt }
{
    match halt {
        Halt::Before | Halt::Begun => NO_MEMORY,
        Halt::After => UNTOLD,
        Halt::Lost => LOST,
    }
}

/// The code of a call that an open scene has answered, or that was halted.
pub(crate) fn code_of(came: Result<(), Halt>, answer: &LineAnswer) -> u32
    ensures { result ≡ code_of came (said_of answer.now) }
{
    match came {
        Ok(()) => answer_code(answer),
        Err(halt) => halt_code(halt),
    }
}

/// Plays a line.
pub(crate) fn line_at(alloc: Global, open_scene: &mut OpenScene, bytes: &[u8]) -> u32
    ensures played { Played open_scene.old open_scene.new (interpreter_reply (interpreter_of open_scene.old.interpreter) bytes.now)
        (interpreter_reply (interpreter_of open_scene.old.interpreter) bytes.now).text result }
    ensures cells { open_scene.new.cells.items ≡ open_scene.old.cells.items }
{
    let came = open_scene.line(alloc, bytes);
    code_of(came, open_scene.answer())
}

/// Plays a line that is a value, with a text of its answer.
pub(crate) fn tell_at(alloc: Global, open_scene: &mut OpenScene, line: Line) -> u32
    ensures played { Played open_scene.old open_scene.new (says line (interpreter_of open_scene.old.interpreter))
        (says line (interpreter_of open_scene.old.interpreter)).text result }
    ensures cells { open_scene.new.cells.items ≡ open_scene.old.cells.items }
{
    let came = open_scene.tell(alloc, line);
    code_of(came, open_scene.answer())
}

/// Plays a line that is a value.
#[inline(always)]
pub(crate) fn say_at(open_scene: &mut OpenScene, line: Line) -> u32
    ensures played { Played open_scene.old open_scene.new (says line (interpreter_of open_scene.old.interpreter)) [] result }
    ensures told { result ≢ 5 }
    ensures cells { open_scene.new.cells.items ≡ open_scene.old.cells.items }
{
    let came = open_scene.say(line);
    code_of(came, open_scene.answer())
}

/// Does a frame of one queue.
pub(crate) fn submit_at(open_scene: &mut OpenScene, queue: Queue) -> u32
    ensures played { Played open_scene.old open_scene.new (queue_said (interpreter_of open_scene.old.interpreter) queue) [] result }
    ensures cells { open_scene.new.cells.items ≡ open_scene.old.cells.items }
{
    let came = open_scene.submit(queue);
    code_of(came, open_scene.answer())
}

/// Spawns with the components that were given for it.
pub(crate) fn spawn_at(alloc: Global, open_scene: &mut OpenScene) -> u32
    ensures played { Played open_scene.old open_scene.new
        (says (Do (Spawn open_scene.old.cells.items)) (interpreter_of open_scene.old.interpreter)) [] result }
    ensures told { result ≢ 5 }
    ensures cells { open_scene.new.cells.items ≡ [] }
{
    let cells = open_scene.take_cells(alloc);
    say_at(
        open_scene,
        Line::Do(Command::Spawn(Components::from(cells))),
    )
}

/// Gives the next spawn a component.
pub(crate) fn give_at(open_scene: &mut OpenScene, kind: u8, value: Value) -> u32
    ensures { GivesMore (kind, value) open_scene.old open_scene.new result }
{
    match open_scene.give(kind, value) {
        Ok(()) => DONE,
        Err(_) => NO_MEMORY,
    }
}

/// Drops the open frame.
pub(crate) fn drop_frame_at(open_scene: &mut OpenScene) -> u32
    ensures code { result ≡ (if frame_is_open (interpreter_of open_scene.old.interpreter) then 0 else 4) }
    ensures dropped { interpreter_of open_scene.new.interpreter ≡ without_frame (interpreter_of open_scene.old.interpreter) }
    ensures kept { KeepsAnswer open_scene.old open_scene.new × (open_scene.new.cells.items ≡ open_scene.old.cells.items) }
{
    if open_scene.drop_frame() { DONE } else { BAD }
}

/// Says why the last line was bad.
pub(crate) fn explain_at(alloc: Global, open_scene: &mut OpenScene) -> u32
    ensures why { SaysWhy (is_some (bad_in (said_of open_scene.old.answer))) open_scene.old open_scene.new result }
    ensures answer { open_scene.new.answer ≡ open_scene.old.answer }
    ensures interpreter { interpreter_of open_scene.new.interpreter ≡ interpreter_of open_scene.old.interpreter }
    ensures cells { open_scene.new.cells.items ≡ open_scene.old.cells.items }
{
    match open_scene.explain(alloc) {
        Ok(true) => DONE,
        Ok(false) => BAD,
        Err(_) => NO_MEMORY,
    }
}

/// Puts the last answer into JSON.
pub(crate) fn json_at(alloc: Global, open_scene: &mut OpenScene) -> u32
    ensures json { SaysJson open_scene.old open_scene.new result }
    ensures answer { open_scene.new.answer ≡ open_scene.old.answer }
    ensures interpreter { interpreter_of open_scene.new.interpreter ≡ interpreter_of open_scene.old.interpreter }
    ensures cells { open_scene.new.cells.items ≡ open_scene.old.cells.items }
{
    match open_scene.tell_json(alloc) {
        Ok(()) => DONE,
        Err(_) => NO_MEMORY,
    }
}

/// Reads a component.
pub(crate) fn read_at(
    alloc: Global,
    open_scene: &mut OpenScene,
    entity: Entity,
    kind: u8,
    out: &mut SceneCell,
) -> u32
    ensures { WasRead entity kind open_scene.old open_scene.new out.old out.new result }
{
    match open_scene.read(alloc, entity, kind) {
        Ok(Some(reading)) => {
            *out = shown_cell(kind, reading);
            DONE
        }
        Ok(None) => REFUSED,
        Err(halt) => halt_code(halt),
    }
}
