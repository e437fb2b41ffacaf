//! What the lines of a script ask of the editor.
ghost use Rattle.std.specs.Prelude.{◌≡◌, IfOk};
ghost use Rattle.scene_print.specs.Shown.{show_text};
ghost use Rattle.scene_interpreter.specs.Answer.{said_of};
ghost use Rattle.scene_interpreter.specs.Play.{dump_said, get_said};
ghost use Rattle.scene_interpreter.specs.Said.{Text};

use crate::answer::{LineAnswer, faulty, refused};
use scene_file::{save_editor_text, save_text};
use scene_kinds::{Entity, Fault, Refusal};
use scene_print::{write_row, write_show};
use scene_session::EditorQuery;
use scene_undo::Editor;
use scene_world::World;
use std::alloc::{AllocError, Global};

/// What is asked of the world now.
#[derive(Clone, Copy)]
pub(crate) enum WorldText {
    /// All of it.
    Show,
    /// The row of an entity.
    Get(Entity),
    /// Its scene text.
    Dump,
}

/// What `show` is answered with.
fn shown(alloc: Global, world: &World) -> Result<LineAnswer, AllocError>
    ensures { IfOk result (λ answer. said_of answer ≡ Text (show_text world.now.world)) }
{
    let mut text = String::new(alloc);
    write_show(alloc, &mut text, world)?;
    Ok(LineAnswer::Text(text))
}

/// What `get` is answered with.
fn got(alloc: Global, world: &World, entity: Entity) -> Result<LineAnswer, AllocError>
    ensures { IfOk result (λ answer. said_of answer ≡ get_said world.now.world entity) }
{
    match world.row_of(entity) {
        None => refused(Refusal::from(Fault::NoSuchEntity)),
        Some((table, at)) => {
            let mut text = String::new(alloc);
            write_row(alloc, &mut text, world.schema(), table, at)?;
            text.push('\n')?;
            Ok(LineAnswer::Text(text))
        }
    }
}

/// What `dump` is answered with.
#[tactic(auto, using(crate::proofs::FileFaultLaws::is_wanted))]
fn dumped(alloc: Global, world: &World) -> Result<LineAnswer, AllocError>
    ensures { IfOk result (λ answer. said_of answer ≡ dump_said world.now.world) }
{
    match save_text(alloc, world) {
        Ok(text) => Ok(LineAnswer::Text(text)),
        Err(fault) => faulty(fault),
    }
}

/// All that the editor keeps, as a scene text.
#[derive(Clone, Copy)]
pub(crate) struct EditorText;

impl EditorQuery for EditorText {
    type Found = Result<LineAnswer, AllocError>;

    ghost use Rattle.std.specs.Prelude.{◌≡◌, IfOk};
    ghost use Rattle.scene_interpreter.specs.Answer.{said_of};
    ghost use Rattle.scene_interpreter.specs.Play.{dumpall_said};

    ghost finds = { λ q w a. IfOk a (λ answer. said_of answer ≡ dumpall_said w) };

    #[tactic(auto, using(crate::proofs::FileFaultLaws::is_wanted))]
    fn find(&self, alloc: Global, editor: &Editor) -> Result<LineAnswer, AllocError> {
        match save_editor_text(alloc, editor) {
            Ok(text) => Ok(LineAnswer::Text(text)),
            Err(fault) => faulty(fault),
        }
    }
}

impl EditorQuery for WorldText {
    type Found = Result<LineAnswer, AllocError>;

    ghost use Rattle.std.specs.Prelude.{◌≡◌, IfOk};
    ghost use Rattle.scene_interpreter.specs.Answer.{said_of};
    ghost use Rattle.scene_interpreter.specs.Questions.{asked_said};

    ghost finds = { λ q w a. IfOk a (λ answer. said_of answer ≡ asked_said q w.machine.now) };

    fn find(&self, alloc: Global, editor: &Editor) -> Result<LineAnswer, AllocError> {
        match *self {
            WorldText::Show => shown(alloc, editor.world()),
            WorldText::Get(entity) => got(alloc, editor.world(), entity),
            WorldText::Dump => dumped(alloc, editor.world()),
        }
    }
}
