//! What an open scene reads: components of its scene, and its last answer.
ghost use Rattle.std.specs.Prelude.{◌≡◌, ◌≢◌, IfErr, IfNone, IfOk, IfSome, MatchResult, OnErr, OnOk, Ok, Err, slice_get};
ghost use Rattle.scene_kinds.specs.Cells.{shown};
ghost use Rattle.scene_model.specs.World.{component_of};
ghost use Rattle.scene_interpreter.specs.Answer.{said_of};
ghost use Rattle.scene_interpreter.specs.Interpreter.{Interpreter as Reached, IsSetting, begun, halted, interpreter_of};
ghost use Rattle.scene_interpreter.specs.declared.halt.Halt.TheVariants.{After};
ghost use Rattle.scene_c.specs.OpenScene.{HasRead, KeepsAnswer, made_in, named_in, refusal_in, world_of};

use crate::open_scene::OpenScene;
use crate::reading::Reading;
use scene_interpreter::{Halt, LineAnswer};
use scene_kinds::{CellRef, Entity, Refusal};
use scene_pass::CellName;
use scene_session::Reply;
use scene_world::World;
use std::alloc::{AllocError, Global};

impl OpenScene {
    /// Shows a component of an entity: its value by numbers, and a text as the text of the open scene. It ends the
    /// setup, where it isn't over. `None` where there is no such component: then the last answer is the refusal,
    /// `NoSuchEntity`, `NoSuchKind` or `NotPresent`, in this order. It costs a walk over the entity's kinds, and a copy
    /// of a text.
    ///
    /// Halted as `Interpreter::end_setup` is, or `Begun` where there is no memory for the text; then the last answer
    /// stays.
    pub fn read(&mut self, alloc: Global, entity: Entity, kind: u8) -> Result<Option<Reading>, Halt>
        ensures read { IfOk result (λ found. HasRead found self.new (component_of (world_of self.old) entity kind)) }
        ensures begun { OnOk result (interpreter_of self.new.interpreter ≡ begun (interpreter_of self.old.interpreter)) }
        ensures halted { IfErr result (λ h. (next : Reached)
            → interpreter_of self.new.interpreter ≡ halted h (interpreter_of self.old.interpreter) next) }
        ensures undone { IfErr result (λ h. h ≢ After) }
        ensures kept { OnErr result (KeepsAnswer self.old self.new) }
        ensures cells { self.new.cells.items ≡ self.old.cells.items }
    {
        self.end_setup()?;
        let found = match self.cell(entity, kind) {
            Some(Ok(cell)) => Ok(Reading::of(alloc, cell.value)),
            Some(Err(refusal)) => Err(refusal),
            None => unreachable!(),
        };
        match found {
            Ok(Ok((reading, text))) => {
                self.answer = LineAnswer::Nothing;
                self.text = text;
                Ok(Some(reading))
            }
            Ok(Err(AllocError)) => Err(Halt::Begun),
            Err(refusal) => {
                self.answer = LineAnswer::Replied(Reply::Refused(refusal));
                self.text.clear();
                Ok(None)
            }
        }
    }

    /// The world, which is lent. `None` only in the setup. It takes no memory.
    pub fn world(&self) -> Option<&World>
        ensures world { IfSome result (λ world. world.now.world ≡ world_of self.now) }
        ensures setup { IfNone result (IsSetting (interpreter_of self.now.interpreter)) }
    {
        let editor = self.interpreter.editor()?;
        Some(editor.world())
    }

    /// A component of an entity, which is lent, or why there is none: `NoSuchEntity`, `NoSuchKind` or `NotPresent`, in
    /// this order. `None` only in the setup. It takes no memory, and costs a walk over the entity's kinds.
    pub fn cell(&self, entity: Entity, kind: u8) -> Option<Result<CellRef<'_>, Refusal>>
        ensures found { IfSome result (λ found. MatchResult found (λ c. component_of (world_of self.now) entity kind ≡ Ok (shown c))
            (λ r. component_of (world_of self.now) entity kind ≡ Err r)) }
        ensures setup { IfNone result (IsSetting (interpreter_of self.now.interpreter)) }
    {
        let editor = self.interpreter.editor()?;
        Some(editor.world().get(entity, kind))
    }

    /// An entity that the frame made which was answered last, by its place from 0; `None` behind the last one.
    pub fn made(&self, at: usize) -> Option<Entity>
        ensures { result ≡ slice_get (made_in (said_of self.now.answer)) at }
    {
        match &self.answer {
            LineAnswer::Replied(Reply::Done(entities)) => entities.get(at).copied(),
            _ => None,
        }
    }

    /// A cell that the last answer lists, by its place from 0; `None` behind the last one.
    pub fn named(&self, at: usize) -> Option<CellName>
        ensures { result ≡ slice_get (named_in (said_of self.now.answer)) at }
    {
        match &self.answer {
            LineAnswer::Changed(cells) => cells.get(at).copied(),
            LineAnswer::Added(cells) => cells.get(at).copied(),
            _ => None,
        }
    }

    /// The refusal that is the last answer, where it is one.
    pub fn refusal(&self) -> Option<Refusal>
        ensures { result ≡ refusal_in (said_of self.now.answer) }
    {
        match &self.answer {
            LineAnswer::Replied(Reply::Refused(refusal)) => Some(*refusal),
            _ => None,
        }
    }
}
