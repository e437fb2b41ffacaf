//! Spawns with components that are given at once, and what they spawn.
ghost use Rattle.std.specs.Prelude.{◌≡◌, ◌≢◌, [], Some, true, if◌then◌else◌, nat_eq};
ghost use Rattle.scene_commands.specs.declared.command.Command.TheVariants.{Spawn};
ghost use Rattle.scene_script.specs.declared.script_line.Line.TheVariants.{Do};
ghost use Rattle.scene_interpreter.specs.Changes.{frame_is_open};
ghost use Rattle.scene_interpreter.specs.Interpreter.{interpreter_of};
ghost use Rattle.scene_c.specs.Calls.{Played, says};
ghost use Rattle.scene_c.specs.Given.{next_name, shown_target, spawned_in};

use crate::open_scene::OpenScene;
use crate::played::say_at;
use crate::value::{SceneEntity, shown_entity};
use crate::{DONE, NO_MEMORY, REFUSED};
use scene_commands::{Command, Components, Target};
use scene_interpreter::LineAnswer;
use scene_kinds::Fault;
use scene_script::Line;
use scene_session::Reply;

/// The name of a spawn as C sees it.
fn shown_target(target: Target) -> SceneEntity
    ensures { result ≡ shown_target target }
{
    match target {
        Target::New(place) => SceneEntity {
            index: place,
            generation: 0,
        },
        Target::Id(entity) => shown_entity(entity),
    }
}

impl OpenScene {
    /// Queues a spawn in the open frame, and tells the name of its entity there.
    #[tactic(auto, using(crate::proofs::QueuedLaws::queued_named, crate::proofs::QueuedLaws::wanting_played))]
    fn queue_given(&mut self, components: Components, out: &mut SceneEntity) -> u32
        requires { frame_is_open (interpreter_of self.old.interpreter) ≡ true }
        ensures played { Played self.old self.new (says (Do (Spawn components)) (interpreter_of self.old.interpreter)) [] result }
        ensures told { result ≢ 5 }
        ensures cells { self.new.cells.items ≡ self.old.cells.items }
        ensures spawned { out.new ≡ (if nat_eq result 0 then next_name (interpreter_of self.old.interpreter) else out.old) }
    {
        match self.interpreter.queue_spawn(components) {
            Some(Ok(target)) => {
                *out = shown_target(target);
                self.answer = LineAnswer::Queued;
                self.text.clear();
                DONE
            }
            Some(Err(refusal)) => match refusal.fault {
                Fault::NoMemory => NO_MEMORY,
                _ => {
                    self.answer = LineAnswer::Replied(Reply::Refused(refusal));
                    self.text.clear();
                    REFUSED
                }
            },
            None => unreachable!(),
        }
    }

    /// Spawns with components: in the open frame, or as a frame by itself.
    pub(crate) fn spawn_given(&mut self, components: Components, out: &mut SceneEntity) -> u32
        ensures played { Played self.old self.new (says (Do (Spawn components)) (interpreter_of self.old.interpreter)) [] result }
        ensures told { result ≢ 5 }
        ensures cells { self.new.cells.items ≡ self.old.cells.items }
        ensures spawned { out.new ≡ (if nat_eq result 0 then spawned_in self.old self.new out.old else out.old) }
    {
        if self.interpreter.has_open_frame() {
            return self.queue_given(components, out);
        }
        let code = say_at(self, Line::Do(Command::Spawn(components)));
        if let (DONE, Some(entity)) = (code, self.made(0)) {
            *out = shown_entity(entity);
        }
        code
    }
}
