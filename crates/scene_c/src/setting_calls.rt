//! The calls of C that set what a scene has beside its entities: its kinds, and how far it can be undone.
ghost use Rattle.std.specs.Prelude.{◌≡◌, ◌≢◌, [], if◌then◌else◌, nat_eq, string_bytes};
ghost use Rattle.scene_script.specs.Script.{limit_of};
ghost use Rattle.scene_interpreter.specs.Interpreter.{interpreter_of};
ghost use Rattle.scene_interpreter.specs.WholeFrame.{at_depth};
ghost use Rattle.scene_c.specs.Arguments.{text_of};
ghost use Rattle.scene_c.specs.Calls.{Played};
ghost use Rattle.scene_c.specs.Given.{kind_by, shape_by};
ghost use Rattle.scene_c.specs.OpenScene.{KeepsAnswer};
ghost use Rattle.scene_c.specs.Settings.{Declares, DeclaresKind, SetsDepth, TellsDeclared, TellsKindNumber, declare_said, declared_by, number_in};

use crate::handle::{Handle, into_held};
use crate::held_scene::HeldScene;
use crate::kinds::text_in;
use crate::open_scene::OpenScene;
use crate::{BAD, CLOSED, DONE, NO_MEMORY, REFUSED, SHARED};
use scene_interpreter::LineAnswer;
use scene_kinds::{Fault, Shape};
use scene_script::Limit;
use scene_session::Reply;
use std::alloc::Global;
use std::mem;

/// A shape by its number.
fn shape_by(number: u32) -> Option<Shape>
    ensures { result ≡ shape_by number }
{
    match number {
        0 => Some(Shape::Tag),
        1 => Some(Shape::Int),
        2 => Some(Shape::Vec3),
        3 => Some(Shape::Text),
        4 => Some(Shape::Link),
        _ => None,
    }
}

impl OpenScene {
    /// Declares a kind, in the setup or behind it, tells its number, and keeps the answer without a text. By its code: a
    /// refusal is the last answer then, but for want of memory, where the last answer stays.
    #[tactic(auto, using(crate::proofs::KindLaws::number_told))]
    fn declare(&mut self, name: String, shape: Shape, out: &mut u32) -> u32
        ensures played { Played self.old self.new (declare_said (string_bytes name, shape) (interpreter_of self.old.interpreter)) [] result }
        ensures told { result ≢ 5 }
        ensures cells { self.new.cells.items ≡ self.old.cells.items }
        ensures number { out.new ≡ (if nat_eq result 0
            then number_in out.old (declared_by (string_bytes name, shape) (interpreter_of self.old.interpreter)) else out.old) }
    {
        match self.interpreter.declare(name, shape) {
            Ok(number) => {
                *out = u32::from(number);
                self.answer = LineAnswer::Taken;
                self.text.clear();
                DONE
            }
            Err(refusal) => match refusal.fault {
                Fault::NoMemory => NO_MEMORY,
                _ => {
                    self.answer = LineAnswer::Replied(Reply::Refused(refusal));
                    self.text.clear();
                    REFUSED
                }
            },
        }
    }

    /// Sets of how many frames a record is kept. The last answer stays.
    fn set_depth(&mut self, depth: Limit)
        ensures set { interpreter_of self.new.interpreter ≡ at_depth depth (interpreter_of self.old.interpreter) }
        ensures kept { KeepsAnswer self.old self.new × (self.new.cells.items ≡ self.old.cells.items) }
    {
        self.interpreter.set_depth(depth);
    }
}

/// Declares a kind of this name.
fn declare(alloc: Global, scene: &mut Handle, name: String, shape: Shape, out: &mut u32) -> u32
    ensures declared { DeclaresKind (string_bytes name, shape) scene.old.value scene.new.value result }
    ensures number { TellsKindNumber (string_bytes name, shape) scene.old.value result out.old out.new }
{
    let taken = mem::replace(scene, Handle::closed(alloc));
    let Some(held) = into_held(taken) else {
        return CLOSED;
    };
    let mut held = held;
    let code = match &mut *held {
        HeldScene::Alone(open_scene) => open_scene.declare(name, shape, out),
        HeldScene::Shared(_) => SHARED,
    };
    *scene = Handle::of_box(held);
    code
}

/// Declares a kind of a shape, in the setup or behind it, also in an open frame; its number goes to `out` (docs/MODEL.md,
/// "The rule of declarations"). `REFUSED` where the name isn't good or is taken, or no kind can be added: then nothing
/// has changed. `BAD` for a name that is no UTF-8, and for another shape.
#[unsafe(no_mangle)]
pub extern "C" fn scene_declare(
    alloc: Global,
    scene: &mut Handle,
    name: &[u8],
    shape: u32,
    out: &mut u32,
) -> u32
    ensures declared { Declares (kind_by (text_of name.now) (shape_by shape)) scene.old.value scene.new.value result }
    ensures number { TellsDeclared (kind_by (text_of name.now) (shape_by shape)) scene.old.value result out.old out.new }
{
    let Some(shape) = shape_by(shape) else {
        return BAD;
    };
    let Some(name) = text_in(name) else {
        return BAD;
    };
    match String::from_str(alloc, name) {
        Ok(name) => declare(alloc, scene, name, shape, out),
        Err(_) => NO_MEMORY,
    }
}

/// Sets of how many frames a record is kept, 1 to 1,048,576, in the setup and behind it: those beyond it are dropped, the
/// oldest first. `BAD` for another number. The last answer stays.
#[unsafe(no_mangle)]
pub extern "C" fn scene_set_depth(alloc: Global, scene: &mut Handle, depth: u32) -> u32
    ensures { SetsDepth (limit_of depth) scene.old.value scene.new.value result }
{
    let Some(depth) = Limit::new(depth) else {
        return BAD;
    };
    let taken = mem::replace(scene, Handle::closed(alloc));
    let Some(held) = into_held(taken) else {
        return CLOSED;
    };
    let mut held = held;
    let code = match &mut *held {
        HeldScene::Alone(open_scene) => {
            open_scene.set_depth(depth);
            DONE
        }
        HeldScene::Shared(_) => SHARED,
    };
    *scene = Handle::of_box(held);
    code
}
