//! Calls on the scene that a handle holds. Those of a line that is a value are inlined, so that each call of C pays for
//! its own line alone.
ghost use Rattle.std.specs.Prelude.{◌≡◌, ℕ, List, None};
ghost use Rattle.scene_interpreter.specs.Interpreter.{interpreter_reply};
ghost use Rattle.scene_c.specs.Calls.{Asks, Does, DropsFrame, Explains, Gives, Plays, Spawns, TellsJson, says};
ghost use Rattle.scene_c.specs.Requests.{Requests};
ghost use Rattle.scene_c.specs.Times.{Turns};
ghost use Rattle.std.specs.Option.{option_map};

use crate::handle::{Handle, into_held};
use crate::held_scene::HeldScene;
use crate::played::{
    drop_frame_at, explain_at, give_at, json_at, line_at, say_at, spawn_at, tell_at,
};
use crate::requests::request_at;
use crate::times::turn_at;
use crate::{BAD, CLOSED, SHARED};
use scene_kinds::Value;
use scene_script::Line;
use scene_session::Way;
use std::alloc::Global;
use std::mem;

/// Plays a line.
pub(crate) fn line(alloc: Global, scene: &mut Handle, bytes: &[u8]) -> u32
    ensures { Plays (λ p. interpreter_reply p bytes.now) (λ r. r.text) scene.old.value scene.new.value result }
{
    let taken = mem::replace(scene, Handle::closed(alloc));
    let Some(held) = into_held(taken) else {
        return CLOSED;
    };
    let mut held = held;
    let code = match &mut *held {
        HeldScene::Alone(open_scene) => line_at(alloc, open_scene, bytes),
        HeldScene::Shared(_) => SHARED,
    };
    *scene = Handle::of_box(held);
    code
}

/// Plays a request.
pub(crate) fn request(alloc: Global, scene: &mut Handle, bytes: &[u8]) -> u32
    ensures { Requests bytes.now scene.old.value scene.new.value result }
{
    let taken = mem::replace(scene, Handle::closed(alloc));
    let Some(held) = into_held(taken) else {
        return CLOSED;
    };
    let mut held = held;
    let code = match &mut *held {
        HeldScene::Alone(open_scene) => request_at(alloc, open_scene, bytes),
        HeldScene::Shared(_) => SHARED,
    };
    *scene = Handle::of_box(held);
    code
}

/// Plays a line that is a value, with a text of its answer.
pub(crate) fn tell(alloc: Global, scene: &mut Handle, line: Line) -> u32
    ensures { Plays (says line) (λ r. r.text) scene.old.value scene.new.value result }
{
    let taken = mem::replace(scene, Handle::closed(alloc));
    let Some(held) = into_held(taken) else {
        return CLOSED;
    };
    let mut held = held;
    let code = match &mut *held {
        HeldScene::Alone(open_scene) => tell_at(alloc, open_scene, line),
        HeldScene::Shared(_) => SHARED,
    };
    *scene = Handle::of_box(held);
    code
}

/// Plays a line that is a value.
#[inline(always)]
pub(crate) fn say(alloc: Global, scene: &mut Handle, line: Line) -> u32
    ensures { Does line scene.old.value scene.new.value result }
{
    let taken = mem::replace(scene, Handle::closed(alloc));
    let Some(held) = into_held(taken) else {
        return CLOSED;
    };
    let mut held = held;
    let code = match &mut *held {
        HeldScene::Alone(open_scene) => say_at(open_scene, line),
        HeldScene::Shared(_) => SHARED,
    };
    *scene = Handle::of_box(held);
    code
}

/// Spawns with the components that were given for it.
pub(crate) fn spawn(alloc: Global, scene: &mut Handle) -> u32
    ensures { Spawns scene.old.value scene.new.value result }
{
    let taken = mem::replace(scene, Handle::closed(alloc));
    let Some(held) = into_held(taken) else {
        return CLOSED;
    };
    let mut held = held;
    let code = match &mut *held {
        HeldScene::Alone(open_scene) => spawn_at(alloc, open_scene),
        HeldScene::Shared(_) => SHARED,
    };
    *scene = Handle::of_box(held);
    code
}

/// Gives the next spawn a component, if there is one.
pub(crate) fn give(alloc: Global, scene: &mut Handle, given: Option<(u8, Value)>) -> u32
    ensures { Gives given scene.old.value scene.new.value result }
{
    let Some((kind, value)) = given else {
        return BAD;
    };
    let taken = mem::replace(scene, Handle::closed(alloc));
    let Some(held) = into_held(taken) else {
        return CLOSED;
    };
    let mut held = held;
    let code = match &mut *held {
        HeldScene::Alone(open_scene) => give_at(open_scene, kind, value),
        HeldScene::Shared(_) => SHARED,
    };
    *scene = Handle::of_box(held);
    code
}

/// Plays the line that some arguments name, if they name one.
#[inline(always)]
pub(crate) fn ask(alloc: Global, scene: &mut Handle, line: Option<Line>) -> u32
    ensures { Asks line scene.old.value scene.new.value result }
{
    match line {
        Some(line) => say(alloc, scene, line),
        None => BAD,
    }
}

/// Goes so many frames along a way, or none.
pub(crate) fn turn(alloc: Global, scene: &mut Handle, way: Way, count: usize) -> u32
    ensures { Turns way count scene.old.value scene.new.value result }
{
    let taken = mem::replace(scene, Handle::closed(alloc));
    let Some(held) = into_held(taken) else {
        return CLOSED;
    };
    let mut held = held;
    let code = match &mut *held {
        HeldScene::Alone(open_scene) => turn_at(open_scene, way, count),
        HeldScene::Shared(_) => SHARED,
    };
    *scene = Handle::of_box(held);
    code
}

/// Drops the open frame.
pub(crate) fn drop_frame(alloc: Global, scene: &mut Handle) -> u32
    ensures { DropsFrame scene.old.value scene.new.value result }
{
    let taken = mem::replace(scene, Handle::closed(alloc));
    let Some(held) = into_held(taken) else {
        return CLOSED;
    };
    let mut held = held;
    let code = match &mut *held {
        HeldScene::Alone(open_scene) => drop_frame_at(open_scene),
        HeldScene::Shared(_) => SHARED,
    };
    *scene = Handle::of_box(held);
    code
}

/// Says why the last line was bad.
pub(crate) fn explain(alloc: Global, scene: &mut Handle) -> u32
    ensures { Explains scene.old.value scene.new.value result }
{
    let taken = mem::replace(scene, Handle::closed(alloc));
    let Some(held) = into_held(taken) else {
        return CLOSED;
    };
    let mut held = held;
    let code = match &mut *held {
        HeldScene::Alone(open_scene) => explain_at(alloc, open_scene),
        HeldScene::Shared(_) => SHARED,
    };
    *scene = Handle::of_box(held);
    code
}

/// Puts the last answer into JSON.
pub(crate) fn answer_json(alloc: Global, scene: &mut Handle) -> u32
    ensures { TellsJson scene.old.value scene.new.value result }
{
    let taken = mem::replace(scene, Handle::closed(alloc));
    let Some(held) = into_held(taken) else {
        return CLOSED;
    };
    let mut held = held;
    let code = match &mut *held {
        HeldScene::Alone(open_scene) => json_at(alloc, open_scene),
        HeldScene::Shared(_) => SHARED,
    };
    *scene = Handle::of_box(held);
    code
}
