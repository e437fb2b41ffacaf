//! Scenes for C: an opaque pointer that holds one scene (`include/scene.h` has C's side; docs/BINDINGS.md, "From C").
//!
//! The pointer is a `Handle`, of an `OpenScene` on the heap: an interpreter without a lock, so that no call starts a
//! thread or waits, with the last answer, which is asked for as one likes. Several may have one to read it, by `Arc`. A
//! call takes the pointer's own place, so that it can leave null behind, and gives a code. What it does is that of a
//! line of a script (docs/SCRIPTS.md, "Lines"): the bytes of one by `scene_line`, a value by the others, with no text
//! on the way.
#![tactic(auto)]

ghost use Rattle.std.specs.Borrow.{full_share, sem};
ghost use Rattle.std.specs.Option.{option_map};
ghost use Rattle.std.specs.Prelude.{◌≡◌, ℕ, List, None, MatchOption, length};
ghost use Rattle.std.specs.Ptr.{lies_at, room_at};
ghost use base.Logic.{ex};
ghost use Rattle.scene_commands.specs.declared.command.Command.TheVariants as command;
ghost use Rattle.scene_script.specs.declared.script_line.Line.TheVariants as line;
ghost use Rattle.scene_session.specs.declared.way.Way.TheVariants as way;
ghost use Rattle.scene_interpreter.specs.Interpreter.{interpreter_reply};
ghost use Rattle.scene_c.specs.Arguments.{component_of_cell, entity_of, insert_line, kind_of, shown_entity, shown_name, shown_refusal, target_of, text_component, text_of};
ghost use Rattle.scene_c.specs.Calls.{Asks, AsksText, Does, DropsFrame, Explains, Gets, Gives, GivesText, Loads, Opens, Plays, Spawns, TellsJson, made_at, named_at, refusal_now, says, text_now};
ghost use Rattle.scene_c.specs.Memory.{bytes_at, copied};
ghost use Rattle.scene_c.specs.Names.{name_of};
ghost use Rattle.scene_c.specs.Requests.{Requests};
ghost use Rattle.scene_c.specs.Times.{Turns};
ghost use Rattle.scene_c.specs.contracts.handle.Handle.{the_row};
ghost use Rattle.scene_c.specs.declared.handle.Handle.{Handle as Held};

mod columns;
mod delta;
mod delta_parts;
mod filling;
mod gathering;
mod given;
mod handle;
mod held;
mod held_scene;
mod kinds;
mod lines;
mod list_calls;
mod look;
mod look_resources;
mod look_saved;
mod look_since;
mod look_steps;
mod look_texts;
mod loose;
mod moments;
mod names;
mod open_scene;
mod played;
mod points;
mod reading;
mod reads;
mod requests;
mod resource_calls;
mod resources;
mod roots;
mod saved;
mod setting_calls;
mod sharing;
mod shown;
mod spawning;
mod status;
mod steps;
mod system_calls;
mod text_columns;
mod texts;
mod times;
mod tree;
mod value;

pub use delta::SceneDelta;
pub use handle::Handle;
use handle::{into_held, new_handle};
use held::{answer_json, ask, drop_frame, explain, give, line, request, say, spawn, tell, turn};
use held_scene::HeldScene;
pub use names::each_fault_has_its_name;
use names::{copy_name, name_len};
pub use open_scene::OpenScene;
use played::read_at;
pub use reading::Reading;
use scene_commands::Command;
use scene_script::Line;
use scene_session::Way;
pub use shown::{SceneInfo, SceneMoment, SceneTable, SceneTicks, SceneVec3};
use std::alloc::Global;
use std::mem;
use texts::{copy_text, text_len};
pub use value::{SceneCell, SceneEntity, SceneName, SceneRefusal};
use value::{
    component_of_cell, entity_of, kind_of, shown_entity, shown_name, shown_refusal, target_of,
    text_component, text_of,
};

/// The call did what it says.
pub const DONE: u32 = 0;

/// Memory was wanting, and nothing was done.
pub const NO_MEMORY: u32 = 1;

/// The pointer is null: nothing was opened, or it was closed.
pub const CLOSED: u32 = 2;

/// The call was refused, and changed nothing: `scene_refusal` says why.
pub const REFUSED: u32 = 3;

/// There is no such call here, or its arguments name nothing; nothing was done.
pub const BAD: u32 = 4;

/// The call was answered, and memory was wanting for the text of its answer alone.
pub const UNTOLD: u32 = 5;

/// Memory was wanting, nothing was done, and the kinds or the scene of the setup are lost.
pub const LOST: u32 = 6;

/// The scene is shared for reading, and the call would have changed it; nothing was done.
pub const SHARED: u32 = 7;

/// The version of the library: 10,000 times its first number, 100 times its second, and its third.
pub const VERSION: u32 = 200;

/// The version of the library.
#[unsafe(no_mangle)]
pub extern "C" fn scene_version() -> u32
    ensures { result ≡ 200 }
{
    VERSION
}

/// Makes a scene, and writes its pointer to `out`, or null where no memory was found (`NO_MEMORY`). What is at `out`
/// isn't read.
#[unsafe(no_mangle)]
pub unsafe extern "C" fn scene_open(alloc: Global, out: *mut Handle) -> u32
    requires* { sem 𝓛 (room_at the_row out) }
    ensures* { ex 𝓤 (λ (h : Held). sem 𝓛 (lies_at the_row full_share out h) ∗ ⌜ Opens h.value result ⌝) }
{
    let (handle, code) = new_handle(alloc);
    std::ptr::write(out, handle);
    code
}

/// Closes a scene, and leaves null. Null stays null.
#[unsafe(no_mangle)]
pub extern "C" fn scene_close(alloc: Global, scene: &mut Handle)
    ensures { scene.new.value ≡ None }
{
    *scene = Handle::closed(alloc);
}

/// Plays a line, which is given without its line break. Its answer is kept with its text.
#[unsafe(no_mangle)]
pub extern "C" fn scene_line(alloc: Global, scene: &mut Handle, bytes: &[u8]) -> u32
    ensures { Plays (λ p. interpreter_reply p bytes.now) (λ r. r.text) scene.old.value scene.new.value result }
{
    line(alloc, scene, bytes)
}

/// Plays a request: a JSON object in place of a line, whose texts have any characters (docs/SHELL.md, "Requests"). Its
/// answer is kept with its text: that of the line that it stands for, or a line of JSON that answers a question. `BAD` for
/// one that is bad: it changes nothing, and the text of the answer says why; and `NO_MEMORY`.
#[unsafe(no_mangle)]
pub extern "C" fn scene_request(alloc: Global, scene: &mut Handle, bytes: &[u8]) -> u32
    ensures { Requests bytes.now scene.old.value scene.new.value result }
{
    request(alloc, scene, bytes)
}

/// How long the text of the last answer is, and as much of it as there is room for at `at`; 0 for null. `at` may be
/// null where there is no room.
#[unsafe(no_mangle)]
pub unsafe extern "C" fn scene_answer(
    alloc: Global,
    scene: &mut Handle,
    at: *mut u8,
    room: usize,
) -> usize
    ghost before: { List ℕ }
    requires* { sem 𝓛 (bytes_at at room before) }
    ensures* bytes { sem 𝓛 (bytes_at at room (copied (text_now scene.old.value) before)) }
    ensures length { result ≡ length (text_now scene.old.value) }
    ensures kept { scene.new.value ≡ scene.old.value }
{
    if room == 0 {
        return text_len(alloc, scene);
    }
    copy_text(alloc, scene, std::slice::from_raw_parts_mut(at, room))
}

/// Puts into words why the last line was bad, as the text of its answer (docs/SCRIPTS.md, "Bad lines"). `BAD` where it
/// wasn't, and `NO_MEMORY`: then the text stays.
#[unsafe(no_mangle)]
pub extern "C" fn scene_bad_reason(alloc: Global, scene: &mut Handle) -> u32
    ensures { Explains scene.old.value scene.new.value result }
{
    explain(alloc, scene)
}

/// Puts the last answer into one line of JSON, as the text of its answer (docs/SHELL.md, "JSON"). `NO_MEMORY`: then the
/// text stays.
#[unsafe(no_mangle)]
pub extern "C" fn scene_answer_json(alloc: Global, scene: &mut Handle) -> u32
    ensures { TellsJson scene.old.value scene.new.value result }
{
    answer_json(alloc, scene)
}

/// How long the name of a fault is, by its number, and as much of it as there is room for at `at`; 0 where no fault of
/// a scene has the number. `at` may be null where there is no room.
#[unsafe(no_mangle)]
pub unsafe extern "C" fn scene_fault_name(fault: u32, at: *mut u8, room: usize) -> usize
    ghost before: { List ℕ }
    requires* { sem 𝓛 (bytes_at at room before) }
    ensures* bytes { sem 𝓛 (bytes_at at room (copied (name_of fault) before)) }
    ensures length { result ≡ length (name_of fault) }
{
    if room == 0 {
        return name_len(fault);
    }
    copy_name(fault, std::slice::from_raw_parts_mut(at, room))
}

/// Loads a scene text in the setup, as the line `load` does. Its answer is kept with its text. `BAD` for bytes that are
/// no UTF-8.
#[unsafe(no_mangle)]
pub extern "C" fn scene_load(alloc: Global, scene: &mut Handle, bytes: &[u8]) -> u32
    ensures { Loads (text_of bytes.now) scene.old.value scene.new.value result }
{
    match text_of(alloc, bytes) {
        Ok(Some(text)) => tell(alloc, scene, Line::Load(text)),
        Ok(None) => BAD,
        Err(_) => NO_MEMORY,
    }
}

/// Saves the scene with all that can be undone and redone: the text of the answer is that of the line `dumpall`.
#[unsafe(no_mangle)]
pub extern "C" fn scene_save(alloc: Global, scene: &mut Handle) -> u32
    ensures { Plays (says line.DumpAll) (λ r. r.text) scene.old.value scene.new.value result }
{
    tell(alloc, scene, Line::DumpAll)
}

/// Opens a frame, as the line `begin` does.
#[unsafe(no_mangle)]
pub extern "C" fn scene_begin(alloc: Global, scene: &mut Handle) -> u32
    ensures { Does line.Begin scene.old.value scene.new.value result }
{
    say(alloc, scene, Line::Begin)
}

/// Does the open frame, all or nothing, as the line `commit` does.
#[unsafe(no_mangle)]
pub extern "C" fn scene_commit(alloc: Global, scene: &mut Handle) -> u32
    ensures { Does line.Commit scene.old.value scene.new.value result }
{
    say(alloc, scene, Line::Commit)
}

/// Drops the open frame with its commands, and makes no call. `BAD` where none is open. The last answer stays.
#[unsafe(no_mangle)]
pub extern "C" fn scene_drop_frame(alloc: Global, scene: &mut Handle) -> u32
    ensures { DropsFrame scene.old.value scene.new.value result }
{
    drop_frame(alloc, scene)
}

/// Takes the newest frame back.
#[unsafe(no_mangle)]
pub extern "C" fn scene_undo(alloc: Global, scene: &mut Handle) -> u32
    ensures { Does line.Undo scene.old.value scene.new.value result }
{
    say(alloc, scene, Line::Undo)
}

/// Does the newest undone frame again.
#[unsafe(no_mangle)]
pub extern "C" fn scene_redo(alloc: Global, scene: &mut Handle) -> u32
    ensures { Does line.Redo scene.old.value scene.new.value result }
{
    say(alloc, scene, Line::Redo)
}

/// Takes so many of the newest frames back, where so many can be undone, and else none: `REFUSED`, also where a limit of
/// calls is reached before, or `NO_MEMORY`. `BAD` in an open frame.
#[unsafe(no_mangle)]
pub extern "C" fn scene_undo_by(alloc: Global, scene: &mut Handle, count: usize) -> u32
    ensures { Turns way.Back count scene.old.value scene.new.value result }
{
    turn(alloc, scene, Way::Back, count)
}

/// Does so many undone frames again, where so many can be redone, and else none: `REFUSED`, also where a limit of calls
/// is reached before, or `NO_MEMORY`. `BAD` in an open frame.
#[unsafe(no_mangle)]
pub extern "C" fn scene_redo_by(alloc: Global, scene: &mut Handle, count: usize) -> u32
    ensures { Turns way.On count scene.old.value scene.new.value result }
{
    turn(alloc, scene, Way::On, count)
}

/// Gives the next spawn a component that is no text.
#[unsafe(no_mangle)]
pub extern "C" fn scene_with(alloc: Global, scene: &mut Handle, cell: SceneCell) -> u32
    ensures { Gives (component_of_cell cell) scene.old.value scene.new.value result }
{
    give(alloc, scene, component_of_cell(cell))
}

/// Gives the next spawn a component that is a text.
#[unsafe(no_mangle)]
pub extern "C" fn scene_with_text(alloc: Global, scene: &mut Handle, kind: u32, bytes: &[u8]) -> u32
    ensures { GivesText (text_component kind bytes.now) scene.old.value scene.new.value result }
{
    match text_component(alloc, kind, bytes) {
        Ok(given) => give(alloc, scene, given),
        Err(_) => NO_MEMORY,
    }
}

/// Spawns an entity with the components that were given for it: a command of the open frame, or a frame by itself.
#[unsafe(no_mangle)]
pub extern "C" fn scene_spawn(alloc: Global, scene: &mut Handle) -> u32
    ensures { Spawns scene.old.value scene.new.value result }
{
    spawn(alloc, scene)
}

/// Despawns an entity without children: a command.
#[unsafe(no_mangle)]
pub extern "C" fn scene_despawn(alloc: Global, scene: &mut Handle, entity: SceneEntity) -> u32
    ensures { Does (line.Do (command.Despawn (target_of entity))) scene.old.value scene.new.value result }
{
    say(alloc, scene, Line::Do(Command::Despawn(target_of(entity))))
}

/// Despawns an entity and all below it: a command.
#[unsafe(no_mangle)]
pub extern "C" fn scene_despawn_all(alloc: Global, scene: &mut Handle, entity: SceneEntity) -> u32
    ensures { Does (line.Do (command.DespawnAll (target_of entity))) scene.old.value scene.new.value result }
{
    say(
        alloc,
        scene,
        Line::Do(Command::DespawnAll(target_of(entity))),
    )
}

/// Gives an entity a component that is no text, or writes the one of its kind: a command.
#[unsafe(no_mangle)]
pub extern "C" fn scene_insert(
    alloc: Global,
    scene: &mut Handle,
    entity: SceneEntity,
    cell: SceneCell,
) -> u32
    ensures { Asks (option_map (insert_line entity) (component_of_cell cell)) scene.old.value scene.new.value result }
{
    match component_of_cell(cell) {
        Some((kind, value)) => say(
            alloc,
            scene,
            Line::Do(Command::Insert(target_of(entity), kind, value)),
        ),
        None => BAD,
    }
}

/// Gives an entity a component that is a text, or writes the one of its kind: a command.
#[unsafe(no_mangle)]
pub extern "C" fn scene_insert_text(
    alloc: Global,
    scene: &mut Handle,
    entity: SceneEntity,
    kind: u32,
    bytes: &[u8],
) -> u32
    ensures { AsksText (option_map (insert_line entity) (text_component kind bytes.now)) scene.old.value scene.new.value result }
{
    match text_component(alloc, kind, bytes) {
        Ok(Some((kind, value))) => say(
            alloc,
            scene,
            Line::Do(Command::Insert(target_of(entity), kind, value)),
        ),
        Ok(None) => BAD,
        Err(_) => NO_MEMORY,
    }
}

/// Takes the component of a kind away: a command.
#[unsafe(no_mangle)]
pub extern "C" fn scene_remove(
    alloc: Global,
    scene: &mut Handle,
    entity: SceneEntity,
    kind: u32,
) -> u32
    ensures { Asks (option_map (λ k. line.Do (command.Remove (target_of entity) k)) (kind_of kind)) scene.old.value scene.new.value result }
{
    match kind_of(kind) {
        Some(kind) => say(
            alloc,
            scene,
            Line::Do(Command::Remove(target_of(entity), kind)),
        ),
        None => BAD,
    }
}

/// Makes an entity the last child of another: a command.
#[unsafe(no_mangle)]
pub extern "C" fn scene_set_parent(
    alloc: Global,
    scene: &mut Handle,
    child: SceneEntity,
    parent: SceneEntity,
) -> u32
    ensures { Does (line.Do (command.SetParent (target_of child) (target_of parent))) scene.old.value scene.new.value result }
{
    say(
        alloc,
        scene,
        Line::Do(Command::SetParent(target_of(child), target_of(parent))),
    )
}

/// Takes an entity from its parent: a command.
#[unsafe(no_mangle)]
pub extern "C" fn scene_remove_parent(alloc: Global, scene: &mut Handle, child: SceneEntity) -> u32
    ensures { Does (line.Do (command.RemoveParent (target_of child))) scene.old.value scene.new.value result }
{
    say(
        alloc,
        scene,
        Line::Do(Command::RemoveParent(target_of(child))),
    )
}

/// Notes the moment from which `scene_changed` looks, as the line `mark` does.
#[unsafe(no_mangle)]
pub extern "C" fn scene_mark(alloc: Global, scene: &mut Handle) -> u32
    ensures { Does line.Mark scene.old.value scene.new.value result }
{
    say(alloc, scene, Line::Mark)
}

/// Lists the cells that were changed since the mark, as the line `changed` does: `scene_named` gives them one by one.
#[unsafe(no_mangle)]
pub extern "C" fn scene_changed(alloc: Global, scene: &mut Handle) -> u32
    ensures { Does line.Changed scene.old.value scene.new.value result }
{
    say(alloc, scene, Line::Changed)
}

/// An entity that the last frame made, by its place from 0; `BAD` behind the last one.
#[unsafe(no_mangle)]
pub extern "C" fn scene_spawned(
    alloc: Global,
    scene: &mut Handle,
    at: usize,
    out: &mut SceneEntity,
) -> u32
    ensures found { MatchOption (made_at scene.old.value at) ((result ≡ 4) × (out.new ≡ out.old))
        (λ e. (result ≡ 0) × (out.new ≡ shown_entity e)) }
    ensures kept { scene.new.value ≡ scene.old.value }
{
    let taken = mem::replace(scene, Handle::closed(alloc));
    let Some(held) = into_held(taken) else {
        return BAD;
    };
    let found = held.seen().made(at);
    *scene = Handle::of_box(held);
    match found {
        Some(entity) => {
            *out = shown_entity(entity);
            DONE
        }
        None => BAD,
    }
}

/// A cell that the last answer lists, by its place from 0; `BAD` behind the last one.
#[unsafe(no_mangle)]
pub extern "C" fn scene_named(
    alloc: Global,
    scene: &mut Handle,
    at: usize,
    out: &mut SceneName,
) -> u32
    ensures found { MatchOption (named_at scene.old.value at) ((result ≡ 4) × (out.new ≡ out.old))
        (λ n. (result ≡ 0) × (out.new ≡ shown_name n)) }
    ensures kept { scene.new.value ≡ scene.old.value }
{
    let taken = mem::replace(scene, Handle::closed(alloc));
    let Some(held) = into_held(taken) else {
        return BAD;
    };
    let found = held.seen().named(at);
    *scene = Handle::of_box(held);
    match found {
        Some(name) => {
            *out = shown_name(name);
            DONE
        }
        None => BAD,
    }
}

/// Why the last call was refused; `BAD` where it wasn't.
#[unsafe(no_mangle)]
pub extern "C" fn scene_refused(alloc: Global, scene: &mut Handle, out: &mut SceneRefusal) -> u32
    ensures found { MatchOption (refusal_now scene.old.value) ((result ≡ 4) × (out.new ≡ out.old))
        (λ r. (result ≡ 0) × (out.new ≡ shown_refusal r)) }
    ensures kept { scene.new.value ≡ scene.old.value }
{
    let taken = mem::replace(scene, Handle::closed(alloc));
    let Some(held) = into_held(taken) else {
        return BAD;
    };
    let found = held.seen().refusal();
    *scene = Handle::of_box(held);
    match found {
        Some(refusal) => {
            *out = shown_refusal(refusal);
            DONE
        }
        None => BAD,
    }
}

/// Reads a component of an entity: its numbers go to `out`, and a text is the text of the answer. It ends the setup.
#[unsafe(no_mangle)]
pub extern "C" fn scene_get(
    alloc: Global,
    scene: &mut Handle,
    entity: SceneEntity,
    kind: u32,
    out: &mut SceneCell,
) -> u32
    ensures { Gets (entity_of entity) (kind_of kind) scene.old.value scene.new.value out.old out.new result }
{
    let Some(short) = kind_of(kind) else {
        return BAD;
    };
    let taken = mem::replace(scene, Handle::closed(alloc));
    let Some(held) = into_held(taken) else {
        return CLOSED;
    };
    let mut held = held;
    let code = match &mut *held {
        HeldScene::Alone(open_scene) => read_at(alloc, open_scene, entity_of(entity), short, out),
        HeldScene::Shared(_) => SHARED,
    };
    *scene = Handle::of_box(held);
    code
}
