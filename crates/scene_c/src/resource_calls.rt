//! The calls of C that put and drop resources: commands, of whose names and texts copies are made.
ghost use Rattle.std.specs.Option.{option_map};
ghost use Rattle.scene_kinds.specs.declared.value.Value.TheVariants.{Text as OfText};
ghost use Rattle.scene_c.specs.Arguments.{drop_line, put_line, put_of, text_of, value_of};
ghost use Rattle.scene_c.specs.Calls.{AsksText};

use crate::handle::Handle;
use crate::held::say;
use crate::value::{SceneCell, is_text, text_of, value_of};
use crate::{BAD, NO_MEMORY};
use scene_commands::Command;
use scene_kinds::Value;
use scene_script::Line;
use std::alloc::Global;

/// Puts a value at the name of a resource.
fn put_value(alloc: Global, scene: &mut Handle, name: &[u8], value: Value) -> u32
    ensures { AsksText (option_map (put_line value) (text_of name.now)) scene.old.value scene.new.value result }
{
    match text_of(alloc, name) {
        Ok(Some(name)) => say(alloc, scene, Line::Do(Command::PutResource(name, value))),
        Ok(None) => BAD,
        Err(_) => NO_MEMORY,
    }
}

/// Puts a resource that is no text: a command. `BAD` for a name that is no UTF-8, and for another shape.
#[unsafe(no_mangle)]
pub extern "C" fn scene_put(alloc: Global, scene: &mut Handle, name: &[u8], cell: SceneCell) -> u32
    ensures { AsksText (put_of (value_of cell) (text_of name.now)) scene.old.value scene.new.value result }
{
    match value_of(cell) {
        Some(value) => put_value(alloc, scene, name, value),
        None => BAD,
    }
}

/// Puts a resource that is a text: a command. `BAD` for a name or a text that is no UTF-8.
#[unsafe(no_mangle)]
pub extern "C" fn scene_put_text(
    alloc: Global,
    scene: &mut Handle,
    name: &[u8],
    bytes: &[u8],
) -> u32
    ensures { AsksText (put_of (option_map OfText (text_of bytes.now)) (text_of name.now)) scene.old.value scene.new.value result }
{
    if !is_text(name) {
        return BAD;
    }
    match text_of(alloc, bytes) {
        Ok(Some(text)) => put_value(alloc, scene, name, Value::Text(text)),
        Ok(None) => BAD,
        Err(_) => NO_MEMORY,
    }
}

/// Drops the resource of a name: a command. `BAD` for a name that is no UTF-8.
#[unsafe(no_mangle)]
pub extern "C" fn scene_drop(alloc: Global, scene: &mut Handle, name: &[u8]) -> u32
    ensures { AsksText (option_map drop_line (text_of name.now)) scene.old.value scene.new.value result }
{
    match text_of(alloc, name) {
        Ok(Some(name)) => say(alloc, scene, Line::Do(Command::RemoveResource(name))),
        Ok(None) => BAD,
        Err(_) => NO_MEMORY,
    }
}
