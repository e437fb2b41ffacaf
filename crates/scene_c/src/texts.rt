//! Texts that go to C.
ghost use Rattle.std.specs.Prelude.{◌≡◌, drop, length};
ghost use Rattle.scene_c.specs.Calls.{text_now};
ghost use Rattle.scene_c.specs.Memory.{copied};

use crate::handle::{Handle, into_held};
use std::alloc::Global;
use std::mem;

/// Copies bytes from a place on: as many as there is room for. The rest of the room stays as it was.
pub(crate) fn copy_bytes(bytes: &[u8], from: usize, room: &mut [u8])
    ensures { room.new ≡ copied (drop from bytes.now) room.old }
{
    let Some(rest) = bytes.get(from..) else {
        return;
    };
    let count = rest.len().min(room.len());
    room[..count].copy_from_slice(&rest[..count]);
}

/// How long a text is, and as much of it as there is room for.
pub(crate) fn copy_to(text: &str, room: &mut [u8]) -> usize
    ensures length { result ≡ length text.now }
    ensures bytes { room.new ≡ copied text.now room.old }
{
    let bytes = text.as_bytes();
    let len = bytes.len();
    let count = if len < room.len() { len } else { room.len() };
    room[..count].copy_from_slice(&bytes[..count]);
    len
}

/// How long the text of the last answer is; 0 for null.
pub(crate) fn text_len(alloc: Global, scene: &mut Handle) -> usize
    ensures length { result ≡ length (text_now scene.old.value) }
    ensures kept { scene.new.value ≡ scene.old.value }
{
    let taken = mem::replace(scene, Handle::closed(alloc));
    let Some(held) = into_held(taken) else {
        return 0;
    };
    let len = held.seen().text().len();
    *scene = Handle::of_box(held);
    len
}

/// How long the text of the last answer is, and as much of it as there is room for; 0 for null.
pub(crate) fn copy_text(alloc: Global, scene: &mut Handle, room: &mut [u8]) -> usize
    ensures length { result ≡ length (text_now scene.old.value) }
    ensures bytes { room.new ≡ copied (text_now scene.old.value) room.old }
    ensures kept { scene.new.value ≡ scene.old.value }
{
    let taken = mem::replace(scene, Handle::closed(alloc));
    let Some(held) = into_held(taken) else {
        return 0;
    };
    let len = copy_to(held.seen().text(), room);
    *scene = Handle::of_box(held);
    len
}
