//! A heap object as a pointer that C keeps.
ghost use Rattle.std.specs.Prelude.{◌≡◌, Option, Some, None, option_map};
ghost use Rattle.scene_c.specs.Calls.{Opens};
ghost use Rattle.scene_c.specs.Held.{held};
ghost use Rattle.scene_c.specs.declared.held_scene.HeldScene.{HeldScene as Told};

use crate::held_scene::HeldScene;
use crate::loose::Loose;
use crate::open_scene::OpenScene;
use crate::{DONE, NO_MEMORY};
use std::alloc::Global;
use std::marker::Model;
use std::ptr::null_mut;

/// What C sees as one pointer: null, or that of a scene.
#[repr(C)]
pub struct Handle {
    at: *mut (),
    alloc: Global,
    pub ghost value: { Option Told },
}

impl Model for Handle {
    ghost also_owns = { λ h. held h.alloc h.at h.value };
}

// What it owns is its own, or an `Arc`'s share.
unsafe impl Send for Handle {}

impl Handle {
    /// The handle of nothing.
    pub(crate) fn closed(alloc: Global) -> Handle
        ensures { result.value ≡ None }
    {
        Handle {
            at: null_mut(),
            alloc,
        }
    }

    /// The handle of a scene, which it now owns.
    pub(crate) fn of(held: Loose<HeldScene, Global>) -> Handle
        ensures { result.value ≡ Some held.value }
    {
        let Loose { at, alloc } = held;
        Handle {
            at: at as *mut (),
            alloc,
        }
    }

    /// The handle of a scene in a box.
    pub(crate) fn of_box(held: Box<HeldScene, Global>) -> Handle
        ensures { result.value ≡ Some held.value }
    {
        Handle::of(Loose::of(held))
    }

    /// What the handle owns.
    pub(crate) fn into_loose(self) -> Option<Loose<HeldScene, Global>>
        ensures { option_map (λ l. l.value) result ≡ self.value }
    {
        let Handle { at, alloc } = self;
        if at.is_null() {
            None
        } else {
            Some(Loose {
                at: at as *mut HeldScene,
                alloc,
            })
        }
    }
}

impl Drop for Handle {
    fn drop(self) {
        let _held = into_held(self);
    }
}

/// The scene that a handle owns.
pub(crate) fn into_held(handle: Handle) -> Option<Box<HeldScene, Global>>
    ensures { option_map (λ b. b.value) result ≡ handle.value }
{
    match handle.into_loose() {
        Some(loose) => Some(loose.into_box()),
        None => None,
    }
}

/// The handle of a new scene, and a code: null and `NO_MEMORY` where no memory was found for it.
pub(crate) fn new_handle(alloc: Global) -> (Handle, u32)
    ensures { Opens result.0.value result.1 }
{
    match Box::new(alloc, HeldScene::Alone(OpenScene::new(alloc))) {
        Ok(boxed) => (Handle::of_box(boxed), DONE),
        Err(_) => (Handle::closed(alloc), NO_MEMORY),
    }
}
