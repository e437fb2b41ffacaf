//! The calls of C by which several pointers have one scene, so that several threads can read it at once.
ghost use Rattle.std.specs.Prelude.{◌≡◌, IfSome, MatchResult, Some};
ghost use Rattle.std.specs.Arc.{arc_value};
ghost use Rattle.scene_c.specs.HeldScene.{HasReader, IsSharedAs, Shares, Unshares};

use crate::handle::{Handle, into_held};
use crate::held_scene::HeldScene;
use crate::open_scene::OpenScene;
use crate::{BAD, CLOSED, DONE, NO_MEMORY, REFUSED};
use std::alloc::{AllocFailed, Global};
use std::mem;
use std::sync::Arc;

/// A value that several threads read, which its type has to allow.
fn shared<T: Send + Sync>(alloc: Global, value: T) -> Result<Arc<T, Global>, AllocFailed<T>>
    ensures { MatchResult result (λ shared. arc_value shared ≡ value) (λ failed. failed.value ≡ value) }
{
    Arc::new(alloc, value)
}

/// A scene that is shared, and the code; the scene as it was where no memory was found for that.
fn share(alloc: Global, held: HeldScene) -> (HeldScene, u32)
    ensures { Shares (Some held) (Some result.0) result.1 }
{
    match held {
        HeldScene::Alone(open_scene) => match shared(alloc, open_scene) {
            Ok(shared) => (HeldScene::Shared(shared), DONE),
            Err(failed) => (HeldScene::Alone(failed.value), NO_MEMORY),
        },
        HeldScene::Shared(shared) => (HeldScene::Shared(shared), DONE),
    }
}

/// A scene that isn't shared, and the code; the scene as it was where others have it.
fn unshare(held: HeldScene) -> (HeldScene, u32)
    ensures { Unshares (Some held) (Some result.0) result.1 }
{
    match held {
        HeldScene::Alone(open_scene) => (HeldScene::Alone(open_scene), DONE),
        HeldScene::Shared(shared) => match Arc::try_unwrap(shared) {
            Ok(open_scene) => (HeldScene::Alone(open_scene), DONE),
            Err(shared) => (HeldScene::Shared(shared), REFUSED),
        },
    }
}

/// Another owner of a shared scene, if there is memory for it.
fn another(alloc: Global, shared: &Arc<OpenScene, Global>) -> Option<Box<HeldScene, Global>>
    ensures { IfSome result (λ held. IsSharedAs (arc_value shared.now) (Some held.value)) }
{
    let shared = Arc::try_clone(shared).ok()?;
    Box::new(alloc, HeldScene::Shared(shared)).ok()
}

/// Shares a scene for reading: from now on nothing changes it, and `scene_reader` gives further pointers to it, of which
/// each thread can have one. One that is shared stays so, and takes no memory. `NO_MEMORY`: then it isn't.
#[unsafe(no_mangle)]
pub extern "C" fn scene_share(alloc: Global, scene: &mut Handle) -> u32
    ensures { Shares scene.old.value scene.new.value result }
{
    let taken = mem::replace(scene, Handle::closed(alloc));
    let Some(held) = into_held(taken) else {
        return CLOSED;
    };
    let mut held = held;
    let before = mem::replace(&mut *held, HeldScene::Alone(OpenScene::new(alloc)));
    let (after, code) = share(alloc, before);
    *held = after;
    *scene = Handle::of_box(held);
    code
}

/// Gives a shared scene another pointer; what that held before is closed. `BAD` for a scene that isn't shared, and
/// `NO_MEMORY`: then it holds what it held.
#[unsafe(no_mangle)]
pub extern "C" fn scene_reader(alloc: Global, scene: &mut Handle, out: &mut Handle) -> u32
    ensures read { HasReader scene.old.value out.old.value out.new.value result }
    ensures kept { scene.new.value ≡ scene.old.value }
{
    let taken = mem::replace(scene, Handle::closed(alloc));
    let Some(held) = into_held(taken) else {
        return CLOSED;
    };
    let code = match &*held {
        HeldScene::Alone(_) => BAD,
        HeldScene::Shared(shared) => match another(alloc, shared) {
            Some(other) => {
                *out = Handle::of_box(other);
                DONE
            }
            None => NO_MEMORY,
        },
    };
    *scene = Handle::of_box(held);
    code
}

/// Makes a scene its pointer's alone, so that it can be changed again. `REFUSED` while others have it.
#[unsafe(no_mangle)]
pub extern "C" fn scene_unshare(alloc: Global, scene: &mut Handle) -> u32
    ensures { Unshares scene.old.value scene.new.value result }
{
    let taken = mem::replace(scene, Handle::closed(alloc));
    let Some(held) = into_held(taken) else {
        return CLOSED;
    };
    let mut held = held;
    let before = mem::replace(&mut *held, HeldScene::Alone(OpenScene::new(alloc)));
    let (after, code) = unshare(before);
    *held = after;
    *scene = Handle::of_box(held);
    code
}
