//! A scene on the heap: of one pointer alone, or shared by several for reading.
ghost use Rattle.std.specs.Prelude.{◌≡◌};
ghost use Rattle.scene_c.specs.HeldScene.{seen};

use crate::open_scene::OpenScene;
use std::alloc::Global;
use std::sync::Arc;

/// A scene that one pointer has, and which changes by it; or one that several have, and which none of them changes.
#[derive(Drop)]
pub enum HeldScene {
    Alone(OpenScene),
    Shared(Arc<OpenScene, Global>),
}

impl HeldScene {
    /// The scene, to read it. It takes no memory.
    pub(crate) fn seen(&self) -> &OpenScene
        ensures { result.now ≡ seen self.now }
    {
        match self {
            HeldScene::Alone(open_scene) => open_scene,
            HeldScene::Shared(shared) => shared,
        }
    }
}
