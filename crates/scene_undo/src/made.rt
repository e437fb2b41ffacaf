//! What a frame gives.
use scene_kinds::Entity;

/// The entities that an accepted frame spawned, in order, in two equal lists: one for the caller, and one that can be
/// kept.
#[derive(Drop, Debug)]
pub struct Made {
    pub entities: Vec<Entity>,
    pub copy: Vec<Entity>,
}
