//! Names of cells.
use scene_kinds::Entity;

/// A cell of a world, named by its entity and its kind.
#[derive(Clone, Copy, Debug, PartialEq, Eq)]
pub struct CellName {
    pub entity: Entity,
    pub kind: u8,
}
