//! What a world is built from.

use scene_kinds::{Cell, Entity, KindSet, Row, Schema};

/// The parts of a world as plain lists, in any order. Unlike a world they may break its rules: they can hold an empty
/// table, a kind set or a name twice, or two parents of one entity (docs/MODEL.md, "A valid world").
#[derive(Drop, Debug)]
pub struct WorldParts {
    /// The kinds.
    pub schema: Schema,
    /// How many slots there may be.
    pub limit: u32,
    /// The tick of the last frame.
    pub tick: u64,
    /// The generation of each slot, by index.
    pub generations: Vec<u32>,
    /// The free indices, first to last: the last one is reused first.
    pub free: Vec<u32>,
    /// The rows of each kind set.
    pub tables: Vec<(KindSet, Vec<Row>)>,
    /// The children of each parent.
    pub children: Vec<(Entity, Vec<Entity>)>,
    /// The cell of each resource, with its name.
    pub resources: Vec<(String, Cell)>,
}
