//! What row steps make of a row.
use scene_commands::Components;
use scene_kinds::Entity;

/// What the steps make of a row (docs/MODEL.md, "The rule of systems").
#[derive(Drop, Debug)]
pub enum Outcome {
    /// The cells that the steps write, each with its last value, ascending by kind.
    Changed(Components),
    /// The first step, by its place from 0, whose sum is outside of the 64-bit numbers with sign.
    Overflow(u32),
}

/// A row, by its entity, and what the steps make of it.
#[derive(Drop, Debug)]
pub struct RowChange {
    pub entity: Entity,
    pub outcome: Outcome,
}
