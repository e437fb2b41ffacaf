//! The slots of entities: which index a new entity takes, and what becomes of the index when it dies.
//!
//! `Slots` keeps the generation of each index and the list of free indices. `take` reuses the index that
//! was freed last, or makes a new slot; `release` raises the generation and frees the index, or retires
//! it at the highest generation. Both have an exact way back, `untake` and `unrelease`, so that undo gives
//! the very indices and generations again: the laws say so of the definitions in `specs/Slots.antt`.
//!
//! Contracts see the state of the slots, which is the limit, the generations by index, and the free list,
//! and their capacity, for how many of them there is memory. Only a new slot may take memory; `reserve`
//! makes room for new ones, and where there is room `take_reserved` can't fail.
//!
//! `proofs/SlotLaws.antt` has what users cite in their proofs.
#![tactic(auto)]

mod laws;
mod slots;

pub use laws::{
    moves_change_one_index, release_comes_back, take_comes_back, unrelease_comes_back,
    untake_comes_back,
};
pub use slots::Slots;
