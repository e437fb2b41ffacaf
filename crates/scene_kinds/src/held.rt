//! How the cells of a row are held.
ghost use Rattle.std.specs.Prelude.{◌≡◌, ◌<◌, ◌++◌, [], length, remove, slice_index_or, slice_set, vec_capacity, IfNone, IfOk};
ghost use Rattle.std.specs.Option.{option_to_list};
ghost use Rattle.scene_kinds.specs.Held.{held_cells};

use crate::cell::Cell;
use std::alloc::AllocError;
use std::{mem, slice};

/// Cells with their kinds. Many rows that come and go have one cell, which needs no list.
#[derive(Drop)]
pub(crate) enum Held {
    Empty,
    Lone((u8, Cell)),
    Many(Vec<(u8, Cell)>),
}

/// The cells of a list. A lone one leaves the list's memory.
pub(crate) fn held_of(list: Vec<(u8, Cell)>) -> Held
    ensures { held_cells result ≡ list.items }
{
    let mut list = list;
    if list.len() != 1 {
        return Held::Many(list);
    }
    match list.pop() {
        Some(cell) => Held::Lone(cell),
        None => Held::Empty,
    }
}

impl Held {
    /// The list of the cells.
    pub(crate) fn as_slice(&self) -> &[(u8, Cell)]
        ensures { result.now ≡ held_cells self.now }
    {
        match self {
            Held::Empty => &[],
            Held::Lone(cell) => slice::from_ref(cell),
            Held::Many(cells) => cells.as_slice(),
        }
    }

    /// Takes the cell at a place out with its kind.
    pub(crate) fn remove(&mut self, at: usize) -> (u8, Cell)
        requires { at < length (held_cells self.old) }
        ensures value { result ≡ slice_index_or (held_cells self.old) at result }
        ensures items { held_cells self.new ≡ remove (held_cells self.old) at }
    {
        if let Held::Many(cells) = self {
            return cells.remove(at);
        }
        match mem::replace(self, Held::Empty) {
            Held::Lone(cell) => cell,
            _ => unreachable!(),
        }
    }

    /// Takes the last cell out with its kind, if there is one.
    pub(crate) fn pop(&mut self) -> Option<(u8, Cell)>
        ensures items { held_cells self.old ≡ held_cells self.new ++ option_to_list result }
        ensures empty { IfNone result (held_cells self.old ≡ []) }
    {
        if let Held::Many(cells) = self {
            return cells.pop();
        }
        match mem::replace(self, Held::Empty) {
            Held::Lone(cell) => Some(cell),
            _ => None,
        }
    }

    /// Puts a cell in place of the one at a place, under the same kind, and gives that one.
    pub(crate) fn replace(&mut self, at: usize, cell: Cell) -> Cell
        requires { at < length (held_cells self.old) }
        ensures value { result ≡ (slice_index_or (held_cells self.old) at (0, result)).1 }
        ensures items { held_cells self.new ≡ slice_set (held_cells self.old) at ((slice_index_or (held_cells self.old) at (0, cell)).0, cell) }
    {
        match self {
            Held::Many(cells) => mem::replace(&mut cells[at].1, cell),
            Held::Lone(lone) => mem::replace(&mut lone.1, cell),
            Held::Empty => unreachable!(),
        }
    }

    /// The cells in a list, for which there is an empty one with room where they have none.
    pub(crate) fn into_list(self, empty: Vec<(u8, Cell)>) -> Vec<(u8, Cell)>
        requires empty { empty.items ≡ [] }
        requires room { 0 < vec_capacity empty }
        ensures { result.items ≡ held_cells self }
    {
        let mut list = empty;
        match self {
            Held::Empty => list,
            Held::Lone(cell) => {
                list.push_reserved(cell);
                list
            }
            Held::Many(cells) => cells,
        }
    }

    /// An equal list of cells, or an error where no memory was found.
    pub(crate) fn try_clone(&self) -> Result<Held, AllocError>
        ensures { IfOk result (λ copy. held_cells copy ≡ held_cells self.now) }
    {
        match self {
            Held::Empty => Ok(Held::Empty),
            Held::Lone(cell) => Ok(Held::Lone((cell.0, cell.1.try_clone()?))),
            Held::Many(cells) => Ok(Held::Many(cells.clone()?)),
        }
    }
}
