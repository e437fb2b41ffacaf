//! Rows, and the cells of a row by their kinds.
ghost use Rattle.std.specs.Prelude.{◌≡◌, ◌<◌, ◌^◌, ◌++◌, ◌↔◌, IsTrue, [], length, IfOk, IsOk, OnOk, OnErr, IfSome, IfNone, IsSome, None, Some, not, nat_eq, nat_lt};
ghost use Rattle.std.specs.List.{position_from};
ghost use Rattle.std.specs.Option.{option_map, option_to_list};
ghost use Rattle.scene_kinds.specs.Cells.{cell_of, with_cell, without_cell, mask_of, shown, IsAscending, AreKindsBelow, IsPlaceOf, IsTakenAt, IsNext, GoesLast};

use crate::cell::{Cell, CellRef};
use crate::entity::Entity;
use crate::held::{Held, held_of};
use crate::kind_set::KindSet;
use std::alloc::{AllocError, Global};
use std::marker::Model;
use std::{fmt, mem};

/// For how many cells a list is made where a second one comes to a lone one.
const FIRST_ROOM: usize = 2;

/// The cells of a row, each with its kind. In a row that stands in a table the kinds ascend. One alone takes no memory
/// of its own.
pub struct Cells {
    alloc: Global,
    held: Held,
}

impl Drop for Cells {
    fn drop(self) {
        let Cells { alloc: _, held: _ } = self;
    }
}

impl Model for Cells {
    ghost use Rattle.std.specs.Prelude.{List, ℕ};
    ghost use Rattle.scene_kinds.specs.declared.cell.Cell.{Cell};
    ghost use Rattle.scene_kinds.specs.Held.{held_cells};

    ghost Value = { List (ℕ × Cell) };

    ghost view = { λ c. held_cells c.held };
}

impl Cells {
    /// No cells. It takes no memory.
    pub fn new(alloc: Global) -> Self
        ensures { result ≡ [] }
    {
        Cells {
            alloc,
            held: Held::Empty,
        }
    }

    /// The cells of a list. It takes no memory, and a lone cell gives the list's back.
    pub fn from_vec(items: Vec<(u8, Cell)>) -> Self
        ensures { result ≡ items.items }
    {
        let alloc = *items.allocator();
        Cells {
            alloc,
            held: held_of(items),
        }
    }

    /// Takes out the last cell with its kind, or gives `None` where there are no cells. It takes no memory.
    pub fn pop(&mut self) -> Option<(u8, Cell)>
        ensures items { self.old ≡ self.new ++ option_to_list result }
        ensures empty { IfNone result (self.old ≡ []) }
    {
        self.held.pop()
    }

    /// The kinds with their cells, in order.
    pub fn as_slice(&self) -> &[(u8, Cell)]
        ensures { result.now ≡ self.now }
    {
        self.held.as_slice()
    }

    /// How many cells there are.
    pub fn len(&self) -> usize
        ensures count { result ≡ length self.now }
        ensures small { result < 2 ^ 63 }
    {
        self.as_slice().len()
    }

    /// Whether there are no cells.
    pub fn is_empty(&self) -> bool
        ensures { IsTrue result ↔ (self.now ≡ []) }
    {
        self.as_slice().is_empty()
    }

    /// The cell of a kind, or `None` where it has none. It costs a walk over the cells.
    pub fn get(&self, kind: u8) -> Option<CellRef<'_>>
        ensures { option_map shown result ≡ cell_of self.now kind }
    {
        let items = self.as_slice();
        let at = place_of(items, kind)?;
        let cell = &items[at].1;
        Some(CellRef {
            value: &cell.value,
            added: cell.added,
            changed: cell.changed,
        })
    }

    /// Puts a cell at the ascending place of its kind, or in place of the cell of that kind that was there.
    ///
    /// An error where no memory was found: then the cells are as they were, and the cell is dropped. It costs a
    /// walk over the cells.
    pub fn put(&mut self, kind: u8, cell: Cell) -> Result<(), AllocError>
        ensures done { OnOk result (self.new ≡ with_cell self.old kind cell) }
        ensures full { OnErr result (self.new ≡ self.old) }
    {
        match &mut self.held {
            Held::Empty => {
                self.held = Held::Lone((kind, cell));
                return Ok(());
            }
            Held::Lone(_) => (),
            Held::Many(items) => return put_cell(items, kind, cell),
        }
        let empty = Vec::with_capacity(self.alloc, FIRST_ROOM)?;
        let mut list = mem::replace(&mut self.held, Held::Empty).into_list(empty);
        let put = put_cell(&mut list, kind, cell);
        self.held = Held::Many(list);
        put
    }

    /// Takes out the cell of a kind, or gives `None` where it has none. It takes no memory, and costs a walk over
    /// the cells.
    pub fn remove(&mut self, kind: u8) -> Option<Cell>
        requires { IsAscending self.old }
        ensures value { result ≡ cell_of self.old kind }
        ensures rest { self.new ≡ without_cell self.old kind }
    {
        let at = place_of(self.held.as_slice(), kind)?;
        let (_, cell) = self.held.remove(at);
        Some(cell)
    }

    /// The set of the kinds, in which kind k is bit k. It costs a walk over the cells.
    pub fn mask(&self) -> KindSet
        requires ascending { IsAscending self.now }
        requires below { AreKindsBelow 64 self.now }
        ensures { result ≡ mask_of self.now }
    {
        mask_of_kinds(self.as_slice())
    }

    /// Puts a cell in place of that of a kind which is there, and answers the old one. It takes no memory,
    /// and costs a walk over the cells. The kinds must ascend, and stay as they are.
    pub fn set(&mut self, kind: u8, cell: Cell) -> Cell
        requires ascending { IsAscending self.old }
        requires there { IsSome (cell_of self.old kind) }
        ensures old { cell_of self.old kind ≡ Some result }
        ensures new { self.new ≡ with_cell self.old kind cell }
    {
        match place_of(self.held.as_slice(), kind) {
            Some(at) => self.held.replace(at, cell),
            None => unreachable!(),
        }
    }

    /// An equal list of cells, or an error where no memory was found.
    pub fn try_clone(&self) -> Result<Cells, AllocError>
        ensures { IfOk result (λ copy. copy ≡ self.now) }
    {
        Ok(Cells {
            alloc: self.alloc,
            held: self.held.try_clone()?,
        })
    }
}

/// Equal cells, or an error where no memory was found.
impl Clone for Cells {
    ghost is_clone = { λ a b. b ≡ a };

    fn clone(&self) -> Result<Cells, AllocError> {
        self.try_clone()
    }
}

/// As a list of kinds with cells.
impl fmt::Debug for Cells {
    fn fmt<W: fmt::Write>(&self, f: &mut fmt::Formatter<W>) -> fmt::Result {
        let items = self.as_slice();
        write!(f, "Cells {{ items: {items:?} }}")
    }
}

/// The place of the cell of a kind.
fn find_place(items: &[(u8, Cell)], kind: u8) -> Option<usize>
    ensures { result ≡ position_from (λ e. nat_eq kind e.0) 0 items.now }
{
    items.iter().position(|e| e.0 == kind)
}

/// The place of the cell of a kind, and what stands there.
fn place_of(items: &[(u8, Cell)], kind: u8) -> Option<usize>
    ensures none { IfNone result (cell_of items.now kind ≡ None) }
    ensures some { IfSome result (IsPlaceOf items.now kind) }
    ensures taken { IfSome result (IsTakenAt kind items.now) }
{
    find_place(items, kind)
}

/// The first place whose kind isn't below a kind.
fn find_next(items: &[(u8, Cell)], kind: u8) -> Option<usize>
    ensures { result ≡ position_from (λ e. not (nat_lt e.0 kind)) 0 items.now }
{
    items.iter().position(|e| e.0 >= kind)
}

/// The place of a cell of a kind: `None` where it goes last.
#[tactic(auto, using(crate::proofs::Next::places))]
fn place_for(items: &[(u8, Cell)], kind: u8) -> Option<usize>
    ensures none { IfNone result (GoesLast kind items.now) }
    ensures some { IfSome result (IsNext kind items.now) }
{
    find_next(items, kind)
}

/// Puts a cell at its place among cells.
fn put_cell(items: &mut Vec<(u8, Cell)>, kind: u8, cell: Cell) -> Result<(), AllocError>
    ensures done { OnOk result (items.new.items ≡ with_cell items.old.items kind cell) }
    ensures full { OnErr result (items.new.items ≡ items.old.items) }
{
    match place_for(items.as_slice(), kind) {
        None => items.push((kind, cell))?,
        Some(at) => {
            if items[at].0 == kind {
                items[at] = (kind, cell);
            } else {
                items.insert(at, (kind, cell))?;
            }
        }
    }
    Ok(())
}

/// The sum of the bits of the kinds.
fn mask_of_kinds(items: &[(u8, Cell)]) -> KindSet
    requires ascending { IsAscending items.now }
    requires below { AreKindsBelow 64 items.now }
    ensures { result ≡ mask_of items.now }
{
    let mut mask: KindSet = 0;
    for item in items {
        mask += 1u64 << item.0;
    }
    mask
}

/// An entity with its cells. In a table they are just the table's kinds, ascending.
#[derive(Drop, Clone, Debug)]
pub struct Row {
    pub entity: Entity,
    pub cells: Cells,
}

impl Row {
    /// An equal row, or an error where no memory was found.
    pub fn try_clone(&self) -> Result<Row, AllocError>
        ensures { IfOk result (λ copy. copy ≡ self.now) }
    {
        self.clone()
    }
}
