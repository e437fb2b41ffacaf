//! The cells of a row that comes to a table: its own, or others that are copied.
ghost use Rattle.std.specs.Prelude.{◌≡◌, false, IfOk};
ghost use Rattle.scene_kinds.specs.Cells.{mask_of, IsAscending, AreKindsBelow};
ghost use Rattle.scene_table.specs.Plain.{has_text};
ghost use Rattle.scene_table.specs.RowCells.{cells_from, CanCopy};

use crate::plain::has_text;
use scene_kinds::{Cells, KindSet};
use std::alloc::AllocError;
use std::marker::Model;

/// Where the cells are.
#[derive(Drop)]
pub(crate) enum Source<'a> {
    Own(Cells),
    Lent(&'a Cells),
}

/// The cells of a row that comes to a table, in order: cells of its own, which move there, or lent ones without texts,
/// which are copied without memory. Contracts see the cells.
#[derive(Drop)]
pub struct RowCells<'a> {
    source: Source<'a>,
}

impl<'a> Model for RowCells<'a> {
    ghost use Rattle.std.specs.Prelude.{List, ℕ};
    ghost use Rattle.scene_kinds.specs.declared.cell.Cell.{Cell};
    ghost use Rattle.scene_table.specs.RowCells.{cells_from, CanCopy};

    ghost Value = { List (ℕ × Cell) };

    ghost view = { λ r. cells_from r.source };

    ghost invariant = { λ r. CanCopy r.source };
}

impl<'a> RowCells<'a> {
    /// Cells of the row's own. They move to the table.
    pub fn own(cells: Cells) -> RowCells<'a>
        ensures { result ≡ cells }
    {
        RowCells {
            source: Source::Own(cells),
        }
    }

    /// Lent cells without texts. They are copied without memory.
    pub fn lent(cells: &'a Cells) -> RowCells<'a>
        requires { has_text cells.now ≡ false }
        ensures { result ≡ cells.now }
    {
        RowCells {
            source: Source::Lent(cells),
        }
    }

    /// Cells that are equal to lent ones: those themselves where none has a text, else a copy, or an error where no
    /// memory was found for it.
    pub fn copied(cells: &'a Cells) -> Result<RowCells<'a>, AllocError>
        ensures { IfOk result (λ row. row ≡ cells.now) }
    {
        if has_text(cells.as_slice()) {
            Ok(RowCells::own(cells.try_clone()?))
        } else {
            Ok(RowCells::lent(cells))
        }
    }

    /// The set of the kinds, in which kind k is bit k. It costs a walk over the cells.
    pub fn mask(&self) -> KindSet
        requires ascending { IsAscending self.now }
        requires below { AreKindsBelow 64 self.now }
        ensures { result ≡ mask_of self.now }
    {
        match &self.source {
            Source::Own(cells) => cells.mask(),
            Source::Lent(cells) => cells.mask(),
        }
    }

    /// Where the cells are.
    pub(crate) fn into_source(self) -> Source<'a>
        ensures cells { cells_from result ≡ self.entry }
        ensures copy { CanCopy result }
    {
        self.source
    }
}
