//! Resources: cells by name.
ghost use Rattle.std.specs.Prelude.{◌≡◌, [], Contains, IfOk, OnOk, OnErr, IsOk, IsSome, None, map as each, option_copied, string_bytes, true};
ghost use Rattle.scene_kinds.specs.Answers.{Gives};
ghost use Rattle.scene_kinds.specs.Cells.{put_over};
ghost use Rattle.scene_kinds.specs.Map as map;
ghost use Rattle.scene_kinds.specs.Ranges.{is_in_range};
ghost use Rattle.scene_resources.specs.Resources.{IsWider, Forgets, Holds, cell_of, names_of, put_of, take_of, restore_of};

use scene_kinds::{Cell, Fault, Refusal, Value};
use std::alloc::{AllocError, Global};
use std::collections::BTreeMap;
use std::marker::Model;

/// Values that are tied to no entity, each with a name and its ticks (docs/MODEL.md, "The rule of
/// resources").
///
/// Contracts see the cell of each name that has one, and the names that are kept, those without a cell too: a
/// cell for a kept name takes no memory. A name with a cell is kept, and only `forget` and `trim` forget names.
#[derive(Debug)]
pub struct Resources {
    alloc: Global,
    cells: BTreeMap<String, Option<Cell>>,
}

impl Drop for Resources {
    fn drop(self) {
        let Resources { alloc: _, cells: _ } = self;
    }
}

impl Model for Resources {
    ghost use Rattle.scene_resources.specs.Resources.{StoredResources, stored_code};

    ghost Value = { StoredResources };

    ghost coded = { stored_code };

    ghost use Rattle.scene_resources.specs.Entries.{stored};

    ghost view = { λ r. stored r.cells.entries };
}

impl Resources {
    /// No resources. It takes no memory.
    pub fn new(alloc: Global) -> Self
        ensures cells { result.cells ≡ map.empty }
        ensures kept { result.kept ≡ [] }
    {
        Resources {
            alloc,
            cells: BTreeMap::new(alloc),
        }
    }

    /// A law of every value: each name with a cell is kept. It does nothing.
    pub fn room_holds(&self)
        ensures { Holds self.now.kept self.now.cells }
    {
        let _cells = &self.cells;
    }

    /// The cell of a name, or `None` where there is no resource of that name. A name with a cell is kept.
    pub fn get(&self, name: &str) -> Option<&Cell>
        ensures cell { option_copied result ≡ cell_of self.now.cells name.now }
        ensures held { Holds self.now.kept self.now.cells }
    {
        self.cells.get(name)?.as_ref()
    }

    /// The names, ascending by their bytes, or an error where no memory was found. It costs a copy of each name.
    pub fn names(&self) -> Result<Vec<String>, AllocError>
        ensures { IfOk result (λ names. each (λ name. string_bytes name) names.items ≡ names_of self.now.cells) }
    {
        let mut names = Vec::new(self.alloc);
        for (name, cell) in self.cells.iter() {
            if cell.is_some() {
                names.push(name.clone()?)?;
            }
        }
        Ok(names)
    }

    /// Keeps a name, so that a cell for it takes no memory.
    ///
    /// An error only where the name isn't kept yet and no memory was found. Whether it succeeds or not, the
    /// resources stay.
    pub fn reserve(&mut self, name: &str) -> Result<(), AllocError>
        ensures cells { self.new.cells ≡ self.old.cells }
        ensures kept { OnOk result (Contains self.new.kept name.now) }
        ensures there { Contains self.old.kept name.now → IsOk result }
        ensures wide { IsWider self.old.kept self.new.kept }
    {
        if self.cells.contains_key(name) {
            return Ok(());
        }
        let key = String::from_str(self.alloc, name)?;
        let _place = self.cells.insert(key, None)?;
        Ok(())
    }

    /// The cell of a value that is put at a name, at a tick.
    fn cell_over(&self, name: &str, value: Value, tick: u64) -> Cell
        ensures cell { result ≡ put_over (cell_of self.now.cells name.now) value tick }
        ensures in_range { is_in_range value ≡ true }
    {
        let mut cell = Cell::new(value, tick);
        if let Some(old) = self.get(name) {
            cell.added = old.added;
        }
        cell
    }

    /// Puts a value at a name, at a tick, and answers the cell that stood there (docs/MODEL.md, "The rule of
    /// resources"). A new name gets a cell of that tick; a name that is there keeps the tick at which it was added
    /// and gets this one as that of its change, and the value may have another shape. Any text will do as a name:
    /// which names are good is for the caller to ask. A value that code holds is in the range of its type.
    ///
    /// An error only where the name isn't kept and no memory was found: then the resources are as they were, and
    /// the value is dropped.
    pub fn put(&mut self, name: &str, value: Value, tick: u64) -> Result<Option<Cell>, AllocError>
        ensures old { IfOk result (λ old. old ≡ cell_of self.old.cells name.now) }
        ensures done { OnOk result (self.new.cells ≡ put_of self.old.cells name.now value tick) }
        ensures full { OnErr result (self.new.cells ≡ self.old.cells) }
        ensures there { Contains self.old.kept name.now → IsOk result }
        ensures wide { IsWider self.old.kept self.new.kept }
        ensures in_range { is_in_range value ≡ true }
    {
        let cell = self.cell_over(name, value, tick);
        self.reserve(name)?;
        Ok(self.restore_reserved(name, Some(cell)))
    }

    /// Puts a value at a kept name as `put` does. It takes no memory and can't fail.
    pub fn put_reserved(&mut self, name: &str, value: Value, tick: u64) -> Option<Cell>
        requires { Contains self.old.kept name.now }
        ensures old { result ≡ cell_of self.old.cells name.now }
        ensures done { self.new.cells ≡ put_of self.old.cells name.now value tick }
        ensures kept { self.new.kept ≡ self.old.kept }
        ensures in_range { is_in_range value ≡ true }
    {
        let cell = self.cell_over(name, value, tick);
        self.restore_reserved(name, Some(cell))
    }

    /// Takes the resource of a name away, and answers its cell (docs/MODEL.md, "The rule of resources"). The name
    /// stays kept, so that the cell comes back without memory. It takes no memory.
    ///
    /// Refused: `NoSuchResource` where there is none of that name; then nothing changes.
    pub fn take(&mut self, name: &str) -> Result<Cell, Refusal>
        ensures cells { Gives result self.old.cells self.new.cells (take_of self.old.cells name.now) }
        ensures kept { self.new.kept ≡ self.old.kept }
    {
        let Some(cell) = self.restore_reserved(name, None) else {
            return Err(Refusal::from(Fault::NoSuchResource));
        };
        Ok(cell)
    }

    /// Gives a name this very cell, ticks and all, or takes its resource away where that is `None`. What a `put`
    /// or a `take` answered, given back so, brings back the resources from before that call (`restored_comes_back`).
    ///
    /// An error only where there is a cell to give, the name isn't kept, and no memory was found: then the
    /// resources are as they were, and the cell is dropped.
    pub fn restore(&mut self, name: &str, cell: Option<Cell>) -> Result<(), AllocError>
        ensures done { OnOk result (self.new.cells ≡ restore_of self.old.cells name.now cell) }
        ensures full { OnErr result (self.new.cells ≡ self.old.cells) }
        ensures there { Contains self.old.kept name.now → IsOk result }
        ensures gone { cell ≡ None → IsOk result }
        ensures wide { IsWider self.old.kept self.new.kept }
    {
        if cell.is_some() {
            self.reserve(name)?;
        }
        let _old = self.restore_reserved(name, cell);
        Ok(())
    }

    /// Gives a kept name this very cell, or takes its resource away where that is `None`, as `restore` does, and
    /// answers the cell that stood there. It takes no memory and can't fail.
    pub fn restore_reserved(&mut self, name: &str, cell: Option<Cell>) -> Option<Cell>
        requires { IsSome cell → Contains self.old.kept name.now }
        ensures old { result ≡ cell_of self.old.cells name.now }
        ensures done { self.new.cells ≡ restore_of self.old.cells name.now cell }
        ensures kept { self.new.kept ≡ self.old.kept }
    {
        match self.cells.get_mut(name) {
            Some(place) => std::mem::replace(place, cell),
            None => None,
        }
    }

    /// Forgets the names that are kept without a cell, and frees their memory. It takes no memory, and costs a
    /// walk over the names.
    pub fn trim(&mut self)
        ensures cells { self.new.cells ≡ self.old.cells }
        ensures kept { self.new.kept ≡ names_of self.old.cells }
    {
        self.cells.retain(|_, cell| cell.is_some());
    }

    /// Forgets a name where it is kept without a cell, and frees its memory. It takes no memory.
    pub fn forget(&mut self, name: &str)
        ensures cells { self.new.cells ≡ self.old.cells }
        ensures kept { Forgets self.old self.new.kept name.now }
    {
        if self.get(name).is_some() {
            return;
        }
        let _place = self.cells.remove(name);
    }

    /// Equal resources that keep the same names, or an error where no memory was found.
    pub fn try_clone(&self) -> Result<Resources, AllocError>
        ensures { IfOk result (λ copy. copy ≡ self.now) }
    {
        Ok(Resources {
            alloc: self.alloc,
            cells: self.cells.clone()?,
        })
    }
}
