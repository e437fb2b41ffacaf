//! What the journal stands on: a row that left its table comes back to its place, and slots come back to none.
ghost use Rattle.std.specs.Prelude.{◌≡◌, IfOk, length};
ghost use Rattle.scene_kinds.specs.Cells.{HasKinds};

use crate::scenes::first;
use scene_alloc::Slots;
use scene_kinds::{Cells, Entity, Row};
use scene_table::Table;
use std::alloc::{AllocError, Global};
use std::process::Abort;
use std::test::Fail;

/// A row without cells.
fn bare(alloc: Global, entity: Entity) -> Row
    ensures { HasKinds 0 result }
{
    Row {
        entity,
        cells: Cells::new(alloc),
    }
}

/// The rows of the first entities of the indices 0 to 2, without cells.
fn three_rows(alloc: Global) -> Result<Table, AllocError>
    ensures mask { IfOk result (λ table. table.mask ≡ 0) }
    ensures count { IfOk result (λ table. length table.rows ≡ 3) }
{
    let mut table = Table::new(alloc, 0);
    table.reserve(3)?;
    table.push_row_reserved(bare(alloc, first(0)));
    table.push_row_reserved(bare(alloc, first(1)));
    table.push_row_reserved(bare(alloc, first(2)));
    Ok(table)
}

/// The first of three rows leaves its table, and comes back to its place.
fn row_is_taken_back(rt: &impl Abort, alloc: Global) {
    let mut table = three_rows(alloc).expect(rt, "memory");
    table.reserve(1).expect(rt, "memory");
    let left = table.swap_remove(0).expect(rt, "memory");
    assert_eq!(rt; left.entity, first(0));
    assert_eq!(rt; table.entities(), [first(2), first(1)].as_slice());
    assert!(rt; table.unswap(0, left).is_ok());
    assert_eq!(rt; table.entities(), [first(0), first(1), first(2)].as_slice());
}

/// The one slot is taken and released, and both are taken back.
fn slot_is_taken_back(rt: &impl Abort, alloc: Global) {
    let mut slots = Slots::new(alloc, 1);
    let entity = slots.take().expect(rt, "a slot");
    let retired = slots.release(entity);
    assert!(rt; !retired);
    slots.unrelease(entity, retired);
    slots.untake(entity, true);
    assert!(rt; slots.is_empty());
}

#[test]
fn moves_of_rows_and_slots_are_taken_back(rt: HostRuntime) -> Result<(), Fail> {
    row_is_taken_back(&rt, rt.alloc());
    slot_is_taken_back(&rt, rt.alloc());
    Ok(())
}
