//! What no clause says and no script reaches: that the calls which keep a name, forget it or give an old cell back find
//! memory where they need it, and do what was worked out by hand.
use scene_kinds::{Cell, Value};
use scene_resources::Resources;

/// Whether a cell has this number and these ticks.
fn is_number(cell: Option<&Cell>, number: i64, added: u64, changed: u64) -> bool {
    let Some(cell) = cell else { return false };
    matches!(cell.value, Value::Int(found) if found == number)
        && cell.added == added
        && cell.changed == changed
}

/// Puts a number at a name; whether there was memory, and no cell before.
fn put_new(resources: &mut Resources, name: &str, number: i64, tick: u64) -> bool {
    matches!(resources.put(name, Value::Int(number), tick), Ok(None))
}

/// Puts an 8 over `left` at tick 2, and gives the old cell back; whether there was memory, and the 8 between.
fn put_and_give_back(resources: &mut Resources) -> bool {
    match resources.put("left", Value::Int(8), 2) {
        Ok(old) => {
            is_number(resources.get("left"), 8, 1, 2) && resources.restore("left", old).is_ok()
        }
        Err(_) => false,
    }
}

/// Drops the cell of a name; whether there was one.
fn drop_cell(resources: &mut Resources, name: &str) -> bool {
    resources.take(name).is_ok()
}

#[test]
fn cells_come_back(rt: HostRuntime) {
    let mut resources = Resources::new(rt.alloc());
    assert!(rt; put_new(&mut resources, "left", 7, 1));
    assert!(rt; put_and_give_back(&mut resources));
    assert!(rt; is_number(resources.get("left"), 7, 1, 1));
    assert!(rt; resources.restore("left", None).is_ok());
    assert!(rt; resources.get("left").is_none());
}

#[test]
fn a_kept_name_takes_a_cell_without_memory(rt: HostRuntime) {
    let mut resources = Resources::new(rt.alloc());
    resources.reserve("left").expect(&rt, "memory");
    assert!(rt; resources.get("left").is_none());
    assert!(rt; resources.put_reserved("left", Value::Int(7), 1).is_none());
    let taken = resources.take("left").expect(&rt, "the cell");
    assert!(rt; resources.restore_reserved("left", Some(taken)).is_none());
    assert!(rt; is_number(resources.get("left"), 7, 1, 1));
}

#[test]
fn what_forgets_names_leaves_the_cells(rt: HostRuntime) {
    let mut resources = Resources::new(rt.alloc());
    assert!(rt; put_new(&mut resources, "left", 7, 1));
    assert!(rt; put_new(&mut resources, "gold", 3, 2));
    assert!(rt; drop_cell(&mut resources, "gold"));
    resources.trim();
    assert!(rt; is_number(resources.get("left"), 7, 1, 1));
    assert!(rt; put_new(&mut resources, "gold", 4, 3));
    resources.forget("gold");
    assert!(rt; is_number(resources.get("gold"), 4, 3, 3));
    assert!(rt; drop_cell(&mut resources, "gold"));
    resources.forget("gold");
    assert!(rt; resources.get("gold").is_none());
}
