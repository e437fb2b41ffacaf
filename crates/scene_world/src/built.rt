//! The storage of a world, made of the lists of parts.
ghost use Rattle.std.specs.Prelude.{◌≡◌, ◌≤◌, IfOk, OnOk};
ghost use Rattle.scene_links.specs.Forest.{with_children};
ghost use Rattle.scene_validate.specs.Parts.{tables_of, forest_of, resources_of};
ghost use Rattle.scene_validate.specs.Seen.{lists_seen, named_seen};
ghost use Rattle.scene_world.specs.Built.{CanTake, taken, AreStorable, CanHang, AreLinkable};

use scene_archetypes::Archetypes;
use scene_kinds::{Cell, Entity, KindSet, Row};
use scene_links::Links;
use scene_resources::Resources;
use scene_table::RowCells;
use std::alloc::{AllocError, Global};

/// Adds rows to the table of their kind set, in their order.
fn add_rows(
    tables: &mut Archetypes,
    mask: KindSet,
    rows: Vec<Row>,
    count: usize,
) -> Result<(), AllocError>
    requires { CanTake tables.old.tables mask count rows.items }
    ensures { OnOk result (tables.new.tables ≡ taken tables.old.tables rows.items) }
{
    for row in rows {
        tables.reserve(mask, count)?;
        let last = tables.len(mask);
        let Row { entity, cells } = row;
        tables.put_back(mask, last, entity, RowCells::own(cells));
    }
    Ok(())
}

/// The rows of tables, which have indices below `count`, with a home for each of these, though a slot may have no row.
pub(crate) fn build_tables(
    alloc: Global,
    tables: Vec<(KindSet, Vec<Row>)>,
    count: usize,
) -> Result<Archetypes, AllocError>
    requires { AreStorable count (lists_seen tables.items) }
    ensures tables { IfOk result (λ built. built.tables ≡ tables_of (lists_seen tables.items)) }
    ensures homes { IfOk result (λ built. count ≤ built.homes) }
{
    let mut tables = tables;
    let mut built = Archetypes::new(alloc);
    while let Some((mask, rows)) = tables.pop() {
        add_rows(&mut built, mask, rows, count)?;
    }
    built.reserve_homes(count)?;
    Ok(built)
}

/// Puts children under a parent that has none.
fn add_children(links: &mut Links, parent: Entity, list: &[Entity]) -> Result<(), AllocError>
    requires { CanHang links.old.forest parent list.now }
    ensures { OnOk result (links.new.forest ≡ with_children links.old.forest parent list.now) }
{
    let mut place: usize = 0;
    for child in list {
        links.relink(*child, parent, place)?;
        place += 1;
    }
    Ok(())
}

/// The links of lists of children.
pub(crate) fn build_links(
    alloc: Global,
    children: Vec<(Entity, Vec<Entity>)>,
) -> Result<Links, AllocError>
    requires { AreLinkable (lists_seen children.items) }
    ensures { IfOk result (λ built. built.forest ≡ forest_of (lists_seen children.items)) }
{
    let mut children = children;
    let mut built = Links::new(alloc);
    while let Some((parent, list)) = children.pop() {
        add_children(&mut built, parent, list.as_slice())?;
    }
    Ok(built)
}

/// The resources of named cells; of a name that stands twice the first counts.
pub(crate) fn build_resources(
    alloc: Global,
    resources: Vec<(String, Cell)>,
) -> Result<Resources, AllocError>
    ensures { IfOk result (λ built. built.cells ≡ resources_of (named_seen resources.items)) }
{
    let mut resources = resources;
    let mut built = Resources::new(alloc);
    while let Some((name, cell)) = resources.pop() {
        built.restore(name.as_str(), Some(cell))?;
    }
    Ok(built)
}
