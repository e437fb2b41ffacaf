//! Deltas as JSON.
ghost use Rattle.std.specs.Prelude.{OnOk, codes, if◌then◌else◌};
ghost use Rattle.serde_json.specs.Written.{compact_text};
ghost use Rattle.scene_json.specs.Texts.{Adds};
ghost use Rattle.scene_file_records.specs.Text.{spawned_text, despawned_text, shifted_text, cell_set_text, linked_text, resource_set_text, delta_text};

use crate::write_parts::{write_kcell, write_kcells, write_link, write_maybe_resource_cell};
use scene_deltas::{Delta, ResourceCell};
use scene_json::write_json_text;
use scene_json_forms::write_entity;
use scene_kinds::{Cell, Cells, Entity, Text};
use std::alloc::{AllocError, Global};

/// Adds `true` or `false`.
fn write_bool(out: &mut String, yes: bool) -> Result<(), AllocError>
    ensures { OnOk result (Adds out.old out.new (if yes then codes "true" else codes "false")) }
{
    if yes {
        out.push_str("true")
    } else {
        out.push_str("false")
    }
}

/// Adds the delta of a spawn.
fn write_spawned(
    alloc: Global,
    out: &mut String,
    entity: Entity,
    cells: &Cells,
    fresh: bool,
) -> Result<(), AllocError>
    ensures { OnOk result (Adds out.old out.new (compact_text (spawned_text entity cells.now fresh))) }
{
    out.push_str("{\"cells\":")?;
    write_kcells(alloc, out, cells)?;
    out.push_str(",\"entity\":")?;
    write_entity(out, entity)?;
    out.push_str(",\"fresh\":")?;
    write_bool(out, fresh)?;
    out.push_str(",\"op\":\"spawned\"}")
}

/// Adds the delta of a despawn.
fn write_despawned(
    alloc: Global,
    out: &mut String,
    entity: Entity,
    place: u32,
    cells: &Cells,
    link: Option<(Entity, u32)>,
    retired: bool,
) -> Result<(), AllocError>
    ensures { OnOk result (Adds out.old out.new (compact_text (despawned_text entity place cells.now link retired))) }
{
    out.push_str("{\"cells\":")?;
    write_kcells(alloc, out, cells)?;
    out.push_str(",\"entity\":")?;
    write_entity(out, entity)?;
    out.push_str(",\"link\":")?;
    write_link(out, link)?;
    write!(
        out,
        ",\"op\":\"despawned\",\"place\":{place},\"retired\":{retired}}}"
    )?;
    Ok(())
}

/// Adds the delta of a row that moved.
fn write_shifted(
    alloc: Global,
    out: &mut String,
    entity: Entity,
    place: u32,
    kind: u8,
    cell: &Cell,
    inward: bool,
) -> Result<(), AllocError>
    ensures { OnOk result (Adds out.old out.new (compact_text (shifted_text entity place (kind, cell.now) inward))) }
{
    out.push_str("{\"cell\":")?;
    write_kcell(alloc, out, kind, cell)?;
    out.push_str(",\"entity\":")?;
    write_entity(out, entity)?;
    write!(
        out,
        ",\"inward\":{inward},\"op\":\"shifted\",\"place\":{place}}}"
    )?;
    Ok(())
}

/// Adds the delta of a cell.
fn write_cell_set(
    alloc: Global,
    out: &mut String,
    entity: Entity,
    kind: u8,
    before: &Cell,
    after: &Cell,
) -> Result<(), AllocError>
    ensures { OnOk result (Adds out.old out.new (compact_text (cell_set_text entity (kind, before.now) (kind, after.now)))) }
{
    out.push_str("{\"after\":")?;
    write_kcell(alloc, out, kind, after)?;
    out.push_str(",\"before\":")?;
    write_kcell(alloc, out, kind, before)?;
    out.push_str(",\"entity\":")?;
    write_entity(out, entity)?;
    out.push_str(",\"op\":\"cellset\"}")
}

/// Adds the delta of a link.
fn write_linked(
    out: &mut String,
    entity: Entity,
    before: Option<(Entity, u32)>,
    after: Option<(Entity, u32)>,
) -> Result<(), AllocError>
    ensures { OnOk result (Adds out.old out.new (compact_text (linked_text entity before after))) }
{
    out.push_str("{\"after\":")?;
    write_link(out, after)?;
    out.push_str(",\"before\":")?;
    write_link(out, before)?;
    out.push_str(",\"entity\":")?;
    write_entity(out, entity)?;
    out.push_str(",\"op\":\"linked\"}")
}

/// Adds the delta of a resource.
fn write_resource_set(
    alloc: Global,
    out: &mut String,
    name: &Text,
    before: &ResourceCell,
    after: &ResourceCell,
) -> Result<(), AllocError>
    ensures { OnOk result (Adds out.old out.new (compact_text (resource_set_text name.now before.now after.now))) }
{
    out.push_str("{\"after\":")?;
    write_maybe_resource_cell(alloc, out, after)?;
    out.push_str(",\"before\":")?;
    write_maybe_resource_cell(alloc, out, before)?;
    out.push_str(",\"name\":")?;
    write_json_text(alloc, out, name.as_str())?;
    out.push_str(",\"op\":\"resourceset\"}")
}

/// Adds a delta (docs/SCENE_FILES.md, "Version 2").
pub(crate) fn write_delta(alloc: Global, out: &mut String, delta: &Delta) -> Result<(), AllocError>
    ensures { OnOk result (Adds out.old out.new (compact_text (delta_text delta.now))) }
{
    match delta {
        Delta::Spawned {
            entity,
            cells,
            fresh,
        } => write_spawned(alloc, out, *entity, cells, *fresh),
        Delta::Despawned {
            entity,
            place,
            cells,
            link,
            retired,
        } => write_despawned(alloc, out, *entity, *place, cells, *link, *retired),
        Delta::Shifted {
            entity,
            place,
            kind,
            cell,
            inward,
        } => write_shifted(alloc, out, *entity, *place, *kind, cell, *inward),
        Delta::CellSet {
            entity,
            kind,
            before,
            after,
        } => write_cell_set(alloc, out, *entity, *kind, before, after),
        Delta::Linked {
            entity,
            before,
            after,
        } => write_linked(out, *entity, *before, *after),
        Delta::ResourceSet {
            name,
            before,
            after,
        } => write_resource_set(alloc, out, name, before, after),
    }
}
