//! A delta of a frame as C sees it.
ghost use Rattle.std.specs.Prelude.{◌≡◌, None, option_map};
ghost use Rattle.scene_c.specs.Arguments.{shown_entity};
ghost use Rattle.scene_c.specs.Shown.{text_value};
ghost use Rattle.scene_c.specs.Steps.{cell_seen, delta_by, held_seen, name_in, no_cell, parent_by, place_by, row_in, shown_delta, text_seen, text_told, value_after, value_before};

use crate::filling::ShownAs;
use crate::gathering::ABSENT;
use crate::reading::Reading;
use crate::shown::NO_ENTITY;
use crate::value::{SceneCell, SceneEntity, shown_cell, shown_entity};
use scene_deltas::{Delta, ResourceCell};
use scene_kinds::{Cell, Entity, Value};

/// What a delta of a frame did (`scene_delta`).
#[repr(C)]
#[derive(Clone, Copy)]
pub struct SceneDelta {
    pub change: u32,
    pub entity: SceneEntity,
    pub place: u32,
    pub before: SceneCell,
    pub after: SceneCell,
    pub parent_before: SceneEntity,
    pub place_before: u32,
    pub parent_after: SceneEntity,
    pub place_after: u32,
}

/// A component that isn't there.
const NO_CELL: SceneCell = SceneCell {
    kind: 0,
    shape: ABSENT,
    x: 0,
    y: 0,
    z: 0,
};

/// A component of a kind, by its numbers.
fn cell_seen(kind: u8, cell: &Cell) -> SceneCell
    ensures { result ≡ cell_seen kind cell.now }
{
    shown_cell(kind, Reading::numbers_of(&cell.value))
}

impl ShownAs<SceneCell> for (u8, Cell) {
    ghost shown = { λ c. cell_seen c.0 c.1 };

    fn shown(&self) -> SceneCell {
        let (kind, cell) = self;
        cell_seen(*kind, cell)
    }
}

/// The component of a resource, which has no kind.
fn held_seen(held: &ResourceCell) -> SceneCell
    ensures { result ≡ held_seen held.now }
{
    match held.get() {
        Some(cell) => cell_seen(0, cell),
        None => NO_CELL,
    }
}

/// The parent of a link.
fn parent_by(link: Option<(Entity, u32)>) -> SceneEntity
    ensures { result ≡ parent_by link }
{
    match link {
        Some((parent, _)) => shown_entity(parent),
        None => NO_ENTITY,
    }
}

/// The place of a link among the children of its parent.
fn place_by(link: Option<(Entity, u32)>) -> u32
    ensures { result ≡ place_by link }
{
    match link {
        Some((_, place)) => place,
        None => 0,
    }
}

/// A delta that is about an entity, and a place, alone.
fn about(change: u32, entity: SceneEntity, place: u32) -> SceneDelta
    ensures { result ≡ delta_by change entity place no_cell no_cell None None }
{
    SceneDelta {
        change,
        entity,
        place,
        before: NO_CELL,
        after: NO_CELL,
        parent_before: NO_ENTITY,
        place_before: 0,
        parent_after: NO_ENTITY,
        place_after: 0,
    }
}

/// A delta of a component.
fn of_cells(
    change: u32,
    entity: SceneEntity,
    place: u32,
    before: SceneCell,
    after: SceneCell,
) -> SceneDelta
    ensures { result ≡ delta_by change entity place before after None None }
{
    SceneDelta {
        before,
        after,
        ..about(change, entity, place)
    }
}

/// A delta of a parent.
fn of_links(
    change: u32,
    entity: Entity,
    place: u32,
    before: Option<(Entity, u32)>,
    after: Option<(Entity, u32)>,
) -> SceneDelta
    ensures { result ≡ delta_by change (shown_entity entity) place no_cell no_cell before after }
{
    SceneDelta {
        parent_before: parent_by(before),
        place_before: place_by(before),
        parent_after: parent_by(after),
        place_after: place_by(after),
        ..about(change, shown_entity(entity), place)
    }
}

/// A delta as C sees it.
pub(crate) fn shown_delta(delta: &Delta) -> SceneDelta
    ensures { result ≡ shown_delta delta.now }
{
    match delta {
        Delta::Spawned { entity, .. } => about(0, shown_entity(*entity), 0),
        Delta::Despawned {
            entity,
            place,
            link,
            ..
        } => of_links(1, *entity, *place, *link, None),
        Delta::Shifted {
            entity,
            place,
            kind,
            cell,
            inward: true,
        } => of_cells(
            2,
            shown_entity(*entity),
            *place,
            NO_CELL,
            cell_seen(*kind, cell),
        ),
        Delta::Shifted {
            entity,
            place,
            kind,
            cell,
            ..
        } => of_cells(
            2,
            shown_entity(*entity),
            *place,
            cell_seen(*kind, cell),
            NO_CELL,
        ),
        Delta::CellSet {
            entity,
            kind,
            before,
            after,
        } => of_cells(
            3,
            shown_entity(*entity),
            0,
            cell_seen(*kind, before),
            cell_seen(*kind, after),
        ),
        Delta::Linked {
            entity,
            before,
            after,
        } => of_links(4, *entity, 0, *before, *after),
        Delta::ResourceSet { before, after, .. } => {
            of_cells(5, NO_ENTITY, 0, held_seen(before), held_seen(after))
        }
    }
}

/// The cells of the row that a delta brought or took away; of no row none.
pub(crate) fn row_in(delta: &Delta) -> &[(u8, Cell)]
    ensures { result.now ≡ row_in delta.now }
{
    match delta {
        Delta::Spawned { cells, .. } | Delta::Despawned { cells, .. } => cells.as_slice(),
        _ => &[],
    }
}

/// The value before a delta: in a row the one of a kind.
fn value_before(delta: &Delta, kind: u8) -> Option<&Value>
    ensures { option_map (λ value. value.now) result ≡ value_before kind delta.now }
{
    match delta {
        Delta::Despawned { cells, .. } => Some(cells.get(kind)?.value),
        Delta::Shifted {
            cell,
            inward: false,
            ..
        } => Some(&cell.value),
        Delta::CellSet { before, .. } => Some(&before.value),
        Delta::ResourceSet { before, .. } => Some(&before.get()?.value),
        _ => None,
    }
}

/// The value after a delta: in a row the one of a kind.
fn value_after(delta: &Delta, kind: u8) -> Option<&Value>
    ensures { option_map (λ value. value.now) result ≡ value_after kind delta.now }
{
    match delta {
        Delta::Spawned { cells, .. } => Some(cells.get(kind)?.value),
        Delta::Shifted {
            cell,
            inward: true,
            ..
        } => Some(&cell.value),
        Delta::CellSet { after, .. } => Some(&after.value),
        Delta::ResourceSet { after, .. } => Some(&after.get()?.value),
        _ => None,
    }
}

/// The name of the resource that a delta is about.
fn name_in(delta: &Delta) -> Option<&str>
    ensures { option_map (λ name. name.now) result ≡ name_in delta.now }
{
    match delta {
        Delta::ResourceSet { name, .. } => Some(name.as_str()),
        _ => None,
    }
}

/// The text that a value is.
fn text_of(value: &Value) -> Option<&str>
    ensures { option_map (λ text. text.now) result ≡ text_value value.now }
{
    match value {
        Value::Text(text) => Some(text.as_str()),
        _ => None,
    }
}

/// A text of a delta by its number: before it, after it, or the name of its resource.
fn text_told(delta: &Delta, which: u32, kind: u8) -> Option<&str>
    ensures { option_map (λ text. text.now) result ≡ text_told which kind delta.now }
{
    match which {
        0 => text_of(value_before(delta, kind)?),
        1 => text_of(value_after(delta, kind)?),
        2 => name_in(delta),
        _ => None,
    }
}

/// The bytes of a text of a delta; none where it has no such text.
pub(crate) fn text_seen(delta: &Delta, which: u32, kind: u8) -> &[u8]
    ensures { result.now ≡ text_seen which kind delta.now }
{
    match text_told(delta, which, kind) {
        Some(text) => text.as_bytes(),
        None => &[],
    }
}
