//! What C sees of a scene that it reads.
ghost use Rattle.std.specs.Prelude.{◌≡◌};
ghost use Rattle.scene_c.specs.Arguments.{shown_entity, shown_name};
ghost use Rattle.scene_c.specs.Shown.{int_of, link_of, shown_moment, table_of, vec3_by, vec3_of};

use crate::filling::ShownAs;
use crate::value::{SceneEntity, SceneName, shown_entity, shown_name};
use scene_kinds::{Entity, Value};
use scene_pass::CellName;
use scene_table::Table;
use scene_undo::Cursor;

/// A scene by its numbers (`scene_info`).
#[repr(C)]
#[derive(Clone, Copy)]
pub struct SceneInfo {
    pub tick: u64,
    pub rewinds: u64,
    pub undo: u64,
    pub redo: u64,
    pub slots: u32,
    pub limit: u32,
    pub kinds: u32,
    pub depth: u32,
    pub in_frame: u32,
}

/// Three numbers (`scene_vec3`).
#[repr(C)]
#[derive(Clone, Copy)]
pub struct SceneVec3 {
    pub x: i64,
    pub y: i64,
    pub z: i64,
}

/// A kind set that has rows, and how many (`scene_table`).
#[repr(C)]
#[derive(Clone, Copy)]
pub struct SceneTable {
    pub mask: u64,
    pub rows: u64,
}

/// The ticks of a component (`scene_tick_pair`).
#[repr(C)]
#[derive(Clone, Copy)]
pub struct SceneTicks {
    pub added: u64,
    pub changed: u64,
}

/// A moment of a scene (`scene_moment`).
#[repr(C)]
#[derive(Clone, Copy)]
pub struct SceneMoment {
    pub rewinds: u64,
    pub tick: u64,
}

impl ShownAs<SceneEntity> for Entity {
    ghost shown = { shown_entity };

    fn shown(&self) -> SceneEntity {
        shown_entity(*self)
    }
}

impl ShownAs<i64> for Value {
    ghost shown = { int_of };

    fn shown(&self) -> i64 {
        match self {
            Value::Int(number) => *number,
            _ => 0,
        }
    }
}

impl ShownAs<SceneVec3> for Value {
    ghost shown = { vec3_of };

    fn shown(&self) -> SceneVec3 {
        match self {
            Value::Vec3(numbers) => shown_vec3(*numbers),
            _ => SceneVec3 { x: 0, y: 0, z: 0 },
        }
    }
}

impl ShownAs<SceneEntity> for Value {
    ghost shown = { link_of };

    fn shown(&self) -> SceneEntity {
        match self {
            Value::Link(entity) => shown_entity(*entity),
            _ => NO_ENTITY,
        }
    }
}

impl ShownAs<SceneName> for CellName {
    ghost shown = { shown_name };

    fn shown(&self) -> SceneName {
        shown_name(*self)
    }
}

impl ShownAs<u64> for u64 {
    ghost shown = { λ number. number };

    fn shown(&self) -> u64 {
        *self
    }
}

impl ShownAs<SceneTable> for &Table {
    ghost shown = { λ table. table_of table.now };

    fn shown(&self) -> SceneTable {
        SceneTable {
            mask: self.mask(),
            rows: self.len() as u64,
        }
    }
}

/// What no entity is (`SCENE_NONE`).
pub(crate) const NO_ENTITY: SceneEntity = SceneEntity {
    index: u32::MAX,
    generation: u32::MAX,
};

/// A vector as C sees it.
fn shown_vec3(numbers: [i64; 3]) -> SceneVec3
    ensures { result ≡ vec3_by numbers }
{
    let [x, y, z] = numbers;
    SceneVec3 { x, y, z }
}

/// A moment as C sees it.
pub(crate) fn shown_moment(cursor: Cursor) -> SceneMoment
    ensures { result ≡ shown_moment cursor }
{
    SceneMoment {
        rewinds: cursor.rewinds,
        tick: cursor.tick,
    }
}
