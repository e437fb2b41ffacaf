//! Room for the raw changes that may need some: each part of it before anything changes.
ghost use Rattle.std.specs.Prelude.{◌≡◌, suc, true, OnOk, Contains, IsOk, IsSome, IfSome};
ghost use Rattle.scene_alloc.specs.Slots.{HasRoom};
ghost use Rattle.scene_archetypes.specs.Archetypes.{HasRoomOf};
ghost use Rattle.scene_links.specs.Room.{AreAlone, HasRoom as HasRoomForChild};
ghost use Rattle.scene_model.specs.Valid.{IsValid};
ghost use Rattle.scene_world.specs.Room.{Holds, IsWider, stored_slots, stored_rows};

use crate::raw_changes::RawChanges;
use crate::world::World;
use scene_kinds::{Cell, Entity, KindSet};
use std::alloc::AllocError;

impl World {
    /// A law of every value: it is valid, and its room holds it. It does nothing.
    pub(super) fn laws_hold(&self)
        ensures valid { IsValid self.now.world }
        ensures held { Holds self.now.room self.now.world }
    {
        self.room_holds();
        let _tick = self.tick();
    }

    /// Makes room for one more slot where it is to be a fresh one; a slot that is free has its room.
    pub(super) fn reserve_slot(&mut self, fresh: bool) -> Result<(), AllocError>
        ensures world { self.new.world ≡ self.old.world }
        ensures room { OnOk result (fresh ≡ true → HasRoom (stored_slots self.new) 1) }
        ensures there { (fresh ≡ true → HasRoom (stored_slots self.old) 1) → IsOk result }
        ensures wide { IsWider self.old.room self.new.room }
    {
        if fresh { self.slots.reserve(1) } else { Ok(()) }
    }

    /// Makes room for one more row of a kind set, which is that of an entity with this index.
    pub(super) fn reserve_row(&mut self, mask: KindSet, index: u32) -> Result<(), AllocError>
        ensures world { self.new.world ≡ self.old.world }
        ensures room { OnOk result (HasRoomOf (stored_rows self.new) mask (suc index)) }
        ensures there { HasRoomOf (stored_rows self.old) mask (suc index) → IsOk result }
        ensures wide { IsWider self.old.room self.new.room }
    {
        self.tables.reserve(mask, index as usize + 1)
    }

    /// Makes room for an entity in the list of its parent, where it is to have one.
    pub(super) fn reserve_link(
        &mut self,
        entity: Entity,
        link: Option<(Entity, usize)>,
    ) -> Result<(), AllocError>
        ensures world { self.new.world ≡ self.old.world }
        ensures room { OnOk result (IfSome link (λ l. HasRoomForChild self.new.room.lists self.new.world.children entity l.0)) }
        ensures there { IfSome link (λ l. AreAlone self.old.world.children entity l.0
            × HasRoomForChild self.old.room.lists self.old.world.children entity l.0) → IsOk result }
        ensures wide { IsWider self.old.room self.new.room }
    {
        match link {
            Some((parent, _)) => self.links.reserve(entity, parent),
            None => Ok(()),
        }
    }

    /// Makes room for a cell of a resource, where there is to be one.
    pub(super) fn reserve_name(&mut self, name: &str, cell: &Option<Cell>) -> Result<(), AllocError>
        ensures world { self.new.world ≡ self.old.world }
        ensures room { OnOk result (IsSome cell.now → Contains self.new.room.names name.now) }
        ensures there { (IsSome cell.now → Contains self.old.room.names name.now) → IsOk result }
        ensures wide { IsWider self.old.room self.new.room }
    {
        match cell {
            Some(_) => self.resources.reserve(name),
            None => Ok(()),
        }
    }
}
