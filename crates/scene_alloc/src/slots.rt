//! The slots of entities: generations by index, and the free list.
ghost use Rattle.std.specs.Prelude.{◌≡◌, ◌≤◌, ◌↔◌, [], length, slice_get, true, false, Ok, IsTrue, IfOk, IsOk, OnOk};
ghost use Rattle.scene_kinds.specs.Answers.{Answers, Gives};
ghost use Rattle.scene_alloc.specs.Slots.{IsSlots, can_release, can_untake, can_unrelease, HasRoom, most_slots, new_slots, slots_of, takes_new_slot, take_of, untake_of, release_of, unrelease_of, retires};

use scene_kinds::{Entity, Fault, Refusal};
use std::alloc::{AllocError, Global};
use std::marker::Model;

/// The slots of entities: the generation of each index, the free indices in the order in which they
/// were freed, and how many slots there may be.
///
/// Contracts see the state of the slots, and their capacity, which is for how many of them there is
/// memory, in the free list too. No call makes it less, and only `take` and `reserve` make it more.
#[derive(Debug)]
pub struct Slots {
    limit: u32,
    generations: Vec<u32>,
    free: Vec<u32>,
}

impl Drop for Slots {
    fn drop(self) {
        let Slots {
            limit: _,
            generations: _,
            free: _,
        } = self;
    }
}

impl Model for Slots {
    ghost use Rattle.std.specs.Prelude.{◌≤◌, length, min, vec_capacity};
    ghost use Rattle.scene_alloc.specs.Slots.{StoredSlots, IsSlots, slots_of};

    ghost Value = { StoredSlots };

    ghost view = { λ s. record {
      state = slots_of s.limit s.generations.items s.free.items;
      capacity = min (vec_capacity s.generations) (vec_capacity s.free);
    } };

    ghost invariant = { λ s. record {
      sound : IsSlots (slots_of s.limit s.generations.items s.free.items);
      room : length s.generations.items ≤ vec_capacity s.free;
    } };
}

impl Slots {
    /// No slots yet, and at most `limit` ever, 1 to 1,048,576. It takes no memory.
    pub fn new(alloc: Global, limit: u32) -> Self
        requires some_limit { 1 ≤ limit }
        requires low_limit { limit ≤ most_slots }
        ensures { result.state ≡ new_slots limit }
    {
        Slots {
            limit,
            generations: Vec::new(alloc),
            free: Vec::new(alloc),
        }
    }

    /// Makes room for this many new slots. It asks nothing of the limit.
    ///
    /// It fails only where that room isn't there yet and no memory was found. Whether it succeeds or
    /// not, the slots stay. It may cost a move of all slots.
    pub fn reserve(&mut self, additional: u32) -> Result<(), AllocError>
        ensures state { self.new.state ≡ self.old.state }
        ensures room { OnOk result (HasRoom self.new additional) }
        ensures there { HasRoom self.old additional → IsOk result }
        ensures wide { self.old.capacity ≤ self.new.capacity }
    {
        let additional = additional as usize;
        self.free
            .reserve(self.generations.len() - self.free.len() + additional)?;
        self.generations.reserve(additional)
    }

    /// Whether no index is free, so that the next `take` makes a new slot, where the limit allows one;
    /// else it reuses an index.
    pub fn takes_new_slot(&self) -> bool
        ensures { result ≡ takes_new_slot self.now.state }
    {
        self.free.is_empty()
    }

    /// A new entity: the last free index with its slot's generation, or else a new slot, of generation 1
    /// (docs/MODEL.md, "The rule of reuse").
    ///
    /// Refused: `EntitiesFull` where no index is free and the slots are as many as the limit; `NoMemory`,
    /// only where a new slot finds no room. After a refusal the slots are as they were. A take of a free
    /// index takes no memory and is never refused. Its cost is constant, but that a list that is full
    /// grows to twice its length.
    pub fn take(&mut self) -> Result<Entity, Refusal>
        ensures answer { Answers result self.old.state self.new.state (take_of self.old.state) }
        ensures reuse { takes_new_slot self.old.state ≡ false → IsOk result }
        ensures room { HasRoom self.old 1 → Gives result self.old.state self.new.state (take_of self.old.state) }
        ensures wide { self.old.capacity ≤ self.new.capacity }
    {
        if self.takes_new_slot() {
            if self.generations.len() >= self.limit as usize {
                return Err(Refusal::from(Fault::EntitiesFull));
            }
            self.reserve(1)?;
        }
        Ok(self.take_reserved())
    }

    /// A new entity as `take` gives it, where that refuses nothing and there is room for the slot that it
    /// may make. It takes no memory and can't fail.
    pub fn take_reserved(&mut self) -> Entity
        requires accepted { IsOk (take_of self.old.state) }
        requires room { takes_new_slot self.old.state ≡ true → HasRoom self.old 1 }
        ensures answer { take_of self.old.state ≡ Ok (result, self.new.state) }
        ensures room { self.new.capacity ≡ self.old.capacity }
    {
        if let Some(index) = self.free.pop() {
            let generation = self.generations[index as usize];
            return Entity { index, generation };
        }
        let index = self.generations.len() as u32;
        self.generations.push_reserved(1);
        Entity {
            index,
            generation: 1,
        }
    }

    /// Takes back the `take` of an entity, whose slot was new where `fresh`: the new slot goes, or the
    /// reused index is the last free one again. Its state must be one after such a take. It takes no
    /// memory and leaves the room of the slot behind.
    pub fn untake(&mut self, entity: Entity, fresh: bool)
        requires { can_untake self.old.state entity fresh ≡ true }
        ensures state { self.new.state ≡ untake_of self.old.state entity fresh }
        ensures room { self.new.capacity ≡ self.old.capacity }
    {
        if fresh {
            let _first = self.generations.pop();
        } else {
            self.free.push_reserved(entity.index);
        }
    }

    /// Frees the index of an entity that has its slot's generation and isn't free, and raises the
    /// generation; or retires the index, where the generation is the highest of 32 bits: then nothing
    /// changes (docs/MODEL.md, "The rule of retirement"). Answers whether the index was retired.
    ///
    /// It takes no memory.
    pub fn release(&mut self, entity: Entity) -> bool
        requires { can_release self.old.state entity ≡ true }
        ensures state { self.new.state ≡ release_of self.old.state entity }
        ensures retired { result ≡ retires entity }
        ensures room { self.new.capacity ≡ self.old.capacity }
    {
        if entity.generation == u32::MAX {
            return true;
        }
        self.generations[entity.index as usize] = entity.generation + 1;
        self.free.push_reserved(entity.index);
        false
    }

    /// Takes back the `release` of an entity, which retired its index where `retired`: the slot has the
    /// entity's generation again, and the index, the last free one, isn't free. Its state must be one
    /// after such a release. It takes no memory.
    pub fn unrelease(&mut self, entity: Entity, retired: bool)
        requires { can_unrelease self.old.state entity retired ≡ true }
        ensures state { self.new.state ≡ unrelease_of self.old.state entity retired }
        ensures room { self.new.capacity ≡ self.old.capacity }
    {
        if !retired {
            let _index = self.free.pop();
            self.generations[entity.index as usize] = entity.generation;
        }
    }

    /// The generation of an index, or `None` where it has no slot.
    pub fn generation_of(&self, index: u32) -> Option<u32>
        ensures { result ≡ slice_get self.now.state.generations index }
    {
        self.generations.get(index as usize).copied()
    }

    /// The generations by index.
    pub fn generations(&self) -> &[u32]
        ensures { result.now ≡ self.now.state.generations }
    {
        self.generations.as_slice()
    }

    /// The free indices, first to last: the last one is reused first.
    pub fn free(&self) -> &[u32]
        ensures { result.now ≡ self.now.state.free }
    {
        self.free.as_slice()
    }

    /// How many slots there are, and what always holds of them.
    pub fn len(&self) -> usize
        ensures count { result ≡ length self.now.state.generations }
        ensures room { length self.now.state.generations ≤ self.now.capacity }
        ensures sound { IsSlots self.now.state }
    {
        self.generations.len()
    }

    /// Whether there are no slots.
    pub fn is_empty(&self) -> bool
        ensures { IsTrue result ↔ (self.now.state.generations ≡ []) }
    {
        self.generations.is_empty()
    }

    /// How many slots there may be, 1 to 1,048,576.
    pub fn limit(&self) -> u32
        ensures limit { result ≡ self.now.state.limit }
        ensures sound { IsSlots self.now.state }
    {
        self.limit
    }

    /// The slots with these generations by index and this free list, or an error where no memory was
    /// found.
    ///
    /// What is asked of the lists is what always holds of slots: the limit is 1 to 1,048,576, there are
    /// at most that many slots, each generation is at least 1, and each free index has a slot and stands
    /// once. The lists keep the allocators that they were made with. Its cost is constant, but that a
    /// free list without room for every slot is moved to where it has it.
    pub fn from_lists(
        limit: u32,
        generations: Vec<u32>,
        free: Vec<u32>,
    ) -> Result<Slots, AllocError>
        requires { IsSlots (slots_of limit generations.items free.items) }
        ensures { IfOk result (λ s. s.state ≡ slots_of limit generations.items free.items) }
    {
        let mut free = free;
        free.reserve(generations.len() - free.len())?;
        Ok(Slots {
            limit,
            generations,
            free,
        })
    }

    /// Equal slots, or an error where no memory was found. It copies every slot.
    pub fn try_clone(&self) -> Result<Slots, AllocError>
        ensures { IfOk result (λ copy. copy.state ≡ self.now.state) }
    {
        Slots::from_lists(self.limit, self.generations.clone()?, self.free.clone()?)
    }
}
