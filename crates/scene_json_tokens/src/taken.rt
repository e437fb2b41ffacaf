//! Forms whose values are taken from a reader.
ghost use Rattle.std.specs.Prelude.{◌≡◌, IfSome};
ghost use Rattle.scene_json_tokens.specs.Taken.{IsTaken};

use crate::numbers::take_count;
use crate::values::take_entity;
use json::Reader;
use scene_json_forms::{EntityForm, Form, KindNumberForm, Ordered, U32Form};
use std::alloc::Global;

/// A form whose values are read from the tokens of a text as well, with no document.
pub trait Taken: Form {
    ghost use Rattle.std.specs.Prelude.{ℕ};

    // How many levels of lists and objects a value has at most.
    ghost levels: { ℕ };

    /// Takes the next value of a reader, and reads it as the form does. `None` says nothing of the text: it isn't a usual
    /// one, or memory ran out. Some tokens were taken then.
    fn take(&self, alloc: Global, reader: &mut Reader<'_>) -> Option<Self::Item>
        ensures { IfSome result (λ item. IsTaken (Self.word self.now) levels reader.old reader.new (Self.meant item)) };
}

/// A form whose values may stand in lists in an order.
pub trait TakenInOrder: Taken {
    /// Whether an item may stand after another.
    fn stands_after(&self, before: &Self::Item, item: &Self::Item) -> bool
        ensures { result ≡ Self.follows (Self.meant before.now) (Self.meant item.now) };
}

impl Taken for EntityForm {
    ghost levels = { 0 };

    #[inline(always)]
    fn take(&self, alloc: Global, reader: &mut Reader<'_>) -> Option<Self::Item> {
        take_entity(reader)
    }
}

impl Taken for U32Form {
    ghost levels = { 0 };

    #[inline(always)]
    fn take(&self, alloc: Global, reader: &mut Reader<'_>) -> Option<Self::Item> {
        let number = take_count(reader)?;
        if number < 1 << 32 {
            Some(number as u32)
        } else {
            None
        }
    }
}

impl Taken for KindNumberForm {
    ghost levels = { 0 };

    fn take(&self, alloc: Global, reader: &mut Reader<'_>) -> Option<Self::Item> {
        let number = take_count(reader)?;
        if number < u64::from(self.count) {
            Some(number as u8)
        } else {
            None
        }
    }
}

impl TakenInOrder for KindNumberForm {
    fn stands_after(&self, before: &u8, item: &u8) -> bool {
        self.follows(before, item)
    }
}
