//! What an open scene tells of its kinds, in the setup too.
ghost use Rattle.std.specs.Prelude.{◌≡◌, option_map, slice_get};
ghost use Rattle.std.specs.Option.{option_and_then};
ghost use Rattle.scene_c.specs.Arguments.{kind_of, text_of};
ghost use Rattle.scene_c.specs.Reads.{TellsKind, TellsNumber, kind_named, kinds_now};

use crate::open_scene::OpenScene;
use crate::texts::copy_bytes;
use crate::value::{kind_of, shape_number};
use crate::{BAD, DONE};

/// The text that bytes are, if they are one.
pub(crate) fn text_in(bytes: &[u8]) -> Option<&str>
    ensures { option_map (λ text. text.now) result ≡ text_of bytes.now }
{
    match str::from_utf8(bytes) {
        Ok(text) => Some(text),
        Err(_) => None,
    }
}

impl OpenScene {
    /// Tells the shape and the name of a kind, by its number.
    pub(crate) fn kind(
        &self,
        kind: u32,
        shape: &mut u32,
        from: usize,
        at: &mut [u8],
        total: &mut usize,
    ) -> u32
        ensures { TellsKind (option_and_then (slice_get (kinds_now self.now)) (kind_of kind))
            shape.old shape.new from at.old at.new total.old total.new result }
    {
        let Some(kind) = kind_of(kind) else {
            return BAD;
        };
        let schema = self.interpreter.schema();
        let (Some(name), Some(kept)) = (schema.name_of(kind), schema.shape_of(kind)) else {
            return BAD;
        };
        *shape = shape_number(kept);
        *total = name.len();
        copy_bytes(name.as_bytes(), from, at);
        DONE
    }

    /// Tells the number of a kind, by its name.
    pub(crate) fn kind_named(&self, name: &[u8], out: &mut u32) -> u32
        ensures { TellsNumber (kind_named (kinds_now self.now) name.now) out.old out.new result }
    {
        let Some(name) = text_in(name) else {
            return BAD;
        };
        match self.interpreter.schema().number_of(name) {
            Some(kind) => {
                *out = u32::from(kind);
                DONE
            }
            None => BAD,
        }
    }
}
