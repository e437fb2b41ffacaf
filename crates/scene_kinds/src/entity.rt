//! Entities and their text.
ghost use Rattle.std.specs.Prelude.{◌≡◌, Some};
ghost use Rattle.std.specs.Result.{result_ok};
ghost use Rattle.scene_kinds.specs.EntityReading.{entity_in};

use crate::number::read_count;
use crate::text_cut::cut;
use std::error::Error;
use std::fmt;
use std::str::FromStr;

/// The identity of an entity: an index, and a generation that tells the entities apart that had the
/// index one after another (docs/MODEL.md, "The rule of entity texts").
///
/// The first generation of an index is 1; generation 0 has a text too, and names no live entity.
#[derive(Clone, Copy, Debug, PartialEq, Eq)]
pub struct Entity {
    pub index: u32,
    pub generation: u32,
}

impl Entity {
    ghost use Rattle.scene_kinds.specs.Entity.{SaysEntity, entity_text};

    /// The entity whose text these bytes are: `INDEXvGENERATION`, both in decimal without leading zeros.
    ///
    /// `None` only where the bytes are no entity text. Reading back what `Display` wrote gives the entity.
    pub fn parse(bytes: &[u8]) -> Option<Entity>
        ensures { SaysEntity bytes.now result }
    {
        let text = str::from_utf8(bytes).ok()?;
        read_entity(text)
    }
}

/// The entity whose text this is (docs/MODEL.md, "The rule of entity texts"). `None` only where the text is
/// no entity's.
pub fn read_entity(text: &str) -> Option<Entity>
    ensures { result ≡ entity_in text.now }
{
    let (index, generation) = cut(text, 'v')?;
    Some(Entity {
        index: read_count(index)?,
        generation: read_count(generation)?,
    })
}

/// A text that is no entity's.
#[derive(Clone, Copy, Debug, PartialEq, Eq)]
pub struct ParseEntityError;

impl fmt::Display for ParseEntityError {
    fn fmt<W: fmt::Write>(&self, f: &mut fmt::Formatter<W>) -> fmt::Result {
        write!(f, "no entity text, as 3v1")
    }
}

impl Error for ParseEntityError {}

/// Reads an entity's text, as `Entity::parse`.
impl FromStr for Entity {
    type Err = ParseEntityError;

    ghost use Rattle.scene_kinds.specs.Entity.{SaysEntity};

    ghost from_str_gives = { λ text r. SaysEntity text (result_ok r) };

    fn from_str(text: &str) -> Result<Entity, ParseEntityError> {
        read_entity(text).ok_or(ParseEntityError)
    }
}

impl fmt::Display for Entity {
    ghost use Rattle.scene_kinds.specs.Entity.{entity_text};

    ghost output = { λ e. Some (entity_text e.index e.generation) };

    fn fmt<W: fmt::Write>(&self, f: &mut fmt::Formatter<W>) -> fmt::Result {
        write!(f, "{}v{}", self.index, self.generation)
    }
}
