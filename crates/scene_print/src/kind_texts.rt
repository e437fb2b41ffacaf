//! The texts with which the cells of rows begin, which are made once for each kind.
ghost use Rattle.std.specs.Prelude.{◌≡◌, IfOk, OnOk};
ghost use Rattle.scene_json.specs.Texts.{Adds};
ghost use Rattle.scene_print.specs.KindTexts.{IsTextOf, start_text};

use scene_kinds::{Schema, Value};
use std::alloc::{AllocError, Global};
use std::marker::Model;

/// For so many entities a kind, texts save more than they cost.
const ENTITIES_A_KIND: usize = 32;

/// The texts with which the cells of one kind begin: ` NAME` where the value is a tag, else ` NAME=`.
#[derive(Drop)]
pub(crate) struct KindText {
    bare: String,
    assigned: String,
}

impl KindText {
    /// The texts of a kind.
    fn new(alloc: Global, schema: &Schema, kind: u8) -> Result<KindText, AllocError>
        ensures { IfOk result (λ text. IsTextOf schema.now kind text) }
    {
        let name = schema.name_of(kind).unwrap_or("");
        let mut bare = String::with_capacity(alloc, name.len() + 1)?;
        bare.push(' ')?;
        bare.push_str(name)?;
        let mut assigned = String::with_capacity(alloc, name.len() + 2)?;
        assigned.push_str(bare.as_str())?;
        assigned.push('=')?;
        Ok(KindText { bare, assigned })
    }
}

/// A schema, and of each of its kinds the texts with which its cells begin; or, for few cells, the schema alone.
/// Contracts see the schema.
#[derive(Drop)]
pub(crate) struct KindTexts<'s> {
    schema: &'s Schema,
    /// Those of each kind at the place of its number; or none.
    texts: Vec<KindText>,
}

impl<'s> Model for KindTexts<'s> {
    ghost use Rattle.scene_kinds.specs.Schema.{Kinds};
    ghost use Rattle.scene_print.specs.KindTexts.{AreTextsOf};

    ghost Value = { Kinds };

    ghost view = { λ k. k.schema.now };

    ghost invariant = { λ k. AreTextsOf k.schema.now k.texts.items };
}

impl<'s> KindTexts<'s> {
    /// A schema without texts. It takes no memory.
    pub(crate) fn none(alloc: Global, schema: &'s Schema) -> KindTexts<'s>
        ensures { result ≡ schema.now }
    {
        KindTexts {
            schema,
            texts: Vec::new(alloc),
        }
    }

    /// A schema with the texts of all its kinds. It costs a walk over them. An error only where no memory was found.
    fn all(alloc: Global, schema: &'s Schema) -> Result<KindTexts<'s>, AllocError>
        ensures { IfOk result (λ all. all ≡ schema.now) }
    {
        let count = schema.len();
        let mut texts = Vec::with_capacity(alloc, count)?;
        'kinds: for kind in 0..count as u8 {
            texts.push(KindText::new(alloc, schema, kind)?)?;
        }
        Ok(KindTexts { schema, texts })
    }

    /// A schema for a walk over so many entities: with texts where these are enough that it pays.
    pub(crate) fn for_entities(
        alloc: Global,
        schema: &'s Schema,
        count: usize,
    ) -> Result<KindTexts<'s>, AllocError>
        ensures { IfOk result (λ kinds. kinds ≡ schema.now) }
    {
        if count / ENTITIES_A_KIND < schema.len() {
            return Ok(KindTexts::none(alloc, schema));
        }
        KindTexts::all(alloc, schema)
    }

    /// The schema.
    pub(crate) fn schema(&self) -> &'s Schema
        ensures { result.now ≡ self.now }
    {
        self.schema
    }

    /// Adds what a cell of a kind begins with where it has this value: ` NAME`, and `=` unless that is a tag. It is one
    /// push where the kind has texts.
    pub(crate) fn write_start(
        &self,
        out: &mut String,
        kind: u8,
        value: &Value,
    ) -> Result<(), AllocError>
        ensures { OnOk result (Adds out.old out.new (start_text self.now kind value.now)) }
    {
        let Some(text) = self.texts.get(kind as usize) else {
            return self.write_name(out, kind, value);
        };
        match value {
            Value::Tag => out.push_str(text.bare.as_str()),
            _ => out.push_str(text.assigned.as_str()),
        }
    }

    /// `write_start`, by the name that the schema has.
    fn write_name(&self, out: &mut String, kind: u8, value: &Value) -> Result<(), AllocError>
        ensures { OnOk result (Adds out.old out.new (start_text self.now kind value.now)) }
    {
        out.push(' ')?;
        out.push_str(self.schema.name_of(kind).unwrap_or(""))?;
        match value {
            Value::Tag => Ok(()),
            _ => out.push_str("="),
        }
    }
}
