//! A text that was read.
ghost use Rattle.std.specs.Prelude.{◌≡◌, ◌≢◌, ◌<◌, length, Some, None, Err, IfOk, IsUtf8};
ghost use Rattle.json.specs.Json.{value};
ghost use Rattle.serde_json.specs.Read.{converted, of_json, read};

use crate::filling::{nodes_of, read_value};
use crate::node::Node;
use crate::part::Part;
use json::{MAX_LEN, Reader, Scratch};
use std::alloc::Global;
use thiserror::Error;

/// Why a text isn't read.
#[derive(Clone, Copy, Debug, PartialEq, Drop, Error)]
pub enum DocumentError {
    /// The text isn't JSON, or is none that `serde_json` takes.
    #[error("the text isn't JSON")]
    NotJson,
    /// The text is longer than 4,294,967,040 bytes.
    #[error("the text is too long")]
    TooLong,
    /// A growth of memory was refused.
    #[error("memory ran out")]
    NoMemory,
}

/// A JSON text that was read whole. Its strings stand in the text, those with an escape in the scratch.
#[derive(Drop)]
pub struct Document<'a> {
    nodes: Vec<Node<'a>>,
}

impl<'a> Document<'a> {
    ghost use Rattle.scene_json.specs.View.{view, whole};

    /// Reads a text: what `serde_json` reads of it as a `Value`.
    ///
    /// Refused: `NotJson` where the bytes aren't UTF-8, or aren't JSON, or where arrays and objects nest deeper than
    /// 127 levels, or a number is beyond the finite floats; `TooLong` only where there are more than 4,294,967,040
    /// bytes; `NoMemory`, which may stand in place of any answer. It costs the text's length, in time and memory: a byte
    /// of the scratch for each byte of the text, and up to 48 bytes for each value and each key.
    pub fn read(
        alloc: Global,
        text: &'a [u8],
        scratch: &'a mut Scratch,
    ) -> Result<Document<'a>, DocumentError>
        ensures found { IfOk result (λ document. IsUtf8 text.now × (read text.now ≡ Some (whole document))) }
        ensures refused { result ≡ Err DocumentError.NotJson → IsUtf8 text.now → read text.now ≡ None }
        ensures long { result ≡ Err DocumentError.TooLong → MAX_LEN < length text.now }
    {
        let Ok(text) = str::from_utf8(text) else {
            return Err(DocumentError::NotJson);
        };
        if text.len() > MAX_LEN {
            return Err(DocumentError::TooLong);
        }
        let nodes = nodes_of(alloc, text, scratch)?;
        Ok(Document { nodes })
    }

    /// Takes the next value of a reader, in which arrays and objects may nest so deep: what `serde_json` reads of it.
    ///
    /// Refused: `NotJson` where no such value stands there, as by `read`; or `NoMemory`. Then of the reader's tokens some
    /// were taken. It costs what `read` of the value's text costs.
    pub fn read_next(
        alloc: Global,
        reader: &mut Reader<'a>,
        depth: usize,
    ) -> Result<Document<'a>, DocumentError>
        ensures found { IfOk result (λ document. converted of_json (value depth reader.old) ≡ Some (whole document, reader.new)) }
        ensures refused { result ≡ Err DocumentError.NotJson → converted of_json (value depth reader.old) ≡ None }
        ensures long { result ≢ Err DocumentError.TooLong }
    {
        let mut nodes = Vec::new(alloc);
        read_value(reader, &mut nodes, depth)?;
        Ok(Document { nodes })
    }

    /// The whole value.
    pub fn root(&self) -> Part<'_, 'a>
        ensures { view result ≡ whole self.now }
    {
        Part::new(self.nodes.as_slice(), 0)
    }
}
