//! A request, by its bytes.
ghost use Rattle.std.specs.Prelude.{◌≡◌, []};
ghost use Rattle.scene_json.specs.View.{whole};
ghost use Rattle.scene_requests.specs.Reading.{Reads};
ghost use Rattle.scene_requests.specs.Questions.{request_at};
ghost use Rattle.scene_requests.specs.Request.{if_walked, is_request, request_in, said_by};

use crate::bad_request::{BadRequest, RequestError, error_of};
use crate::question::{Question, Way};
use crate::read_requests::request_at;
use json::Scratch;
use scene_json::{Document, DocumentError};
use scene_json_forms::Path;
use scene_kinds::{Schema, Shape, Text};
use scene_script::Line;
use std::alloc::Global;

/// How many bytes a request has at most.
const MOST_BYTES: usize = 67_108_864;

/// What a request asks for (docs/SHELL.md, "Requests").
#[derive(Debug, Drop)]
pub enum Request {
    /// What a line of a script says.
    Line(Line),
    /// What no line asks.
    Ask(Question),
    /// So many frames are to be undone, back, or redone, forth: all of them or none.
    Turn(Way, u32),
    /// The open frame is to be dropped, with its commands.
    DropFrame,
    /// A kind is to be declared, in the setup or behind it.
    Declare(Text, Shape),
}

/// Whether a line is a request: it begins with `{` (docs/SHELL.md, "Requests").
pub fn is_request(bytes: &[u8]) -> bool
    ensures { result ≡ is_request bytes.now }
{
    match bytes {
        [] => false,
        [first, ..] => *first == b'{',
    }
}

/// What a document says.
#[tactic(auto, using(crate::proofs::Walked::walk_fails, crate::proofs::Walked::walk_ends))]
fn request_of_document(
    alloc: Global,
    schema: &Schema,
    document: &Document<'_>,
) -> Result<Request, RequestError>
    ensures { Reads result (if_walked (request_at schema.now [] (whole document.now))) }
{
    match request_at(alloc, schema, &Path::Root, &document.root()) {
        Ok(request) => Ok(request),
        Err(fault) => Err(error_of(fault)),
    }
}

/// What a text of not too many bytes says.
#[tactic(auto, using(crate::proofs::Walked::requests))]
fn said_by(alloc: Global, schema: &Schema, bytes: &[u8]) -> Result<Request, RequestError>
    ensures { Reads result (said_by schema.now bytes.now) }
{
    let mut scratch = Scratch::new(alloc);
    match Document::read(alloc, bytes, &mut scratch) {
        Ok(document) => request_of_document(alloc, schema, &document),
        Err(DocumentError::NotJson) => Err(RequestError::Bad(BadRequest::NotJson)),
        Err(DocumentError::TooLong | DocumentError::NoMemory) => Err(RequestError::NoMemory),
    }
}

/// What a request asks for, where these kinds are declared (docs/SHELL.md, "Requests"). The texts in it are any JSON
/// strings.
///
/// Refused with `Bad`, in this order: `TooLong`; `NotJson`; a `BadField` with an empty path where the text is no object,
/// and at `do`; the unknown keys of the request, by bytes; and then the first of its own keys, by bytes, that is missing
/// or whose value isn't of its form, with the path of the part that isn't. `NoMemory` may stand in place of any answer.
/// It costs the text's length, and in `cells` a look for each kind.
#[tactic(auto, using(crate::proofs::Walked::requests))]
pub fn read_request(alloc: Global, schema: &Schema, bytes: &[u8]) -> Result<Request, RequestError>
    ensures { Reads result (request_in schema.now bytes.now) }
{
    if bytes.len() > MOST_BYTES {
        return Err(RequestError::Bad(BadRequest::TooLong));
    }
    said_by(alloc, schema, bytes)
}
