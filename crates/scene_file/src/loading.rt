//! Loading a world from a scene text.
ghost use Rattle.std.specs.Prelude.{◌≡◌, ◌≢◌, Some, Ok, IfOk, IfErr, IfSome};
ghost use Rattle.serde_json.specs.Read.{read};
ghost use Rattle.scene_json.specs.View.{whole};
ghost use Rattle.scene_streams.specs.Read.{IsRead};
ghost use Rattle.scene_streams.specs.Source.{reader_of};
ghost use Rattle.scene_validate.specs.Rules.{first_broken};
ghost use Rattle.scene_validate.specs.Seen.{seen};
ghost use Rattle.scene_json_forms.specs.Outcome.{IsFault, IsTextFault, ReadsAs};
ghost use Rattle.scene_file.specs.Scene.{if_unbroken, json_in, loaded};
ghost use Rattle.scene_file.specs.Text.{world_text};
ghost use Rattle.scene_json_forms.specs.declared.fault.FileFault.TheVariants.{ReadFault, TooLong, WriteFault};

use crate::read_scene::parts_in;
use json::Scratch;
use scene_json::{Document, DocumentError};
use scene_json_forms::FileFault;
use scene_kinds::Fault;
use scene_streams::Source;
use scene_validate::WorldParts;
use scene_world::World;
use std::alloc::Global;
use std::io::Read;

/// The document of a text.
#[tactic(auto, using(crate::proofs::TextFaults::loading))]
pub(crate) fn document_of<'a>(
    alloc: Global,
    text: &'a [u8],
    scratch: &'a mut Scratch,
) -> Result<Document<'a>, FileFault>
    ensures { ReadsAs whole result (json_in text.now) }
{
    match Document::read(alloc, text, scratch) {
        Ok(document) => Ok(document),
        Err(DocumentError::NotJson) => Err(FileFault::NotJson),
        Err(DocumentError::TooLong | DocumentError::NoMemory) => Err(FileFault::NoMemory),
    }
}

/// The parts of a text. What is read of the text besides is given back with them, since it takes more memory than a
/// world.
#[tactic(auto, using(scene_json_forms::proofs::Walking::walking, crate::proofs::TextFaults::loading))]
fn parts_of_text(alloc: Global, text: &[u8]) -> Result<WorldParts, FileFault>
    ensures found { IfOk result (λ parts. loaded text.now ≡ if_unbroken (first_broken (seen parts)) (seen parts)) }
    ensures fault { IfErr result (λ e. IsTextFault e (loaded text.now)) }
{
    let mut scratch = Scratch::new(alloc);
    let document = document_of(alloc, text, &mut scratch)?;
    parts_in(alloc, &document.root())
}

/// The world of parts, unless they break a rule.
#[tactic(auto, using(crate::proofs::TextFaults::loading))]
pub(crate) fn world_of(alloc: Global, parts: WorldParts) -> Result<World, FileFault>
    ensures { ReadsAs (λ world. world.world) result (if_unbroken (first_broken (seen parts)) (seen parts)) }
{
    match World::from_parts(alloc, parts) {
        Ok(world) => Ok(world),
        Err(refusal) => match refusal.fault {
            Fault::BadWorld(rule) => Err(FileFault::BadWorld(rule)),
            _ => Err(FileFault::NoMemory),
        },
    }
}

/// The world of a text.
#[tactic(auto, using(scene_json_forms::proofs::Walking::walking, crate::proofs::TextFaults::loading))]
fn world_in(alloc: Global, text: &[u8]) -> Result<World, FileFault>
    ensures { ReadsAs (λ world. world.world) result (loaded text.now) }
{
    let parts = parts_of_text(alloc, text)?;
    world_of(alloc, parts)
}

/// The world that a scene text of version 1 says (docs/SCENE_FILES.md, "Reading"). Where there is one, the text is its
/// text: the text's JSON value is the world's own.
///
/// Refused, in this order: `NotJson`; `BadField` and `BadVersion` of the head; `UnknownKey` and `BadField`, the first
/// that the walk through the text meets, with its path; `BadWorld` with the first rule that is broken. `NoMemory` may
/// stand in place of any answer, and does where the text has more than 4,294,967,040 bytes. It costs the text's length,
/// and for the kind sets of tables and the names of resources their number times its logarithm. No tree of values is
/// made: while it lasts it takes a byte for each byte of the text, up to 48 for each value and each key, and what the
/// parts take.
#[tactic(auto, using(crate::proofs::TextFaults::loading, crate::proofs::OnlyTexts::texts))]
pub fn load_text(alloc: Global, text: &[u8]) -> Result<World, FileFault>
    ensures world { IfOk result (λ world. loaded text.now ≡ Ok world.world) }
    ensures value { IfOk result (λ world. read text.now ≡ Some (world_text world.world)) }
    ensures fault { IfErr result (λ e. IsFault e (loaded text.now)) }
    ensures stream { IfErr result (λ e. (e ≢ ReadFault) × (e ≢ WriteFault) × (e ≢ TooLong)) }
{
    world_in(alloc, text)
}

/// The world that a reader's text says: `load_text` of all its bytes (docs/SCENE_FILES.md, "Reading").
///
/// Refused: `ReadFault` exactly where the source has failed, now or before, and where it hadn't then in a call of its
/// reader; `TooLong` where there are more than 67,108,864 bytes, or the end doesn't come in the turns of the source;
/// and then as `load_text` refuses.
#[tactic(auto, using(crate::proofs::TextFaults::loading, crate::proofs::OnlyTexts::texts))]
pub fn load<R: Read>(alloc: Global, source: &mut Source<R>) -> Result<World, FileFault>
    ensures world { IfOk result (λ world. IfSome (R.remaining (reader_of source.old)) (λ text. loaded text ≡ Ok world.world)) }
    ensures value { IfOk result (λ world. IfSome (R.remaining (reader_of source.old)) (λ text. read text ≡ Some (world_text world.world))) }
    ensures fault { IfErr result (λ e. e ≢ ReadFault → e ≢ TooLong
        → IfSome (R.remaining (reader_of source.old)) (λ text. IsFault e (loaded text))) }
    ensures read { IsRead R.remaining source.old source.new result ReadFault TooLong }
{
    let text = source.read_all(alloc)?;
    load_text(alloc, text.as_slice())
}
