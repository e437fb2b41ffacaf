//! Loading an editor from a scene text.
ghost use Rattle.std.specs.Prelude.{◌≡◌, ◌≢◌, Ok, IfOk, IfErr, IfSome};
ghost use Rattle.scene_streams.specs.Read.{IsRead};
ghost use Rattle.scene_streams.specs.Source.{reader_of};
ghost use Rattle.scene_json_forms.specs.Outcome.{IsFault, Reads, ReadsAs};
ghost use Rattle.scene_json_forms.specs.declared.fault.FileFault.TheVariants.{ReadFault, TooLong, WriteFault};
ghost use Rattle.scene_file.specs.EditorLaws.{IsTextOf};
ghost use Rattle.scene_file.specs.EditorScene.{editor_saved_as, loaded_editor, said_in, with_records};
ghost use Rattle.scene_file.specs.SeenEditor.{saved_seen};

use crate::loading::{document_of, world_of};
use crate::read_editor::{SavedParts, saved_in};
use crate::usual_scene::usual_saved;
use json::Scratch;
use scene_journal::FrameRecord;
use scene_json_forms::FileFault;
use scene_kinds::Fault;
use scene_streams::Source;
use scene_undo::Editor;
use scene_world::World;
use std::alloc::Global;
use std::io::Read;

/// The parts and the records of a text, mostly a usual one. What is read of another one besides is given back with them,
/// since it takes more memory than an editor.
#[tactic(auto, using(scene_json_forms::proofs::Walking::walking))]
fn saved_of_text(alloc: Global, text: &[u8]) -> Result<SavedParts, FileFault>
    ensures { ReadsAs saved_seen result (said_in text.now) }
{
    if let Some(saved) = usual_saved(alloc, text) {
        return Ok(saved);
    }
    let mut scratch = Scratch::new(alloc);
    let document = document_of(alloc, text, &mut scratch)?;
    saved_in(alloc, &document.root())
}

/// The editor of a world and its records, all of which are tried before the depth drops any.
#[tactic(auto, using(crate::proofs::RecordFaults::records))]
fn with_records(
    alloc: Global,
    world: World,
    past: Vec<FrameRecord>,
    future: Vec<FrameRecord>,
    depth: u32,
) -> Result<Editor, FileFault>
    ensures { Reads result (with_records depth past.items future.items world.world) }
{
    match Editor::from_parts(alloc, world, past, future, depth) {
        Ok(editor) => Ok(editor),
        Err(refusal) => match refusal.fault {
            Fault::BadRecord { frame, delta } => Err(FileFault::BadRecord { frame, delta }),
            _ => Err(FileFault::NoMemory),
        },
    }
}

/// The editor of parts and records: first comes the world.
#[tactic(auto, using(scene_json_forms::proofs::Walking::walking))]
fn editor_of(alloc: Global, saved: SavedParts, depth: u32) -> Result<Editor, FileFault>
    ensures { Reads result (editor_saved_as depth (saved_seen saved)) }
{
    let SavedParts {
        parts,
        past,
        future,
    } = saved;
    let world = world_of(alloc, parts)?;
    with_records(alloc, world, past, future, depth)
}

/// The editor of a text.
#[tactic(auto, using(scene_json_forms::proofs::Walking::walking, crate::proofs::RecordFaults::texts))]
fn editor_in(alloc: Global, text: &[u8], depth: u32) -> Result<Editor, FileFault>
    ensures { Reads result (loaded_editor depth text.now) }
{
    let saved = saved_of_text(alloc, text)?;
    editor_of(alloc, saved, depth)
}

/// The editor that a scene text of version 1 or 2 says, which keeps the newest `depth` records of its past
/// (docs/SCENE_FILES.md, "Reading"). A text of version 1 has no records. No undos were made so far.
///
/// Refused, in this order: `NotJson`; `BadField` and `BadVersion` of the head; `UnknownKey` and `BadField`, the first
/// that the walk through the text meets, with its path; `BadWorld` with the first rule that is broken; `BadRecord` with
/// the first record that doesn't fit at its turn, and its fault, as `Editor::from_parts` names them: all are tried, and
/// then the depth drops the oldest. `NoMemory` may stand in place of any answer, and does where the text has more than
/// 4,294,967,040 bytes. It costs what `load_text` costs, and what `Editor::from_parts` does: twice what the records
/// changed, and one look at all cells, however many frames there are. What is read besides is given back before the
/// world is made. Of a text with its keys in byte order, as a save writes them, that is a byte for each byte of the text,
/// and a document of the records alone; of another one it is the document that `load_text` reads.
#[tactic(auto, using(crate::proofs::TextFaults::loading))]
pub fn load_editor_text(alloc: Global, text: &[u8], depth: u32) -> Result<Editor, FileFault>
    ensures editor { IfOk result (λ editor. loaded_editor depth text.now ≡ Ok editor) }
    ensures value { IfOk result (IsTextOf text.now) }
    ensures fault { IfErr result (λ e. IsFault e (loaded_editor depth text.now)) }
    ensures stream { IfErr result (λ e. (e ≢ ReadFault) × (e ≢ WriteFault) × (e ≢ TooLong)) }
{
    editor_in(alloc, text, depth)
}

/// The editor that a reader's text says: `load_editor_text` of all its bytes (docs/SCENE_FILES.md, "Reading").
///
/// Refused: `ReadFault` exactly where the source has failed, now or before, and where it hadn't then in a call of its
/// reader; `TooLong` where there are more than 67,108,864 bytes, or the end doesn't come in the turns of the source;
/// and then as `load_editor_text` refuses.
#[tactic(auto, using(crate::proofs::TextFaults::loading))]
pub fn load_editor<R: Read>(
    alloc: Global,
    source: &mut Source<R>,
    depth: u32,
) -> Result<Editor, FileFault>
    ensures editor { IfOk result (λ editor. IfSome (R.remaining (reader_of source.old)) (λ text. loaded_editor depth text ≡ Ok editor)) }
    ensures value { IfOk result (λ editor. IfSome (R.remaining (reader_of source.old)) (λ text. IsTextOf text editor)) }
    ensures fault { IfErr result (λ e. e ≢ ReadFault → e ≢ TooLong
        → IfSome (R.remaining (reader_of source.old)) (λ text. IsFault e (loaded_editor depth text))) }
    ensures read { IsRead R.remaining source.old source.new result ReadFault TooLong }
{
    let text = source.read_all(alloc)?;
    load_editor_text(alloc, text.as_slice(), depth)
}
