//! Saving an editor: its text, and the writing of it.
ghost use Rattle.std.specs.Prelude.{◌≡◌, ◌≢◌, ℕ, reverse, Some, Ok, IfOk, IfErr, OnOk, string_bytes};
ghost use Rattle.scene_streams.specs.Written.{IsWritten};
ghost use Rattle.scene_json_forms.specs.declared.fault.FileFault.TheVariants.{WriteFault};
ghost use Rattle.scene_json_forms.specs.Outcome.{IsFault};
ghost use Rattle.scene_file.specs.Saving.{save_editor_of, saved_editor};
ghost use Rattle.scene_file.specs.EditorScene.{loaded_again, loaded_editor};
ghost use Rattle.scene_file.specs.SavedLaws.{FitTogether};

use crate::write_editor::write_editor;
use scene_json_forms::FileFault;
use scene_streams::{MOST_BYTES, Sink};
use scene_undo::Editor;
use std::alloc::{AllocError, Global};
use std::io::Write;

/// What each editor keeps: a valid world, and records that fit at their turns.
fn records_fit(editor: &Editor)
    ensures { FitTogether editor.now.world (reverse editor.now.past) editor.now.future }
{
    let _tick = editor.world().tick();
    let _records = editor.records();
}

/// The text of an editor and a newline, however long they are.
fn whole_text(alloc: Global, editor: &Editor) -> Result<String, AllocError>
    ensures { IfOk result (λ text. string_bytes text ≡ saved_editor editor.now) }
{
    let mut text = String::new(alloc);
    write_editor(alloc, &mut text, editor)?;
    text.push_str("\n")?;
    Ok(text)
}

/// The text of an editor as a save writes it, with its newline: its world and its records, but neither its depth nor
/// how many undos there were (docs/SCENE_FILES.md, "Writing" and "Version 2"). Loading it at any depth gives just this
/// editor, with that depth, the newest of its past that the depth keeps, and no undos so far.
///
/// Refused: `TooLong` where text and newline are more than `MOST_BYTES` bytes, which no load reads; or `NoMemory`. It
/// costs a walk over the world, with a look for each kind set, parent and resource, a walk over the records, and the
/// memory of the text alone.
pub fn save_editor_text(alloc: Global, editor: &Editor) -> Result<String, FileFault>
    ensures text { IfOk result (λ s. save_editor_of editor.now.world (reverse editor.now.past) editor.now.future ≡ Ok (string_bytes s)) }
    ensures loads { IfOk result (λ s. (depth : ℕ) → loaded_editor depth (string_bytes s) ≡ Ok (loaded_again depth editor.now)) }
    ensures fault { IfErr result (λ e. IsFault e (save_editor_of editor.now.world (reverse editor.now.past) editor.now.future)) }
{
    records_fit(editor);
    let text = whole_text(alloc, editor)?;
    if text.len() > MOST_BYTES {
        return Err(FileFault::TooLong);
    }
    Ok(text)
}

/// Writes the text of an editor, with its newline, to a sink (docs/SCENE_FILES.md, "Writing"). Loading what was written
/// gives just this editor, as `save_editor_text` says.
///
/// Refused, in this order: `TooLong` or `NoMemory` as by `save_editor_text`, and then nothing was written; `WriteFault`
/// where a call of the writer fails or takes no byte, or did so before, and then a prefix of the text was written. It
/// costs what `save_editor_text` costs, and a call of the writer for each part that it takes.
#[tactic(auto, using(scene_streams::proofs::Writes::none_written))]
pub fn save_editor<W: Write>(
    alloc: Global,
    sink: &mut Sink<W>,
    editor: &Editor,
) -> Result<(), FileFault>
    ensures written { IsWritten saved_editor (Some editor.now) W.contents sink.old sink.new result WriteFault }
    ensures loads { OnOk result ((depth : ℕ) → loaded_editor depth (saved_editor editor.now) ≡ Ok (loaded_again depth editor.now)) }
    ensures within { OnOk result (save_editor_of editor.now.world (reverse editor.now.past) editor.now.future
        ≡ Ok (saved_editor editor.now)) }
    ensures fault { IfErr result (λ f. f ≢ WriteFault
        → IsFault f (save_editor_of editor.now.world (reverse editor.now.past) editor.now.future)) }
    ensures first { IfErr result (λ f. f ≡ WriteFault → save_editor_of editor.now.world (reverse editor.now.past) editor.now.future
        ≡ Ok (saved_editor editor.now)) }
{
    records_fit(editor);
    let text = save_editor_text(alloc, editor)?;
    sink.write_all(text.as_bytes())?;
    Ok(())
}
