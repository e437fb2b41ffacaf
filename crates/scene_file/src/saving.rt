//! Saving a world: its text, and the writing of it.
ghost use Rattle.std.specs.Prelude.{◌≡◌, ◌≢◌, Some, Ok, IfOk, IfErr, OnOk, string_bytes};
ghost use Rattle.scene_streams.specs.Written.{IsWritten};
ghost use Rattle.scene_json_forms.specs.declared.fault.FileFault.TheVariants.{WriteFault};
ghost use Rattle.scene_json_forms.specs.Outcome.{IsFault};
ghost use Rattle.scene_file.specs.Saving.{save_of};
ghost use Rattle.scene_file.specs.Scene.{loaded};
ghost use Rattle.scene_file.specs.Text.{saved};

use crate::write_world::write_world;
use scene_json_forms::FileFault;
use scene_streams::{MOST_BYTES, Sink};
use scene_world::World;
use std::alloc::{AllocError, Global};
use std::io::Write;

/// The text of a world and a newline, however long they are.
fn whole_text(alloc: Global, world: &World) -> Result<String, AllocError>
    ensures { IfOk result (λ text. string_bytes text ≡ saved world.now.world) }
{
    let mut text = String::new(alloc);
    write_world(alloc, &mut text, world)?;
    text.push_str("\n")?;
    Ok(text)
}

/// The text of a world and a newline, unless they are too long.
fn short_text(alloc: Global, world: &World) -> Result<String, FileFault>
    ensures text { IfOk result (λ s. save_of world.now.world ≡ Ok (string_bytes s)) }
    ensures fault { IfErr result (λ e. IsFault e (save_of world.now.world)) }
{
    let text = whole_text(alloc, world)?;
    if text.len() > MOST_BYTES {
        return Err(FileFault::TooLong);
    }
    Ok(text)
}

/// The text of a world as a save writes it, with its newline (docs/SCENE_FILES.md, "Writing"). Loading it gives just
/// this world, so equal texts come from equal worlds.
///
/// Refused: `TooLong` where text and newline are more than `MOST_BYTES` bytes, which no load reads; or `NoMemory`. It
/// costs a walk over the world, with a look for each kind set, parent and resource, and the memory of the text alone.
pub fn save_text(alloc: Global, world: &World) -> Result<String, FileFault>
    ensures text { IfOk result (λ s. save_of world.now.world ≡ Ok (string_bytes s)) }
    ensures loads { IfOk result (λ s. loaded (string_bytes s) ≡ Ok world.now.world) }
    ensures fault { IfErr result (λ e. IsFault e (save_of world.now.world)) }
{
    let _tick = world.tick();
    short_text(alloc, world)
}

/// Writes the text of a world, with its newline, to a sink (docs/SCENE_FILES.md, "Writing"). Loading what was written
/// gives just this world.
///
/// Refused, in this order: `TooLong` or `NoMemory` as by `save_text`, and then nothing was written; `WriteFault` where
/// a call of the writer fails or takes no byte, or did so before, and then a prefix of the text was written. It costs
/// what `save_text` costs, and a call of the writer for each part that it takes.
pub fn save<W: Write>(alloc: Global, sink: &mut Sink<W>, world: &World) -> Result<(), FileFault>
    ensures written { IsWritten saved (Some world.now.world) W.contents sink.old sink.new result WriteFault }
    ensures loads { OnOk result (loaded (saved world.now.world) ≡ Ok world.now.world) }
    ensures within { OnOk result (save_of world.now.world ≡ Ok (saved world.now.world)) }
    ensures fault { IfErr result (λ f. f ≢ WriteFault → IsFault f (save_of world.now.world)) }
    ensures first { IfErr result (λ f. f ≡ WriteFault → save_of world.now.world ≡ Ok (saved world.now.world)) }
{
    let _tick = world.tick();
    let text = short_text(alloc, world)?;
    sink.write_all(text.as_bytes())?;
    Ok(())
}
