//! The commands over a scene text: one says whether it is good, one prints its world.
ghost use Rattle.std.specs.Prelude.{◌≡◌, Ok, string_bytes, OnOk, IfOk, IfErr, IfSome};
ghost use Rattle.scene_json.specs.Texts.{Adds};
ghost use Rattle.scene_streams.specs.Read.{IsRead};
ghost use Rattle.scene_streams.specs.Source.{reader_of};
ghost use Rattle.scene_streams.specs.Written.{IsWritten};
ghost use Rattle.scene_file.specs.Scene.{loaded};
ghost use Rattle.scene_app.specs.Checked.{good_text, check_output, print_output, is_scene};
ghost use Rattle.scene_streams.specs.declared.app_fault.AppFault.TheVariants.{NoMemory, ReadFault, WriteFault, TooLong};

use scene_file::load_editor_text;
use scene_interpreter::answer_file_fault;
use scene_pass::{Filter, matching};
use scene_print::write_show;
use scene_streams::{AppFault, Sink, Source};
use scene_undo::MOST_FRAMES;
use scene_world::World;
use std::alloc::{AllocError, Global};
use std::io::{Read, Write};

/// Adds what a check says of a scene that it accepts.
fn write_good(alloc: Global, out: &mut String, world: &World) -> Result<(), AllocError>
    ensures { OnOk result (Adds out.old out.new (good_text world.now.world)) }
{
    let live = matching(alloc, world, Filter::all())?;
    write!(out, "good {} {}\n", world.tick(), live.len())?;
    Ok(())
}

/// Adds what `scene check` prints for a text, and gives whether it is a scene.
#[tactic(auto, using(scene_interpreter::proofs::FileFaultLaws::is_wanted))]
fn write_checked(alloc: Global, out: &mut String, text: &[u8]) -> Result<bool, AllocError>
    ensures text { OnOk result (Adds out.old out.new (check_output text.now)) }
    ensures accepted { IfOk result (λ good. good ≡ is_scene text.now) }
{
    match load_editor_text(alloc, text, MOST_FRAMES) {
        Ok(editor) => write_good(alloc, out, editor.world()).and(Ok(true)),
        Err(fault) => answer_file_fault(alloc, out, fault).and(Ok(false)),
    }
}

/// What `scene check` prints for a text, and whether it is a scene.
fn checked(alloc: Global, text: &[u8]) -> Result<(String, bool), AppFault>
    ensures printed { IfOk result (λ p. string_bytes p.0 ≡ check_output text.now) }
    ensures accepted { IfOk result (λ p. p.1 ≡ is_scene text.now) }
    ensures memory { IfErr result (λ f. f ≡ NoMemory) }
{
    let mut out = String::new(alloc);
    let accepted = write_checked(alloc, &mut out, text)?;
    Ok((out, accepted))
}

/// Adds what `scene print` prints for a text, and gives whether it is a scene.
#[tactic(auto, using(scene_interpreter::proofs::FileFaultLaws::is_wanted))]
fn write_printed(alloc: Global, out: &mut String, text: &[u8]) -> Result<bool, AllocError>
    ensures text { OnOk result (Adds out.old out.new (print_output text.now)) }
    ensures accepted { IfOk result (λ good. good ≡ is_scene text.now) }
{
    match load_editor_text(alloc, text, MOST_FRAMES) {
        Ok(editor) => write_show(alloc, out, editor.world()).and(Ok(true)),
        Err(fault) => answer_file_fault(alloc, out, fault).and(Ok(false)),
    }
}

/// What `scene print` prints for a text, and whether it is a scene.
fn printed(alloc: Global, text: &[u8]) -> Result<(String, bool), AppFault>
    ensures printed { IfOk result (λ p. string_bytes p.0 ≡ print_output text.now) }
    ensures accepted { IfOk result (λ p. p.1 ≡ is_scene text.now) }
    ensures memory { IfErr result (λ f. f ≡ NoMemory) }
{
    let mut out = String::new(alloc);
    let accepted = write_printed(alloc, &mut out, text)?;
    Ok((out, accepted))
}

/// Reads a scene text to its end, and writes `good TICK LIVE`, LIVE being the number of live entities, where it is a
/// scene, or else the line of its first fault (docs/SCRIPTS.md, "Scene texts"). It answers whether it is a scene.
///
/// Refused, and then nothing is written: `ReadFault` exactly where the source has failed, now or before, and where it
/// hadn't then in a call of its reader; `TooLong` where the text is longer than 67,108,864 bytes or its end doesn't
/// come in the turns of the source; `NoMemory`. `WriteFault` where the sink has failed, now or before; then a prefix of
/// the line is written. It costs what the load of the text costs.
#[tactic(auto, using(scene_streams::proofs::Writes::none_written))]
pub fn check_scene<R: Read, W: Write>(
    alloc: Global,
    source: &mut Source<R>,
    sink: &mut Sink<W>,
) -> Result<bool, AppFault>
    ensures accepted { IfOk result (λ good. IfSome (R.remaining (reader_of source.old)) (λ text. good ≡ is_scene text)) }
    ensures read { IsRead R.remaining source.old source.new result ReadFault TooLong }
    ensures written { IsWritten check_output (R.remaining (reader_of source.old)) W.contents sink.old sink.new result WriteFault }
{
    let text = source.read_all(alloc)?;
    let (out, accepted) = checked(alloc, text.as_slice())?;
    sink.write_all(out.as_bytes())?;
    Ok(accepted)
}

/// Reads a scene text to its end, and writes its world as `show` does where it is a scene, or else the line of its
/// first fault (docs/SCRIPTS.md, "Scene texts"). It answers whether it is a scene.
///
/// Refused as `check_scene` is, where `WriteFault` leaves a prefix of the lines. It costs what the load of the text and
/// `show` cost.
#[tactic(auto, using(scene_streams::proofs::Writes::none_written))]
pub fn print_scene<R: Read, W: Write>(
    alloc: Global,
    source: &mut Source<R>,
    sink: &mut Sink<W>,
) -> Result<bool, AppFault>
    ensures accepted { IfOk result (λ good. IfSome (R.remaining (reader_of source.old)) (λ text. good ≡ is_scene text)) }
    ensures read { IsRead R.remaining source.old source.new result ReadFault TooLong }
    ensures written { IsWritten print_output (R.remaining (reader_of source.old)) W.contents sink.old sink.new result WriteFault }
{
    let text = source.read_all(alloc)?;
    let (out, accepted) = printed(alloc, text.as_slice())?;
    sink.write_all(out.as_bytes())?;
    Ok(accepted)
}
