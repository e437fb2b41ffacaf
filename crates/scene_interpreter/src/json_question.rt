//! What the lines of a script ask of the editor as JSON.
ghost use Rattle.std.specs.Prelude.{◌≡◌, ◌≢◌, ◌++◌, ◌∷◌, [], ℕ, List, OnOk, string_bytes};
ghost use Rattle.serde_json.specs.Data.{Data};
ghost use Rattle.serde_json.specs.Written.{compact_text};
ghost use Rattle.scene_json.specs.Texts.{Adds};
ghost use Rattle.scene_json_forms.specs.declared.fault.FileFault.TheVariants.{NoMemory};
ghost use Rattle.scene_session.specs.Whole.{whole_of};
ghost use Rattle.scene_print.specs.JsonTold.{file_fault_json};
ghost use Rattle.scene_interpreter.specs.JsonQuestion.{asked_json, dump_json, dumpall_json, get_json, scene_json};

use scene_file::{FileFault, save_editor_text, save_text};
use scene_kinds::{Entity, Fault, Refusal};
use scene_print::{write_json_fault, write_json_refused, write_json_row, write_json_world};
use scene_questions::write_json_answer;
use scene_requests::Question;
use scene_session::EditorQuery;
use scene_undo::Editor;
use scene_world::World;
use std::alloc::{AllocError, Global};

/// A text of the editor now, as a line of JSON.
#[derive(Clone, Copy)]
pub(crate) enum StateJson {
    /// The world.
    Show,
    /// The row of an entity.
    Get(Entity),
    /// The scene text of the world.
    Dump,
    /// The scene text of all that the editor keeps.
    DumpAll,
    /// What no line asks.
    Ask(Question),
}

/// Adds the row of an entity.
fn write_get(
    alloc: Global,
    out: &mut String,
    world: &World,
    entity: Entity,
) -> Result<(), AllocError>
    ensures { OnOk result (Adds out.old out.new (compact_text (get_json world.now.world entity))) }
{
    match world.row_of(entity) {
        None => write_json_refused(out, Refusal::from(Fault::NoSuchEntity)),
        Some((table, at)) => write_json_row(alloc, out, world.schema(), table, at),
    }
}

/// A text without its line break.
fn without_break(text: &str) -> &str
    requires { (t : List ℕ) × (text.now ≡ t ++ 10 ∷ []) }
    ensures { (t : List ℕ) → text.now ≡ t ++ 10 ∷ [] → result.now ≡ t }
{
    &text[..text.len() - 1]
}

/// Adds a scene text, which is given with its line break.
fn write_scene(out: &mut String, text: &str) -> Result<(), AllocError>
    requires { (d : Data) × (text.now ≡ compact_text d ++ 10 ∷ []) }
    ensures { OnOk result ((d : Data) → text.now ≡ compact_text d ++ 10 ∷ []
        → Adds out.old out.new (compact_text (scene_json d))) }
{
    out.push_str("{\"answer\":\"scene\",\"text\":")?;
    out.push_str(without_break(text))?;
    out.push_str("}")
}

/// Adds the fault of a save; want of memory is none.
fn write_fault(alloc: Global, out: &mut String, fault: FileFault) -> Result<(), AllocError>
    ensures text { OnOk result (Adds out.old out.new (compact_text (file_fault_json fault))) }
    ensures memory { OnOk result (fault ≢ NoMemory) }
{
    match fault {
        FileFault::NoMemory => Err(AllocError),
        _ => write_json_fault(alloc, out, &fault),
    }
}

/// Adds the scene text of a world.
#[tactic(auto, using(crate::proofs::FileFaultLaws::is_wanted))]
fn write_dump(alloc: Global, out: &mut String, world: &World) -> Result<(), AllocError>
    ensures { OnOk result (Adds out.old out.new (compact_text (dump_json world.now.world))) }
{
    match save_text(alloc, world) {
        Ok(text) => write_scene(out, text.as_str()),
        Err(fault) => write_fault(alloc, out, fault),
    }
}

/// Adds the scene text of all that an editor keeps.
#[tactic(auto, using(crate::proofs::FileFaultLaws::is_wanted))]
fn write_dumpall(alloc: Global, out: &mut String, editor: &Editor) -> Result<(), AllocError>
    ensures { OnOk result (Adds out.old out.new (compact_text (dumpall_json (whole_of editor.now)))) }
{
    match save_editor_text(alloc, editor) {
        Ok(text) => write_scene(out, text.as_str()),
        Err(fault) => write_fault(alloc, out, fault),
    }
}

/// Adds what is asked of an editor.
fn write_asked(
    alloc: Global,
    out: &mut String,
    editor: &Editor,
    asked: StateJson,
) -> Result<(), AllocError>
    ensures { OnOk result (Adds out.old out.new (compact_text (asked_json asked (whole_of editor.now)))) }
{
    match asked {
        StateJson::Show => write_json_world(alloc, out, editor.world()),
        StateJson::Get(entity) => write_get(alloc, out, editor.world(), entity),
        StateJson::Dump => write_dump(alloc, out, editor.world()),
        StateJson::DumpAll => write_dumpall(alloc, out, editor),
        StateJson::Ask(question) => write_json_answer(alloc, out, editor, question),
    }
}

impl EditorQuery for StateJson {
    type Found = Result<String, AllocError>;

    ghost use Rattle.std.specs.Prelude.{◌≡◌, IfOk, string_bytes};
    ghost use Rattle.scene_interpreter.specs.JsonAnswer.{json_line};
    ghost use Rattle.scene_interpreter.specs.JsonQuestion.{asked_json};

    ghost finds = { λ q w a. IfOk a (λ text. string_bytes text ≡ json_line (asked_json q w)) };

    fn find(&self, alloc: Global, editor: &Editor) -> Result<String, AllocError> {
        let mut text = String::new(alloc);
        write_asked(alloc, &mut text, editor, *self)?;
        text.push_str("\n")?;
        Ok(text)
    }
}
