//! The answer to one line of the setup.
ghost use Rattle.std.specs.Prelude.{◌≡◌, IfOk, OnErr};
ghost use Rattle.scene_file.specs.EditorScene.{loaded_editor};
ghost use Rattle.scene_machine.specs.Machine.{most_frames};
ghost use Rattle.scene_interpreter.specs.Play.{calls_reply, depth_reply, kind_reply, load_reply, setup_said, slots_reply};
ghost use Rattle.scene_interpreter.specs.Setup.{AnswersSetup, SetupSays, base_of, setup_by};

use crate::answer::{LineAnswer, faulty, refused};
use crate::script_owner::ScriptOwner;
use crate::setup::{Base, Setup};
use scene_file::load_editor_text;
use scene_kinds::Shape;
use scene_script::{BadLine, Limit, Line};
use scene_undo::MOST_FRAMES;
use std::alloc::{AllocError, Global};

/// What became of a line in the setup.
#[derive(Drop)]
pub(crate) enum SetupAnswer {
    /// It is answered.
    Given(LineAnswer),
    /// It ends the setup, and isn't answered yet.
    Ends(Line),
}

/// `kind`.
fn answer_kind<O: ScriptOwner>(
    alloc: Global,
    setup: &mut Setup<O>,
    name: &str,
    shape: Shape,
) -> Result<LineAnswer, AllocError>
    ensures answer { IfOk result (λ answer. SetupSays answer (setup_by O.most setup.new)
        (kind_reply (setup_by O.most setup.old) (base_of setup.old.base) name.now shape)) }
    ensures same { OnErr result (setup_by O.most setup.new ≡ setup_by O.most setup.old) }
{
    let Base::Declared(schema, _) = &mut setup.base else {
        return Ok(LineAnswer::Bad(BadLine::SceneLoaded));
    };
    let name = String::from_str(alloc, name)?;
    match schema.add(name, shape) {
        Ok(_) => Ok(LineAnswer::Taken),
        Err(refusal) => refused(refusal),
    }
}

/// `slots`.
fn answer_slots<O: ScriptOwner>(setup: &mut Setup<O>, slots: Limit) -> LineAnswer
    ensures { SetupSays result (setup_by O.most setup.new) (slots_reply (setup_by O.most setup.old) (base_of setup.old.base) slots) }
{
    let Base::Declared(_, limit) = &mut setup.base else {
        return LineAnswer::Bad(BadLine::SceneLoaded);
    };
    *limit = slots;
    LineAnswer::Taken
}

/// `load`. One that fails leaves the setup as it was.
#[tactic(auto, using(crate::proofs::FileFaultLaws::is_wanted))]
fn answer_load<O: ScriptOwner>(
    alloc: Global,
    setup: &mut Setup<O>,
    text: &str,
) -> Result<LineAnswer, AllocError>
    ensures answer { IfOk result (λ answer. SetupSays answer (setup_by O.most setup.new)
        (load_reply (setup_by O.most setup.old) (loaded_editor most_frames text.now))) }
    ensures same { OnErr result (setup_by O.most setup.new ≡ setup_by O.most setup.old) }
{
    match load_editor_text(alloc, text.as_bytes(), MOST_FRAMES) {
        Ok(editor) => {
            setup.base = Base::Loaded(editor);
            Ok(LineAnswer::Taken)
        }
        Err(fault) => faulty(fault),
    }
}

/// `calls`.
fn answer_calls<O: ScriptOwner>(setup: &mut Setup<O>, calls: Limit) -> LineAnswer
    ensures { SetupSays result (setup_by O.most setup.new) (calls_reply (setup_by O.most setup.old) calls) }
{
    setup.calls = O::limit_to(calls);
    LineAnswer::Taken
}

/// `depth`.
fn answer_depth<O: ScriptOwner>(setup: &mut Setup<O>, depth: Limit) -> LineAnswer
    ensures { SetupSays result (setup_by O.most setup.new) (depth_reply (setup_by O.most setup.old) depth) }
{
    setup.depth = depth;
    LineAnswer::Taken
}

/// Answers what a line of the setup says, or hands a line back that ends it. Where no memory is found, the setup is as
/// it was.
pub(crate) fn answer_setup<O: ScriptOwner>(
    alloc: Global,
    setup: &mut Setup<O>,
    said: Result<Line, BadLine>,
) -> Result<SetupAnswer, AllocError>
    ensures answer { IfOk result (AnswersSetup (setup_by O.most setup.old) (setup_by O.most setup.new) said
        (setup_said (setup_by O.most setup.old) said)) }
    ensures same { OnErr result (setup_by O.most setup.new ≡ setup_by O.most setup.old) }
{
    let answer = match said {
        Err(reason) => LineAnswer::Bad(reason),
        Ok(Line::Queue | Line::Commit) => LineAnswer::Bad(BadLine::NoFrame),
        Ok(Line::Empty) => LineAnswer::Nothing,
        Ok(Line::Kind(name, shape)) => answer_kind(alloc, setup, name.as_str(), shape)?,
        Ok(Line::Slots(slots)) => answer_slots(setup, slots),
        Ok(Line::Load(text)) => answer_load(alloc, setup, text.as_str())?,
        Ok(Line::Calls(calls)) => answer_calls(setup, calls),
        Ok(Line::Depth(depth)) => answer_depth(setup, depth),
        Ok(line) => return Ok(SetupAnswer::Ends(line)),
    };
    Ok(SetupAnswer::Given(answer))
}
