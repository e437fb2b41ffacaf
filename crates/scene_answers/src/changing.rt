//! Which requests have to be kept, so that they can be played again.
ghost use Rattle.std.specs.Prelude.{◌≡◌};
ghost use Rattle.scene_interpreter.specs.Interpreter.{interpreter_of};
ghost use Rattle.scene_answers.specs.Asked.{asked_changes};

use scene_interpreter::Interpreter;
use scene_requests::Request;
use scene_script::Line;
use scene_session::LoneOwner;

/// Whether what a request asks for may change the interpreter: where it may not, the interpreter is the same behind
/// it. It takes no memory.
pub fn request_changes(interpreter: &Interpreter<LoneOwner>, asked: Request) -> bool
    ensures { result ≡ asked_changes (interpreter_of interpreter.now) asked }
{
    match asked {
        Request::Line(line) => interpreter.said_changes(&Ok(line)),
        Request::Ask(_) => interpreter.said_changes(&Ok(Line::Show)),
        Request::Turn(..) => interpreter.said_changes(&Ok(Line::Undo)),
        Request::DropFrame => interpreter.has_open_frame(),
        Request::Declare(..) => true,
    }
}
