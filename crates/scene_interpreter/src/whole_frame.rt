//! What callers give as values: a frame of one queue, and a spawn in an open frame.
ghost use Rattle.std.specs.Prelude.{◌≡◌, ◌≢◌, ◌∷◌, [], IfErr, IfNone, IfOk, IfSome, MatchResult, OnErr, None, false};
ghost use Rattle.scene_interpreter.specs.Answer.{Says};
ghost use Rattle.scene_interpreter.specs.Changes.{frame_is_open};
ghost use Rattle.scene_interpreter.specs.Interpreter.{HaltsSetup, Interpreter as Reached, Tells, halted, reached};
ghost use Rattle.scene_interpreter.specs.Play.{first_state, state_by};
ghost use Rattle.scene_interpreter.specs.Setup.{setup_by};
ghost use Rattle.scene_interpreter.specs.WholeFrame.{IsSpawnIn, IsSpawnQueued, queue_reply, queue_said};
ghost use Rattle.scene_interpreter.specs.declared.halt.Halt.TheVariants.{After};

use crate::answer::LineAnswer;
use crate::halt::Halt;
use crate::interpreter::{Interpreter, Mode, after_begin};
use crate::play_state::PlayState;
use crate::script_owner::ScriptOwner;
use crate::setup::Setup;
use crate::state_line::answer_call;
use scene_commands::{Components, Target};
use scene_kinds::Refusal;
use scene_queue::Queue;
use scene_script::BadLine;
use scene_session::{Call, Performer, SessionOwner};
use std::alloc::{AllocError, Global};

/// The queues of a frame of one.
fn lone_queue(alloc: Global, queue: Queue) -> Result<Vec<Queue>, AllocError>
    ensures { IfOk result (λ queues. queues.items ≡ queue ∷ []) }
{
    let mut queues = Vec::with_capacity(alloc, 1)?;
    queues.push(queue)?;
    Ok(queues)
}

/// Answers a frame of one queue behind the setup.
fn answer_queue<O: SessionOwner, P: Performer<O>>(
    performer: &P,
    alloc: Global,
    state: &mut PlayState<O>,
    queue: Queue,
) -> Result<LineAnswer, AllocError>
    ensures answer { IfOk result (λ answer. Says answer (state_by O.state state.new)
        (queue_reply (state_by O.state state.old) queue state.old.frame)) }
    ensures same { OnErr result (state_by O.state state.new ≡ state_by O.state state.old) }
{
    if state.frame.is_some() {
        return Ok(LineAnswer::Bad(BadLine::FrameOpen));
    }
    let queues = lone_queue(alloc, queue)?;
    answer_call(performer, alloc, state, Call::Submit(queues))
}

/// Ends the setup by a frame of one queue, and answers it in the state that follows. The state is there also where no
/// memory is found for the frame.
fn begin_queue<O: ScriptOwner, P: Performer<O>>(
    performer: &P,
    alloc: Global,
    setup: &mut Setup<O>,
    queue: Queue,
) -> Result<(PlayState<O>, Result<LineAnswer, AllocError>), Halt>
    ensures begun { IfOk result (λ p. MatchResult p.1
        (λ answer. Says answer (state_by O.state p.0) (queue_reply (first_state (setup_by O.most setup.old)) queue None))
        (λ _. state_by O.state p.0 ≡ first_state (setup_by O.most setup.old))) }
    ensures halted { IfErr result (λ h. HaltsSetup h (setup_by O.most setup.old) (setup_by O.most setup.new)) }
{
    let mut state = setup.begin(alloc)?;
    let answered = answer_queue(performer, alloc, &mut state, queue);
    Ok((state, answered))
}

/// Puts a spawn into the open frame of a state, if one is open.
fn spawn_in_frame<O: SessionOwner>(
    state: &mut PlayState<O>,
    components: Components,
) -> Option<Result<Target, Refusal>>
    ensures none { IfNone result ((state.old.frame ≡ None) × (state_by O.state state.new ≡ state_by O.state state.old)) }
    ensures some { IfSome result (λ queued. IsSpawnIn (state_by O.state state.old) (state_by O.state state.new) components queued) }
{
    let Some(frame) = state.frame.take() else {
        return None;
    };
    let mut frame = frame;
    let queued = frame.spawn(components);
    state.frame = Some(frame);
    Some(queued)
}

impl<O: ScriptOwner> Interpreter<O> {
    /// Does a frame of one queue, all or nothing, as the line `commit` does one that was opened and has these commands
    /// (docs/SCRIPTS.md, "Frames"). It ends the setup. In an open frame it is bad, as `begin` is there. It costs what
    /// the commands cost.
    ///
    /// Halted only for want of memory, and then the frame isn't done: `Before`, `Begun`; `Lost`, where it would have
    /// ended the setup, whose kinds or scene are lost.
    pub fn submit<P: Performer<O>>(
        &mut self,
        performer: &P,
        queue: Queue,
    ) -> Result<LineAnswer, Halt>
        ensures answer { IfOk result (λ answer. Tells answer (reached O.state O.most self.new)
            (queue_said (reached O.state O.most self.old) queue)) }
        ensures halted { IfErr result (λ h. (next : Reached)
            → reached O.state O.most self.new ≡ halted h (reached O.state O.most self.old) next) }
        ensures undone { IfErr result (λ h. h ≢ After) }
    {
        match &mut self.mode {
            Mode::Playing(state) => match answer_queue(performer, self.alloc, state, queue) {
                Ok(answer) => Ok(answer),
                Err(AllocError) => Err(Halt::Before),
            },
            Mode::Setting(setup) => match begin_queue(performer, self.alloc, setup, queue) {
                Err(halt) => Err(halt),
                Ok((state, answered)) => {
                    self.go_to(state);
                    after_begin(answered)
                }
            },
        }
    }

    /// Puts a spawn into the open frame, as the line `spawn` does there, and gives the name that later commands of its
    /// queue have for its entity. `None` where no frame is open: then nothing changes.
    ///
    /// Refused, in this order, and then the frame is as it was: `QueueFull`, `NoMemory`.
    pub fn queue_spawn(&mut self, components: Components) -> Option<Result<Target, Refusal>>
        ensures none { IfNone result ((frame_is_open (reached O.state O.most self.old) ≡ false)
            × (reached O.state O.most self.new ≡ reached O.state O.most self.old)) }
        ensures some { IfSome result (λ queued. IsSpawnQueued (reached O.state O.most self.old) (reached O.state O.most self.new)
            components queued) }
    {
        match &mut self.mode {
            Mode::Playing(state) => spawn_in_frame(state, components),
            Mode::Setting(_) => None,
        }
    }
}
