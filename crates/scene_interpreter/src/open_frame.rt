//! A frame that a script has opened.
ghost use Rattle.std.specs.Prelude.{◌≡◌, ◌≤◌, ◌+◌, Some, true, length, OnErr, OnOk, IfErr, IfOk};
ghost use Rattle.scene_kinds.specs.Answers.{Answers};
ghost use Rattle.scene_interpreter.specs.OpenFrame.{Opened, new_frame, with_command, with_queue, with_spawn, queues_of};

use scene_commands::{Command, Components, Target};
use scene_kinds::Refusal;
use scene_queue::Queue;
use std::alloc::{AllocError, Global};
use std::marker::Model;

/// The queues of an open frame: those that are complete, and the last one, into which commands go (docs/SCRIPTS.md,
/// "Frames").
#[derive(Drop)]
pub(crate) struct OpenFrame {
    complete: Vec<Queue>,
    last: Queue,
}

impl Model for OpenFrame {
    ghost use Rattle.scene_interpreter.specs.OpenFrame.{Opened};

    ghost Value = { Opened };

    ghost view = { λ f. record { complete = f.complete.items; last = f.last } };
}

impl OpenFrame {
    /// A frame of one empty queue. It takes no memory.
    pub(crate) fn new(alloc: Global) -> Self
        ensures { result ≡ new_frame }
    {
        OpenFrame {
            complete: Vec::new(alloc),
            last: Queue::new(alloc),
        }
    }

    /// Puts a command last in the last queue.
    ///
    /// Refused, in this order: `QueueFull` where that queue has as many commands as it may; `NoMemory`.
    #[inline(always)]
    pub(crate) fn push(&mut self, command: Command) -> Result<(), Refusal>
        ensures { Answers result self.old self.new (with_command self.old command) }
    {
        match self.last.push(command) {
            Ok(()) => Ok(()),
            Err(returned) => Err(returned.refusal),
        }
    }

    /// Puts a spawn last in the last queue, and gives the name that later commands of that queue have for its entity.
    ///
    /// Refused as `push` is.
    pub(crate) fn spawn(&mut self, components: Components) -> Result<Target, Refusal>
        ensures { Answers result self.old self.new (with_spawn self.old components) }
    {
        match self.last.spawn(components) {
            Ok(target) => Ok(target),
            Err(returned) => Err(returned.refusal),
        }
    }

    /// Adds a further empty queue, or finds no memory, and then the frame is as it was.
    pub(crate) fn add_queue(&mut self, alloc: Global) -> Result<(), AllocError>
        ensures added { OnOk result (self.new ≡ with_queue self.old) }
        ensures same { OnErr result (self.new ≡ self.old) }
    {
        self.complete.reserve(1)?;
        let complete = std::mem::replace(&mut self.last, Queue::new(alloc));
        self.complete.push_reserved(complete);
        Ok(())
    }

    /// Whether its queues can be counted in 32 bits.
    pub(crate) fn is_counted(&self) -> bool
        ensures { result ≡ true → length self.now.complete + 1 ≤ 4294967295 }
    {
        self.complete.len() < 4_294_967_295
    }

    /// All its queues, first to last; or the frame as it was, where no memory was found.
    pub(crate) fn into_queues(self) -> Result<Vec<Queue>, OpenFrame>
        ensures queues { IfOk result (λ queues. queues.items ≡ queues_of self) }
        ensures back { IfErr result (λ frame. frame ≡ self) }
    {
        let OpenFrame { complete, last } = self;
        let mut queues = complete;
        match queues.reserve(1) {
            Ok(()) => {
                queues.push_reserved(last);
                Ok(queues)
            }
            Err(AllocError) => Err(OpenFrame {
                complete: queues,
                last,
            }),
        }
    }

    /// The frame whose queues these are, if there is one.
    pub(crate) fn of_queues(queues: Vec<Queue>) -> Option<OpenFrame>
        ensures { (frame : Opened) → queues.items ≡ queues_of frame → result ≡ Some frame }
    {
        let mut complete = queues;
        let last = complete.pop()?;
        Some(OpenFrame { complete, last })
    }
}
