//! How the program ends.
ghost use Rattle.std.specs.Prelude.{◌≡◌};
ghost use Rattle.std.specs.Process.{exit_status};
ghost use Rattle.scene.specs.Ends.{after_bad_lines, after_scene, status_of};

use scene_app::AppFault;
use scene_store::StoreFault;
use std::process::ExitCode;

/// How the program ended (docs/SCRIPTS.md, "Exit status").
#[derive(Clone, Copy, Debug, PartialEq, Eq)]
pub enum Ending {
    /// All that was asked for was done.
    Done,
    /// A line of the script was bad, or the scene text was refused.
    Refused,
    /// The command line was bad.
    BadCommandLine,
    /// The program couldn't do what was asked for.
    Fault(AppFault),
    /// A store couldn't be used.
    Store(StoreFault),
    /// The program couldn't do what was asked for, and has said why.
    Told,
}

impl Ending {
    /// The end of a run with so many bad lines.
    pub fn after_bad_lines(count: u32) -> Ending
        ensures { result ≡ after_bad_lines count }
    {
        if count == 0 {
            Ending::Done
        } else {
            Ending::Refused
        }
    }

    /// The end after a scene text was accepted or refused.
    pub fn after_scene(accepted: bool) -> Ending
        ensures { result ≡ after_scene accepted }
    {
        if accepted {
            Ending::Done
        } else {
            Ending::Refused
        }
    }

    /// The exit status of this end.
    pub fn exit_code(self) -> ExitCode
        ensures { exit_status result ≡ status_of self }
    {
        match self {
            Ending::Done => ExitCode::SUCCESS,
            Ending::Refused => ExitCode::from(1),
            Ending::BadCommandLine => ExitCode::from(2),
            Ending::Fault(_) | Ending::Store(_) | Ending::Told => ExitCode::from(3),
        }
    }
}
