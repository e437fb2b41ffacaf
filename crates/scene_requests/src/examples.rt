//! Worked requests, which the definitions compute.
ghost use Rattle.scene_requests.specs.Examples.{SpawnsAreRead, CommandsAreRead, OthersAreRead, SystemsAreRead, FaultsAreNamed, SystemFaultsAreNamed, QuestionsAreRead};

/// The definitions compute these requests from their bytes: the lines that requests of all sorts stand for, and why texts
/// that differ from them are bad, with the path of the first part that has no form (docs/SHELL.md, "Requests").
pub fn worked_requests()
    ensures spawns { SpawnsAreRead }
    ensures commands { CommandsAreRead }
    ensures others { OthersAreRead }
    ensures systems { SystemsAreRead }
    ensures faults { FaultsAreNamed }
    ensures within { SystemFaultsAreNamed }
    ensures questions { QuestionsAreRead }
{}
