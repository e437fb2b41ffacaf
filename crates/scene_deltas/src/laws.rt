//! Laws of deltas, and of the deltas of commands.
ghost use Rattle.scene_deltas.specs.CommandLaws.{CommandsAreDeltas, CommandsMakeFewDeltas};
ghost use Rattle.scene_deltas.specs.FurtherKind.{DeclaredKindsChangeNoDeltas};
ghost use Rattle.scene_deltas.specs.Laws.{DeltasComeBack, DeltaListsComeBack};

/// A law of a delta: in each valid world where it fits, the world after it is valid, it fits back there, and taking it
/// back gives the very world from before. The other way round too: where it fits back, taking it back and making it
/// again gives the very world. Of a list of deltas, made one after another and taken back from the last to the first,
/// the same holds.
pub fn deltas_come_back()
    ensures each { DeltasComeBack }
    ensures lists { DeltaListsComeBack }
{}

/// A law of the commands: one that a valid world accepts, with values that their types can hold, is its deltas, made
/// one after another, each of which fits at its turn. They are one at most, and one for each descendant that a
/// recursive despawn takes along.
pub fn commands_are_deltas()
    ensures deltas { CommandsAreDeltas }
    ensures few { CommandsMakeFewDeltas }
{}

/// A law of deltas where a kind is declared, in any world: with it they lead to the same world and the kind, there and
/// back, and they fit at their turns where they did.
pub fn declared_kinds_change_no_deltas()
    ensures { DeclaredKindsChangeNoDeltas }
{}
