//! The names of faults.
ghost use Rattle.std.specs.Prelude.{◌≡◌, length, map};
ghost use Rattle.scene_json_forms.specs.Fault.{file_name, file_number};
ghost use Rattle.scene_json_forms.specs.declared.fault.FileFault.{FileFault};
ghost use Rattle.scene_kinds.specs.Fault.{fault_name, fault_number};
ghost use Rattle.scene_kinds.specs.declared.fault.Fault.{Fault};
ghost use Rattle.scene_c.specs.Memory.{copied};
ghost use Rattle.scene_c.specs.Names.{name_at, name_of};

use crate::texts::copy_to;

/// The names of the faults that a scene can have (docs/MODEL.md, "Faults"), each at the place that is its number.
const FAULT_NAMES: [&str; 57] = [
    "",
    "NoSuchEntity",
    "HasChildren",
    "NotPresent",
    "WrongShape",
    "NoSuchKind",
    "DuplicateKind",
    "SelfParent",
    "Cycle",
    "NoParent",
    "NoSuchResource",
    "EntitiesFull",
    "BadLocal",
    "TickFull",
    "Overflow",
    "NothingToUndo",
    "NothingToRedo",
    "HistoryFull",
    "Rewound",
    "Busy",
    "NoMemory",
    "Conflict",
    "BadRule",
    "OtherSchema",
    "QueueFull",
    "",
    "",
    "",
    "",
    "",
    "BadName",
    "KindTaken",
    "KindsFull",
    "",
    "",
    "",
    "",
    "",
    "",
    "",
    "BadWorld",
    "BadRecord",
    "",
    "",
    "",
    "",
    "",
    "",
    "",
    "",
    "NotJson",
    "UnknownKey",
    "BadField",
    "BadVersion",
    "ReadFault",
    "WriteFault",
    "TooLong",
];

/// The name at a place, and none behind the last one.
fn name_in(names: &[&'static str], at: usize) -> &'static str
    ensures { result.now ≡ name_at (map (λ name. name.now) names.now) at }
{
    match names.get(at) {
        Some(name) => name,
        None => "",
    }
}

/// The name of a fault by its number; none where no fault of a scene has it.
fn name_of(fault: u32) -> &'static str
    ensures { result.now ≡ name_of fault }
{
    name_in(&FAULT_NAMES, fault as usize)
}

/// How long the name of a fault is.
pub(crate) fn name_len(fault: u32) -> usize
    ensures { result ≡ length (name_of fault) }
{
    name_of(fault).len()
}

/// How long the name of a fault is, and as much of it as there is room for.
pub(crate) fn copy_name(fault: u32, room: &mut [u8]) -> usize
    ensures length { result ≡ length (name_of fault) }
    ensures bytes { room.new ≡ copied (name_of fault) room.old }
{
    copy_to(name_of(fault), room)
}

/// A law: each fault of a call, and of a scene text, has its name at its number.
#[tactic(auto, using(crate::proofs::NameLaws::named, crate::proofs::NameLaws::file_named))]
pub fn each_fault_has_its_name()
    ensures faults { (fault : Fault) → name_of (fault_number fault) ≡ fault_name fault }
    ensures texts { (fault : FileFault) → name_of (file_number fault) ≡ file_name fault }
{}
