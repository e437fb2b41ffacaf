//! The faults by which calls are refused, numbered for the whole product.
ghost use Rattle.std.specs.Prelude.{◌≡◌, Some};
ghost use Rattle.scene_kinds.specs.Fault.{fault_number, fault_name, fault_text};

use crate::entity::Entity;
use std::error::Error;
use std::fmt;

/// Why a call was refused. docs/MODEL.md, "Faults", says when each comes.
#[derive(Clone, Copy, Debug, PartialEq, Eq)]
pub enum Fault {
    NoSuchEntity,
    HasChildren,
    NotPresent,
    WrongShape,
    NoSuchKind,
    DuplicateKind,
    SelfParent,
    Cycle,
    NoParent,
    NoSuchResource,
    EntitiesFull,
    BadLocal,
    TickFull,
    /// The entity of the row whose sum left the range of 64 bits.
    Overflow(Entity),
    NothingToUndo,
    NothingToRedo,
    /// How many calls there may be, which is how many there were.
    HistoryFull(u64),
    /// The editor's count of rewinds now.
    Rewound(u64),
    Busy,
    NoMemory,
    /// Two systems of one phase, by their places, of which one writes what the other reads or writes.
    Conflict { phase: u32, first: u32, second: u32 },
    /// The place of the system that breaks a rule of schedules.
    BadRule { phase: u32, system: u32 },
    OtherSchema,
    QueueFull,
    BadName,
    KindTaken,
    KindsFull,
    /// The number of the first rule of a valid world that is broken.
    BadWorld(u8),
    /// The first frame record that doesn't fit, and the delta in it.
    BadRecord { frame: u64, delta: u64 },
}

impl Fault {
    /// The fault's number, one for the whole product (docs/MODEL.md, "Faults").
    pub fn number(self) -> u8
        ensures { result ≡ fault_number self }
    {
        match self {
            Fault::NoSuchEntity => 1,
            Fault::HasChildren => 2,
            Fault::NotPresent => 3,
            Fault::WrongShape => 4,
            Fault::NoSuchKind => 5,
            Fault::DuplicateKind => 6,
            Fault::SelfParent => 7,
            Fault::Cycle => 8,
            Fault::NoParent => 9,
            Fault::NoSuchResource => 10,
            Fault::EntitiesFull => 11,
            Fault::BadLocal => 12,
            Fault::TickFull => 13,
            Fault::Overflow(_) => 14,
            Fault::NothingToUndo => 15,
            Fault::NothingToRedo => 16,
            Fault::HistoryFull(_) => 17,
            Fault::Rewound(_) => 18,
            Fault::Busy => 19,
            Fault::NoMemory => 20,
            Fault::Conflict { .. } => 21,
            Fault::BadRule { .. } => 22,
            Fault::OtherSchema => 23,
            Fault::QueueFull => 24,
            Fault::BadName => 30,
            Fault::KindTaken => 31,
            Fault::KindsFull => 32,
            Fault::BadWorld(_) => 40,
            Fault::BadRecord { .. } => 41,
        }
    }

    /// The fault's name, as scripts print it: that of the variant.
    pub fn name(self) -> &'static str
        ensures { result.now ≡ fault_name self }
    {
        match self {
            Fault::NoSuchEntity => "NoSuchEntity",
            Fault::HasChildren => "HasChildren",
            Fault::NotPresent => "NotPresent",
            Fault::WrongShape => "WrongShape",
            Fault::NoSuchKind => "NoSuchKind",
            Fault::DuplicateKind => "DuplicateKind",
            Fault::SelfParent => "SelfParent",
            Fault::Cycle => "Cycle",
            Fault::NoParent => "NoParent",
            Fault::NoSuchResource => "NoSuchResource",
            Fault::EntitiesFull => "EntitiesFull",
            Fault::BadLocal => "BadLocal",
            Fault::TickFull => "TickFull",
            Fault::Overflow(_) => "Overflow",
            Fault::NothingToUndo => "NothingToUndo",
            Fault::NothingToRedo => "NothingToRedo",
            Fault::HistoryFull(_) => "HistoryFull",
            Fault::Rewound(_) => "Rewound",
            Fault::Busy => "Busy",
            Fault::NoMemory => "NoMemory",
            Fault::Conflict { .. } => "Conflict",
            Fault::BadRule { .. } => "BadRule",
            Fault::OtherSchema => "OtherSchema",
            Fault::QueueFull => "QueueFull",
            Fault::BadName => "BadName",
            Fault::KindTaken => "KindTaken",
            Fault::KindsFull => "KindsFull",
            Fault::BadWorld(_) => "BadWorld",
            Fault::BadRecord { .. } => "BadRecord",
        }
    }
}

/// The number, the name and then the fault's fields, each after a space.
impl fmt::Display for Fault {
    ghost output = { λ f. Some (fault_text f) };

    fn fmt<W: fmt::Write>(&self, f: &mut fmt::Formatter<W>) -> fmt::Result {
        let number = self.number();
        let name = self.name();
        match self {
            Fault::Overflow(entity) => write!(f, "{number} {name} {entity}"),
            Fault::HistoryFull(length) => write!(f, "{number} {name} {length}"),
            Fault::Rewound(count) => write!(f, "{number} {name} {count}"),
            Fault::Conflict {
                phase,
                first,
                second,
            } => write!(f, "{number} {name} {phase} {first} {second}"),
            Fault::BadRule { phase, system } => write!(f, "{number} {name} {phase} {system}"),
            Fault::BadWorld(rule) => write!(f, "{number} {name} {rule}"),
            Fault::BadRecord { frame, delta } => write!(f, "{number} {name} {frame} {delta}"),
            _ => write!(f, "{number} {name}"),
        }
    }
}

impl Error for Fault {}
