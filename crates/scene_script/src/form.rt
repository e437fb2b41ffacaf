//! The forms of lines.
ghost use Rattle.std.specs.Prelude.{◌≡◌, ◌<◌, ◌⊎◌, length};
ghost use Rattle.scene_script.specs.Forms.{form_named};

use std::fmt;

/// The form of a line, which its first word names (docs/SCRIPTS.md, "Lines").
#[derive(Clone, Copy, Debug, PartialEq, Eq)]
pub enum LineForm {
    Kind,
    Slots,
    Load,
    Calls,
    Depth,
    Spawn,
    Insert,
    Despawn,
    Remove,
    Parent,
    Unparent,
    DespawnAll,
    DespawnIfAlive,
    Put,
    Drop,
    Begin,
    Queue,
    Commit,
    Undo,
    Redo,
    Show,
    Get,
    Mark,
    Changed,
    Added,
    Phase,
    System,
    Clear,
    Advance,
    Dump,
    DumpAll,
    As,
    History,
}

impl LineForm {
    /// The form that a first word names, or `None` only where it names none.
    pub fn named(word: &str) -> Option<LineForm>
        ensures { result ≡ form_named word.now }
    {
        match word.as_bytes() {
            b"spawn" => Some(LineForm::Spawn),
            b"insert" => Some(LineForm::Insert),
            b"remove" => Some(LineForm::Remove),
            b"parent" => Some(LineForm::Parent),
            b"despawn" => Some(LineForm::Despawn),
            _ => named_by_length(word),
        }
    }
}

/// The form that any word names.
fn named_by_length(word: &str) -> Option<LineForm>
    ensures { result ≡ form_named word.now }
{
    match word.len() {
        3 => named_by_three(word),
        4 => named_by_four(word),
        5 => named_by_five(word),
        6 => named_by_six(word),
        7 => named_by_seven(word),
        _ => named_otherwise(word),
    }
}

/// The form that a word of three bytes names. It tries those first that long scripts have most.
fn named_by_three(word: &str) -> Option<LineForm>
    requires { length word.now ≡ 3 }
    ensures { result ≡ form_named word.now }
{
    match word {
        "put" => Some(LineForm::Put),
        "get" => Some(LineForm::Get),
        _ => None,
    }
}

/// The form that a word of four bytes names. It tries those first that long scripts have most.
fn named_by_four(word: &str) -> Option<LineForm>
    requires { length word.now ≡ 4 }
    ensures { result ≡ form_named word.now }
{
    match word {
        "undo" => Some(LineForm::Undo),
        "redo" => Some(LineForm::Redo),
        "drop" => Some(LineForm::Drop),
        "show" => Some(LineForm::Show),
        "mark" => Some(LineForm::Mark),
        "dump" => Some(LineForm::Dump),
        "kind" => Some(LineForm::Kind),
        "load" => Some(LineForm::Load),
        _ => None,
    }
}

/// The form that a word of five bytes names. It tries those first that long scripts have most.
fn named_by_five(word: &str) -> Option<LineForm>
    requires { length word.now ≡ 5 }
    ensures { result ≡ form_named word.now }
{
    match word {
        "spawn" => Some(LineForm::Spawn),
        "begin" => Some(LineForm::Begin),
        "queue" => Some(LineForm::Queue),
        "added" => Some(LineForm::Added),
        "phase" => Some(LineForm::Phase),
        "clear" => Some(LineForm::Clear),
        "slots" => Some(LineForm::Slots),
        "calls" => Some(LineForm::Calls),
        "depth" => Some(LineForm::Depth),
        _ => None,
    }
}

/// The form that a word of six bytes names. It tries those first that long scripts have most.
fn named_by_six(word: &str) -> Option<LineForm>
    requires { length word.now ≡ 6 }
    ensures { result ≡ form_named word.now }
{
    match word {
        "insert" => Some(LineForm::Insert),
        "parent" => Some(LineForm::Parent),
        "remove" => Some(LineForm::Remove),
        "commit" => Some(LineForm::Commit),
        "system" => Some(LineForm::System),
        _ => None,
    }
}

/// The form that a word of seven bytes names. It tries those first that long scripts have most.
fn named_by_seven(word: &str) -> Option<LineForm>
    requires { length word.now ≡ 7 }
    ensures { result ≡ form_named word.now }
{
    match word {
        "despawn" => Some(LineForm::Despawn),
        "changed" => Some(LineForm::Changed),
        "advance" => Some(LineForm::Advance),
        "history" => Some(LineForm::History),
        "dumpall" => Some(LineForm::DumpAll),
        _ => None,
    }
}

/// The form that a shorter or a longer word names.
fn named_otherwise(word: &str) -> Option<LineForm>
    requires { (length word.now < 3) ⊎ (7 < length word.now) }
    ensures { result ≡ form_named word.now }
{
    match word {
        "unparent" => Some(LineForm::Unparent),
        "as" => Some(LineForm::As),
        "despawnall" => Some(LineForm::DespawnAll),
        "despawnifalive" => Some(LineForm::DespawnIfAlive),
        _ => None,
    }
}

/// The form as docs/SCRIPTS.md writes it, as `insert T CELL`.
impl fmt::Display for LineForm {
    fn fmt<W: fmt::Write>(&self, f: &mut fmt::Formatter<W>) -> fmt::Result {
        let text = match self {
            LineForm::Kind => "kind NAME SHAPE",
            LineForm::Slots => "slots N",
            LineForm::Load => "load TEXT",
            LineForm::Calls => "calls N",
            LineForm::Depth => "depth N",
            LineForm::Spawn => "spawn CELL..",
            LineForm::Insert => "insert T CELL",
            LineForm::Despawn => "despawn T",
            LineForm::Remove => "remove T NAME",
            LineForm::Parent => "parent T T",
            LineForm::Unparent => "unparent T",
            LineForm::DespawnAll => "despawnall T",
            LineForm::DespawnIfAlive => "despawnifalive T",
            LineForm::Put => "put NAME SHAPE=VALUE",
            LineForm::Drop => "drop NAME",
            LineForm::Begin => "begin",
            LineForm::Queue => "queue",
            LineForm::Commit => "commit",
            LineForm::Undo => "undo",
            LineForm::Redo => "redo",
            LineForm::Show => "show",
            LineForm::Get => "get T",
            LineForm::Mark => "mark",
            LineForm::Changed => "changed",
            LineForm::Added => "added",
            LineForm::Phase => "phase",
            LineForm::System => "system NAME [need=N,N] [without=N,N] STEP..",
            LineForm::Clear => "clear",
            LineForm::Advance => "advance",
            LineForm::Dump => "dump",
            LineForm::DumpAll => "dumpall",
            LineForm::As => "as N",
            LineForm::History => "history",
        };
        write!(f, "{text}")
    }
}
