//! What the commands of a frame are, in few words.
use scene_commands::Command;
use std::alloc::{AllocError, Global};
use std::fmt;

/// The words of commands, in the order in which an account has them.
const WORDS: [&str; 10] = [
    "spawn",
    "insert",
    "remove",
    "despawn",
    "despawnall",
    "despawnifalive",
    "parent",
    "unparent",
    "put",
    "drop",
];

/// Where the word of a command stands among them.
pub(crate) fn place_of_word(command: &Command) -> usize {
    match command {
        Command::Spawn(_) => 0,
        Command::Insert(..) => 1,
        Command::Remove(..) => 2,
        Command::Despawn(_) => 3,
        Command::DespawnAll(_) => 4,
        Command::DespawnAllIfAlive(_) => 5,
        Command::SetParent(..) => 6,
        Command::RemoveParent(_) => 7,
        Command::PutResource(..) => 8,
        Command::RemoveResource(_) => 9,
    }
}

/// The commands of a frame, counted by their words. `Display` has what a single one says, and else how many there are
/// of each word, as `frame of 5 commands: spawn 3, insert 2`.
#[derive(Drop)]
pub(crate) struct FrameAccount {
    counts: [u64; 10],
    /// What the first command says.
    first: String,
}

impl FrameAccount {
    /// That of no command.
    pub(crate) fn new(alloc: Global) -> Self {
        FrameAccount {
            counts: [0; 10],
            first: String::new(alloc),
        }
    }

    /// How many commands there are.
    fn count(&self) -> u64 {
        let mut count = 0u64;
        for of_word in &self.counts {
            count = count.saturating_add(*of_word);
        }
        count
    }

    /// A frame begins.
    pub(crate) fn clear(&mut self) {
        self.counts = [0; 10];
        self.first.clear();
    }

    /// Counts a command, whose word stands there, and which says this.
    pub(crate) fn add(&mut self, place: usize, said: &str) -> Result<(), AllocError> {
        if self.count() == 0 {
            self.first.push_str(said)?;
        }
        if let Some(count) = self.counts.get_mut(place) {
            *count = count.saturating_add(1);
        }
        Ok(())
    }
}

impl fmt::Display for FrameAccount {
    fn fmt<W: fmt::Write>(&self, f: &mut fmt::Formatter<W>) -> fmt::Result {
        let count = self.count();
        if count == 1 {
            return f.write_str(self.first.as_str());
        }
        write!(f, "frame of {count} commands")?;
        let mut is_first = true;
        for at in 0..WORDS.len() {
            let (word, of_word) = (WORDS[at], self.counts[at]);
            if of_word > 0 {
                f.write_str(if is_first { ": " } else { ", " })?;
                write!(f, "{word} {of_word}")?;
                is_first = false;
            }
        }
        Ok(())
    }
}
