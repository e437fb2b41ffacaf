//! What a store has kept since it was opened, as far as a checkpoint needs it.
use scene_requests::is_request;
use scene_script::first_line;
use scene_shell::push_kept_line;
use std::alloc::Global;

/// With which a line of a script begins that gives systems, or clears what there is.
const BEGINNINGS: [&[u8]; 3] = [b"system", b"phase", b"clear"];

/// The words of requests that do the same.
const WORDS: [&str; 3] = ["system", "phase", "clear"];

/// The lines that a store has kept since it was opened.
#[derive(Drop)]
pub struct NewLines {
    /// How many there are.
    pub count: u64,
    /// Those among them that may give systems, or clear them; nothing where no memory was found for one.
    pub of_systems: Option<Vec<u8>>,
}

/// Whether a request may give systems, or clear them.
fn has_word(line: &[u8]) -> bool {
    match str::from_utf8(line) {
        Ok(said) => WORDS.iter().any(|word| said.contains(*word)),
        Err(_) => false,
    }
}

/// Whether a line may give systems, or clear them. One that is said in another way than a shell's user says it isn't
/// found, and then a checkpoint that lacks it isn't kept.
fn may_be_of_systems(line: &[u8]) -> bool {
    if is_request(line) {
        return has_word(line);
    }
    BEGINNINGS.iter().any(|word| line.starts_with(*word))
}

impl NewLines {
    /// None.
    pub(crate) fn none(alloc: Global) -> Self {
        NewLines {
            count: 0,
            of_systems: Some(Vec::new(alloc)),
        }
    }

    /// Notes one line, which is given without its line break.
    fn note_line(&mut self, line: &[u8]) {
        self.count = self.count.saturating_add(1);
        if !may_be_of_systems(line) {
            return;
        }
        if let Some(lines) = &mut self.of_systems {
            if push_kept_line(lines, line).is_err() {
                self.of_systems = None;
            }
        }
    }

    /// Notes each line of a text that is kept. It costs a look at each byte.
    pub(crate) fn note(&mut self, text: &[u8]) {
        let mut rest = text;
        'lines: while !rest.is_empty() {
            let (line, more) = first_line(rest);
            self.note_line(line);
            rest = more;
        }
    }
}
