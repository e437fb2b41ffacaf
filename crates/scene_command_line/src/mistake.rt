//! What is wrong with a bad command line.
ghost use Rattle.std.specs.Prelude.{◌≡◌, map, string_bytes};
ghost use Rattle.scene_command_line.specs.Mistakes.{mistake_in, mistake_of, second_word};

use std::fmt;

/// What is wrong with a bad command line, as the first word behind the program's name tells.
#[derive(Clone, Copy, Debug, PartialEq, Eq)]
pub enum Mistake {
    /// There is no such word.
    NoCommand,
    /// The word is `help`, and what follows isn't the name of one command.
    HelpOfNoCommand,
    /// The word is `run`, and what follows it is neither a good number of workers nor asks for help.
    TakesWorkers,
    /// The word is `shell`, and what follows it is neither good options of it nor asks for help.
    TakesShellOptions,
    /// The word is `show`, `log` or `compact`, and what follows it is neither the name of one file nor asks for help.
    TakesFile,
    /// The word is `dump`, and what follows it is neither the name of one file, with `--all` or without, nor asks for
    /// help.
    TakesFileAndAll,
    /// The word is `backup`, and what follows it is neither the names of two files nor asks for help.
    TakesTwoFiles,
    /// The word is `restore`, and what follows it is neither the names of two files with a good `--at` nor asks for help.
    TakesTwoFilesAndAt,
    /// The word is another command's name, and something follows it.
    TakesNoWord,
    /// The word begins with a hyphen.
    NoOption,
    /// The word names no command.
    NoSuchCommand,
}

/// A mistake, and the word that tells it. `Display` says it in words.
#[derive(Clone, Copy)]
pub struct BadWords<'a> {
    pub mistake: Mistake,
    /// The first word behind the program's name; empty where there is none.
    pub word: &'a str,
}

/// What is wrong where this is the first word of a bad command line.
fn mistake_of(word: &str) -> Mistake
    ensures { result ≡ mistake_of word.now }
{
    match word {
        "run" => Mistake::TakesWorkers,
        "shell" => Mistake::TakesShellOptions,
        "show" | "log" | "compact" => Mistake::TakesFile,
        "dump" => Mistake::TakesFileAndAll,
        "backup" => Mistake::TakesTwoFiles,
        "restore" => Mistake::TakesTwoFilesAndAt,
        "check" | "print" => Mistake::TakesNoWord,
        "help" => Mistake::HelpOfNoCommand,
        _ if word.starts_with('-') => Mistake::NoOption,
        _ => Mistake::NoSuchCommand,
    }
}

/// What is wrong with the words of a bad command line, the program's own name first.
pub fn mistake_in<'a>(words: &'a [String]) -> BadWords<'a>
    ensures mistake { result.mistake ≡ mistake_in (map string_bytes words.now) }
    ensures word { result.word.now ≡ second_word (map string_bytes words.now) }
{
    match words {
        [_, word, ..] => BadWords {
            mistake: mistake_of(word.as_str()),
            word: word.as_str(),
        },
        _ => BadWords {
            mistake: Mistake::NoCommand,
            word: "",
        },
    }
}

/// A word that isn't made of printable ASCII is left out.
impl<'a> fmt::Display for BadWords<'a> {
    fn fmt<W: fmt::Write>(&self, f: &mut fmt::Formatter<W>) -> fmt::Result {
        let word = self.word;
        let is_shown = !word.is_empty()
            && word.as_bytes().iter().all(|byte| byte.is_ascii_graphic());
        match self.mistake {
            Mistake::NoCommand => write!(f, "no command was given")?,
            Mistake::TakesWorkers => {
                return write!(
                    f,
                    "{word} takes no word but --workers N, where N is 1 to 16, and --help"
                );
            }
            Mistake::TakesShellOptions => {
                return write!(
                    f,
                    "{word} takes no word but --workers N, where N is 1 to 16, --depth N, where N is 1 to 1,048,576, \
                     --framed, --json, --store FILE in place of --depth, and --help"
                );
            }
            Mistake::TakesFile => {
                return write!(
                    f,
                    "{word} takes the name of a store's file, and no other word but --help"
                );
            }
            Mistake::TakesFileAndAll => {
                return write!(
                    f,
                    "{word} takes the name of a store's file, and no other word but --all and --help"
                );
            }
            Mistake::TakesTwoFiles => {
                return write!(
                    f,
                    "{word} takes the names of a store's file and of its copy, and no other word but --help"
                );
            }
            Mistake::TakesTwoFilesAndAt => {
                return write!(
                    f,
                    "{word} takes the names of a store's file and of its copy, --at N, where N is 1 to \
                     18,446,744,073,709,551,615, and no other word but --help"
                );
            }
            Mistake::TakesNoWord => return write!(f, "{word} takes no word but --help"),
            Mistake::HelpOfNoCommand => write!(f, "help takes the name of one command")?,
            Mistake::NoOption if is_shown => {
                return write!(f, "there is no option {word}, only --help");
            }
            Mistake::NoSuchCommand if is_shown => write!(f, "no command is named {word}")?,
            _ => write!(f, "no command has this name")?,
        }
        write!(
            f,
            "; there are run, shell, check, print, show, dump, log, compact, backup and restore"
        )
    }
}
