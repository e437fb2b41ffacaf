//! What the help texts of the program and of its commands say beside the names.

/// What the program is.
pub(crate) const PROGRAM: &str =
    "Plays scripts of commands on a world of entities, with undo, and looks at saved scenes and stores";

/// What all commands have in common.
pub(crate) const PROGRAM_MORE: &str = "\
Each command prints on standard output. `shell` answers standard input line by line; `run`, `check` and `print` read it
to its end; `show`, `dump`, `log`, `compact`, `backup` and `restore` read the file of a store.

Exit status:
  0  all went well
  1  a line of a script was bad, or a scene text was refused
  2  the command line is bad
  3  a fault ended the program; standard error tells its number and name

docs/SCRIPTS.md explains scripts, docs/SHELL.md the shell, and docs/SCENE_FILES.md scene texts.";

pub(crate) const RUN: &str = "Plays the script on standard input and prints what its lines answer";

pub(crate) const RUN_MORE: &str = "\
A script has one line for each step, as `kind A Int`, `spawn A=5`, `undo` or `show`. A bad line prints `bad line` and
changes nothing; standard error tells where the first bad lines are and why, and the exit status is 1.

docs/SCRIPTS.md explains the lines.";

pub(crate) const WORKERS: &str =
    "How many threads write large columns, 1 to 16; what is printed doesn't depend on it [1]";

pub(crate) const SHELL: &str =
    "Plays the lines on standard input, and answers each before it waits for the next";

pub(crate) const SHELL_MORE: &str = "\
The lines are those of a script, and the end of the input ends the shell. A bad line prints `bad line` and changes
nothing; standard error tells at once where it is and why, and the exit status is 1.

docs/SHELL.md explains the shell, and docs/SCRIPTS.md the lines.";

pub(crate) const DEPTH: &str = "Of how many frames a record is kept, 1 to 1,048,576 [1,048,576]";

pub(crate) const FRAMED: &str = "Ends each answer with an empty line";

pub(crate) const JSON: &str = "Answers each line by a line of JSON";

pub(crate) const STORE: &str =
    "Keeps what the lines do in this file, and begins with what it keeps; not beside --depth";

pub(crate) const CHECK: &str = "Says whether the scene text on standard input is good";

pub(crate) const CHECK_MORE: &str = "\
Prints `good TICK LIVE`, the tick and the number of live entities, or else the first fault as `fault NUMBER NAME ..`;
the exit status is then 1.

docs/SCENE_FILES.md explains scene texts and their faults.";

pub(crate) const PRINT: &str = "Shows the world of the scene text on standard input";

pub(crate) const PRINT_MORE: &str = "\
Prints the lines that `show` prints in a script, or else the first fault as `fault NUMBER NAME ..`; the exit status is
then 1.

docs/SCENE_FILES.md explains scene texts and their faults, and docs/SCRIPTS.md the lines of `show`.";

pub(crate) const FILE: &str = "The file of the store, as `shell --store` makes it";

pub(crate) const SHOW: &str = "Shows the world that a store keeps";

pub(crate) const SHOW_MORE: &str = "\
Prints the lines that `show` prints in a script. The store itself stays as it is.

docs/SHELL.md explains stores, and docs/SCRIPTS.md the lines of `show`.";

pub(crate) const DUMP: &str = "Prints the scene text of a store";

pub(crate) const DUMP_MORE: &str = "\
Prints what `dump` prints in a script, or `dumpall`: where it would have more than 64 MiB, `fault 56 TooLong`; the exit
status is then 1. The store itself stays as it is, and may be in use.

docs/SHELL.md explains stores, and docs/SCENE_FILES.md scene texts.";

pub(crate) const ALL: &str = "Has the past and the future in the text too";

pub(crate) const LOG: &str = "Tells what was done in a store, frame by frame";

pub(crate) const LOG_MORE: &str = "\
Each line has a number, the moment in UTC, whose call it is, what it did and what that came to. The store itself stays
as it is, and may be in use.

docs/SHELL.md explains stores.";

pub(crate) const COMPACT: &str = "Makes the file of a store shorter; its world stays";

pub(crate) const COMPACT_MORE: &str = "docs/SHELL.md explains stores.";

pub(crate) const COPY: &str = "The file that the copy is to be; none may have this name yet";

pub(crate) const BACKUP: &str = "Copies a store into another file, also while a shell runs";

pub(crate) const BACKUP_MORE: &str = "\
The copy is one file and keeps all that was answered before. The store itself stays as it is.

docs/SHELL.md explains stores.";

pub(crate) const RESTORE: &str =
    "Copies a store as it was at an entry of its log into another file";

pub(crate) const RESTORE_MORE: &str = "\
The copy keeps all that was done up to that entry, and the entry too. The store itself stays as it is.

docs/SHELL.md explains stores and their log.";

pub(crate) const AT: &str =
    "The number of the entry, as `scene log` prints it, 1 to 18,446,744,073,709,551,615";
