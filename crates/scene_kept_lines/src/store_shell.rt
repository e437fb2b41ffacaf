//! A shell on a store, from its opening to its end.
ghost use Rattle.std.specs.Io.Buffered.{reader_remaining};
ghost use Rattle.scene_kept_lines.specs.Dated.{KeepsDated};
ghost use Rattle.scene_kept_lines.specs.StoreShell.{EndsStored, GoesOn};

use crate::checkpoint_keeping::{end_opening, end_shell};
use crate::dated_store::DatedStore;
use crate::kept_notes::KeptNotes;
use crate::line_fault::KeptLineFault;
use crate::opening::OpeningLimits;
use crate::played_lines::play_lines;
use scene_session::{LoneOwner, Performer};
use scene_shell::{AnswerStyle, KeptFault, StoreWriter, run_kept_shell};
use scene_streams::{Keep, KeptLines, KeptText};
use std::alloc::Global;
use std::io::{BufReader, Read, Write};
use std::time::Clock;

/// Where a store is.
///
/// The meaning that contracts use: `closes` says that a store was closed.
pub trait StorePlace {
    /// The store, as long as it is open.
    type Store: KeptLines + Drop;

    ghost use Rattle.std.specs.Prelude.{IfOk, OnOk};

    ghost closes: { Self.Store → Type 0 };

    /// Opens the store, or makes it where there is none.
    fn open(&self) -> Result<Self::Store, <Self::Store as Keep>::Fault>
        ensures { IfOk result Self.Store.is_store };

    /// Ends the use of the store.
    fn close(&self, store: Self::Store) -> Result<(), <Self::Store as Keep>::Fault>
        ensures { OnOk result (closes store) };
}

/// Why a shell on a store ended before its input did.
#[derive(Drop)]
pub enum StoreShellFault<F: Drop> {
    /// The store wasn't opened, or its lines weren't read, and the shell didn't begin.
    Unopened(F),
    /// The lines that were kept weren't played, and the shell didn't begin.
    Lines(KeptLineFault),
    /// The shell ended.
    Shell(KeptFault<F>),
    /// The shell came to its input's end, and then a checkpoint wasn't kept, or the store wasn't closed.
    Unclosed(F),
}

/// Reads the lines of a store that is open, and goes on behind them.
fn go_on<
    P: Performer<LoneOwner>,
    R: Read,
    W: Write + Drop,
    E: Write,
    S: KeptNotes + Drop,
    C: Clock,
>(
    performer: &P,
    alloc: Global,
    style: AnswerStyle,
    both: &mut StoreWriter<S, W>,
    limits: OpeningLimits,
    clock: &C,
    reader: &mut BufReader<R>,
    errors: &mut E,
) -> Result<u64, StoreShellFault<S::Fault>>
    requires { S.is_store both.old.store }
    ensures { GoesOn (record {
      is_store = S.is_store;
      keeps = S.keeps;
      plays = S.plays;
      contents = W.contents;
    }) (record {
      style = style;
      start = both.old.writer;
      script = reader_remaining R.remaining reader.old;
    }) both.new (reader_remaining R.remaining reader.new) result }
{
    let KeptText { calls, text } = match both.store.lines(alloc) {
        Ok(found) => found,
        Err(fault) => return Err(StoreShellFault::Unopened(fault)),
    };
    let mut played = match play_lines(performer, alloc, clock, calls, text.as_slice()) {
        Ok(played) => played,
        Err(fault) => return Err(StoreShellFault::Lines(fault)),
    };
    // The lines aren't held while the shell runs.
    drop(text);
    let behind = match end_opening(alloc, &mut both.store, &played, calls, limits, errors) {
        Ok(behind) => behind,
        Err(fault) => return Err(StoreShellFault::Unopened(fault)),
    };
    let bad_lines = match run_kept_shell(
        performer,
        alloc,
        &mut played.interpreter,
        style,
        both,
        reader,
        errors,
    ) {
        Ok(bad_lines) => bad_lines,
        Err(fault) => return Err(StoreShellFault::Shell(fault)),
    };
    match end_shell(alloc, &mut both.store, &mut played, behind, calls, limits) {
        Ok(()) => Ok(bad_lines),
        Err(fault) => Err(StoreShellFault::Unclosed(fault)),
    }
}

/// Opens a store, plays the lines that it kept, from its newest checkpoint on, answers each line of a reader behind them
/// and keeps it, as `run_kept_shell` does, with the moment beside it (`DatedStore`), and closes the store. It gives how
/// many lines of the reader were bad, and the writer back. Where the playing takes long, and where very many lines stand
/// behind the newest checkpoint at the input's end, another is kept behind them, and a long opening is told on the stream
/// of errors (docs/SHELL.md, "Checkpoints"); no clause says that one is. With honest checkpoints, as this keeps them, the
/// shell answers and keeps as one that has played all lines (`ends_as_all`).
///
/// It costs what the lines behind the checkpoint cost in a script, a load of its scene text, and then what the shell
/// costs. Refused: `Unopened`, and `Lines` as `replay` is refused, where nothing is read or written; `Shell` as
/// `run_kept_shell` is; and `Unclosed` behind the input's end, where all is answered and kept.
pub fn run_store_shell<
    P: Performer<LoneOwner>,
    R: Read,
    W: Write + Drop,
    E: Write,
    S: StorePlace,
    C: Clock,
>(
    performer: &P,
    alloc: Global,
    style: AnswerStyle,
    place: &S,
    limits: OpeningLimits,
    clock: &C,
    reader: &mut BufReader<R>,
    writer: W,
    errors: &mut E,
) -> (Result<u64, StoreShellFault<<S::Store as Keep>::Fault>>, W)
    ensures { EndsStored (record {
      is_store = λ store. S.Store.is_store store.store;
      keeps = KeepsDated {C = C} S.Store.keeps;
      plays = S.Store.plays;
      contents = W.contents;
    }) (λ store. S.closes store.store) (record {
      style = style;
      start = writer;
      script = reader_remaining R.remaining reader.old;
    }) result.1 (reader_remaining R.remaining reader.new) result.0 }
{
    let store = match place.open() {
        Ok(store) => DatedStore::over(alloc, clock, store),
        Err(fault) => return (Err(StoreShellFault::Unopened(fault)), writer),
    };
    let mut both = StoreWriter { store, writer };
    let ended = go_on(
        performer, alloc, style, &mut both, limits, clock, reader, errors,
    );
    let StoreWriter { store, writer } = both;
    match ended {
        Ok(bad_lines) => match place.close(store.into_inner()) {
            Ok(()) => (Ok(bad_lines), writer),
            Err(fault) => (Err(StoreShellFault::Unclosed(fault)), writer),
        },
        Err(fault) => {
            let _closed = place.close(store.into_inner());
            (Err(fault), writer)
        }
    }
}
