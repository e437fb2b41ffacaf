//! A store that says when its lines were kept.
ghost use Rattle.std.specs.Prelude.{◌≡◌, ◌++◌, IfOk, IfSome, false};
ghost use Rattle.scene_kept_lines.specs.Dated.{EndsLine, IsDated};
ghost use Rattle.scene_shell.specs.Kept.{ended};

use crate::comment::{end_within, is_comment};
use crate::kept_notes::KeptNotes;
use crate::moment::Moment;
use crate::new_lines::NewLines;
use scene_shell::push_kept_line;
use scene_streams::{Keep, KeptLines, KeptText};
use std::alloc::{AllocError, Global};
use std::time::Clock;

/// A store that keeps the moment beside the lines of a shell (docs/SHELL.md, "A store"): before lines stands a comment,
/// as `# at 1796048753`, which has the second in which they are kept, where that isn't the one before it. To an
/// interpreter a comment says nothing, so the lines play as they would without.
///
/// Lines whose comment finds no memory are kept without.
#[derive(Drop)]
pub struct DatedStore<'a, S, C> {
    /// What keeps the lines with their comments.
    pub store: S,
    clock: &'a C,
    alloc: Global,
    /// What the last comment said that was kept here.
    moment: Option<Moment>,
    /// Whether what is kept may end within a line, so that no comment can stand behind it.
    pub ends_within: bool,
    /// What the shell has kept.
    new_lines: NewLines,
}

impl<'a, S, C: Clock> DatedStore<'a, S, C> {
    /// A store over another that is open, which no comment was kept in since.
    pub fn over(alloc: Global, clock: &'a C, store: S) -> Self
        ensures { result.store ≡ store }
    {
        DatedStore {
            store,
            clock,
            alloc,
            moment: None,
            ends_within: false,
            new_lines: NewLines::none(alloc),
        }
    }

    /// The other one, without what was noted of it.
    pub fn into_inner(self) -> S
        ensures { result ≡ self.entry.store }
    {
        self.store
    }
}

/// Lines behind a comment.
fn behind(alloc: Global, comment: &[u8], lines: &[u8]) -> Result<Vec<u8>, AllocError>
    ensures { IfOk result (λ dated. dated.items ≡ ended comment.now ++ lines.now) }
{
    let mut dated = Vec::new(alloc);
    push_kept_line(&mut dated, comment)?;
    dated.extend_from_slice(lines)?;
    Ok(dated)
}

/// Lines behind the comment of a moment; `Ok(None)` where that is no comment.
fn dated(alloc: Global, moment: Moment, lines: &[u8]) -> Result<Option<Vec<u8>>, AllocError>
    ensures { IfOk result (λ dated. IfSome dated (λ all. IsDated lines.now all.items)) }
{
    let comment = moment.comment(alloc)?;
    if !is_comment(comment.as_bytes()) {
        return Ok(None);
    }
    let all = behind(alloc, comment.as_bytes(), lines)?;
    Ok(Some(all))
}

/// Whether a text may end within a line, which may have done so, and of which this is the end.
fn may_end_within(before: bool, end: &[u8]) -> bool
    ensures before { result ≡ false → before ≡ false }
    ensures end { result ≡ false → EndsLine end.now }
{
    before || end_within(end)
}

impl<'a, S, C: Clock> DatedStore<'a, S, C> {
    /// Lines behind the comment of a moment, where it has to be said, and can.
    fn dated(&self, moment: Moment, lines: &[u8]) -> Option<Vec<u8>>
        ensures { IfSome result (λ all. (self.now.ends_within ≡ false) × IsDated lines.now all.items) }
    {
        if self.ends_within || self.moment == Some(moment) {
            return None;
        }
        match dated(self.alloc, moment, lines) {
            Ok(dated) => dated,
            Err(AllocError) => None,
        }
    }
}

impl<'a, S: KeptLines + Drop, C: Clock> Keep for DatedStore<'a, S, C> {
    type Fault = S::Fault;

    ghost use Rattle.scene_kept_lines.specs.Dated.{KeepsDated};

    ghost keeps = { KeepsDated S.keeps };

    fn keep(&mut self, lines: &[u8]) -> Result<(), S::Fault> {
        let moment = Moment::now(self.clock);
        let dated = self.dated(moment, lines);
        self.ends_within = may_end_within(self.ends_within, lines);
        self.new_lines.note(lines);
        match dated {
            Some(all) => {
                self.moment = Some(moment);
                self.store.keep(all.as_slice())
            }
            None => self.store.keep(lines),
        }
    }
}

impl<'a, S: KeptLines + Drop, C: Clock> KeptLines for DatedStore<'a, S, C> {
    ghost is_store = { λ s. S.is_store s.store };

    ghost plays = { S.plays };

    fn lines(&mut self, alloc: Global) -> Result<KeptText, S::Fault> {
        match self.store.lines(alloc) {
            Ok(found) => {
                self.ends_within = may_end_within(self.ends_within, found.text.as_slice());
                Ok(found)
            }
            Err(fault) => Err(fault),
        }
    }
}

impl<'a, S: KeptLines + Drop, C: Clock> KeptNotes for DatedStore<'a, S, C> {
    fn new_lines(&self) -> &NewLines {
        &self.new_lines
    }

    #[tactic(auto, using(crate::proofs::Scans::stays_noted))]
    fn note(&mut self, notes: &[u8]) -> Result<(), S::Fault> {
        if self.ends_within {
            return Ok(());
        }
        self.store.keep(notes)
    }
}
