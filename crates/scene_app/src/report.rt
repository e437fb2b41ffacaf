//! The bad lines of a script.
ghost use Rattle.std.specs.Prelude.{◌≡◌, ◌+◌, ◌<◌, ◌≤◌, ◌^◌, OnOk};
ghost use Rattle.scene_interpreter.specs.Printed.{reports_at};
ghost use Rattle.scene_app.specs.Reports.{no_bad_lines};
ghost use Rattle.scene_app.specs.Steps.{noted, noted_one};

use scene_interpreter::BadLineReport;
use scene_script::BadLine;
use std::alloc::{AllocError, Global};
use std::marker::Model;

/// How many bad lines are told with their reasons; the rest are counted.
const MOST_REPORTS: usize = 10;

/// The bad lines so far: how many, and the first ten.
#[derive(Debug, Drop)]
pub(crate) struct Reports {
    count: usize,
    first: Vec<BadLineReport>,
}

impl Model for Reports {
    ghost use Rattle.scene_app.specs.Reports.{Tally};

    ghost Value = { Tally };

    ghost view = { λ r. record { count = r.count; first = r.first.items } };
}

impl Reports {
    /// No bad line.
    pub(crate) fn new(alloc: Global) -> Self
        ensures { result ≡ no_bad_lines }
    {
        Reports {
            count: 0,
            first: Vec::new(alloc),
        }
    }

    /// Notes a bad line.
    fn add(&mut self, line: usize, reason: BadLine) -> Result<(), AllocError>
        requires { self.old.count + 1 < 2 ^ 64 }
        ensures { OnOk result (self.new ≡ noted_one self.old (record { line = line; reason = reason })) }
    {
        if self.first.len() < MOST_REPORTS {
            self.first.push(BadLineReport { line, reason })?;
        }
        self.count += 1;
        Ok(())
    }

    /// Notes a line where it is bad.
    pub(crate) fn note(&mut self, line: usize, bad: Option<BadLine>) -> Result<(), AllocError>
        requires { self.old.count + 1 < 2 ^ 64 }
        ensures noted { OnOk result (self.new ≡ noted self.old (reports_at line bad)) }
        ensures few { OnOk result (self.new.count ≤ self.old.count + 1) }
    {
        match bad {
            None => Ok(()),
            Some(reason) => self.add(line, reason),
        }
    }

    /// How many bad lines there are.
    pub(crate) fn count(&self) -> usize
        ensures { result ≡ self.now.count }
    {
        self.count
    }

    /// The first ten bad lines.
    pub(crate) fn into_first(self) -> Vec<BadLineReport>
        ensures { result.items ≡ self.first }
    {
        let Reports { first, .. } = self;
        first
    }
}
