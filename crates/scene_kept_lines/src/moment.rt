//! When lines were kept.
use jiff::Timestamp;
use std::alloc::{AllocError, Global};
use std::fmt;
use std::time::{Clock, SystemTime, UNIX_EPOCH};

/// With which the comment begins that says when the lines behind it were kept.
const MARK: &str = "# at ";

/// When lines were kept, where that is known: by the seconds since 1970. `Display` says it to the second, in UTC, or
/// else has a hyphen.
#[derive(Clone, Copy, Debug, PartialEq, Eq)]
pub(crate) struct Moment {
    pub(crate) seconds: Option<u64>,
}

impl Moment {
    /// The moment of lines that don't say it.
    pub(crate) fn unknown() -> Self {
        Moment { seconds: None }
    }

    /// That of a clock, or the unknown one where it can't be read.
    pub(crate) fn now<C: Clock>(clock: &C) -> Self {
        let Ok(now) = SystemTime::now(clock) else {
            return Moment::unknown();
        };
        match now.duration_since(UNIX_EPOCH) {
            Ok(since) => Moment {
                seconds: Some(since.as_secs()),
            },
            Err(_) => Moment::unknown(),
        }
    }

    /// The comment that says it, as a line without its line break: `# at 1796048753`, or `# at -` of the unknown one.
    pub(crate) fn comment(&self, alloc: Global) -> Result<String, AllocError> {
        match self.seconds {
            Some(seconds) => Ok(format!(in alloc; "{MARK}{seconds}")?),
            None => Ok(format!(in alloc; "{MARK}-")?),
        }
    }

    /// What the comment says that a line is, if it is one. No line that a shell keeps is.
    pub(crate) fn said_by(line: &[u8]) -> Option<Self> {
        let said = str::from_utf8(line).ok()?.strip_prefix(MARK)?;
        if said == "-" {
            return Some(Moment::unknown());
        }
        match said.parse::<u64>() {
            Ok(seconds) => Some(Moment {
                seconds: Some(seconds),
            }),
            Err(_) => None,
        }
    }

    /// The instant of it, where it is known and has a date.
    fn instant(&self) -> Option<Timestamp> {
        let seconds = i64::try_from(self.seconds?).ok()?;
        Timestamp::from_second(seconds).ok()
    }
}

impl fmt::Display for Moment {
    fn fmt<W: fmt::Write>(&self, f: &mut fmt::Formatter<W>) -> fmt::Result {
        match self.instant() {
            Some(instant) => write!(f, "{instant}"),
            None => f.write_str("-"),
        }
    }
}
