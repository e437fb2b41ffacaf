//! The versions of a store.
ghost use Rattle.std.specs.Prelude.{◌≡◌};
ghost use Rattle.scene_store.specs.Head.{calls_of, head_of};

/// Which version a store is of, as its first line says (docs/SHELL.md, "A store").
#[derive(Clone, Copy, Debug, PartialEq, Eq)]
pub enum Version {
    /// Its first line is `# scene store 1`. It was made when each shell took at most 1,048,576 calls.
    First,
    /// Its first line is `# scene store 2`.
    Second,
}

impl Version {
    /// The version of a store that is made today.
    pub const NEWEST: Version = Version::Second;

    /// How many calls a shell on such a store takes: 1,048,576 for the first version, and for the second those that a
    /// counter of 64 bits counts.
    pub fn call_limit(self) -> u64
        ensures { result ≡ calls_of self }
    {
        match self {
            Version::First => 1_048_576,
            Version::Second => u64::MAX,
        }
    }

    /// The first line of such a store, which is a comment.
    pub(crate) fn head(self) -> &'static [u8]
        ensures { result.now ≡ head_of self }
    {
        match self {
            Version::First => b"# scene store 1\n",
            Version::Second => b"# scene store 2\n",
        }
    }
}
