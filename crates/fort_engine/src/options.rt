//! How a formula is decided.
ghost use Rattle.std.specs.Prelude.{◌≡◌, false};

/// How each part of a formula is decided.
#[derive(Clone, Copy, Debug, PartialEq, Eq)]
pub struct Options {
    /// The most states of a part's table before it is reduced.
    pub cap: u32,
    /// Whether each table is reduced: interchangeable tuples then have one state.
    pub reduces: bool,
    /// Whether the targets of tables are listed, as they are before a table is reduced.
    pub lists: bool,
}

impl Options {
    /// These, without targets.
    pub fn with(cap: u32, reduces: bool) -> Options
        ensures { result ≡ record { cap = cap; reduces = reduces; lists = false } }
    {
        Options {
            cap,
            reduces,
            lists: false,
        }
    }
}
