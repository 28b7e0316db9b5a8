//! Why a pattern is refused.

/// Why a pattern is refused. The first four are looked for before any pattern is built.
#[derive(Clone, Copy, Debug, PartialEq, Eq)]
pub enum ToolKind {
    /// It has more than 8,192 bytes.
    TooLong,
    /// It is no date pattern.
    BadDate,
    /// A pattern of failures finds no host.
    NoHost,
    /// A pattern finds more than one.
    TwoHosts,
    /// Its text is no pattern.
    Syntax,
    /// It would take too much room. The outside has counted that.
    TooBig,
}
