//! `Totals`: what happened in a jail in numbers.

/// What happened in a jail since it was first taken, and whether it is idle.
#[derive(Clone, Copy, Debug, PartialEq, Eq)]
pub struct Totals {
    /// Whether the jail's logs are not looked at.
    pub idle: bool,
    /// How many failures were counted. Stays at the greatest number.
    pub failed: u64,
    /// How many bans began. Stays at the greatest number.
    pub banned: u64,
}
