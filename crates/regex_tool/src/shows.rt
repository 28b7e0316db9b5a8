//! What is shown of a test.

use crate::zone::Zone;

/// What is said first.
#[derive(Clone, Copy)]
pub(crate) enum Form {
    Report,
    /// A line for each failure: its address, its time, and the line of the log.
    Rows,
    /// The address of each failure.
    Addresses,
}

/// What is shown of a test.
#[derive(Clone, Copy)]
pub(crate) struct Shows {
    pub form: Form,
    /// Moments are shown as a clock of this zone has them.
    pub zone: Zone,
    /// Lines that a pattern of failures matched are shown with what was found in them.
    pub detail: bool,
    /// Behind that, all lines that a pattern of failures matched.
    pub matched: bool,
    /// Then those that were ignored.
    pub ignored: bool,
    /// And those that were missed.
    pub missed: bool,
}
