//! What is seen in a line.

use crate::zone::Zone;
use date_detect::Found;
use filter_regex::Finding;

/// What is seen in a line.
#[derive(Clone, Copy)]
pub(crate) struct Seen {
    pub finding: Finding,
    /// Its date, where dates are to be shown.
    pub date: Option<Found>,
    /// The other zone in which the line's date is of the last minute, where it is too old, or to come, by whole half hours.
    pub other: Option<Zone>,
}
