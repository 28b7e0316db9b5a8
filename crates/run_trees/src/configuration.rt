//! `Configuration`, what is read of a tree.

use filter_regex::Filter;
use jail_conf::Settings;

/// A configuration, and a filter for each of its jails, in their order.
#[derive(Drop)]
pub struct Configuration {
    pub settings: Settings,
    pub filters: Vec<Filter>,
}
