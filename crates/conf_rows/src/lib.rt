//! Whole configurations with what they come to: the texts of items, refusals of each kind, limits, and how a refusal prints.
//!
//! There is nothing here but tests: that what `jail_conf` is proved to do is what a user expects of it, row by row. Each goes through
//! a whole configuration, since nobody else reads an item.
//!
//! ```text
//! ("findtime = 0", "jail.conf|j|findtime|BadTime")     // an item of a jail, and what is told: file, section, item and kind
//! ```
#![tactic(auto)]

#[cfg(test)]
mod configurations;
#[cfg(test)]
mod items;
#[cfg(test)]
mod limits;
#[cfg(test)]
mod options;
#[cfg(test)]
mod patterns;
#[cfg(test)]
mod printed;
#[cfg(test)]
mod rows;
#[cfg(test)]
mod tags;
#[cfg(test)]
mod trees;
