//! Hosts in patterns of lines: a user's pattern has tags such as `<HOST>`, and each stands for groups that a match fills.
//!
//! A tag is a `<`, its name and a `>`. A `<` right after `(?` or `(?P` begins a group of the pattern itself, and no tag. So
//! `\(?<HOST>` has no tag: it is written `[(]?<HOST>`. What is no tag of this table stays as it is written. Nothing here knows a line.
//!
//! ```text
//! hosts("from <HOST>$")                                                   // 1
//! expand(alloc, "from <HOST>$")?                                          // with a group for each of the three kinds of hosts
//! host_of(HostGroups { ip4: Some("192.0.2.7"), ip6: None, name: None })   // that address
//! ```
#![tactic(auto)]

mod host;
mod pattern;
mod tag;

pub use host::{HostGroups, host_of};
pub use pattern::{expand, hosts};
