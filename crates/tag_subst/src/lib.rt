//! Tags in texts: the static ones, which stand for items of a configuration, and the dynamic ones, which stand for a ban's values.
//!
//! A tag is a `<`, a name and a `>`. `substitute` replaces the static tags of a text when a definition is read, and tells the first
//! fault from the left. `render` fills in the dynamic ones when a job is made. `escape` makes any text safe to stand in a command's
//! quotes. Nothing here runs a command, or knows what an item is good for.
//!
//! ```text
//! substitute(alloc, "<b>", &items, &scope)?               // with a = 1 and b = <a>: 1
//! render(alloc, "drop <ip> # <failures>", &fill)?         // drop 192.0.2.7 # 3
//! escape(alloc, "a;b $c")?                                // a_b _c
//! ```
#![tactic(auto)]

mod addresses;
mod escapes;
mod groups;
mod laws;
mod names;
mod renders;
mod settled;
mod substitutes;
mod tag_error;
mod tag_values;

pub use escapes::escape;
pub use laws::tag_law;
pub use renders::render;
pub use substitutes::substitute;
pub use tag_error::TagError;
