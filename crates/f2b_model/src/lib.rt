//! What the server means: the state, the step that each input makes, what a step tells, and the jobs that it orders.
//!
//! The definitions stand in `specs/` and are what contracts of other crates cite. A `State` forgets nothing of the jails that it has, and
//! no job: it keeps every failure that counted and every ban, with marks, and every job with all its endings. A `Now` is its middle
//! state: what still matters of it, which is what code keeps. A `View` is a `Now` as it is stored over a stop. One step is defined once,
//! over either of the first two.
//!
//! The model has two halves. The jails (`JailsState`, `jails_step`) have failures, bans, ignore lists and places of logs, and know of no
//! lane. The lanes (`Lanes`, `lanes_step`) have jobs, and know of no jail: they take what a step of the jails told, and which bans are
//! active. `Whole` joins both.
//!
//! The laws in `laws.rt` and `job_laws.rt` say that the steps agree, what soundness and which bounds they keep, when an address is full,
//! that a view is all that matters however often the server is stopped, that in each epoch of a lane the bans and unbans of an address go
//! in turn, that the first job of a lane stays first until it is settled or voided, and that starts that fail come to an end.
//!
//! But for copies and comparisons, no function here does anything.
//!
//! ```text
//! step s input             the State after an input
//! step_now n input         the Now after it, which is what code keeps: that of the State after it
//! told s input             what the step tells, for lines and for lanes
//! steps s inputs           the State after some inputs, one after the other
//! ```
#![tactic(auto)]

mod fill;
mod happening;
mod jail_bans;
mod jail_now;
mod job_laws;
mod lane_happening;
mod laws;
mod told;

pub use fill::Fill;
pub use happening::Happening;
pub use jail_bans::JailBans;
pub use jail_now::JailNow;
pub use job_laws::{job_law, render_law};
pub use lane_happening::LaneHappening;
pub use laws::{full_law, jails_law, whole_law};
pub use told::Told;
