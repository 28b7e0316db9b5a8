//! What kinds of calls there are.
use f2b_world::Event;

/// What kind of call an event is.
#[derive(Clone, Copy, Debug, PartialEq, Eq)]
pub(crate) enum Kind {
    /// The configuration is read.
    Config,
    /// A pattern is built.
    Make,
    /// A directory is listed.
    Names,
    Listen,
    Disk,
    Say,
    Look,
    Start,
    Poll,
    Accept,
    /// A client is read.
    Read,
    /// One is written to.
    Write,
    /// A call that has no fault.
    Sure,
}

pub(crate) fn kind_of(event: &Event) -> Kind {
    match event {
        Event::Config { .. } => Kind::Config,
        Event::Make { .. } => Kind::Make,
        Event::Names { .. } => Kind::Names,
        Event::GateListen { .. } => Kind::Listen,
        Event::Say { .. } => Kind::Say,
        Event::Look { .. } => Kind::Look,
        Event::ChildStart { .. } => Kind::Start,
        Event::ChildPoll { .. } => Kind::Poll,
        Event::GateAccept { .. } => Kind::Accept,
        Event::GateRead { .. } => Kind::Read,
        Event::GateWrite { .. } => Kind::Write,
        Event::DiskLen { .. }
        | Event::DiskRead { .. }
        | Event::DiskWrite { .. }
        | Event::DiskSync { .. } => Kind::Disk,
        Event::Clock { .. }
        | Event::StoreAt { .. }
        | Event::ChildKill { .. }
        | Event::GateClose { .. }
        | Event::Pause { .. } => Kind::Sure,
    }
}
