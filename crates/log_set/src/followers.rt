//! Logs that go on as they were followed before.
ghost use Rattle.std.specs.Prelude.{◌≡◌, position};
ghost use Rattle.log_set.specs.Followers.{is_same, taken_over, taken_over_by};

use crate::log::Log;

// The place of the first log of the same jail and path.
fn place_of(logs: &[Log], old: &Log) -> Option<usize>
    ensures { result ≡ position (is_same old.now) logs.now }
{
    logs.iter()
        .position(|log| log.jail == old.jail && log.path == old.path)
}

// Lets the first log of the same jail and path go on as the old one was followed, if there is one.
fn take_over(logs: &mut [Log], old: Log)
    ensures { logs.new ≡ taken_over_by old logs.old }
{
    if let Some(place) = place_of(logs, &old) {
        let log = &mut logs[place];
        log.follower = old.follower;
    }
}

/// Lets each log go on as the old one of the same jail and path was followed.
pub(crate) fn go_on(logs: &mut [Log], old: Vec<Log>)
    ensures { logs.new ≡ taken_over old.items logs.old }
{
    for log in old {
        take_over(logs, log);
    }
}
