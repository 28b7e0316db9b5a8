//! Words, and what comes of them.
use crate::state::{busy, quiet, stopping};
use crate::told::told;
use jail_core::Core;
use std::alloc::Global;
use std::process::Abort;
use std::test::Fail;

/// Of no jail at all.
const EMPTY: [(&str, &str); 6] = [
    ("ping", "pong"),
    ("status", "Status\n|- Number of jail:\t0\n`- Jail list:\t"),
    ("banned", ""),
    ("unban --all", "0"),
    ("status sshd", "! Sorry but the jail 'sshd' does not exist"),
    ("reload", "OK"),
];

/// Of two jails in which nothing happened.
const QUIET: [(&str, &str); 32] = [
    (
        "status",
        "Status\n|- Number of jail:\t2\n`- Jail list:\tsshd, web",
    ),
    ("banned", "sshd: \nweb: "),
    (
        "status sshd",
        "Status for the jail: sshd\n|- Filter\n|  |- Currently failed:\t0\n|  |- Total failed:\t0\n\
         |  `- File list:\t/var/log/auth.log /var/log/a b.log\n`- Actions\n   |- Currently banned:\t0\n\
         \x20  |- Total banned:\t0\n   `- Banned IP list:\t",
    ),
    (
        "set sshd banip 192.0.2.7 192.0.2.7",
        "1 > Ban { jail: \"sshd\", addrs: [V4(3221225991)] }",
    ),
    ("set sshd unbanip 192.0.2.7", "0"),
    ("unban 192.0.2.7", "0"),
    (
        "set sshd attempt 192.0.2.7",
        "1 > Attempt { jail: \"sshd\", addr: V4(3221225991) }",
    ),
    ("get sshd banip", ""),
    ("get sshd ignoreip", "10.0.0.0/8 192.0.2.7 2001:db8::1"),
    ("get web ignoreip", ""),
    ("get sshd logpath", "/var/log/auth.log\n/var/log/a b.log"),
    ("get sshd failregex", "^x <HOST>$\n^y <HOST>$"),
    ("get sshd findtime", "600"),
    ("get sshd bantime", "600"),
    ("get sshd maxretry", "3"),
    ("set sshd findtime 10m", "600"),
    (
        "set sshd findtime 1h",
        "3600 > Findtime { jail: \"sshd\", secs: 3600 }",
    ),
    (
        "set sshd bantime -1",
        "-1 > Bantime { jail: \"sshd\", secs: -1 }",
    ),
    ("set sshd maxretry 3", "3"),
    (
        "set nojail banip 192.0.2.7",
        "! Sorry but the jail 'nojail' does not exist",
    ),
    (
        "set nojail unbanip 192.0.2.7",
        "! Sorry but the jail 'nojail' does not exist",
    ),
    (
        "set nojail attempt 192.0.2.7",
        "! Sorry but the jail 'nojail' does not exist",
    ),
    (
        "set nojail findtime 10m",
        "! Sorry but the jail 'nojail' does not exist",
    ),
    (
        "set nojail bantime -1",
        "! Sorry but the jail 'nojail' does not exist",
    ),
    (
        "set nojail maxretry 3",
        "! Sorry but the jail 'nojail' does not exist",
    ),
    (
        "get nojail banip",
        "! Sorry but the jail 'nojail' does not exist",
    ),
    (
        "get nojail ignoreip",
        "! Sorry but the jail 'nojail' does not exist",
    ),
    (
        "get nojail logpath",
        "! Sorry but the jail 'nojail' does not exist",
    ),
    (
        "get nojail failregex",
        "! Sorry but the jail 'nojail' does not exist",
    ),
    (
        "get nojail findtime",
        "! Sorry but the jail 'nojail' does not exist",
    ),
    (
        "get nojail bantime",
        "! Sorry but the jail 'nojail' does not exist",
    ),
    (
        "get nojail maxretry",
        "! Sorry but the jail 'nojail' does not exist",
    ),
];

/// Of masks and of whether a jail is idle.
const SET: [(&str, &str); 10] = [
    (
        "set sshd addignoreip 10.0.0.0/8",
        "10.0.0.0/8 192.0.2.7 2001:db8::1",
    ),
    (
        "set sshd addignoreip 10.0.0.0/9",
        "10.0.0.0/8 192.0.2.7 2001:db8::1 10.0.0.0/9 > Ignore { jail: \"sshd\", cidr: Cidr { base: V4(167772160), bits: 9 }, add: true }",
    ),
    (
        "set sshd delignoreip 192.0.2.7",
        "10.0.0.0/8 2001:db8::1 > Ignore { jail: \"sshd\", cidr: Cidr { base: V4(3221225991), bits: 32 }, add: false }",
    ),
    (
        "set sshd delignoreip 192.0.2.8",
        "10.0.0.0/8 192.0.2.7 2001:db8::1",
    ),
    ("set web idle on", "on > Idle { jail: \"web\", idle: true }"),
    ("set web idle off", "off"),
    (
        "set web maxretry 5",
        "5 > Maxretry { jail: \"web\", number: 5 }",
    ),
    ("set web bantime 600", "600"),
    (
        "set nojail addignoreip 10.0.0.0/8",
        "! Sorry but the jail 'nojail' does not exist",
    ),
    (
        "set nojail delignoreip 192.0.2.7",
        "! Sorry but the jail 'nojail' does not exist",
    ),
];

/// Of two jails with bans and failures.
const BUSY: [(&str, &str); 12] = [
    (
        "status sshd",
        "Status for the jail: sshd\n|- Filter\n|  |- Currently failed:\t2\n|  |- Total failed:\t3\n\
         |  `- File list:\t/var/log/auth.log /var/log/a b.log\n`- Actions\n   |- Currently banned:\t2\n\
         \x20  |- Total banned:\t2\n   `- Banned IP list:\t2001:db8::1 192.0.2.7",
    ),
    ("banned", "sshd: 2001:db8::1 192.0.2.7\nweb: 192.0.2.7"),
    ("get sshd banip", "2001:db8::1\n192.0.2.7"),
    (
        "set sshd banip 192.0.2.9 192.0.2.7 192.0.2.8 192.0.2.9",
        "2 > Ban { jail: \"sshd\", addrs: [V4(3221225993), V4(3221225992)] }",
    ),
    ("set sshd banip 192.0.2.7", "0"),
    (
        "set sshd unbanip 192.0.2.8 192.0.2.7",
        "1 > Unban { jail: Some(\"sshd\"), addrs: Some([V4(3221225992), V4(3221225991)]) }",
    ),
    ("set sshd attempt 192.0.2.7", "0"),
    (
        "unban 192.0.2.7",
        "2 > Unban { jail: None, addrs: Some([V4(3221225991)]) }",
    ),
    ("unban 192.0.2.8", "0"),
    ("unban --all", "3 > Unban { jail: None, addrs: None }"),
    ("stop", "Shutdown begun > Stop"),
    ("reload", "OK"),
];

/// The same once a stop was asked for.
const STOPPING: [(&str, &str); 18] = [
    ("ping", "pong"),
    ("stop", "Shutdown begun"),
    ("reload", "! Server is stopping"),
    ("unban --all", "! Server is stopping"),
    ("unban 192.0.2.8", "! Server is stopping"),
    ("set sshd findtime 10m", "! Server is stopping"),
    ("set sshd banip 192.0.2.9", "! Server is stopping"),
    ("set sshd unbanip 192.0.2.7", "! Server is stopping"),
    ("set sshd attempt 192.0.2.9", "! Server is stopping"),
    ("set sshd addignoreip 10.0.0.0/9", "! Server is stopping"),
    ("set sshd delignoreip 10.0.0.0/8", "! Server is stopping"),
    ("set sshd bantime -1", "! Server is stopping"),
    ("set web maxretry 5", "! Server is stopping"),
    ("set web idle on", "! Server is stopping"),
    (
        "set mail idle on",
        "! Sorry but the jail 'mail' does not exist",
    ),
    ("get sshd banip", "2001:db8::1\n192.0.2.7"),
    ("banned", "sshd: 2001:db8::1 192.0.2.7\nweb: 192.0.2.7"),
    (
        "status",
        "Status\n|- Number of jail:\t2\n`- Jail list:\tsshd, web",
    ),
];

pub(crate) fn are_told(
    rt: &impl Abort,
    alloc: Global,
    core: &Core,
    rows: &[(&str, &str)],
) -> Result<(), Fail> {
    for (line, want) in rows {
        assert_eq!(rt; told(alloc, core, 1500, line)?.as_str(), *want, "{line}");
    }
    Ok(())
}

#[test]
fn no_jail_is_told_of_before_the_first_configuration(rt: HostRuntime) -> Result<(), Fail> {
    are_told(&rt, rt.alloc(), &Core::empty(rt.alloc()), &EMPTY)
}

#[test]
fn what_changes_nothing_makes_no_input(rt: HostRuntime) -> Result<(), Fail> {
    let core = quiet(rt.alloc())?;
    are_told(&rt, rt.alloc(), &core, &QUIET)?;
    are_told(&rt, rt.alloc(), &core, &SET)
}

#[test]
fn bans_stand_in_the_order_in_which_they_began(rt: HostRuntime) -> Result<(), Fail> {
    are_told(&rt, rt.alloc(), &busy(rt.alloc())?, &BUSY)
}

#[test]
fn a_server_that_is_stopping_refuses_what_would_change_something(
    rt: HostRuntime,
) -> Result<(), Fail> {
    are_told(&rt, rt.alloc(), &stopping(rt.alloc())?, &STOPPING)
}

/// Failures at 1200 and 1300 of one address and at 1400 of another, of which those count that are less than 600 seconds old.
const LATELY: [(u64, &str); 4] = [(1000, "2"), (1899, "2"), (1900, "1"), (2000, "0")];

#[test]
fn addresses_that_failed_lately_are_counted_and_not_failures(rt: HostRuntime) -> Result<(), Fail> {
    let core = busy(rt.alloc())?;
    for (now, want) in &LATELY {
        let text = told(rt.alloc(), &core, *now, "status sshd")?;
        let line = text.as_str().lines().nth(2).unwrap_or("");
        let number = line.rsplit('\t').next().unwrap_or("");
        assert_eq!(&rt; number, *want, "{now}");
    }
    Ok(())
}
