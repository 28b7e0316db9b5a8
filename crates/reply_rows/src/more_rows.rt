//! Words beside the table, and what comes of them.
use crate::details::{lasting, named_all};
use crate::rows::are_told;
use crate::state::{busy, quiet, stopping};
use jail_core::Core;
use std::alloc::Global;
use std::process::Abort;
use std::test::Fail;

/// Of no jail at all.
const EMPTY: [(&str, &str); 4] = [
    ("version", "0.1.0"),
    ("status --all", ""),
    ("banned 192.0.2.7 ::1", "192.0.2.7:\n::1:"),
    (
        "get sshd banip --with-time",
        "! Sorry but the jail 'sshd' does not exist",
    ),
];

/// Of two jails in which nothing happened.
const QUIET: [(&str, &str); 12] = [
    (
        "status --all",
        "Status for the jail: sshd\n|- Filter\n|  |- Currently failed:\t0\n|  |- Total failed:\t0\n\
         |  `- File list:\t/var/log/auth.log /var/log/a b.log\n`- Actions\n   |- Currently banned:\t0\n\
         \x20  |- Total banned:\t0\n   `- Banned IP list:\t\n\n\
         Status for the jail: web\n|- Filter\n|  |- Currently failed:\t0\n|  |- Total failed:\t0\n\
         |  `- File list:\t\n`- Actions\n   |- Currently banned:\t0\n\
         \x20  |- Total banned:\t0\n   `- Banned IP list:\t",
    ),
    ("get sshd banip --with-time", ""),
    ("get sshd ignoreregex", ""),
    ("get sshd datepattern", "Default Detectors"),
    ("get sshd maxmatches", "0"),
    ("get sshd bantime.increment", "false"),
    ("get sshd actions", ""),
    (
        "get nojail actions",
        "! Sorry but the jail 'nojail' does not exist",
    ),
    (
        "get nojail ignoreregex",
        "! Sorry but the jail 'nojail' does not exist",
    ),
    (
        "get nojail datepattern",
        "! Sorry but the jail 'nojail' does not exist",
    ),
    (
        "get nojail maxmatches",
        "! Sorry but the jail 'nojail' does not exist",
    ),
    (
        "get nojail bantime.increment",
        "! Sorry but the jail 'nojail' does not exist",
    ),
];

/// Of two jails with bans.
const BUSY: [(&str, &str); 4] = [
    (
        "banned 192.0.2.7 2001:db8::1 192.0.2.8 192.0.2.7",
        "192.0.2.7: sshd web\n2001:db8::1: sshd\n192.0.2.8:\n192.0.2.7: sshd web",
    ),
    ("banned ::ffff:192.0.2.7", "192.0.2.7: sshd web"),
    (
        "get sshd banip --with-time",
        "2001:db8::1 1100 1970-01-01T00:18:20+00:00 1700 1970-01-01T00:28:20+00:00\n\
         192.0.2.7 1100 1970-01-01T00:18:20+00:00 1700 1970-01-01T00:28:20+00:00",
    ),
    (
        "get web banip --with-time",
        "192.0.2.7 1100 1970-01-01T00:18:20+00:00 1700 1970-01-01T00:28:20+00:00",
    ),
];

/// The same once a stop was asked for.
const STOPPING: [(&str, &str); 3] = [
    ("version", "0.1.0"),
    ("banned 192.0.2.7", "192.0.2.7: sshd web"),
    ("get sshd actions", ""),
];

/// Of a jail that has much, beside one that has the name by which all are asked for.
const DETAILS: [(&str, &str); 6] = [
    ("get sshd ignoreregex", "^from <HOST> at home$\n^no$"),
    ("get sshd datepattern", "{^LN-BEG}%Y-%m-%d"),
    ("get sshd maxmatches", "5"),
    ("get sshd bantime.increment", "true"),
    ("get sshd actions", "nftables\nmail"),
    (
        "status --all",
        "Status for the jail: --all\n|- Filter\n|  |- Currently failed:\t0\n|  |- Total failed:\t0\n\
         |  `- File list:\t\n`- Actions\n   |- Currently banned:\t0\n\
         \x20  |- Total banned:\t0\n   `- Banned IP list:\t",
    ),
];

/// Of the same with a ban that never ends.
const LASTING: [(&str, &str); 2] = [
    (
        "get sshd banip --with-time",
        "192.0.2.7 1100 1970-01-01T00:18:20+00:00 1700 1970-01-01T00:28:20+00:00\n\
         2001:db8::1 1200 1970-01-01T00:20:00+00:00 never",
    ),
    ("get sshd banip", "192.0.2.7\n2001:db8::1"),
];

fn are_all_told(
    rt: &impl Abort,
    alloc: Global,
    rows: &[(&str, &str)],
    core: Core,
) -> Result<(), Fail> {
    are_told(rt, alloc, &core, rows)
}

#[test]
fn where_there_is_no_jail_nothing_is_listed(rt: HostRuntime) -> Result<(), Fail> {
    are_all_told(&rt, rt.alloc(), &EMPTY, Core::empty(rt.alloc()))
}

#[test]
fn what_is_not_set_is_told_so(rt: HostRuntime) -> Result<(), Fail> {
    are_all_told(&rt, rt.alloc(), &QUIET, quiet(rt.alloc())?)
}

#[test]
fn bans_are_told_with_their_times_and_addresses_with_their_jails(
    rt: HostRuntime,
) -> Result<(), Fail> {
    are_all_told(&rt, rt.alloc(), &BUSY, busy(rt.alloc())?)
}

#[test]
fn a_server_that_is_stopping_tells_of_itself(rt: HostRuntime) -> Result<(), Fail> {
    are_all_told(&rt, rt.alloc(), &STOPPING, stopping(rt.alloc())?)
}

#[test]
fn what_a_definition_has_is_told(rt: HostRuntime) -> Result<(), Fail> {
    are_all_told(&rt, rt.alloc(), &DETAILS, named_all(rt.alloc())?)
}

#[test]
fn a_ban_that_never_ends_is_told_so(rt: HostRuntime) -> Result<(), Fail> {
    are_all_told(&rt, rt.alloc(), &LASTING, lasting(rt.alloc())?)
}
