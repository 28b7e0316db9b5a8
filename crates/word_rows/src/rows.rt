//! Words, and what comes of them.
use crate::told::{told_of_line, told_of_words};
use std::alloc::Global;
use std::process::Abort;
use std::test::Fail;

const REQUESTS: [(&str, &str); 24] = [
    ("ping", "Ping"),
    ("status", "Status"),
    ("status sshd", "StatusOf { jail: \"sshd\" }"),
    ("banned", "Banned"),
    ("unban --all", "UnbanAll"),
    (
        "unban 192.0.2.7 ::1",
        "Unban { addrs: [V4(3221225991), V6(1)] }",
    ),
    ("reload", "Reload"),
    ("stop", "Stop"),
    (
        "set sshd banip 192.0.2.7 192.0.2.7",
        "SetBanip { jail: \"sshd\", addrs: [V4(3221225991), V4(3221225991)] }",
    ),
    (
        "set sshd unbanip ::ffff:192.0.2.7",
        "SetUnbanip { jail: \"sshd\", addrs: [V4(3221225991)] }",
    ),
    (
        "set sshd attempt 192.0.2.7",
        "SetAttempt { jail: \"sshd\", addr: V4(3221225991) }",
    ),
    (
        "set sshd addignoreip 10.255.0.1/8",
        "AddIgnore { jail: \"sshd\", cidr: Cidr { base: V4(167772160), bits: 8 } }",
    ),
    (
        "set sshd delignoreip 192.0.2.7",
        "DelIgnore { jail: \"sshd\", cidr: Cidr { base: V4(3221225991), bits: 32 } }",
    ),
    (
        "set sshd findtime 10m",
        "SetFindtime { jail: \"sshd\", secs: 600 }",
    ),
    (
        "set sshd bantime -1",
        "SetBantime { jail: \"sshd\", secs: -1 }",
    ),
    (
        "set sshd maxretry 003",
        "SetMaxretry { jail: \"sshd\", number: 3 }",
    ),
    ("set sshd idle on", "SetIdle { jail: \"sshd\", idle: true }"),
    ("get sshd banip", "GetBanip { jail: \"sshd\" }"),
    ("get sshd findtime", "GetFindtime { jail: \"sshd\" }"),
    ("get sshd bantime", "GetBantime { jail: \"sshd\" }"),
    ("get sshd maxretry", "GetMaxretry { jail: \"sshd\" }"),
    ("get sshd ignoreip", "GetIgnoreip { jail: \"sshd\" }"),
    ("get sshd logpath", "GetLogpath { jail: \"sshd\" }"),
    ("get sshd failregex", "GetFailregex { jail: \"sshd\" }"),
];

/// Words beside the table of those that fail2ban's own documents have.
const MORE_REQUESTS: [(&str, &str); 15] = [
    ("version", "Version"),
    ("status --all", "StatusAll"),
    ("status --al", "StatusOf { jail: \"--al\" }"),
    (
        "banned 192.0.2.7 ::ffff:192.0.2.7 ::1",
        "Holders { addrs: [V4(3221225991), V4(3221225991), V6(1)] }",
    ),
    (
        "get sshd banip --with-time",
        "GetBantimes { jail: \"sshd\" }",
    ),
    ("get sshd ignoreregex", "GetIgnoreregex { jail: \"sshd\" }"),
    ("get sshd datepattern", "GetDatepattern { jail: \"sshd\" }"),
    ("get sshd maxmatches", "GetMaxmatches { jail: \"sshd\" }"),
    (
        "get sshd bantime.increment",
        "GetIncrement { jail: \"sshd\" }",
    ),
    ("get sshd actions", "GetActions { jail: \"sshd\" }"),
    ("banned 192.0.2.7 localhost", "Bad address: word 3"),
    ("version now", "Wrong number of words"),
    ("get sshd actions nftables", "Wrong number of words"),
    ("get sshd! banip --with-time", "Bad jail name"),
    ("set sshd maxmatches 5", "Invalid command"),
];

/// What they leave as it was: with a word that is none of theirs, a command is refused as it is without them.
const AS_BEFORE: [(&str, &str); 8] = [
    ("banned localhost", "Wrong number of words"),
    ("banned 192.0.2.07 192.0.2.7", "Wrong number of words"),
    ("status --all --all", "Wrong number of words"),
    ("get sshd banip --with-times", "Wrong number of words"),
    (
        "get sshd banip --with-time 192.0.2.7",
        "Wrong number of words",
    ),
    ("get sshd ignoreip --with-time", "Wrong number of words"),
    ("get sshd bantime.factor", "Invalid command"),
    ("get --all banip", "GetBanip { jail: \"--all\" }"),
];

/// Values at their bounds.
const BOUNDS: [(&str, &str); 8] = [
    (
        "set sshd findtime 1",
        "SetFindtime { jail: \"sshd\", secs: 1 }",
    ),
    (
        "set sshd findtime 3153600000",
        "SetFindtime { jail: \"sshd\", secs: 3153600000 }",
    ),
    (
        "set sshd bantime 1",
        "SetBantime { jail: \"sshd\", secs: 1 }",
    ),
    (
        "set sshd bantime -3153600000",
        "SetBantime { jail: \"sshd\", secs: -3153600000 }",
    ),
    (
        "set sshd maxretry 1",
        "SetMaxretry { jail: \"sshd\", number: 1 }",
    ),
    (
        "set sshd maxretry 100000",
        "SetMaxretry { jail: \"sshd\", number: 100000 }",
    ),
    (
        "set sshd idle off",
        "SetIdle { jail: \"sshd\", idle: false }",
    ),
    (
        "status 0123456789-123456789_123456789.123456789-123456789_123456789.123",
        "StatusOf { jail: \"0123456789-123456789_123456789.123456789-123456789_123456789.123\" }",
    ),
];

/// Words that name no command, whatever else is wrong with them.
const UNKNOWN: [&str; 12] = [
    "",
    "pong",
    "PING",
    "--all",
    "pong 1.2.3",
    "set sshd nothing",
    "set ! nothing 1.2.3",
    "set sshd logpath /var/log/auth.log",
    "set sshd idle maybe",
    "set sshd idle maybe y",
    "get sshd nothing",
    "get sshd attempt",
];

/// Commands of too few words or too many, whatever else is wrong with them.
const WRONG_COUNT: [&str; 33] = [
    "ping ping",
    "status sshd sshd",
    "status ! !",
    "banned sshd",
    "unban",
    "reload now",
    "stop now",
    "set",
    "set sshd",
    "set ! banip",
    "set sshd unbanip",
    "set sshd attempt",
    "set sshd attempt 192.0.2.7 192.0.2.8",
    "set ! addignoreip",
    "set sshd addignoreip 10.0.0.0/8 10.0.0.0/33",
    "set sshd delignoreip",
    "set sshd findtime 1h 30m",
    "set sshd bantime",
    "set sshd maxretry 5 x",
    "set x idle on y",
    "set x idle",
    "get",
    "get sshd",
    "get sshd banip 192.0.2.7",
    "get sshd findtime 10m",
    "get sshd bantime bantime",
    "get sshd maxretry 3",
    "get sshd logpath /var/log/auth.log",
    "get sshd failregex ^x",
    "get sshd ignoreregex ^x",
    "get sshd datepattern %Y",
    "get ! maxmatches 5",
    "get ! bantime.increment true",
];

/// Names that no jail can have, whatever is wrong with a value behind them.
const BAD_NAMES: [&str; 24] = [
    "status ",
    "status ssh/d",
    "status 0123456789-123456789_123456789.123456789-123456789_123456789.1234",
    "get sshd! banip",
    "set sshd! banip 1.2.3",
    "set \u{e9} findtime 5q",
    "set sshd! unbanip 1.2.3",
    "set ssh/d attempt 1.2.3",
    "set  addignoreip 10.0.0.0/33",
    "set sshd! delignoreip 10.0.0.0/08",
    "set ssh/d bantime 5q",
    "set sshd! maxretry 0",
    "set  idle on",
    "get sshd! findtime",
    "get ssh/d bantime",
    "get sshd! maxretry",
    "get  ignoreip",
    "get sshd! logpath",
    "get ssh/d failregex",
    "get sshd! ignoreregex",
    "get \u{e9} datepattern",
    "get sshd! maxmatches",
    "get ssh/d bantime.increment",
    "get  actions",
];

/// Words that are no value, and what is told of them.
const BAD_VALUES: [(&str, &str); 26] = [
    ("unban --all 1.2.3.4", "Bad address: word 2"),
    ("unban 1.2.3.4 --all", "Bad address: word 3"),
    ("unban localhost", "Bad address: word 2"),
    ("set nojail banip 1.2.3", "Bad address: word 4"),
    ("set sshd banip 1.2.3.4 1.2.3 1", "Bad address: word 5"),
    ("set sshd banip 192.0.2.07", "Bad address: word 4"),
    ("set sshd unbanip 10.0.0.0/8", "Bad address: word 4"),
    ("set sshd attempt 1::2::3", "Bad address: word 4"),
    ("set sshd addignoreip 10.0.0.0/33", "Bad address: word 4"),
    ("set sshd addignoreip 10.0.0.0/08", "Bad address: word 4"),
    ("set sshd delignoreip ", "Bad address: word 4"),
    ("set sshd findtime 5q", "Bad number"),
    ("set sshd findtime 0", "Bad number"),
    ("set sshd findtime -1", "Bad number"),
    ("set sshd findtime ", "Bad number"),
    ("set sshd findtime 3153600001", "Bad number"),
    ("set sshd bantime 0", "Bad number"),
    ("set sshd bantime 0d", "Bad number"),
    ("set sshd bantime -", "Bad number"),
    ("set sshd bantime 101y", "Bad number"),
    ("set sshd maxretry 0", "Bad number"),
    ("set sshd maxretry 100001", "Bad number"),
    ("set sshd maxretry 10m", "Bad number"),
    ("set sshd maxretry +5", "Bad number"),
    ("set sshd maxretry ", "Bad number"),
    ("set sshd maxretry 18446744073709551617", "Bad number"),
];

/// Blanks in a word.
const WITH_BLANKS: [(&[&str], &str); 7] = [
    (&[], "Wrong number of words"),
    (&["ping "], "Invalid command"),
    (&["status", "ssh d"], "Bad jail name"),
    (&["unban", " 192.0.2.7"], "Bad address: word 2"),
    (
        &["set", "sshd", "bantime", "\t1h 30m "],
        "SetBantime { jail: \"sshd\", secs: 5400 }",
    ),
    (
        &["set", "sshd", "maxretry", " 5\t"],
        "SetMaxretry { jail: \"sshd\", number: 5 }",
    ),
    (&["set", "sshd", "maxretry", "5 5"], "Bad number"),
];

fn are_told(rt: &impl Abort, alloc: Global, rows: &[(&str, &str)]) -> Result<(), Fail> {
    for (line, want) in rows {
        assert_eq!(rt; told_of_line(alloc, line)?.as_str(), *want, "{line}");
    }
    Ok(())
}

fn are_refused(rt: &impl Abort, alloc: Global, lines: &[&str], want: &str) -> Result<(), Fail> {
    for line in lines {
        assert_eq!(rt; told_of_line(alloc, line)?.as_str(), want, "{line}");
    }
    Ok(())
}

fn are_told_of_words(rt: &impl Abort, alloc: Global, rows: &[(&[&str], &str)]) -> Result<(), Fail> {
    for (words, want) in rows {
        assert_eq!(rt; told_of_words(alloc, words)?.as_str(), *want, "{words:?}");
    }
    Ok(())
}

#[test]
fn each_command_is_its_request(rt: HostRuntime) -> Result<(), Fail> {
    are_told(&rt, rt.alloc(), &REQUESTS)
}

#[test]
fn each_further_command_is_its_request(rt: HostRuntime) -> Result<(), Fail> {
    are_told(&rt, rt.alloc(), &MORE_REQUESTS)
}

#[test]
fn further_commands_leave_the_others_as_they_are(rt: HostRuntime) -> Result<(), Fail> {
    are_told(&rt, rt.alloc(), &AS_BEFORE)
}

#[test]
fn values_are_taken_up_to_their_bounds(rt: HostRuntime) -> Result<(), Fail> {
    are_told(&rt, rt.alloc(), &BOUNDS)
}

#[test]
fn words_that_name_nothing_are_refused_first(rt: HostRuntime) -> Result<(), Fail> {
    are_refused(&rt, rt.alloc(), &UNKNOWN, "Invalid command")
}

#[test]
fn then_a_wrong_count_is(rt: HostRuntime) -> Result<(), Fail> {
    are_refused(&rt, rt.alloc(), &WRONG_COUNT, "Wrong number of words")
}

#[test]
fn then_a_name_is(rt: HostRuntime) -> Result<(), Fail> {
    are_refused(&rt, rt.alloc(), &BAD_NAMES, "Bad jail name")
}

#[test]
fn and_then_the_first_bad_value(rt: HostRuntime) -> Result<(), Fail> {
    are_told(&rt, rt.alloc(), &BAD_VALUES)
}

#[test]
fn blanks_count_in_times_and_numbers_alone(rt: HostRuntime) -> Result<(), Fail> {
    are_told_of_words(&rt, rt.alloc(), &WITH_BLANKS)
}
