//! Lines with dates, prefixes and ignored parts.
use super::*;

const NOW: u64 = 1_700_000_110;

const AT: u64 = 1_700_000_100;

const SSHD: Parts<'static> = Parts {
    dated: Dated::Epoch,
    pref: r"^\s*\S+ sshd(?:-session)?\[[0-9]+\]: <F-CONTENT>.+</F-CONTENT>$",
    fail: r"^Failed \S+ for (?:invalid user )?<F-USER>.*</F-USER> from <HOST> port [0-9]+(?: ssh2)?$
^Invalid user <F-USER>.*</F-USER> from <HOST>(?: port [0-9]+)?$
^Connection closed by authenticating user <F-USER>.*</F-USER> <HOST> port [0-9]+ \[preauth\]$",
    ignore_lines: "^ backup \nfor probe from",
};

const LINES_OF_SSHD: [(&str, Finding); 13] = [
    (
        "1700000100 a sshd[12]: Failed password for root from 192.0.2.7 port 22 ssh2",
        Finding::Failure {
            addr: SEVEN,
            time: AT,
            index: 1,
        },
    ),
    (
        "1700000100 a sshd[12]: Failed none for invalid user x from 10.1.1.1 port 1 ssh2 from 192.0.2.7 port 22",
        Finding::Failure {
            addr: SEVEN,
            time: AT,
            index: 1,
        },
    ),
    (
        "1700000100 a sshd-session[7]: Invalid user admin from 2001:db8::7 port 4",
        Finding::Failure {
            addr: Addr::V6(0x2001_0db8_0000_0000_0000_0000_0000_0007),
            time: AT,
            index: 2,
        },
    ),
    (
        "1700000100 a sshd[7]: Connection closed by authenticating user root 192.0.2.9 port 22 [preauth]",
        Finding::Failure {
            addr: Addr::V4(0xC000_0209),
            time: AT,
            index: 3,
        },
    ),
    (
        "1700000100 a sshd[7]: Accepted password for root from 192.0.2.7 port 22 ssh2",
        Finding::Missed,
    ),
    (
        "1700000100 a cron[7]: Failed password for root from 192.0.2.7 port 22",
        Finding::Missed,
    ),
    (
        "1700000100 a sshd[7]: Invalid user a from host.example.org",
        Finding::NameOnly(2),
    ),
    (
        "1700000100 a sshd[7]: Invalid user a from ::ffff:10.0.0.1",
        Finding::IgnoredAddr(2),
    ),
    (
        "1700000100 backup sshd[7]: Invalid user a from 192.0.2.7",
        Finding::Ignored(1),
    ),
    (
        "1700000100 a sshd[7]: Failed password for probe from 192.0.2.7 port 22",
        Finding::Ignored(2),
    ),
    // Ignored comes before the missing date, and that before the prefix.
    ("x for probe from", Finding::Ignored(2)),
    ("a sshd[7]: Invalid user a from 192.0.2.7", Finding::NoDate),
    // The date may stand anywhere.
    (
        "a sshd[7]: Invalid user 1700000100.25 from 192.0.2.7",
        Finding::Failure {
            addr: SEVEN,
            time: AT,
            index: 2,
        },
    ),
];

/// Rows of a line and what a searcher finds in it.
fn are_found(
    rt: &impl Abort,
    searcher: &mut Searcher<'_>,
    ignore: &IgnoreSet,
    rows: &[(&str, Finding)],
) -> Result<(), NoMemory> {
    for &(line, finding) in rows {
        same(rt, line, searcher.found(ignore, line, NOW, 600)?, finding);
    }
    Ok(())
}

/// The same, of a filter and the masks of hosts that are never banned.
fn filter_finds(
    rt: &impl Abort,
    alloc: Global,
    filter: &Filter,
    masks: &str,
    rows: &[(&str, Finding)],
) -> Result<(), NoMemory> {
    let ignore = ignoring(rt, alloc, masks)?;
    let mut searcher = filter.searcher(alloc)?;
    are_found(rt, &mut searcher, &ignore, rows)
}

#[test]
fn lines_of_sshd(rt: HostRuntime) -> Result<(), NoMemory> {
    let filter = filter(&rt, rt.alloc(), &SSHD)?;
    let masks = "10.0.0.0/8\n::1";
    filter_finds(&rt, rt.alloc(), &filter, masks, &LINES_OF_SSHD)
}

const LINE: &str = "1700000100 fail from 192.0.2.7";

const EARLY: &str = "0000000000 fail from 192.0.2.7";

const TIMES: [(&str, u64, u64, Finding); 8] = [
    (
        LINE,
        1_700_000_110,
        600,
        Finding::Failure {
            addr: SEVEN,
            time: 1_700_000_100,
            index: 1,
        },
    ),
    (
        LINE,
        1_700_000_699,
        600,
        Finding::Failure {
            addr: SEVEN,
            time: 1_700_000_100,
            index: 1,
        },
    ),
    (LINE, 1_700_000_700, 600, Finding::TooOld(1)),
    (
        LINE,
        1_700_000_090,
        600,
        Finding::Failure {
            addr: SEVEN,
            time: 1_700_000_090,
            index: 1,
        },
    ),
    (LINE, 1_700_000_100, 0, Finding::TooOld(1)),
    (
        LINE,
        1_700_000_110,
        u64::MAX,
        Finding::Failure {
            addr: SEVEN,
            time: 1_700_000_100,
            index: 1,
        },
    ),
    (
        EARLY,
        599,
        600,
        Finding::Failure {
            addr: SEVEN,
            time: 0,
            index: 1,
        },
    ),
    (EARLY, 600, 600, Finding::TooOld(1)),
];

/// Rows of a line, now, a findtime, and what a searcher finds in the line.
fn are_found_then(
    rt: &impl Abort,
    searcher: &mut Searcher<'_>,
    ignore: &IgnoreSet,
    rows: &[(&str, u64, u64, Finding)],
) -> Result<(), NoMemory> {
    for &(line, now, findtime, finding) in rows {
        is_so(rt, line, now <= LAST_MOMENT);
        let found = searcher.found(ignore, line, now, findtime)?;
        same(rt, (line, now), found, finding);
    }
    Ok(())
}

/// The same, of a filter.
fn times_are(
    rt: &impl Abort,
    alloc: Global,
    filter: &Filter,
    rows: &[(&str, u64, u64, Finding)],
) -> Result<(), NoMemory> {
    let none = ignoring(rt, alloc, "")?;
    let mut searcher = filter.searcher(alloc)?;
    are_found_then(rt, &mut searcher, &none, rows)
}

const FROM_IPV4: Parts<'static> = Parts {
    fail: "^ fail from <IP4>$",
    ..NONE
};

#[test]
fn times(rt: HostRuntime) -> Result<(), NoMemory> {
    let filter = filter(&rt, rt.alloc(), &FROM_IPV4)?;
    times_are(&rt, rt.alloc(), &filter, &TIMES)
}

const IGNORED_ADDRESSES: [(&str, Finding); 6] = [
    ("from 10.0.0.0", Finding::IgnoredAddr(1)),
    ("from 10.255.255.255", Finding::IgnoredAddr(1)),
    ("from ::ffff:10.0.0.1", Finding::IgnoredAddr(1)),
    (
        "from 9.255.255.255",
        Finding::Failure {
            addr: Addr::V4(0x09FF_FFFF),
            time: NOW,
            index: 1,
        },
    ),
    (
        "from 11.0.0.0",
        Finding::Failure {
            addr: Addr::V4(0x0B00_0000),
            time: NOW,
            index: 1,
        },
    ),
    ("from host.example.org", Finding::NameOnly(1)),
];

const IGNORED_BY_ANOTHER_LIST: [(&str, Finding); 2] = [
    ("from 11.0.0.0", Finding::IgnoredAddr(1)),
    (
        "from 10.0.0.0",
        Finding::Failure {
            addr: Addr::V4(0x0A00_0000),
            time: NOW,
            index: 1,
        },
    ),
];

const FROM_A_HOST: Parts<'static> = Parts {
    dated: Dated::NoDate,
    fail: "from <HOST>$",
    ..NONE
};

#[test]
fn ignored_addresses(rt: HostRuntime) -> Result<(), NoMemory> {
    let filter = filter(&rt, rt.alloc(), &FROM_A_HOST)?;
    let of_ten = &IGNORED_ADDRESSES;
    filter_finds(&rt, rt.alloc(), &filter, "10.0.0.0/8", of_ten)?;
    let of_eleven = &IGNORED_BY_ANOTHER_LIST;
    filter_finds(&rt, rt.alloc(), &filter, "11.0.0.0/8", of_eleven)
}

const PREFIXES: [(&str, &str, Finding); 4] = [
    // The content alone is looked at, whatever stands around it.
    (
        "a <F-CONTENT>.*</F-CONTENT> z",
        "a from 192.0.2.7 z",
        Finding::Failure {
            addr: SEVEN,
            time: NOW,
            index: 1,
        },
    ),
    (
        "a <F-CONTENT>.*</F-CONTENT> z",
        "b from 192.0.2.7 z",
        Finding::Missed,
    ),
    // A match without the group is missed.
    (
        "a|b<F-CONTENT>.*</F-CONTENT>",
        "a from 192.0.2.7",
        Finding::Missed,
    ),
    (
        "a|b<F-CONTENT>.*</F-CONTENT>",
        "bfrom 192.0.2.7",
        Finding::Failure {
            addr: SEVEN,
            time: NOW,
            index: 1,
        },
    ),
];

/// Rows of a pattern that comes first, a line, and what is found.
fn are_found_behind(
    rt: &impl Abort,
    alloc: Global,
    rows: &[(&str, &str, Finding)],
) -> Result<(), NoMemory> {
    for &(pref, line, finding) in rows {
        let parts = Parts {
            dated: Dated::NoDate,
            pref,
            fail: "^from <HOST>$",
            ..NONE
        };
        let found = found_in(rt, alloc, &parts, line, NOW, 600)?;
        same(rt, (pref, line), found, finding);
    }
    Ok(())
}

#[test]
fn prefixes(rt: HostRuntime) -> Result<(), NoMemory> {
    are_found_behind(&rt, rt.alloc(), &PREFIXES)
}
