//! Lines against the tags of hosts.
use super::*;

const NOW: u64 = 1_700_000_000;

/// An address, `name` for a name alone, `nothing` for no match.
fn wanted(text: &str) -> Option<Finding> {
    match text {
        "name" => Some(Finding::NameOnly(1)),
        "nothing" => Some(Finding::Missed),
        _ => Some(failure(Addr::read(text.as_bytes())?, NOW, 1)),
    }
}

/// Rows of a pattern, a line, and what is found.
fn are_found(rt: &impl Abort, alloc: Global, rows: &[(&str, &str, &str)]) -> Result<(), NoMemory> {
    for &(pattern, line, want) in rows {
        let parts = Parts {
            dated: Dated::NoDate,
            fail: pattern,
            ..NONE
        };
        let found = found_in(rt, alloc, &parts, line, NOW, 600)?;
        same(rt, (pattern, line), Some(found), wanted(want));
    }
    Ok(())
}

const QUADS_AND_NAMES: [(&str, &str, &str); 14] = [
    ("from <HOST>$", "from 192.0.2.7", "192.0.2.7"),
    ("from <HOST>$", "from 0.0.0.0", "0.0.0.0"),
    ("from <HOST>$", "from 255.255.255.255", "255.255.255.255"),
    ("from <HOST>$", "from 256.1.1.1", "name"),
    ("from <HOST>$", "from 192.0.02.7", "name"),
    ("from <HOST>$", "from 192.0.2", "name"),
    ("from <HOST>$", "from 192.0.2.7.example.org", "name"),
    ("from <HOST>$", "from 192.0.2.7 ", "nothing"),
    ("from <HOST>$", "from 192.0.2.7]", "nothing"),
    ("from <HOST>$", "from [192.0.2.7]", "nothing"),
    ("from <HOST>$", "from host.example.org", "name"),
    ("from <HOST>$", "from 1host.example.org", "name"),
    ("from <HOST>$", "from _a-b.c", "name"),
    ("from <HOST>$", "from host-", "nothing"),
];

#[test]
fn quads_and_names(rt: HostRuntime) -> Result<(), NoMemory> {
    are_found(&rt, rt.alloc(), &QUADS_AND_NAMES)
}

const IPV6: [(&str, &str, &str); 13] = [
    ("from <HOST>$", "from ::1", "::1"),
    ("from <HOST>$", "from ::", "::"),
    ("from <HOST>$", "from [::]", "::"),
    ("from <HOST>$", "from [::1]", "::1"),
    ("from <HOST>$", "from [2001:db8::7]", "2001:db8::7"),
    ("from <HOST>$", "from 2001:db8::", "2001:db8::"),
    ("from <HOST>$", "from 2001:DB8::A", "2001:db8::a"),
    ("from <HOST>$", "from 2001:db8:0:0:0:0:0:7", "2001:db8::7"),
    ("from <HOST>$", "from 1:2:3:4:5:6:7:8", "1:2:3:4:5:6:7:8"),
    ("from <HOST>$", "from 1:2:3:4:5:6:7:8:9", "nothing"),
    ("from <HOST>$", "from 1::2::3", "nothing"),
    ("from <HOST>$", "from 12345::1", "nothing"),
    ("from <HOST>$", "from fe80::1%eth0", "nothing"),
];

#[test]
fn ipv6(rt: HostRuntime) -> Result<(), NoMemory> {
    are_found(&rt, rt.alloc(), &IPV6)
}

const MAPPED_ADDRESSES_AND_PORTS: [(&str, &str, &str); 12] = [
    ("from <HOST>$", "from ::ffff:192.0.2.7", "192.0.2.7"),
    ("from <HOST>$", "from ::FFFF:192.0.2.7", "192.0.2.7"),
    ("from <HOST>$", "from ::fFfF:192.0.2.7", "192.0.2.7"),
    ("from <HOST>$", "from ::ffff:c000:207", "192.0.2.7"),
    ("from <HOST>$", "from [::ffff:192.0.2.7]", "nothing"),
    (
        "from <HOST> port [0-9]+$",
        "from 192.0.2.7 port 22",
        "192.0.2.7",
    ),
    ("from <HOST> port [0-9]+$", "from ::1 port 22", "::1"),
    ("from <HOST> port [0-9]+$", "from host port 22", "name"),
    ("from <IP4>:[0-9]+$", "from 192.0.2.7:22", "192.0.2.7"),
    ("from <IP4>:[0-9]+$", "from 192.0.2.7", "nothing"),
    ("from <IP6>:[0-9]+$", "from [::1]:22", "::1"),
    ("from <IP6>:[0-9]+$", "from ::1:22", "::1"),
];

#[test]
fn mapped_addresses_and_ports(rt: HostRuntime) -> Result<(), NoMemory> {
    are_found(&rt, rt.alloc(), &MAPPED_ADDRESSES_AND_PORTS)
}

const TAGS_APART_AND_SEVERAL_ADDRESSES: [(&str, &str, &str); 15] = [
    ("from <ADDR>$", "from host", "nothing"),
    ("from <ADDR>$", "from 192.0.2.7", "192.0.2.7"),
    ("from <ADDR>$", "from ::7", "::7"),
    ("from <DNS>$", "from 192.0.2.7", "name"),
    ("from <HOST>", "from 192.0.2.7 from 192.0.2.8", "192.0.2.7"),
    ("from <HOST>$", "from 192.0.2.7 from 192.0.2.8", "192.0.2.8"),
    (
        "for .* from <HOST> port",
        "for x from 10.0.0.1 port 1 from 192.0.2.7 port 22",
        "192.0.2.7",
    ),
    (
        "for .* from <HOST>$",
        "for 10.0.0.1 from 192.0.2.7",
        "192.0.2.7",
    ),
    ("from <HOST>", "from 1.2.3.4.example.org", "1.2.3.4"),
    ("from <HOST>", "from 10::example.org", "10::e"),
    ("from <HOST>", "from 192.0.2.7890", "name"),
    ("<HOST>$", "é192.0.2.7", "192.0.2.7"),
    ("<HOST>$", "192.0.2.7é", "nothing"),
    ("from <HOST>", "from 192.0.2.7é", "192.0.2.7"),
    ("from <HOST>$", "from ١٩٢.٠.٢.٧", "nothing"),
];

#[test]
fn tags_apart_and_several_addresses(rt: HostRuntime) -> Result<(), NoMemory> {
    are_found(&rt, rt.alloc(), &TAGS_APART_AND_SEVERAL_ADDRESSES)
}
