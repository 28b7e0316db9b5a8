//! Worked values of addresses and masks, from the RFCs.
use f2b_base::{Addr, Cidr};
use std::fmt::Debug;
use std::process::Abort;
use std::str;
use std::test::Fail;

/// Fails at this text unless what was seen is what is wanted.
fn same<T: PartialEq + Debug>(rt: &impl Abort, at: &str, saw: &T, want: &T) {
    assert_eq!(rt; saw, want, "at {at}");
}

fn is_printed(rt: &impl Abort, addr: Addr, want: &str) {
    let mut out = [0; 45];
    let len = addr.print(&mut out);
    same(rt, want, &&out[..len], &want.as_bytes());
}

/// Rows of a text and how the address that it spells is printed.
fn are_printed(rt: &impl Abort, rows: &[(&str, &str)]) -> Result<(), Fail> {
    for (text, want) in rows {
        let addr = Addr::read(text.as_bytes()).ok_or(*text)?;
        is_printed(rt, addr, want);
    }
    Ok(())
}

const ADDRESSES: [(&str, &str); 17] = [
    ("192.0.2.7", "192.0.2.7"),
    ("0.0.0.0", "0.0.0.0"),
    ("255.255.255.255", "255.255.255.255"),
    ("2001:db8:0::1", "2001:db8::1"),
    ("2001:db8::1", "2001:db8::1"),
    // RFC 5952, 4.1 to 4.3
    ("2001:0db8::0001", "2001:db8::1"),
    ("2001:db8:0:0:0:0:2:1", "2001:db8::2:1"),
    ("2001:db8::1:1:1:1:1", "2001:db8:0:1:1:1:1:1"),
    ("2001:0:0:1:0:0:0:1", "2001:0:0:1::1"),
    ("2001:db8:0:0:1:0:0:1", "2001:db8::1:0:0:1"),
    (
        "2001:DB8:AAAA:BBBB:CCCC:DDDD:EEEE:AAAA",
        "2001:db8:aaaa:bbbb:cccc:dddd:eeee:aaaa",
    ),
    // RFC 4291, 2.2
    ("FF01:0:0:0:0:0:0:101", "ff01::101"),
    ("0:0:0:0:0:0:0:1", "::1"),
    ("::", "::"),
    ("::13.1.68.3", "::d01:4403"),
    ("0:0:0:0:0:FFFF:129.144.52.38", "129.144.52.38"),
    ("1:2:3:4:5:6:7::", "1:2:3:4:5:6:7:0"),
];

#[test]
fn reads_and_prints_addresses(rt: HostRuntime) -> Result<(), Fail> {
    are_printed(&rt, &ADDRESSES)
}

fn are_refused(rt: &impl Abort, texts: &[&str]) {
    for text in texts {
        same(rt, text, &Addr::read(text.as_bytes()), &None);
    }
}

const OTHER_TEXTS: [&str; 12] = [
    "",
    "192.0.2.07",
    "192.0.2.256",
    "192.0.2",
    "192.0.2.7.",
    "1::2::3",
    "1:2:3:4:5:6:7",
    "1:2:3:4:5:6:7:8:9",
    "1:2:3:4::5:6:7:8",
    "12345::",
    "fe80::1%eth0",
    " ::1",
];

#[test]
fn refuses_other_texts(rt: HostRuntime) {
    are_refused(&rt, &OTHER_TEXTS);
}

/// Rows of a text and its mask.
fn are_masks(rt: &impl Abort, rows: &[(&str, Option<Cidr>)]) {
    for (text, want) in rows {
        same(rt, text, &Cidr::read(text.as_bytes()), want);
    }
}

/// 10.0.0.0.
const TEN: Addr = Addr::V4(0x0a00_0000);

const MASKS: [(&str, Option<Cidr>); 15] = [
    ("10.0.0.0/8", Some(Cidr { base: TEN, bits: 8 })),
    ("10.255.0.1/8", Some(Cidr { base: TEN, bits: 8 })),
    ("::ffff:10.0.0.1/104", Some(Cidr { base: TEN, bits: 8 })),
    (
        "10.0.0.0",
        Some(Cidr {
            base: TEN,
            bits: 32,
        }),
    ),
    (
        "::ffff:10.0.0.0",
        Some(Cidr {
            base: TEN,
            bits: 32,
        }),
    ),
    (
        "::1/0",
        Some(Cidr {
            base: Addr::V6(0),
            bits: 0,
        }),
    ),
    (
        "::1",
        Some(Cidr {
            base: Addr::V6(1),
            bits: 128,
        }),
    ),
    ("10.0.0.0/33", None),
    ("::/129", None),
    ("::ffff:10.0.0.0/95", None),
    ("10.0.0.0/08", None),
    ("10.0.0.0/+8", None),
    ("10.0.0.0/", None),
    ("10.0.0.0/8/8", None),
    ("/8", None),
];

#[test]
fn reads_masks(rt: HostRuntime) {
    are_masks(&rt, &MASKS);
}

#[test]
fn holds_addresses(rt: HostRuntime) {
    let ten = Cidr { base: TEN, bits: 8 };
    let held = (
        ten.holds(Addr::V4(0x0aff_ffff)),
        ten.holds(Addr::V4(0x09ff_ffff)),
        ten.holds(Addr::V4(0x0b00_0000)),
        ten.holds(Addr::V6(0x0a00_0000)),
    );
    same(&rt, "10.0.0.0/8", &held, &(true, false, false, false));
}
