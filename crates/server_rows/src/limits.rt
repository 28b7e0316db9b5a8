//! Runs at the limits of a configuration.
use crate::play::{Given, change, is_as_wanted, one, tree};
use f2b_base::{Seq, TreeAnswer};
use std::alloc::{AllocError, Global};
use std::test::Fail;

const JAIL: &str =
    "[web]\nenabled = true\nfilter = long\nlogpath = /log\nignoreself = false\nmaxretry = 1\n";

/// A text with so many `a` in its middle.
fn long(alloc: Global, begin: &str, count: u32, end: &str) -> Result<String, AllocError> {
    let mut text = String::from_str(alloc, begin)?;
    for _ in 0..count {
        text.push('a')?;
    }
    text.push_str(end)?;
    Ok(text)
}

/// Whether a pattern with so many `a` between its anchor and its host tag, which have 10 bytes, is served.
fn is_served(alloc: Global, count: u32, status: u8, said: &str) -> Result<bool, Fail> {
    let filter = long(
        alloc,
        "[Definition]\ndatepattern = Epoch\nfailregex = ^ ",
        count,
        " <HOST>$\n",
    )?;
    let log = long(alloc, "1700000990 ", count, " 192.0.2.7\n")?;
    let mut changes = Seq::new(alloc);
    changes.push(change(alloc, 0, "/log", Some(log.as_str()))?)?;
    let conf = tree(
        alloc,
        &[("filter.d/long.conf", filter.as_str()), ("jail.conf", JAIL)],
    )?;
    let given = Given {
        words: "--conf /c --turns 1",
        trees: one(alloc, conf)?,
        readings: &[1_700_001_000],
        changes,
        children: Seq::new(alloc),
        clients: Seq::new(alloc),
        fails: &[],
    };
    is_as_wanted(alloc, given, status, said)
}

#[test]
fn serves_a_pattern_of_8192_bytes(rt: HostRuntime) -> Result<(), Fail> {
    let said =
        "1700001000 INFO Server ready\n1700001000 INFO [web] Found 192.0.2.7\n1700001000 NOTICE [web] Ban 192.0.2.7\n";
    assert!(rt; is_served(rt.alloc(), 8_182, 0, said)?);
    Ok(())
}

#[test]
fn refuses_a_pattern_of_8193_bytes(rt: HostRuntime) -> Result<(), Fail> {
    let said = "0 ERROR Configuration refused: filter.d/long.conf [web] failregex: TooMany\n";
    assert!(rt; is_served(rt.alloc(), 8_183, 4, said)?);
    Ok(())
}

#[test]
fn refuses_a_configuration_that_is_too_large(rt: HostRuntime) -> Result<(), Fail> {
    let given = Given {
        words: "--conf /c --turns 1",
        trees: one(rt.alloc(), TreeAnswer::TooLarge)?,
        readings: &[],
        changes: Seq::new(rt.alloc()),
        children: Seq::new(rt.alloc()),
        clients: Seq::new(rt.alloc()),
        fails: &[],
    };
    assert!(rt; is_as_wanted(rt.alloc(), given, 10, "0 ERROR Configuration too large\n")?);
    Ok(())
}
