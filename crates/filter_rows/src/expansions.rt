//! Worked patterns.
use crate::rows::same;
use f2b_base::NoMemory;
use host_ident::{HostGroups, expand, host_of, hosts};
use std::alloc::Global;
use std::process::Abort;

/// Rows of a pattern, what it is expanded to, and how many hosts it has.
fn are_expanded(
    rt: &impl Abort,
    alloc: Global,
    rows: &[(&str, &str, u32)],
) -> Result<(), NoMemory> {
    for &(pattern, expanded, count) in rows {
        let text = expand(alloc, pattern)?;
        same(rt, pattern, text.as_str(), expanded);
        same(rt, pattern, hosts(pattern), count);
    }
    Ok(())
}

const PATTERNS: [(&str, &str, u32); 5] = [
    (
        r"^ fail from <IP4>$",
        r"^ fail from (?:::[fF]{4}:)?(?P<f2b4>[0-9]{1,3}(?:\.[0-9]{1,3}){3})$",
        1,
    ),
    ("a<F-CONTENT>b</F-CONTENT>c", "a(?P<f2bc>b)c", 0),
    ("<F-USER>.*</F-USER> <SUBNET>", "(?:.*) <SUBNET>", 0),
    (r"\(?<HOST>\)? (?P<DNS>x)", r"\(?<HOST>\)? (?P<DNS>x)", 0),
    (
        "<DNS> < <> <F-a b> <DNS>",
        "(?P<f2bn>[A-Za-z0-9_](?:[A-Za-z0-9._-]*[A-Za-z0-9_])?) < <> <F-a b> (?P<f2bn>[A-Za-z0-9_](?:[A-Za-z0-9._-]*[A-Za-z0-9_])?)",
        2,
    ),
];

#[test]
fn worked_patterns(rt: HostRuntime) -> Result<(), NoMemory> {
    are_expanded(&rt, rt.alloc(), &PATTERNS)
}
