//! Names of filters with options, with what they are read as.

use crate::rows::same;
use crate::trees::{Told, is_told, jail_in, read, with_item};
use f2b_base::NoMemory;
use std::alloc::Global;
use std::process::Abort;

/// Shows the options `x`, `y` and `z` that a filter is given, each where it is not given as its tag.
const FILTER: (&str, &str) = (
    "filter.d/a.conf",
    "[Definition]\nfailregex = <HOST> <x>|<y>|<z>\n",
);

/// That is told of a jail with this filter.
fn is_told_of(rt: &impl Abort, alloc: Global, text: &str, want: &str) -> Result<(), NoMemory> {
    let jail = with_item(alloc, "filter", text)?;
    is_told(
        rt,
        alloc,
        text,
        &[FILTER, ("jail.conf", jail.as_str())],
        want,
    )
}

/// Rows of a text and what is told of it.
fn are_told(rt: &impl Abort, alloc: Global, rows: &[(&str, &str)]) -> Result<(), NoMemory> {
    for (text, want) in rows {
        is_told_of(rt, alloc, text, want)?;
    }
    Ok(())
}

/// A file that is not there is told, and so the name is.
const NAMES: [(&str, &str); 4] = [
    ("sshd", "filter.d/sshd.conf|j|filter|MissingFile"),
    (" sshd\t", "filter.d/sshd.conf|j|filter|MissingFile"),
    ("Mail-Who", "filter.d/Mail-Who.conf|j|filter|MissingFile"),
    ("a b]", "filter.d/a b].conf|j|filter|MissingFile"),
];

/// What a jail with this filter comes to.
fn read_with_filter(alloc: Global, text: &str) -> Told {
    let jail = with_item(alloc, "filter", text)?;
    read(alloc, &[FILTER, ("jail.conf", jail.as_str())])
}

/// The first pattern of the one jail.
fn pattern_in(told: &Told) -> Option<&str> {
    let pattern = jail_in(told)?.fail.as_slice().first()?;
    Some(pattern.as_str())
}

/// Rows of a text and what is shown of its options.
fn are_shown(rt: &impl Abort, alloc: Global, rows: &[(&str, &str)]) {
    for &(text, want) in rows {
        let told = read_with_filter(alloc, text);
        same(rt, text, pattern_in(&told), Some(want));
    }
}

/// A percent sign of a text is doubled where it stands in a file.
const OPTIONS: [(&str, &str); 14] = [
    ("a[x=1]", "<HOST> 1|<y>|<z>"),
    (" a [ x = 1 , y = b c ] ", "<HOST> 1|b c|<z>"),
    ("a[x=1][y=2]\t[z=3]", "<HOST> 1|2|3"),
    ("a[x=1,x=2]", "<HOST> 2|<y>|<z>"),
    ("a[X=Sshd, Y=\"SSH\"]", "<HOST> Sshd|SSH|<z>"),
    ("a[x=\"http,https\"]", "<HOST> http,https|<y>|<z>"),
    ("a[x=\"]\",y='[']", "<HOST> ]|[|<z>"),
    (
        "a[x='say \"no\"', y=\"it's\"]",
        "<HOST> say \"no\"|it's|<z>",
    ),
    ("a[x=\" b \" ]", "<HOST>  b |<y>|<z>"),
    ("a[x=,y=\"\"]", "<HOST> ||<z>"),
    ("a[x=b=c]", "<HOST> b=c|<y>|<z>"),
    ("a[x=[b]", "<HOST> [b|<y>|<z>"),
    ("a[x=%%(port)s,y=\"%%%%d\"]", "<HOST> %(port)s|%%d|<z>"),
    ("a[x=<ip>]", "<HOST> <ip>|<y>|<z>"),
];

#[test]
fn reads_names_with_options(rt: HostRuntime) -> Result<(), NoMemory> {
    are_shown(&rt, rt.alloc(), &OPTIONS);
    are_told(&rt, rt.alloc(), &NAMES)
}

fn are_refused(rt: &impl Abort, alloc: Global, texts: &[&str]) -> Result<(), NoMemory> {
    for text in texts {
        is_told_of(rt, alloc, text, "jail.conf|j|filter|BadOptions")?;
    }
    Ok(())
}

const NO_NAMES: [&str; 20] = [
    "[x=1]",
    "a[",
    "a[]",
    "a[ ]",
    "a[x]",
    "a[=1]",
    "a[ =1]",
    "a[x=1",
    "a[x=1,]",
    "a[x=1,,y=2]",
    "a[x=1]b",
    "a[x=1]]",
    "a[x[y=1]",
    "a['x'=1]",
    "a[x=\"1]",
    "a[x=\"1']",
    "a[x=\"1\"2]",
    "a[x=\"1\"\"2\"]",
    "a[x=b\"c\"]",
    "a[x=it's]",
];

/// A text of blanks names no filter, and none is asked for.
const BLANKS: [(&str, &str); 2] = [("", "read"), (" \t", "read")];

#[test]
fn refuses_what_is_no_name_with_options(rt: HostRuntime) -> Result<(), NoMemory> {
    are_refused(&rt, rt.alloc(), &NO_NAMES)?;
    are_told(&rt, rt.alloc(), &BLANKS)
}
