//! Patterns, names and paths.

use f2b_base::{Seq, Text, WatchDef};
use log_follow::{expand_path, glob_match};
use std::alloc::Global;
use std::process::Abort;
use std::test::Fail;

// Rows of a pattern, a name, and whether it stands for it.
fn are_matched(rt: &impl Abort, rows: &[(&str, &str, bool)]) {
    for &(pattern, name, wanted) in rows {
        assert_eq!(rt; glob_match(pattern, name), wanted, "{pattern} and {name}");
    }
}

const NAMES: [(&str, &str, bool); 20] = [
    ("", "", true),
    ("", "a", false),
    ("a", "", false),
    ("*", "", true),
    ("**", "abc", true),
    ("?", "", false),
    ("?", "\u{20ac}", true),
    ("??", "\u{20ac}", false),
    ("a*.log", "a.log", true),
    ("a*.log", "a1.log", true),
    ("a*.log", "ba1.log", false),
    ("a*.log", "a1.log.1", false),
    ("*.log", ".log.log", true),
    ("a*b*c", "abcbc", true),
    ("a*b*c", "abcb", false),
    ("*ab", "aab", true),
    ("*a?c", "aabc", true),
    ("[ab]", "a", false),
    ("A", "a", false),
    ("\u{e9}*", "\u{e9}t\u{e9}", true),
];

#[test]
fn patterns_stand_for_names(rt: HostRuntime) {
    are_matched(&rt, &NAMES);
}

#[test]
fn many_stars_take_no_long_time(rt: HostRuntime) -> Result<(), Fail> {
    let mut pattern = String::new(rt.alloc());
    let mut name = String::new(rt.alloc());
    for _ in 0..200 {
        pattern.push_str("a*")?;
        name.push_str("aaaaa")?;
    }
    assert!(rt; glob_match(pattern.as_str(), name.as_str()));
    pattern.push('b')?;
    assert!(rt; !glob_match(pattern.as_str(), name.as_str()));
    Ok(())
}

// The paths that a path stands for, with a bar behind each.
fn expanded(alloc: Global, path: &str, names: &[&str]) -> Result<String, Fail> {
    let watch = WatchDef {
        path: Text::from_str(alloc, path)?,
        tail: true,
    };
    let mut listed = Seq::new(alloc);
    for name in names {
        listed.push(Text::from_str(alloc, name)?)?;
    }
    let mut text = String::new(alloc);
    for watch in expand_path(alloc, &watch, &listed)?.as_slice() {
        text.push_str(watch.path.as_str())?;
        text.push(if watch.tail { '|' } else { '-' })?;
    }
    Ok(text)
}

// Rows of a path, the names that are listed, and what it stands for.
fn are_expanded(
    rt: &impl Abort,
    alloc: Global,
    rows: &[(&str, &[&str], &str)],
) -> Result<(), Fail> {
    for &(path, names, wanted) in rows {
        assert_eq!(rt; expanded(alloc, path, names)?.as_str(), wanted);
    }
    Ok(())
}

const PATHS: [(&str, &[&str], &str); 6] = [
    (
        "/var/log/a*.log",
        &["a2.log", "b.log", "a1.log"],
        "/var/log/a1.log|/var/log/a2.log|",
    ),
    ("/var/log/a.log", &["a1.log"], "/var/log/a.log|"),
    ("/a?", &["ab", "a", "aa", "aB"], "/aB|/aa|/ab|"),
    ("/var/log/*", &[], ""),
    ("a*", &["b", "ab"], "ab|"),
    ("/v/*", &["10", "9", "1"], "/v/1|/v/10|/v/9|"),
];

const MANY: [&str; 70] = ["x"; 70];

#[test]
fn a_path_stands_for_logs(rt: HostRuntime) -> Result<(), Fail> {
    are_expanded(&rt, rt.alloc(), &PATHS)?;
    assert_eq!(rt; expanded(rt.alloc(), "/*", &MANY)?.as_str().len(), 64 * 3);
    Ok(())
}
