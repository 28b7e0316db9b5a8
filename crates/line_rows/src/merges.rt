//! Trees, with what they come to by the rules of the order of files, of includes and of known values.

use crate::rows::same;
use f2b_base::{Bytes, NoMemory, Seq, Text, Tree, TreeFile};
use ini_interp::{MergeError, Sections, merge};
use std::alloc::Global;
use std::process::Abort;
use std::test::Fail;

/// The items of a section.
fn write_items(out: &mut String, sections: &Sections, section: &str) -> Result<(), NoMemory> {
    for index in 0..9 {
        let Some(name) = sections.item(section, index) else {
            break;
        };
        out.push_str(name)?;
        out.push_str("=")?;
        out.push_str(sections.raw(section, name).unwrap_or("?"))?;
        out.push_str(" ")?;
    }
    Ok(())
}

/// Sections as one text: `[NAME]`, and `NAME=VALUE` for each item, with a blank behind each.
fn sections_text(alloc: Global, sections: &Sections) -> Result<String, NoMemory> {
    let mut out = String::new(alloc);
    for place in 0..9 {
        let Some(section) = sections.section(place) else {
            break;
        };
        out.push_str("[")?;
        out.push_str(section)?;
        out.push_str("] ")?;
        write_items(&mut out, sections, section)?;
    }
    Ok(out)
}

/// The answer as one text.
fn shown(alloc: Global, answer: Result<Sections, MergeError>) -> Result<String, NoMemory> {
    match answer {
        Ok(sections) => sections_text(alloc, &sections),
        Err(MergeError::Ini { file, error }) => {
            let file = file.as_str();
            Ok(format!(in alloc; "fault {file} {error:?}")?)
        }
        Err(MergeError::MissingInclude { file, path }) => {
            let file = file.as_str();
            let path = path.as_str();
            Ok(format!(in alloc; "missing {file} {path}")?)
        }
        Err(MergeError::IncludeLoop { file }) => {
            let file = file.as_str();
            Ok(format!(in alloc; "loop {file}")?)
        }
        Err(MergeError::NoMemory) => Ok(String::from_str(alloc, "no memory")?),
    }
}

fn file_of(alloc: Global, path: &str, content: &str) -> Result<TreeFile, NoMemory> {
    Ok(TreeFile {
        path: Text::from_str(alloc, path)?,
        content: Bytes::from_slice(alloc, content.as_bytes())?,
    })
}

fn tree_of(alloc: Global, files: &[(&str, &str)]) -> Result<Tree, NoMemory> {
    let mut tree = Seq::new(alloc);
    for (path, content) in files {
        tree.push(file_of(alloc, path, content)?)?;
    }
    Ok(Tree { files: tree })
}

/// What these files come to for a base.
fn merged(alloc: Global, files: &[(&str, &str)], base: &str) -> Result<String, NoMemory> {
    let tree = tree_of(alloc, files)?;
    shown(alloc, merge(alloc, &tree, base))
}

const CONF: (&str, &str) = ("jail.conf", "[DEFAULT]\nbantime=1m\n");

const CONF_OF_D: (&str, &str) = ("jail.d/a.conf", "[DEFAULT]\nbantime=2m\n");

const LOCAL_OF_D: (&str, &str) = ("jail.d/a.local", "[DEFAULT]\nbantime=4m\n");

const LOCAL: (&str, &str) = ("jail.local", "[DEFAULT]\nbantime=3m\n");

const JAIL: [(&str, &str); 4] = [CONF, CONF_OF_D, LOCAL_OF_D, LOCAL];

/// Rows of how many of these files there are, and what they come to.
fn are_in_order(
    rt: &impl Abort,
    alloc: Global,
    files: &[(&str, &str)],
    rows: &[(usize, &str)],
) -> Result<(), Fail> {
    for &(count, want) in rows {
        let some = files.get(..count).unwrap_or(&[]);
        let got = merged(alloc, some, "jail")?;
        same(rt, count, got.as_str(), want);
    }
    Ok(())
}

const ORDERS: [(usize, &str); 5] = [
    (0, ""),
    (1, "[DEFAULT] bantime=1m "),
    (2, "[DEFAULT] bantime=2m "),
    (3, "[DEFAULT] bantime=4m "),
    (4, "[DEFAULT] bantime=4m "),
];

const WITHOUT_LOCAL_OF_D: [(&str, &str); 3] = [CONF, CONF_OF_D, LOCAL];

#[test]
fn orders_files(rt: HostRuntime) -> Result<(), Fail> {
    are_in_order(&rt, rt.alloc(), &JAIL, &ORDERS)?;
    let want = [(3, "[DEFAULT] bantime=3m ")];
    are_in_order(&rt, rt.alloc(), &WITHOUT_LOCAL_OF_D, &want)
}

/// Rows of files, a base, and what the files come to for it.
fn are_merged(
    rt: &impl Abort,
    alloc: Global,
    rows: &[(&[(&str, &str)], &str, &str)],
) -> Result<(), Fail> {
    for &(files, base, want) in rows {
        let got = merged(alloc, files, base)?;
        same(rt, files, got.as_str(), want);
    }
    Ok(())
}

const MERGES: [(&[(&str, &str)], &str, &str); 30] = [
    // Files of a base, in byte order whatever the tree's.
    (
        &[
            ("jail.d/b.conf", "[a]\nx=b\n"),
            ("jail.d/a.conf", "[a]\nx=a\ny=a\n"),
            ("jail.conf", "[a]\nz=1\n"),
        ],
        "jail",
        "[a] z=1 x=b y=a ",
    ),
    (
        &[
            ("jail.d/a/b.conf", "[a]\nx=1\n"),
            ("jail.d/a.txt", "[a]\nx=2\n"),
            ("jail.conf.d/a.conf", "[a]\nx=3\n"),
            ("fail2ban.conf", "[a]\nx=4\n"),
        ],
        "jail",
        "",
    ),
    (
        &[
            ("fail2ban.conf", "[a]\nx=1\n"),
            ("fail2ban.d/z.local", "[a]\nx=2\n"),
        ],
        "fail2ban",
        "[a] x=2 ",
    ),
    (
        &[
            ("filter.d/x.conf", "[a]\nx=1\ny=1\n"),
            ("filter.d/x.local", "[a]\nx=2\n"),
            ("filter.d/x.d/a.conf", "[a]\nx=3\n"),
        ],
        "filter.d/x",
        "[a] x=2 y=1 ",
    ),
    (
        &[("jail.conf", "[a]\nx=1\n"), ("jail.conf", "[a]\nx=2\n")],
        "jail",
        "[a] x=1 ",
    ),
    // Sections and items.
    (
        &[
            ("jail.conf", "[a]\n[b]\nx=1\n"),
            ("jail.local", "[c]\n[a]\nY=2\n[b]\nX=3\n"),
        ],
        "jail",
        "[a] y=2 [b] x=3 [c] ",
    ),
    // Includes.
    (
        &[
            ("a.conf", "[a]\nx=1\ny=1\n"),
            ("b.conf", "[a]\ny=3\nz=3\n"),
            (
                "jail.conf",
                "[INCLUDES]\nbefore=a.conf\nafter=b.conf\n[a]\nx=2\ny=2\nz=2\n",
            ),
        ],
        "jail",
        "[a] x=2 y=3 z=3 ",
    ),
    (
        &[
            ("a.conf", "[a]\nx=1\n"),
            ("b.conf", "[a]\nx=2\n"),
            ("jail.conf", "[INCLUDES]\nbefore=\n a.conf\n b.conf\n"),
        ],
        "jail",
        "[a] x=2 ",
    ),
    (
        &[
            ("a.conf", "[INCLUDES]\nbefore=b.conf\n[a]\nx=1\n"),
            ("b.conf", "[a]\nx=2\ny=2\n"),
            ("jail.conf", "[INCLUDES]\nbefore=a.conf\nafter=b.conf\n"),
        ],
        "jail",
        "[a] x=2 y=2 ",
    ),
    (
        &[
            ("filter.d/x.conf", "[INCLUDES]\nbefore=y.conf\n"),
            ("filter.d/y.conf", "[a]\nx=1\n"),
            ("y.conf", "[a]\nx=2\n"),
        ],
        "filter.d/x",
        "[a] x=1 ",
    ),
    // An include that is not there, or is not allowed.
    (
        &[("jail.conf", "[INCLUDES]\nafter=a.local\n[a]\nx=1\n")],
        "jail",
        "[a] x=1 ",
    ),
    (
        &[("jail.conf", "[INCLUDES]\nafter=a.conf\n[a]\nx=1\n")],
        "jail",
        "missing jail.conf a.conf",
    ),
    (
        &[
            ("a.conf", "[a]\nx=1\n"),
            ("jail.conf", "[INCLUDES]\nbefore=./a.conf\n"),
        ],
        "jail",
        "missing jail.conf ./a.conf",
    ),
    (
        &[("jail.conf", "[INCLUDES]\nbefore=/a.local\n")],
        "jail",
        "missing jail.conf /a.local",
    ),
    (
        &[("jail.conf", "[INCLUDES]\nbefore=a..local\n")],
        "jail",
        "missing jail.conf a..local",
    ),
    (
        &[
            ("filter.d/x.conf", "[INCLUDES]\nbefore=../a.conf\n"),
            ("a.conf", ""),
        ],
        "filter.d/x",
        "missing filter.d/x.conf ../a.conf",
    ),
    (
        &[(
            "jail.conf",
            "[INCLUDES]\nbefore=%(x)s\n[DEFAULT]\nx=a.local\n",
        )],
        "jail",
        "missing jail.conf %(x)s",
    ),
    // Loops.
    (
        &[
            ("a.conf", "[INCLUDES]\nbefore=jail.conf\n"),
            ("jail.conf", "[INCLUDES]\nbefore=a.conf\n"),
        ],
        "jail",
        "loop jail.conf",
    ),
    (
        &[("jail.conf", "[INCLUDES]\nafter=jail.conf\n")],
        "jail",
        "loop jail.conf",
    ),
    (
        &[
            ("a.conf", "[INCLUDES]\nafter=b.conf\n"),
            ("b.conf", "[INCLUDES]\nbefore=a.conf\n"),
            ("jail.conf", "[INCLUDES]\nbefore=a.conf\n"),
        ],
        "jail",
        "loop a.conf",
    ),
    // The first fault in reading order.
    (
        &[("jail.conf", "x=1\n[INCLUDES]\nbefore=a.conf\n")],
        "jail",
        "fault jail.conf NoSection(1)",
    ),
    (
        &[
            ("a.conf", "[a]\nx\n"),
            ("jail.conf", "[INCLUDES]\nbefore=a.conf\n b.conf\n"),
        ],
        "jail",
        "fault a.conf NoDelimiter(2)",
    ),
    (
        &[
            ("a.conf", "[a]\nx\n"),
            ("jail.conf", "[INCLUDES]\nbefore=b.conf\n a.conf\n"),
        ],
        "jail",
        "missing jail.conf b.conf",
    ),
    (
        &[("jail.conf", "[a]\nx=1\n"), ("jail.local", "[a]\n\tx\n")],
        "jail",
        "fault jail.local Indent(2)",
    ),
    // Known values.
    (
        &[
            ("jail.conf", "[DEFAULT]\nignoreip = 10.0.0.1\n"),
            (
                "jail.local",
                "[DEFAULT]\nignoreip = %(known/ignoreip)s 10.0.0.2\n",
            ),
        ],
        "jail",
        "[DEFAULT] ignoreip=10.0.0.1 10.0.0.2 ",
    ),
    (
        &[
            ("jail.conf", "[DEFAULT]\nx=1\n[a]\ny=2\n"),
            ("jail.local", "[a]\nx=%(known/X)s %(known/y)s %(known/z)s\n"),
        ],
        "jail",
        "[DEFAULT] x=1 [a] y=2 x=1 2 %(known/z)s ",
    ),
    (
        &[
            ("jail.conf", "[DEFAULT]\nx=1\n[a]\nx=2\n"),
            ("jail.local", "[a]\nx=3\ny=%(known/x)s\n"),
        ],
        "jail",
        "[DEFAULT] x=1 [a] x=3 y=2 ",
    ),
    (
        &[("jail.conf", "[a]\nx=1\ny=%(known/x)s\n")],
        "jail",
        "[a] x=1 y=%(known/x)s ",
    ),
    (
        &[
            ("jail.conf", "[a]\nx=%(known/x)s%%\n"),
            (
                "jail.local",
                "[a]\nx=%%(known/x)s %(known/x)s %z %(known/x)d\n",
            ),
        ],
        "jail",
        "[a] x=%%(known/x)s %(known/x)s%% %z %(known/x)d ",
    ),
    (
        &[
            ("a.conf", "[a]\nx=1\n"),
            (
                "jail.conf",
                "[INCLUDES]\nbefore=a.conf\nafter=b.conf\n[a]\nx=%(known/x)s2\n",
            ),
            ("b.conf", "[a]\nx=%(known/x)s3\n"),
        ],
        "jail",
        "[a] x=123 ",
    ),
];

#[test]
fn merges(rt: HostRuntime) -> Result<(), Fail> {
    are_merged(&rt, rt.alloc(), &MERGES)
}
