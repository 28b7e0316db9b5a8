//! Refusals as they print.

use crate::rows::same;
use crate::trees::{Told, read};
use f2b_base::{NoMemory, Text};
use jail_conf::{ConfKind, Fail as Refusal};
use std::alloc::Global;
use std::process::Abort;

/// A refusal, as it prints, or nothing where there is none.
fn printed(alloc: Global, told: &Told) -> Result<Text, NoMemory> {
    match told {
        Err(Refusal::Refused(error)) => error.text(alloc),
        _ => Ok(Text::new(alloc)),
    }
}

/// Rows of a `jail.conf`, and what is printed of it.
fn are_printed(rt: &impl Abort, alloc: Global, rows: &[(&str, &str)]) -> Result<(), NoMemory> {
    for &(jail, want) in rows {
        let told = read(alloc, &[("jail.conf", jail)]);
        let text = printed(alloc, &told)?;
        same(rt, jail, text.as_str(), want);
    }
    Ok(())
}

const REFUSALS: [(&str, &str); 8] = [
    (
        "x = 1\n",
        "Configuration refused: jail.conf [] : NoSection 1",
    ),
    (
        "[INCLUDES]\nbefore = x.conf\n",
        "Configuration refused: jail.conf [] : MissingInclude x.conf",
    ),
    (
        "[INCLUDES]\nbefore = jail.conf\n",
        "Configuration refused: jail.conf [] : IncludeLoop",
    ),
    (
        "[a b]\n",
        "Configuration refused: jail.conf [a b] : BadName",
    ),
    (
        "[j]\nenabled = %(x)s\n",
        "Configuration refused: jail.conf [j] enabled: Missing x",
    ),
    (
        "[j]\nenabled = on%\n",
        "Configuration refused: jail.conf [j] enabled: BadPercent 2",
    ),
    (
        "[j]\nenabled = on\nbantime = 0\n",
        "Configuration refused: jail.conf [j] bantime: BadTime",
    ),
    ("[j]\n", ""),
];

#[test]
fn prints_a_refusal_with_its_place(rt: HostRuntime) -> Result<(), NoMemory> {
    are_printed(&rt, rt.alloc(), &REFUSALS)
}

fn helps(rt: &impl Abort, kind: &ConfKind, want: &str) {
    same(rt, "help", kind.help(), want);
}

#[test]
fn helps_by_what_is_allowed(rt: HostRuntime) {
    helps(
        &rt,
        &ConfKind::BadName,
        "the name of a jail has 1 to 64 of A-Z a-z 0-9 _ . -",
    );
}
