//! Configurations of a few files, and what they come to.

use crate::rows::same;
use f2b_base::{Bytes, JailDef, NoMemory, Seq, Text, Tree, TreeFile};
use jail_conf::{ConfError, ConfFail, Fail as Refusal, Settings, conf};
use std::alloc::Global;
use std::fmt::Debug;
use std::process::Abort;

fn file_of(alloc: Global, path: &str, content: &[u8]) -> Result<TreeFile, NoMemory> {
    Ok(TreeFile {
        path: Text::from_str(alloc, path)?,
        content: Bytes::from_slice(alloc, content)?,
    })
}

/// A tree of these files, each a path and its content.
fn tree(alloc: Global, files: &[(&str, &str)]) -> Result<Tree, NoMemory> {
    let mut listed = Seq::new(alloc);
    for (path, content) in files {
        listed.push(file_of(alloc, path, content.as_bytes())?)?;
    }
    Ok(Tree { files: listed })
}

/// A tree with one file of these bytes.
fn tree_of_bytes(alloc: Global, path: &str, bytes: &[u8]) -> Result<Tree, NoMemory> {
    let mut files = Seq::new(alloc);
    files.push(file_of(alloc, path, bytes)?)?;
    Ok(Tree { files })
}

/// What a configuration comes to.
pub(crate) type Told = Result<Settings, ConfFail>;

/// What the configuration of these files comes to.
pub(crate) fn read(alloc: Global, files: &[(&str, &str)]) -> Told {
    let tree = tree(alloc, files)?;
    conf(alloc, &tree)
}

/// What the configuration of one file of these bytes comes to.
pub(crate) fn read_bytes(alloc: Global, path: &str, bytes: &[u8]) -> Told {
    let tree = tree_of_bytes(alloc, path, bytes)?;
    conf(alloc, &tree)
}

/// File, section, item and kind of a refusal.
fn refusal_text(alloc: Global, error: &ConfError) -> Result<String, NoMemory> {
    let file = error.file.as_str();
    let section = error.section.as_str();
    let name = error.name.as_str();
    let kind = &error.kind;
    Ok(format!(in alloc; "{file}|{section}|{name}|{kind:?}")?)
}

/// What is told of a configuration: file, section, item and kind of the refusal, or `read`.
fn text_of(alloc: Global, told: &Told) -> Result<String, NoMemory> {
    match told {
        Ok(_) => Ok(String::from_str(alloc, "read")?),
        Err(Refusal::Refused(error)) => refusal_text(alloc, error),
        Err(Refusal::NoMemory) => Ok(String::from_str(alloc, "no memory")?),
    }
}

/// Fails at this row unless that is told of a configuration.
pub(crate) fn tells<A: Copy + Debug>(
    rt: &impl Abort,
    alloc: Global,
    at: A,
    told: &Told,
    want: &str,
) -> Result<(), NoMemory> {
    let text = text_of(alloc, told)?;
    same(rt, at, text.as_str(), want);
    Ok(())
}

/// Fails at this row unless that is told of the configuration of these files.
pub(crate) fn is_told<A: Copy + Debug>(
    rt: &impl Abort,
    alloc: Global,
    at: A,
    files: &[(&str, &str)],
    want: &str,
) -> Result<(), NoMemory> {
    let told = read(alloc, files);
    tells(rt, alloc, at, &told, want)
}

/// The one jail of a configuration that is read.
pub(crate) fn jail_in(told: &Told) -> Option<&JailDef> {
    match told {
        Ok(settings) => match settings.defs.jails.as_slice() {
            [jail] => Some(jail),
            _ => None,
        },
        Err(_) => None,
    }
}

/// A `jail.conf` of one jail with this item. The text stands between references to an empty item, which keep the blanks at its ends.
pub(crate) fn with_item(alloc: Global, name: &str, text: &str) -> Result<String, NoMemory> {
    Ok(format!(in alloc; "[j]\nenabled = on\nnone =\n{name} = %(none)s{text}%(none)s\n")?)
}

/// What a jail with this item comes to.
pub(crate) fn read_with(alloc: Global, name: &str, text: &str) -> Told {
    let jail = with_item(alloc, name, text)?;
    read(alloc, &[("jail.conf", jail.as_str())])
}

/// Fails unless that is told of a jail with this item, for each of these texts.
pub(crate) fn are_told_with(
    rt: &impl Abort,
    alloc: Global,
    name: &str,
    texts: &[&str],
    want: &str,
) -> Result<(), NoMemory> {
    for &text in texts {
        let told = read_with(alloc, name, text);
        tells(rt, alloc, (name, text), &told, want)?;
    }
    Ok(())
}

/// Rows of an item's name, its text, and what is told of a jail with it.
pub(crate) fn are_told(
    rt: &impl Abort,
    alloc: Global,
    rows: &[(&str, &str, &str)],
) -> Result<(), NoMemory> {
    for &(name, text, want) in rows {
        let told = read_with(alloc, name, text);
        tells(rt, alloc, (name, text), &told, want)?;
    }
    Ok(())
}
