//! The names of files.
ghost use Rattle.std.specs.Prelude.{◌≡◌, ◌++◌, nat_eq, IfOk, OnOk};
ghost use Rattle.std.specs.List.{list_any, after_first, starts_with, ends_with};
ghost use Rattle.ini_interp.specs.Merges.{directory, has_dots, is_outside, stands_in};
ghost use Rattle.ini_interp.specs.Values.{is_slash};

use f2b_base::{NoMemory, Text};
use std::alloc::Global;

/// Whether the name begins so.
fn begins_with(name: &str, beginning: &str) -> bool
    ensures { result ≡ starts_with nat_eq name.now beginning.now }
{
    name.starts_with(beginning)
}

/// Whether the name ends so.
pub(crate) fn ends_with(name: &str, ending: &str) -> bool
    ensures { result ≡ ends_with nat_eq name.now ending.now }
{
    name.ends_with(ending)
}

/// Whether a slash stands behind the first.
fn is_nested(path: &str) -> bool
    ensures { result ≡ list_any is_slash (after_first is_slash path.now) }
{
    match path.split_once('/') {
        Some((_, name)) => name.as_bytes().contains(&b'/'),
        None => false,
    }
}

/// Whether a path stands in a directory, which is written with its slash, and ends so.
pub(crate) fn stands_in(directory: &str, ending: &str, path: &str) -> bool
    ensures { result ≡ stands_in directory.now ending.now path.now }
{
    begins_with(path, directory) && !is_nested(path) && ends_with(path, ending)
}

/// Whether two dots stand side by side.
fn has_dots(name: &str) -> bool
    ensures { result ≡ has_dots name.now }
{
    let mut rest = name.as_bytes();
    while let Some((first, behind)) = rest.split_first() {
        if *first == b'.' && behind.first() == Some(&b'.') {
            return true;
        }
        rest = behind;
    }
    false
}

/// Whether the name is absolute, or may lead out of the directory.
pub(crate) fn is_outside(name: &str) -> bool
    ensures { result ≡ is_outside name.now }
{
    name.as_bytes().first() == Some(&b'/') || has_dots(name)
}

/// Adds the path of a file up to its last slash.
fn push_directory(file: &str, path: &mut Text) -> Result<(), NoMemory>
    ensures { OnOk result (path.new ≡ path.old ++ directory file.now) }
{
    let Some(at) = file.rfind('/') else {
        return Ok(());
    };
    path.push_str(&file[..at])?;
    path.push_str("/")
}

/// The path of what a file names, relative to the file's own directory.
pub(crate) fn beside(alloc: Global, file: &str, name: &str) -> Result<Text, NoMemory>
    ensures { IfOk result (λ path. path ≡ directory file.now ++ name.now) }
{
    let mut path = Text::new(alloc);
    push_directory(file, &mut path)?;
    path.push_str(name)?;
    Ok(path)
}
