//! The logs that a path with wildcards stands for.
ghost use Rattle.std.specs.Prelude.{◌≡◌, true, false, ◌++◌, ◌∷◌, [], filter, map, IfOk};
ghost use Rattle.log_follow.specs.Globs.{IsExpansion, behind_slash, fits, has_wildcard, to_slash};
ghost use Rattle.log_follow.specs.Texts.{texts};

use crate::glob::glob_match;
use f2b_base::{NoMemory, Plain, Seq, Text, WatchDef};
use memchr::memrchr;
use std::alloc::Global;

/// How many logs one path stands for at most.
const MOST: usize = 64;

/// The logs that a watch's path stands for, where these are the names in its directory, the path up to its last slash. A path
/// without a wildcard, `*` or `?`, stands for itself. Else what follows the last slash is a pattern for the names, and the logs
/// are those of the first 64 names that it stands for, in byte order.
pub fn expand_path(
    alloc: Global,
    watch: &WatchDef,
    names: &Seq<Text>,
) -> Result<Seq<WatchDef>, NoMemory>
    ensures plain { IfOk result (λ watches. has_wildcard watch.now.path ≡ false → watches ≡ watch.now ∷ []) }
    ensures expanded { IfOk result (λ watches. has_wildcard watch.now.path ≡ true → IsExpansion watch.now names.now watches) }
{
    let path = watch.path.as_str();
    let mut watches = Seq::new(alloc);
    if !has_wildcard(path) {
        watches.push(watch.copy()?)?;
        return Ok(watches);
    }
    let (directory, pattern) = cut(path);
    let mut found = matching(alloc, pattern, names.as_slice())?;
    found.sort_unstable();
    found.truncate(MOST);
    for name in &found {
        let path = joined(alloc, directory, name)?;
        watches.push(WatchDef {
            path,
            tail: watch.tail,
        })?;
    }
    Ok(watches)
}

fn has_wildcard(path: &str) -> bool
    ensures { result ≡ has_wildcard path.now }
{
    path.as_bytes()
        .iter()
        .any(|byte| *byte == b'*' || *byte == b'?')
}

// The path up to and with its last slash, and what follows it.
fn cut(path: &str) -> (&str, &str)
    ensures front { result.0.now ≡ to_slash path.now }
    ensures back { result.1.now ≡ behind_slash path.now }
{
    match memrchr(b'/', path.as_bytes()) {
        Some(end) => path.split_at(end + 1),
        None => ("", path),
    }
}

// The names that a pattern stands for, in their order.
fn matching<'a>(alloc: Global, pattern: &str, names: &'a [Text]) -> Result<Vec<&'a str>, NoMemory>
    ensures { IfOk result (λ found. texts found.items ≡ filter (fits pattern.now) names.now) }
{
    let mut found = Vec::new(alloc);
    for name in names {
        let name = name.as_str();
        if glob_match(pattern, name) {
            found.push(name)?;
        }
    }
    Ok(found)
}

fn joined(alloc: Global, directory: &str, name: &str) -> Result<Text, NoMemory>
    ensures { IfOk result (λ path. path ≡ directory.now ++ name.now) }
{
    let mut path = Text::from_str(alloc, directory)?;
    path.push_str(name)?;
    Ok(path)
}
