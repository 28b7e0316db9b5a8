//! The files of a script.
ghost use Rattle.std.specs.Prelude.{◌≡◌, None, option_copied};
ghost use Rattle.f2b_mem.specs.Script.{content_at, is_change_of};

use crate::script::FileChange;

fn is_change_of(change: &FileChange, path: &str, pauses: u64) -> bool
    ensures { result ≡ is_change_of path.now pauses change.now }
{
    change.pauses <= pauses && change.path.as_str() == path
}

fn content_of(change: &FileChange) -> Option<&[u8]>
    ensures { option_copied result ≡ change.now.content }
{
    match &change.content {
        Some(bytes) => Some(bytes.as_slice()),
        None => None,
    }
}

/// The content of a file after so many pauses.
pub fn content_at<'a>(changes: &'a [FileChange], path: &str, pauses: u64) -> Option<&'a [u8]>
    ensures { option_copied result ≡ content_at changes.now path.now pauses }
{
    let mut content = None;
    for change in changes {
        if is_change_of(change, path, pauses) {
            content = content_of(change);
        }
    }
    content
}
