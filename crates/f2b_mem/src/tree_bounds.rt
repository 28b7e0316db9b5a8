//! The bounds of a script's trees.
ghost use Rattle.std.specs.Prelude.{◌≡◌, ◌&&◌, [], leb, length, All};
ghost use Rattle.f2b_world.specs.Bounds.{FitsFile};
ghost use Rattle.f2b_world.specs.Trees.{bytes_in};
ghost use Rattle.f2b_mem.specs.TreeBounds.{are_configured, are_ordered, is_configured, is_tree};

use crate::pieces::know_bytes;
use f2b_base::TreeFile;
use f2b_world::is_configured;

/// The most files of a tree.
const MOST_FILES: usize = 4096;
/// The most bytes in them.
const MOST_BYTES: usize = 16_777_216;

// Whether the paths are in byte order.
fn are_ordered(files: &[TreeFile]) -> bool
    ensures { result ≡ are_ordered [] files.now }
{
    let mut before: &[u8] = &[];
    for file in files {
        let path = file.path.as_str().as_bytes();
        if path.cmp(before).is_lt() {
            return false;
        }
        before = path;
    }
    true
}

// Whether a path is one of a configuration.
fn is_of_configuration(path: &str) -> bool
    ensures { result ≡ is_configured path.now }
{
    is_configured(path)
}

// Whether all paths are those of a configuration.
fn are_configured(files: &[TreeFile]) -> bool
    ensures { result ≡ are_configured files.now }
{
    for file in files {
        if !is_of_configuration(file.path.as_str()) {
            return false;
        }
    }
    true
}

// Whether they have few enough bytes.
fn are_small(files: &[TreeFile]) -> bool
    ensures { result ≡ leb (bytes_in files.now) 16777216 }
{
    let mut room = MOST_BYTES;
    for file in files {
        let size = file.content.len();
        if room < size {
            return false;
        }
        room -= size;
    }
    true
}

/// Whether files are few enough for a tree, and have few enough bytes.
pub fn are_bounded(files: &[TreeFile]) -> bool
    ensures { result ≡ (leb (length files.now) 4096 && leb (bytes_in files.now) 16777216) }
{
    files.len() <= MOST_FILES && are_small(files)
}

/// Whether files keep to the bounds of a tree, and their paths are those of a configuration.
pub fn is_tree(files: &[TreeFile]) -> bool
    ensures { result ≡ is_tree files.now }
{
    are_bounded(files) && are_ordered(files) && are_configured(files)
}

// Its path is UTF-8, and its content bytes.
fn know_file(file: &TreeFile)
    ensures { FitsFile file.now }
{
    let _path = file.path.as_str();
    know_bytes(file.content.as_slice());
}

/// Paths are UTF-8, and contents bytes.
pub fn know_files(files: &[TreeFile])
    ensures { All FitsFile files.now }
{
    for file in files {
        know_file(file);
    }
}
