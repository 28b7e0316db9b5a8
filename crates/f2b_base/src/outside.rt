//! What calls on the outside bring.

use crate::bytes::Bytes;
use crate::memory::NoMemory;
use crate::plain::Plain;
use crate::seq::Seq;
use crate::text::Text;

/// A reading of the clock.
#[derive(Clone, Copy, Debug, PartialEq, Eq)]
pub struct Reading {
    /// Seconds since 1970.
    pub secs: u64,
    /// A number that differs from reading to reading: of a real clock, the nanoseconds past the second.
    pub word: u64,
}

/// A file of a configuration.
#[derive(Clone, Debug, Drop, PartialEq, Eq)]
pub struct TreeFile {
    /// Relative to the tree's root.
    pub path: Text,
    pub content: Bytes,
}

/// The files of a configuration whose names end in `.conf` or `.local`, in the root and in its direct subdirectories, in byte
/// order of their paths.
#[derive(Clone, Debug, Drop, PartialEq, Eq)]
pub struct Tree {
    /// At most 4,096, with at most 16,777,216 bytes in all.
    pub files: Seq<TreeFile>,
}

/// What reading a configuration gave.
#[derive(Clone, Debug, Drop, PartialEq, Eq)]
pub enum TreeAnswer {
    Tree(Tree),
    Failed,
    TooLarge,
    NoMemory,
}

/// What a look at a file gave.
#[derive(Clone, Debug, Drop, PartialEq, Eq)]
pub struct FileLook {
    /// The file's length in bytes.
    pub size: u64,
    /// The file's first bytes, as many as were asked for, or all where there are fewer.
    pub head: Bytes,
    /// The file's bytes from the asked offset on, at most as many as were asked for.
    pub bytes: Bytes,
}

impl Plain for TreeFile {
    fn copy(&self) -> Result<TreeFile, NoMemory> {
        Ok(self.clone()?)
    }
}

impl Plain for Tree {
    fn copy(&self) -> Result<Tree, NoMemory> {
        Ok(Tree {
            files: self.files.copy()?,
        })
    }
}

impl Plain for TreeAnswer {
    fn copy(&self) -> Result<TreeAnswer, NoMemory> {
        match self {
            TreeAnswer::Tree(tree) => Ok(TreeAnswer::Tree(tree.copy()?)),
            TreeAnswer::Failed => Ok(TreeAnswer::Failed),
            TreeAnswer::TooLarge => Ok(TreeAnswer::TooLarge),
            TreeAnswer::NoMemory => Ok(TreeAnswer::NoMemory),
        }
    }
}

impl Plain for FileLook {
    fn copy(&self) -> Result<FileLook, NoMemory> {
        Ok(FileLook {
            size: self.size,
            head: self.head.copy()?,
            bytes: self.bytes.copy()?,
        })
    }
}
