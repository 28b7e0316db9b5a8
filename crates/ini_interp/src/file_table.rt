//! The files of a tree under their paths.
ghost use Rattle.std.specs.Prelude.{◌≡◌, ◌++◌, IfOk, OnOk, is_some, option_copied};
ghost use Rattle.ini_interp.specs.Merges.{files_of, with_file, paths_in};
ghost use Rattle.ini_interp.specs.Sections.{value_of};

use crate::names::stands_in;
use f2b_base::{NoMemory, Seq, Text, Tree, TreeFile};
use std::alloc::Global;
use std::collections::BTreeMap;
use std::marker::Model;

/// The contents of files under their paths, in byte order of the paths.
#[derive(Drop)]
pub struct FileTable<'a> {
    contents: BTreeMap<String, &'a [u8]>,
}

impl<'a> Model for FileTable<'a> {
    ghost use Rattle.std.specs.Prelude.{ℕ, List};
    ghost use Rattle.ini_interp.specs.Paths.{contents_of};

    ghost Value = { List (List ℕ × List ℕ) };

    ghost view = { λ t. contents_of t.contents.entries };
}

impl<'a> FileTable<'a> {
    /// The files of a tree. Of two files of one path the first counts.
    pub fn new(alloc: Global, tree: &'a Tree) -> Result<FileTable<'a>, NoMemory>
        ensures { IfOk result (λ files. files ≡ files_of tree.now) }
    {
        let mut files = FileTable {
            contents: BTreeMap::new(alloc),
        };
        for file in tree.files.as_slice() {
            files.add(alloc, file)?;
        }
        Ok(files)
    }

    /// Adds a file, unless there is one of its path.
    fn add(&mut self, alloc: Global, file: &'a TreeFile) -> Result<(), NoMemory>
        ensures { OnOk result (self.new ≡ with_file self.old file.now) }
    {
        let path = file.path.as_str();
        if !self.contents.contains_key(path) {
            let content = file.content.as_slice();
            self.contents
                .insert(String::from_str(alloc, path)?, content)?;
        }
        Ok(())
    }

    /// Whether there is a file of this path. Takes no memory.
    pub fn has(&self, path: &str) -> bool
        ensures { result ≡ is_some (value_of path.now self.now) }
    {
        self.contents.contains_key(path)
    }

    /// What the file of this path holds, or `None` where there is none.
    pub(crate) fn get(&self, path: &str) -> Option<&'a [u8]>
        ensures { option_copied result ≡ value_of path.now self.now }
    {
        self.contents.get(path).copied()
    }

    /// Adds the paths of the files that stand in a directory, which is written with its slash, and end so, in byte order.
    pub(crate) fn push_paths(
        &self,
        alloc: Global,
        directory: &str,
        ending: &str,
        paths: &mut Seq<Text>,
    ) -> Result<(), NoMemory>
        ensures { OnOk result (paths.new ≡ paths.old ++ paths_in self.now directory.now ending.now) }
    {
        for (path, _) in &self.contents {
            if stands_in(directory, ending, path.as_str()) {
                paths.push(Text::from_str(alloc, path.as_str())?)?;
            }
        }
        Ok(())
    }
}
