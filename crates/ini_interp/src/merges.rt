//! The files of a base, merged.
ghost use Rattle.std.specs.Prelude.{◌≡◌, ◌≢◌, ℕ, List, ◌++◌, [], None, Ok, Err, IfOk, IfErr, OnOk, codes};
ghost use Rattle.ini_interp.specs.declared.error.IniError.TheVariants as ini;
ghost use Rattle.ini_interp.specs.AreSections.{AreSections};
ghost use Rattle.ini_interp.specs.Frames.{IsKept};
ghost use Rattle.ini_interp.specs.InTurn.{in_turn};
ghost use Rattle.ini_interp.specs.Merges.{base_file, base_files, files_ending, merged, merged_in};
ghost use Rattle.ini_interp.specs.Sections.{value_of};

use crate::file_table::FileTable;
use crate::frames::read_with_includes;
use crate::merge_error::MergeError;
use crate::sections::Sections;
use f2b_base::{NoMemory, Seq, Text, Tree};
use std::alloc::Global;

/// The files of a base, in the order in which they are read.
fn base_files(alloc: Global, files: &FileTable<'_>, base: &str) -> Result<Seq<Text>, NoMemory>
    ensures { IfOk result (λ paths. paths ≡ base_files files.now base.now) }
{
    let mut paths = Seq::new(alloc);
    push_files_ending(alloc, files, base, ".conf", &mut paths)?;
    push_files_ending(alloc, files, base, ".local", &mut paths)?;
    Ok(paths)
}

/// The base and the ending, one behind the other.
fn appended(alloc: Global, base: &str, ending: &str) -> Result<Text, NoMemory>
    ensures { IfOk result (λ text. text ≡ base.now ++ ending.now) }
{
    let mut text = Text::from_str(alloc, base)?;
    text.push_str(ending)?;
    Ok(text)
}

/// Adds the files of a base with this ending, in the order in which they are read.
fn push_files_ending(
    alloc: Global,
    files: &FileTable<'_>,
    base: &str,
    ending: &str,
    paths: &mut Seq<Text>,
) -> Result<(), NoMemory>
    ensures { OnOk result (paths.new ≡ paths.old ++ files_ending files.now base.now ending.now) }
{
    paths.push(appended(alloc, base, ending)?)?;
    if base == "jail" || base == "fail2ban" {
        let directory = appended(alloc, base, ".d/")?;
        files.push_paths(alloc, directory.as_str(), ending, paths)?;
    }
    Ok(())
}

/// Reads a file of the base with what it includes, where it is there.
fn read_base_file(
    alloc: Global,
    files: &FileTable<'_>,
    path: &Text,
    sections: &mut Sections,
) -> Result<(), MergeError>
    ensures ok { OnOk result (IsKept (base_file files.now path.now) (Ok []) sections.old sections.new) }
    ensures fault { IfErr result (λ fault. fault ≢ MergeError.NoMemory
        → base_file files.now path.now ≡ Err fault) }
{
    match files.get(path.as_str()) {
        Some(content) => read_with_includes(alloc, files, path, content, sections),
        None => Ok(()),
    }
}

/// Reads the files of a base, with what they include.
fn read_base(alloc: Global, files: &FileTable<'_>, base: &str) -> Result<Sections, MergeError>
    ensures ok { IfOk result (λ sections. IsKept (in_turn (base_file files.now) (base_files files.now base.now)) (Ok []) [] sections) }
    ensures fault { IfErr result (λ fault. fault ≢ MergeError.NoMemory
        → in_turn (base_file files.now) (base_files files.now base.now) ≡ Err fault) }
{
    let paths = base_files(alloc, files, base)?;
    let mut sections = Sections::new(alloc);
    for path in paths.as_slice() {
        match read_base_file(alloc, files, path, &mut sections) {
            Ok(()) => (),
            Err(fault) => return Err(fault),
        }
    }
    Ok(sections)
}

/// What the files of a base come to among the files of a table, which serves any number of bases.
///
/// For the bases `jail` and `fail2ban` these are read: `BASE.conf`, the files `BASE.d/*.conf` in byte order, `BASE.local`, and the
/// files `BASE.d/*.local` in byte order; for any other base, as `filter.d/sshd`, `BASE.conf` and `BASE.local`. Files that are not
/// there are skipped; where none is there, the sections are empty. A file reads what its section [INCLUDES] names as well.
pub fn merge_in(alloc: Global, files: &FileTable<'_>, base: &str) -> Result<Sections, MergeError>
    ensures ok { IfOk result (λ sections. merged_in files.now base.now ≡ Ok sections) }

    // Of the names in it. [INCLUDES] is not merged.
    ensures named { IfOk result AreSections }
    ensures not_merged { IfOk result (λ sections. value_of (codes "INCLUDES") sections ≡ None) }

    // The first fault in the order of reading, or want of memory.
    ensures fault { IfErr result (λ fault. fault ≢ MergeError.NoMemory → merged_in files.now base.now ≡ Err fault) }

    // Want of memory has one name.
    ensures told { IfErr result (λ fault. (file : List ℕ) → fault ≢ MergeError.Ini file ini.NoMemory) }
{
    read_base(alloc, files, base)
}

/// What the files of a base come to in a tree, as `merge_in` says of the table of its files.
pub fn merge(alloc: Global, tree: &Tree, base: &str) -> Result<Sections, MergeError>
    ensures ok { IfOk result (λ sections. merged tree.now base.now ≡ Ok sections) }

    // Of the names in it. [INCLUDES] is not merged.
    ensures named { IfOk result AreSections }
    ensures not_merged { IfOk result (λ sections. value_of (codes "INCLUDES") sections ≡ None) }

    // The first fault in the order of reading, or want of memory.
    ensures fault { IfErr result (λ fault. fault ≢ MergeError.NoMemory → merged tree.now base.now ≡ Err fault) }

    // Want of memory has one name.
    ensures told { IfErr result (λ fault. (file : List ℕ) → fault ≢ MergeError.Ini file ini.NoMemory) }
{
    let files = FileTable::new(alloc, tree)?;
    merge_in(alloc, &files, base)
}
