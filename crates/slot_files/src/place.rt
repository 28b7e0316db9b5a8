//! Where the slots lie.

use crate::fault::Fault;
use std::alloc::{AllocGlobal, Global};
use std::fs;
use std::fs::{DirBuilder, File, OpenFile};
use std::io::ErrorKind;
use std::os::unix::fs::DirBuilderExt;
use std::rt::Files;

/// The directory that a path lies in: `.` for a bare name, and `/` for a name below it.
pub fn directory_of(path: &str) -> &str {
    match path.rfind('/') {
        None => ".",
        Some(0) => "/",
        Some(at) => &path[..at],
    }
}

/// Makes a directory, with those above it, each for its owner alone, where they are not there. Then the entries of those that were made are
/// over a stop.
pub fn make_directory<R: Files + AllocGlobal>(rt: &R, dir: &str) -> Result<(), Fault> {
    let mut path = String::new(rt.alloc());
    for name in dir.split('/') {
        path.push_str(name)?;
        // In front of the first slash there is no name.
        if !path.is_empty() {
            make_one(rt, path.as_str())?;
        }
        path.push('/')?;
    }
    Ok(())
}

/// Makes one directory, where it is not there.
fn make_one<R: Files>(rt: &R, dir: &str) -> Result<(), Fault> {
    match fs::metadata(rt, dir) {
        Ok(_) => Ok(()),
        Err(error) if error.kind() == ErrorKind::NotFound => {
            let mut builder = DirBuilder::new();
            builder.mode(0o700);
            builder.create(rt, dir)?;
            sync_directory(rt, directory_of(dir))
        }
        Err(error) => Err(Fault::from(error)),
    }
}

/// Makes the entries of a directory last over a stop.
pub fn sync_directory<R: Files>(rt: &R, dir: &str) -> Result<(), Fault> {
    File::open(rt, dir)?.sync_all()?;
    Ok(())
}

/// The path of a file in a directory.
pub fn path_in(alloc: Global, dir: &str, name: &str) -> Result<String, Fault> {
    Ok(format!(in alloc; "{dir}/{name}")?)
}
