mod commands;
mod gate;

use crate::real::RealWorld;
use f2b_base::TreeAnswer;
use f2b_world::{Configuration, Directories, Logs, Look, NamesAnswer};
use std::alloc::AllocError;
use std::os::unix::fs::symlink;
use std::test::Fail;
use std::{fs, process};

/// A folder of a test's own, which is made anew.
fn folder(rt: &HostRuntime, name: &str) -> Result<String, Fail> {
    let number = process::id(rt.process());
    let place = format!(in rt.alloc(); "/tmp/fail2ban_server_{name}_{number}")?;
    let _ = fs::remove_dir_all(rt, place.as_str());
    fs::create_dir(rt, place.as_str())?;
    Ok(place)
}

fn within(rt: &HostRuntime, place: &String, name: &str) -> Result<String, AllocError> {
    format!(in rt.alloc(); "{place}/{name}")
}

/// The paths of a tree, each before a blank.
fn paths(rt: &HostRuntime, answer: &TreeAnswer) -> Result<String, Fail> {
    let mut paths = String::new(rt.alloc());
    let TreeAnswer::Tree(tree) = answer else {
        return Err(Fail::from("no tree"));
    };
    for file in tree.files.as_slice() {
        paths.push_str(file.path.as_str())?;
        paths.push(' ')?;
    }
    Ok(paths)
}

/// A log of ten bytes in a folder.
fn log_in(rt: &HostRuntime, place: &String) -> Result<String, Fail> {
    let log = within(rt, place, "log")?;
    fs::write(rt, log.as_str(), "0123456789")?;
    Ok(log)
}

#[test]
fn looks_at_files(rt: HostRuntime) -> Result<(), Fail> {
    let place = folder(&rt, "looks")?;
    let log = log_in(&rt, &place)?;
    let mut world = RealWorld::new(rt.clone()?, Some(rt.stderr()));
    let Look::File(seen) = world.look(log.as_str(), 64, 7, 4) else {
        return Err(Fail::from("no file"));
    };
    assert_eq!(rt; seen.size, 10);
    assert_eq!(rt; seen.head.as_slice(), b"0123456789".as_slice());
    assert_eq!(rt; seen.bytes.as_slice(), b"789".as_slice());
    fs::remove_dir_all(&rt, place.as_str())?;
    Ok(())
}

#[test]
fn looks_behind_the_end_of_a_file(rt: HostRuntime) -> Result<(), Fail> {
    let place = folder(&rt, "behind")?;
    let log = log_in(&rt, &place)?;
    let mut world = RealWorld::new(rt.clone()?, Some(rt.stderr()));
    let Look::File(seen) = world.look(log.as_str(), 4, u64::MAX, 4) else {
        return Err(Fail::from("no file"));
    };
    assert_eq!(rt; seen.head.as_slice(), b"0123".as_slice());
    assert_eq!(rt; seen.bytes.len(), 0);
    fs::remove_dir_all(&rt, place.as_str())?;
    Ok(())
}

#[test]
fn looks_at_what_is_no_file(rt: HostRuntime) -> Result<(), Fail> {
    let place = folder(&rt, "others")?;
    let inside = within(&rt, &log_in(&rt, &place)?, "x")?;
    let missing = within(&rt, &place, "x")?;
    let mut world = RealWorld::new(rt.clone()?, Some(rt.stderr()));
    assert_eq!(rt; world.look(inside.as_str(), 4, 0, 4), Look::Absent);
    assert_eq!(rt; world.look(missing.as_str(), 4, 0, 4), Look::Absent);
    assert_eq!(rt; world.look(place.as_str(), 4, 0, 4), Look::Failed);
    assert_eq!(rt; world.look("/dev/zero", 4, 0, 4), Look::Failed);
    fs::remove_dir_all(&rt, place.as_str())?;
    Ok(())
}

fn make_folders(rt: &HostRuntime, place: &String, names: &[&str]) -> Result<(), Fail> {
    for name in names {
        fs::create_dir(rt, within(rt, place, name)?.as_str())?;
    }
    Ok(())
}

/// Files in a folder, each of which has its name.
fn write_files(rt: &HostRuntime, place: &String, names: &[&str]) -> Result<(), Fail> {
    for name in names {
        fs::write(rt, within(rt, place, name)?.as_str(), *name)?;
    }
    Ok(())
}

const FILES: [&str; 6] = [
    "b.conf",
    "a-.local",
    "note.txt",
    "a/x.conf",
    "a/deep/y.conf",
    "z.conf/z.local",
];

#[test]
fn reads_the_files_of_a_configuration(rt: HostRuntime) -> Result<(), Fail> {
    let place = folder(&rt, "tree")?;
    make_folders(&rt, &place, &["a", "a/deep", "z.conf"])?;
    write_files(&rt, &place, &FILES)?;
    symlink(&rt, "nowhere", within(&rt, &place, "link.conf")?.as_str())?;
    let mut world = RealWorld::new(rt.clone()?, Some(rt.stderr()));
    let answer = world.config(place.as_str());
    assert_eq!(rt;
        paths(&rt, &answer)?.as_str(),
        "a-.local a/x.conf b.conf z.conf/z.local "
    );
    fs::remove_dir_all(&rt, place.as_str())?;
    Ok(())
}

#[test]
fn a_configuration_that_is_not_there_is_not_read(rt: HostRuntime) -> Result<(), Fail> {
    let place = folder(&rt, "no_tree")?;
    let missing = within(&rt, &place, "missing")?;
    let mut world = RealWorld::new(rt.clone()?, Some(rt.stderr()));
    assert_eq!(rt; world.config(missing.as_str()), TreeAnswer::Failed);
    fs::remove_dir_all(&rt, place.as_str())?;
    Ok(())
}

#[test]
fn refuses_more_bytes_than_a_configuration_may_have(rt: HostRuntime) -> Result<(), Fail> {
    let place = folder(&rt, "bytes")?;
    let path = within(&rt, &place, "a.conf")?;
    let mut world = RealWorld::new(rt.clone()?, Some(rt.stderr()));
    let file = fs::File::create(&rt, path.as_str())?;
    file.set_len(16_777_216)?;
    assert!(rt; matches!(world.config(place.as_str()), TreeAnswer::Tree(_)));
    file.set_len(16_777_217)?;
    assert_eq!(rt; world.config(place.as_str()), TreeAnswer::TooLarge);
    fs::remove_dir_all(&rt, place.as_str())?;
    Ok(())
}

/// The names of a listing, each before a blank.
fn listed(rt: &HostRuntime, answer: &NamesAnswer) -> Result<String, Fail> {
    let mut listed = String::new(rt.alloc());
    let NamesAnswer::Names(names) = answer else {
        return Err(Fail::from("no names"));
    };
    for name in names.as_slice() {
        listed.push_str(name.as_str())?;
        listed.push(' ')?;
    }
    Ok(listed)
}

#[test]
fn lists_the_names_of_a_directory(rt: HostRuntime) -> Result<(), Fail> {
    let place = folder(&rt, "names")?;
    make_folders(&rt, &place, &["c"])?;
    write_files(&rt, &place, &["b", "a2", "a10"])?;
    let mut world = RealWorld::new(rt.clone()?, Some(rt.stderr()));
    let answer = world.names(place.as_str());
    assert_eq!(rt; listed(&rt, &answer)?.as_str(), "a10 a2 b c ");
    fs::remove_dir_all(&rt, place.as_str())?;
    Ok(())
}

#[test]
fn lists_no_names_of_what_is_no_directory(rt: HostRuntime) -> Result<(), Fail> {
    let place = folder(&rt, "no_names")?;
    write_files(&rt, &place, &["b"])?;
    let file = within(&rt, &place, "b")?;
    let missing = within(&rt, &place, "x")?;
    let mut world = RealWorld::new(rt.clone()?, Some(rt.stderr()));
    assert_eq!(rt; world.names(file.as_str()), NamesAnswer::Absent);
    assert_eq!(rt; world.names(missing.as_str()), NamesAnswer::Absent);
    fs::remove_dir_all(&rt, place.as_str())?;
    Ok(())
}
