//! What stands at the path of a socket before, meanwhile and after.

use super::{folder, gate_at, socket_in};
use crate::rows::same;
use gate_socket::{Fault, GateSocket};
use std::fs;
use std::os::unix::fs::MetadataExt;
use std::os::unix::net::{UnixListener, UnixStream};
use std::test::Fail;

/// Why no gate is at a path.
fn fault_at(rt: &HostRuntime, path: &str) -> Option<Fault> {
    GateSocket::listen(rt, path).err()
}

/// How many files stand in a folder.
fn entries(rt: &HostRuntime, folder: &str) -> Result<usize, Fail> {
    Ok(fs::read_dir(rt, folder)?.count())
}

/// What a file holds.
fn text_at(rt: &HostRuntime, path: &str) -> Result<String, Fail> {
    Ok(fs::read_to_string(rt, path)?)
}

#[test]
fn its_owner_alone_may_connect(rt: HostRuntime) -> Result<(), Fail> {
    let folder = folder(&rt, "mode")?;
    let path = socket_in(&rt, folder.as_str())?;
    let _gate = gate_at(&rt, path.as_str())?;
    let made = fs::symlink_metadata(&rt, path.as_str())?;
    same(&rt, "mode", made.mode() & 0o777, 0o600);
    same(&rt, "entries", entries(&rt, folder.as_str())?, 1);
    fs::remove_dir_all(&rt, folder.as_str())?;
    Ok(())
}

#[test]
fn sockets_of_a_server_that_is_no_more_are_replaced(rt: HostRuntime) -> Result<(), Fail> {
    let folder = folder(&rt, "stale")?;
    let path = socket_in(&rt, folder.as_str())?;
    let beside = format!(in rt.alloc(); "{path}.new")?;
    drop(UnixListener::bind(&rt, path.as_str())?);
    drop(UnixListener::bind(&rt, beside.as_str())?);
    let _gate = gate_at(&rt, path.as_str())?;
    let _client = UnixStream::connect(&rt, path.as_str())?;
    same(&rt, "entries", entries(&rt, folder.as_str())?, 1);
    fs::remove_dir_all(&rt, folder.as_str())?;
    Ok(())
}

#[test]
fn a_server_that_answers_keeps_its_place(rt: HostRuntime) -> Result<(), Fail> {
    let folder = folder(&rt, "live")?;
    let path = socket_in(&rt, folder.as_str())?;
    let _gate = gate_at(&rt, path.as_str())?;
    let before = fs::symlink_metadata(&rt, path.as_str())?.ino();
    same(
        &rt,
        "refused",
        fault_at(&rt, path.as_str()),
        Some(Fault::Failed),
    );
    let after = fs::symlink_metadata(&rt, path.as_str())?.ino();
    same(&rt, "file", after, before);
    same(&rt, "entries", entries(&rt, folder.as_str())?, 1);
    fs::remove_dir_all(&rt, folder.as_str())?;
    Ok(())
}

#[test]
fn another_file_stays(rt: HostRuntime) -> Result<(), Fail> {
    let folder = folder(&rt, "other")?;
    let path = socket_in(&rt, folder.as_str())?;
    let beside = format!(in rt.alloc(); "{path}.new")?;
    fs::write(&rt, path.as_str(), "text")?;
    same(
        &rt,
        "refused",
        fault_at(&rt, path.as_str()),
        Some(Fault::Failed),
    );
    let text = text_at(&rt, path.as_str())?;
    same(&rt, "text", text.as_str(), "text");
    fs::rename(&rt, path.as_str(), beside.as_str())?;
    same(
        &rt,
        "refused",
        fault_at(&rt, path.as_str()),
        Some(Fault::Failed),
    );
    let text = text_at(&rt, beside.as_str())?;
    same(&rt, "text beside", text.as_str(), "text");
    fs::remove_dir_all(&rt, folder.as_str())?;
    Ok(())
}

#[test]
fn a_path_has_room_for_its_ending(rt: HostRuntime) -> Result<(), Fail> {
    let folder = folder(&rt, "long")?;
    let mut path = socket_in(&rt, folder.as_str())?;
    for _ in path.len()..103 {
        path.push('x')?;
    }
    let _gate = gate_at(&rt, path.as_str())?;
    path.push('x')?;
    same(
        &rt,
        "refused",
        fault_at(&rt, path.as_str()),
        Some(Fault::Failed),
    );
    same(&rt, "refused", fault_at(&rt, ""), Some(Fault::Failed));
    fs::remove_dir_all(&rt, folder.as_str())?;
    Ok(())
}

#[test]
fn its_file_goes_as_far_as_it_is_its_own(rt: HostRuntime) -> Result<(), Fail> {
    let folder = folder(&rt, "goes")?;
    let path = socket_in(&rt, folder.as_str())?;
    let gate = gate_at(&rt, path.as_str())?;
    gate.remove(&rt);
    same(&rt, "entries", entries(&rt, folder.as_str())?, 0);
    let _other = gate_at(&rt, path.as_str())?;
    gate.remove(&rt);
    same(&rt, "entries", entries(&rt, folder.as_str())?, 1);
    fs::remove_dir_all(&rt, folder.as_str())?;
    Ok(())
}
