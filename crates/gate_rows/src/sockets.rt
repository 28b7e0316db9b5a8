//! What no clause says: what the system answers.

mod clients;
mod places;
mod waits;

use gate_socket::GateSocket;
use std::os::unix::net::UnixStream;
use std::test::Fail;
use std::{fs, process};

/// A folder of a test's own, which is made anew.
fn folder(rt: &HostRuntime, name: &str) -> Result<String, Fail> {
    let number = process::id(rt.process());
    let folder = format!(in rt.alloc(); "/tmp/gate_socket_{name}_{number}")?;
    let _ = fs::remove_dir_all(rt, folder.as_str());
    fs::create_dir(rt, folder.as_str())?;
    Ok(folder)
}

/// The path of a socket in a folder.
fn socket_in(rt: &HostRuntime, folder: &str) -> Result<String, Fail> {
    Ok(format!(in rt.alloc(); "{folder}/sock")?)
}

/// A gate at a path.
fn gate_at(rt: &HostRuntime, path: &str) -> Result<GateSocket, Fail> {
    match GateSocket::listen(rt, path) {
        Ok(gate) => Ok(gate),
        Err(_) => Err(Fail::from("it does not listen")),
    }
}

/// A gate, and one client that it has not accepted. The folder is gone then.
fn gate_and_client(rt: &HostRuntime, name: &str) -> Result<(GateSocket, UnixStream), Fail> {
    let folder = folder(rt, name)?;
    let path = socket_in(rt, folder.as_str())?;
    let gate = gate_at(rt, path.as_str())?;
    let client = UnixStream::connect(rt, path.as_str())?;
    fs::remove_dir_all(rt, folder.as_str())?;
    Ok((gate, client))
}
