//! Where the socket lies, and that no other file and no other server's socket is lost.
//!
//! A socket is made beside its place, gets its mode there, and is put in its place by one call: so nobody but its owner could ever connect
//! to it there, and a client finds the old socket or the new one. Who puts another file there between the look at the place and that call
//! loses it.
ghost use Rattle.std.specs.Prelude.{◌<◌, ◌≤◌, IfOk, length};
ghost use Rattle.gate_socket.specs.Uses.{most_path};

use crate::fault::Fault;
use mio::net::{UnixListener, UnixStream};
use std::alloc::AllocGlobal;
use std::fs;
use std::fs::Permissions;
use std::io::ErrorKind;
use std::net::Net;
use std::os::unix::fs::{FileTypeExt, MetadataExt, PermissionsExt};
use std::rt::Files;

/// The most bytes of a path: with the ending behind it the system takes no more.
pub const MOST_PATH: usize = 103;

/// What stands behind the path of a socket that is not yet in its place.
const ENDING: &str = ".new";

/// Nobody but the owner of the server connects to it.
const OWNER_ALONE: u32 = 0o600;

/// A socket of the file system that this server made.
#[derive(Drop)]
pub(crate) struct Place {
    path: String,
    /// The file system that it lies in, and its number there.
    device: u64,
    number: u64,
}

impl Place {
    /// Takes the file away, as far as it is still this one.
    pub(crate) fn remove<R: Files>(&self, rt: &R) {
        if let Ok(found) = fs::symlink_metadata(rt, self.path.as_str())
            && found.dev() == self.device
            && found.ino() == self.number
        {
            let _ = fs::remove_file(rt, self.path.as_str());
        }
    }
}

/// Makes a socket at a path that nobody connects to but its owner. One that a server left there is replaced. Where a server answers there,
/// where something else is there, and where the path is empty or too long, it is `Failed`, and what is there stays.
pub(crate) fn bind_at<R: Files + Net + AllocGlobal>(
    rt: &R,
    path: &str,
) -> Result<(UnixListener, Place), Fault>
    ensures some { IfOk result (λ _. 0 < length path.now) }
    ensures short { IfOk result (λ _. length path.now ≤ most_path) }
{
    if path.is_empty() || path.len() > MOST_PATH {
        return Err(Fault::Failed);
    }
    let path = String::from_str(rt.alloc(), path)?;
    let beside = format!(in rt.alloc(); "{path}{ENDING}")?;
    let _ = is_stale(rt, path.as_str())?;
    if is_stale(rt, beside.as_str())? {
        fs::remove_file(rt, beside.as_str())?;
    }
    let listener = UnixListener::bind(rt, beside.as_str())?;
    match put_in_place(rt, beside.as_str(), path) {
        Ok(place) => Ok((listener, place)),
        Err(fault) => {
            let _ = fs::remove_file(rt, beside.as_str());
            Err(fault)
        }
    }
}

/// Gives a socket its mode, and puts it in its place.
fn put_in_place<R: Files>(rt: &R, beside: &str, path: String) -> Result<Place, Fault> {
    fs::set_permissions(rt, beside, Permissions::from_mode(OWNER_ALONE))?;
    let made = fs::symlink_metadata(rt, beside)?;
    fs::rename(rt, beside, path.as_str())?;
    Ok(Place {
        path,
        device: made.dev(),
        number: made.ino(),
    })
}

/// Whether a socket is there that no server answers at any more. `Failed` where one answers, or something else is there.
fn is_stale<R: Files + Net>(rt: &R, path: &str) -> Result<bool, Fault> {
    match fs::symlink_metadata(rt, path) {
        Ok(found) if found.file_type().is_socket() => know_nobody_answers(rt, path),
        Ok(_) => Err(Fault::Failed),
        Err(error) if error.kind() == ErrorKind::NotFound => Ok(false),
        Err(error) => Err(Fault::from(error)),
    }
}

/// `true` where a connection is refused. `Failed` where it is made, and where it cannot be told.
fn know_nobody_answers<R: Net>(rt: &R, path: &str) -> Result<bool, Fault> {
    match UnixStream::connect(rt, path) {
        Err(error) if error.kind() == ErrorKind::ConnectionRefused => Ok(true),
        _ => Err(Fault::Failed),
    }
}
