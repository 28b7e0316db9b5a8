//! `Slots`, two files that one server has for itself.
ghost use Rattle.std.specs.Prelude.{◌≡◌, ◌<◌, IfOk, length};
ghost use Rattle.f2b_world.specs.Bounds.{AreBytes};

use crate::fault::Fault;
use crate::place::{directory_of, make_directory, path_in, sync_directory};
use f2b_base::Bytes;
use std::alloc::{AllocGlobal, Global};
use std::fs::{File, OpenFile, OpenOptions};
use std::io::{ErrorKind, Read, Seek, SeekFrom, Write};
use std::os::unix::fs::OpenOptionsExt;
use std::rt::Files;
use std::time::{Clock, Duration};
use std::{mem, thread};

/// Nobody but the owner of the server reads or writes its files.
const OWNER_ALONE: u32 = 0o600;

/// How often the lock is tried: of a server that was killed a command may have it up to the moment where it begins.
const MOST_TRIES: u32 = 100;

/// For how many milliseconds it is waited behind each of these.
const WAIT_MS: u64 = 10;

/// The two slots, files `journal.0` and `journal.1` in one directory. Another server that asks for them there gets nothing as long as
/// this value stands.
#[derive(Drop)]
pub struct Slots {
    dir: String,
    first: Slot,
    second: Slot,
    /// Whether a file was made whose entry in the directory may not be over a stop yet.
    is_entry_new: bool,
    /// The lock goes with this handle.
    lock: File,
}

/// One slot. Its path stands here, so that no call on it wants memory but for what it reads.
#[derive(Drop)]
struct Slot {
    path: String,
    /// A handle, once it was needed.
    file: Option<File>,
}

impl Slot {
    /// The slot of a name, whose file was not looked for yet.
    fn in_directory(alloc: Global, dir: &str, name: &str) -> Result<Slot, Fault> {
        Ok(Slot {
            path: path_in(alloc, dir, name)?,
            file: None,
        })
    }

    /// The handle, where the file is there. `is_made`: else it is made, and `is_new` set.
    fn handle<R: Files<File = File>>(
        &mut self,
        rt: &R,
        is_new: &mut bool,
        is_made: bool,
    ) -> Result<Option<&mut File>, Fault> {
        if self.file.is_none() {
            let mut found = open_file(rt, self.path.as_str(), false)?;
            if found.is_none() && is_made {
                found = open_file(rt, self.path.as_str(), true)?;
                *is_new = true;
            }
            self.file = found;
        }
        Ok(self.file.as_mut())
    }
}

/// Opens a file for reading and writing, if it is there. `is_made`: else it is made.
fn open_file<R: Files<File = File>>(
    rt: &R,
    path: &str,
    is_made: bool,
) -> Result<Option<File>, Fault> {
    let mut how = OpenOptions::new();
    how.read(true);
    how.write(true);
    how.create(is_made);
    how.mode(OWNER_ALONE);
    match how.open(rt, path) {
        Ok(file) => Ok(Some(file)),
        Err(error) if error.kind() == ErrorKind::NotFound && !is_made => Ok(None),
        Err(error) => Err(Fault::from(error)),
    }
}

/// Takes the lock, as soon as nobody has it within a second.
fn take_lock<R: Clock>(rt: &R, lock: &File) -> Result<(), Fault> {
    for _ in 0..MOST_TRIES {
        if lock.try_lock().is_ok() {
            return Ok(());
        }
        thread::sleep(rt, Duration::from_millis(WAIT_MS));
    }
    Err(Fault::Failed)
}

/// How long a file is, in bytes. A pipe and its like are `Failed`: they keep nothing.
fn file_len(file: &File) -> Result<u64, Fault> {
    let metadata = file.metadata()?;
    if !metadata.is_file() {
        return Err(Fault::Failed);
    }
    Ok(metadata.len())
}

/// Exactly so many bytes of a file from an offset on. A file that ends before is `Failed`.
fn read_range(alloc: Global, file: &mut File, at: u64, len: u64) -> Result<Bytes, Fault>
    ensures whole { IfOk result (λ bytes. length bytes ≡ len) }
    ensures bytes { IfOk result AreBytes }
{
    if len == 0 {
        return Ok(Bytes::new(alloc));
    }
    let Ok(count) = usize::try_from(len) else {
        return Err(Fault::NoMemory);
    };
    let mut bytes = vec![in alloc; 0u8; count]?;
    file.seek(SeekFrom::Start(at))?;
    file.read_exact(&mut bytes)?;
    let bytes = Bytes::from(bytes);
    know_bytes(bytes.as_slice());
    Ok(bytes)
}

/// Bytes are below 256.
fn know_bytes(bytes: &[u8])
    ensures { AreBytes bytes.now }
{
    let _count = bytes.len();
}

impl Slots {
    /// The slots beside a path. Their directory is made, for its owner alone, where it is not there. What is in them is over a stop then,
    /// also what a server wrote that was killed before it synced. Where another server has them for a second, and where the directory cannot
    /// be had, it is `Failed`, and nothing was read or written of them.
    pub fn beside<R: Files<File = File> + Clock + AllocGlobal>(
        rt: &R,
        socket: &str,
    ) -> Result<Slots, Fault> {
        let dir = String::from_str(rt.alloc(), directory_of(socket))?;
        make_directory(rt, dir.as_str())?;
        let path = path_in(rt.alloc(), dir.as_str(), "journal.lock")?;
        let Some(lock) = open_file(rt, path.as_str(), true)? else {
            return Err(Fault::Failed);
        };
        take_lock(rt, &lock)?;
        let mut slots = Slots {
            first: Slot::in_directory(rt.alloc(), dir.as_str(), "journal.0")?,
            second: Slot::in_directory(rt.alloc(), dir.as_str(), "journal.1")?,
            dir,
            lock,
            // A server that was killed may have made a file, and not have come to this.
            is_entry_new: true,
        };
        slots.sync(rt, 0)?;
        slots.sync(rt, 1)?;
        Ok(slots)
    }

    /// The handle of slot 0, or of slot 1.
    fn handle<R: Files<File = File>>(
        &mut self,
        rt: &R,
        slot: u8,
        is_made: bool,
    ) -> Result<Option<&mut File>, Fault> {
        let is_new = &mut self.is_entry_new;
        if slot == 0 {
            return self.first.handle(rt, is_new, is_made);
        }
        self.second.handle(rt, is_new, is_made)
    }

    /// How long a slot is, in bytes: 0 where its file is not there. What is there and is no file is `Failed`.
    pub fn len<R: Files<File = File>>(&mut self, rt: &R, slot: u8) -> Result<u64, Fault> {
        match self.handle(rt, slot, false)? {
            Some(file) => file_len(file),
            None => Ok(0),
        }
    }

    /// Exactly so many bytes of a slot from an offset on.
    pub fn read<R: Files<File = File> + AllocGlobal>(
        &mut self,
        rt: &R,
        slot: u8,
        at: u64,
        len: u64,
    ) -> Result<Bytes, Fault>
        ensures whole { IfOk result (λ bytes. length bytes ≡ len) }
        ensures bytes { IfOk result AreBytes }
    {
        match self.handle(rt, slot, false)? {
            Some(file) => read_range(rt.alloc(), file, at, len),
            None if len == 0 => Ok(Bytes::new(rt.alloc())),
            None => Err(Fault::Failed),
        }
    }

    /// Writes bytes into a slot from an offset on. Its file is made where it is not there.
    pub fn write<R: Files<File = File>>(
        &mut self,
        rt: &R,
        slot: u8,
        at: u64,
        bytes: &[u8],
    ) -> Result<(), Fault> {
        let Some(file) = self.handle(rt, slot, true)? else {
            return Err(Fault::Failed);
        };
        file.seek(SeekFrom::Start(at))?;
        file.write_all(bytes)?;
        Ok(())
    }

    /// Makes what was written to a slot last over a stop, and that its file is there.
    pub fn sync<R: Files<File = File>>(&mut self, rt: &R, slot: u8) -> Result<(), Fault> {
        if let Some(file) = self.handle(rt, slot, false)? {
            file.sync_data()?;
        }
        if mem::replace(&mut self.is_entry_new, false) {
            sync_directory(rt, self.dir.as_str())?;
        }
        Ok(())
    }
}
