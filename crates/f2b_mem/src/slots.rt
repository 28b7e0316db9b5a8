//! Two slots of bytes in memory.
ghost use Rattle.std.specs.Prelude.{◌≡◌, ◌==◌, ◌<◌, ◌≤◌, ℕ, if◌then◌else◌, length, IfOk, OnOk, OnErr};
ghost use Rattle.f2b_world.specs.Slots.{written};
ghost use Rattle.f2b_mem.specs.Script.{of_two};

use f2b_base::{Bytes, NoMemory};
use std::alloc::Global;

/// What the slots hold.
#[derive(Drop)]
pub struct Slots {
    pub zero: Bytes,
    pub one: Bytes,
}

// Bytes that were written over others.
fn spliced(alloc: Global, old: &[u8], at: usize, bytes: &[u8]) -> Result<Bytes, NoMemory>
    requires { at ≤ length old.now }
    ensures { IfOk result (λ b. b ≡ written old.now at bytes.now) }
{
    let mut next = Bytes::from_slice(alloc, &old[..at])?;
    next.push_slice(bytes)?;
    if bytes.len() < old.len() - at {
        next.push_slice(&old[at + bytes.len()..])?;
    }
    Ok(next)
}

/// Writes bytes from an offset on, over what is there and past the end. An error changes nothing.
pub fn write_bytes(alloc: Global, held: &mut Bytes, at: usize, bytes: &[u8]) -> Result<(), NoMemory>
    ensures ok { OnOk result (held.new ≡ written held.old at bytes.now) }
    ensures err { OnErr result (held.new ≡ held.old) }
{
    if at >= held.len() {
        return held.push_slice(bytes);
    }
    *held = spliced(alloc, held.as_slice(), at, bytes)?;
    Ok(())
}

impl Slots {
    /// The bytes of a slot.
    pub fn get(&self, slot: u8) -> &[u8]
        requires { slot < 2 }
        ensures { result.now ≡ of_two self.now.zero self.now.one slot }
    {
        if slot == 0 {
            self.zero.as_slice()
        } else {
            self.one.as_slice()
        }
    }

    /// Writes bytes to a slot. An error changes nothing.
    pub fn write(
        &mut self,
        alloc: Global,
        slot: u8,
        at: usize,
        bytes: &[u8],
    ) -> Result<(), NoMemory>
        requires { slot < 2 }
        ensures ok { OnOk result ((k : ℕ) → of_two self.new.zero self.new.one k
            ≡ (if slot == k then written (of_two self.old.zero self.old.one slot) at bytes.now else of_two self.old.zero self.old.one k)) }
        ensures err { OnErr result (self.new ≡ self.old) }
    {
        if slot == 0 {
            write_bytes(alloc, &mut self.zero, at, bytes)
        } else {
            write_bytes(alloc, &mut self.one, at, bytes)
        }
    }
}
