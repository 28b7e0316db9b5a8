//! The line that is not yet whole, and the lines that bytes behind it make whole.
ghost use Rattle.std.specs.Prelude.{◌≡◌, ◌<◌, ◌≤◌, ◌+◌, ◌++◌, ◌^◌, ℕ, List, [], length, IfOk, OnOk, OnErr};
ghost use Rattle.log_follow.specs.Carried.{carry_of, length_of, Carries};
ghost use Rattle.log_follow.specs.Lines.{line_of, lines_of, rest_of, new_lines};

use crate::line::{LONGEST, Line};
use f2b_base::{Bytes, NoMemory, Seq};
use memchr::{memchr, memrchr};
use std::alloc::Global;

/// What came after the last LF.
#[derive(Debug, Drop)]
pub enum Carry {
    /// At most 65,536 bytes.
    Kept(Bytes),
    /// How many there are, where they are more.
    Long(u64),
}

impl Carry {
    /// No bytes. Takes no memory.
    pub fn new(alloc: Global) -> Carry
        ensures { result ≡ Carry.Kept [] }
    {
        Carry::Kept(Bytes::new(alloc))
    }

    /// What is kept of these bytes.
    pub fn of(alloc: Global, rest: &[u8]) -> Result<Carry, NoMemory>
        ensures value { IfOk result (λ carry. carry ≡ carry_of rest.now) }
        ensures len { IfOk result (λ carry. length_of carry ≡ length rest.now) }
    {
        if rest.len() > LONGEST {
            return Ok(Carry::Long(rest.len() as u64));
        }
        Ok(Carry::Kept(Bytes::from_slice(alloc, rest)?))
    }

    /// How many bytes came.
    pub fn len(&self) -> u64
        ensures { result ≡ length_of self.now }
    {
        match self {
            Carry::Kept(bytes) => bytes.len() as u64,
            Carry::Long(count) => *count,
        }
    }

    /// Takes more bytes, of which none is an LF. An error changes nothing.
    pub fn join(&mut self, bytes: &[u8]) -> Result<(), NoMemory>
        requires { length_of self.old + length bytes.now < 2 ^ 64 }
        ensures ok { OnOk result ((rest : List ℕ) → self.old ≡ carry_of rest → self.new ≡ carry_of (rest ++ bytes.now)) }
        ensures len { OnOk result (length_of self.new ≡ length_of self.old + length bytes.now) }
        ensures err { OnErr result (self.new ≡ self.old) }
    {
        let count = self.len() + bytes.len() as u64;
        match self {
            Carry::Kept(kept) if count <= LONGEST as u64 => kept.push_slice(bytes)?,
            _ => *self = Carry::Long(count),
        }
        Ok(())
    }

    /// The line that ends behind these bytes.
    pub fn line(&self, alloc: Global, front: &[u8]) -> Result<Line, NoMemory>
        ensures { IfOk result (λ line. (rest : List ℕ) → self.now ≡ carry_of rest → line ≡ line_of (rest ++ front.now)) }
    {
        match self {
            Carry::Kept(kept) if kept.is_empty() => Line::of(alloc, front),
            Carry::Kept(kept) => {
                let mut part = Bytes::from_slice(alloc, kept.as_slice())?;
                part.push_slice(front)?;
                Line::of(alloc, part.as_slice())
            }
            Carry::Long(_) => Ok(Line::Long),
        }
    }

    /// Takes bytes, and gives the lines whose LF is among them, in their order. An error changes nothing.
    ///
    /// A caller knows that the count of bytes stays below 2^64 since they lie in a file whose size is below it.
    pub fn take(&mut self, alloc: Global, bytes: &[u8]) -> Result<Seq<Line>, NoMemory>
        requires { length_of self.old + length bytes.now < 2 ^ 64 }

        // Whatever bytes came before.
        ensures lines { IfOk result (λ lines. (seen : List ℕ) → Carries self.old seen → lines ≡ new_lines seen bytes.now) }
        ensures carries { OnOk result ((seen : List ℕ) → Carries self.old seen → Carries self.new (seen ++ bytes.now)) }
        ensures len { OnOk result (length_of self.new ≤ length_of self.old + length bytes.now) }
        ensures err { OnErr result (self.new ≡ self.old) }
    {
        let mut lines = Vec::new(alloc);
        let Some(end) = memchr(b'\n', bytes) else {
            self.join(bytes)?;
            return Ok(Seq::from(lines));
        };
        let more = &bytes[end + 1..];
        lines.push(self.line(alloc, &bytes[..end])?)?;
        push_lines(alloc, &mut lines, more)?;
        *self = Carry::of(alloc, behind_last(more))?;
        Ok(Seq::from(lines))
    }
}

// Adds the lines that end in these bytes, the first of which begins a line.
fn push_lines(alloc: Global, lines: &mut Vec<Line>, bytes: &[u8]) -> Result<(), NoMemory>
    ensures { OnOk result (lines.new.items ≡ lines.old.items ++ lines_of bytes.now) }
{
    let mut rest = bytes;
    while let Some(end) = memchr(b'\n', rest) {
        lines.push(Line::of(alloc, &rest[..end])?)?;
        rest = &rest[end + 1..];
    }
    Ok(())
}

// What follows the last LF.
fn behind_last(bytes: &[u8]) -> &[u8]
    ensures value { result.now ≡ rest_of bytes.now }
    ensures within { length result.now ≤ length bytes.now }
{
    match memrchr(b'\n', bytes) {
        Some(end) => &bytes[end + 1..],
        None => bytes,
    }
}
