//! `Follower`, which is fed what looks at one log bring.
ghost use Rattle.std.specs.Prelude.{◌≡◌, ◌<◌, ◌≤◌, ◌+◌, ◌++◌, ◌^◌, true, min, length, take, IfOk, OnOk, OnErr};
ghost use Rattle.f2b_base.specs.Limits.{head_bytes};
ghost use Rattle.log_follow.specs.Carried.{length_of};
ghost use Rattle.log_follow.specs.Lines.{new_lines};

use crate::carry::Carry;
use crate::line::Line;
use crate::step::{Ask, Step};
use f2b_base::{Bytes, FileLook, HEAD_BYTES, LOOK_BYTES, NoMemory, Place, Plain, Seq};
use std::alloc::Global;

/// The follower of one log.
#[derive(Debug, Drop)]
pub struct Follower {
    /// Whether the log's end was found, or need not be.
    placed: bool,
    /// The offset behind all that was read.
    from: u64,
    /// What came after the last LF.
    carry: Carry,
    /// The log's first bytes, `HEAD_BYTES` of them, or all that were read where they are fewer.
    head: Bytes,
    ghost within: { length_of carry ≤ from },
    ghost heading: { length head ≡ min head_bytes from },
}

impl Follower {
    ghost use Rattle.log_follow.specs.Followed.{StandsFor, ask_of};
    ghost use Rattle.log_follow.specs.Watches.{Watch, Answers, IsPlace, ask_in, begun, goes_on, looked, place_in, sees};
    ghost use Rattle.f2b_base.specs.declared.jail.Place.TheVariants.{Pos as AtPosition};

    /// Begins at a place that was kept.
    pub fn new(alloc: Global, place: &Place) -> Result<Follower, NoMemory>
        requires { IsPlace place.now }
        ensures { IfOk result (λ follower. StandsFor follower (begun place.now)) }
    {
        match place {
            Place::Tail => Ok(Follower {
                placed: false,
                from: 0,
                carry: Carry::new(alloc),
                head: Bytes::new(alloc),
            }),
            Place::Pos { position, head } => Ok(Follower::at(alloc, *position, head.copy()?)),
        }
    }

    // Nothing is read yet from this position on.
    fn at(alloc: Global, position: u64, head: Bytes) -> Follower
        requires { length head ≡ min head_bytes position }
        ensures { StandsFor result (begun (AtPosition position head)) }
    {
        Follower {
            placed: true,
            from: position,
            carry: Carry::new(alloc),
            head,
        }
    }

    /// What to look for next: `HEAD_BYTES` of head, and at most `LOOK_BYTES` from the reading place on, which is 0 as long as the
    /// log's end is not found. Takes no memory.
    pub fn ask(&self) -> Ask
        ensures value { result ≡ ask_of self.now }
        ensures watch { (w : Watch) → StandsFor self.now w → result ≡ ask_in w }
    {
        Ask {
            head: HEAD_BYTES,
            from: self.from,
            max: LOOK_BYTES,
        }
    }

    /// Takes what a look brought that was made as `ask` says. An error changes nothing.
    pub fn take(&mut self, alloc: Global, look: &FileLook) -> Result<Step, NoMemory>
        requires { Answers (ask_of self.old) look.now }

        // Whatever watch the follower stands for.
        ensures step { IfOk result (λ step. (w : Watch) → StandsFor self.old w → step ≡ (looked w look.now).1) }
        ensures stands { OnOk result ((w : Watch) → StandsFor self.old w → StandsFor self.new (looked w look.now).0) }
        ensures err { OnErr result (self.new ≡ self.old) }
    {
        if !self.placed {
            *self = Follower::at(alloc, look.size, look.head.copy()?);
            return Ok(Step::Placed);
        }
        if !self.goes_on(look) {
            *self = Follower::at(alloc, 0, Bytes::new(alloc));
            return Ok(Step::Rotated);
        }
        let lines = self.add(alloc, look.bytes.as_slice())?;
        if lines.is_empty() {
            return Ok(Step::Nothing);
        }
        Ok(Step::Lines(lines))
    }

    /// How far the log was followed: the start of the first line that is not yet whole, and the log's first bytes before it. The
    /// bytes of that line are read again.
    pub fn place(&self, alloc: Global) -> Result<Place, NoMemory>
        ensures value { IfOk result (λ place. (w : Watch) → StandsFor self.now w → place ≡ place_in w) }
        ensures bounds { IfOk result IsPlace }
    {
        if !self.placed {
            return Ok(Place::Tail);
        }
        let position = self.from - self.carry.len();
        let count = position.min(HEAD_BYTES as u64) as usize;
        Ok(Place::Pos {
            position,
            head: Bytes::from_slice(alloc, &self.head.as_slice()[..count])?,
        })
    }

    // Whether the log that was looked at is the one that was read.
    fn goes_on(&self, look: &FileLook) -> bool
        ensures fits { look.now.size < 2 ^ 64 }
        ensures longer { result ≡ true → self.now.from ≤ look.now.size }
        ensures value { (w : Watch) → StandsFor self.now w → result ≡ goes_on w look.now }
    {
        self.from <= look.size && look.head.as_slice().starts_with(self.head.as_slice())
    }

    // Takes more bytes of the same log. An error changes nothing.
    fn add(&mut self, alloc: Global, bytes: &[u8]) -> Result<Seq<Line>, NoMemory>
        requires { self.old.from + length bytes.now < 2 ^ 64 }
        ensures lines { IfOk result (λ lines. (w : Watch) → StandsFor self.old w → lines ≡ new_lines w.seen bytes.now) }
        ensures stands { OnOk result ((w : Watch) → StandsFor self.old w → StandsFor self.new (sees bytes.now w)) }
        ensures placed { OnOk result (self.new.placed ≡ self.old.placed) }
        ensures err { OnErr result (self.new ≡ self.old) }
    {
        // What may fail comes first, so that an error changes nothing.
        let head = joined(alloc, &self.head, bytes)?;
        let lines = self.carry.take(alloc, bytes)?;
        self.from += bytes.len() as u64;
        self.head = head;
        Ok(lines)
    }
}

// The first of a head's bytes and of those behind it, `HEAD_BYTES` of them.
fn joined(alloc: Global, head: &Bytes, bytes: &[u8]) -> Result<Bytes, NoMemory>
    requires { length head.now ≤ head_bytes }
    ensures { IfOk result (λ joined. joined ≡ take head_bytes (head.now ++ bytes.now)) }
{
    let mut joined = Bytes::from_slice(alloc, head.as_slice())?;
    let room = HEAD_BYTES as usize - head.len();
    joined.push_slice(&bytes[..room.min(bytes.len())])?;
    Ok(joined)
}
