//! Bans with their times.
ghost use Rattle.std.specs.Prelude.{◌≡◌, ◌++◌, map, pos, IfOk, OnOk};
ghost use Rattle.iso_moment.specs.Moments.{moment_text};
ghost use Rattle.client_replies.specs.Texts.{time_text, timed_bans_text, timed_text, until_text};

use crate::text::{joined, push_addr, push_number, text_of};
use f2b_base::{Ban, Bytes, NoMemory, Seq, Text, Until};
use iso_moment::push_moment;
use std::alloc::Global;

/// What a clock of UTC shows at a moment.
fn push_clock(alloc: Global, line: &mut Text, time: u64) -> Result<(), NoMemory>
    ensures { OnOk result (line.new ≡ line.old ++ moment_text (pos 0) time) }
{
    let mut moment = Bytes::new(alloc);
    push_moment(&mut moment, 0, time)?;
    line.push_str(text_of(moment.as_slice()))
}

/// A moment: the seconds since 1970, and what a clock of UTC shows.
fn push_time(alloc: Global, line: &mut Text, time: u64) -> Result<(), NoMemory>
    ensures { OnOk result (line.new ≡ line.old ++ time_text time) }
{
    push_number(alloc, line, u128::from(time))?;
    line.push_str(" ")?;
    push_clock(alloc, line, time)
}

/// When a ban ends.
fn push_until(alloc: Global, line: &mut Text, until: Until) -> Result<(), NoMemory>
    ensures { OnOk result (line.new ≡ line.old ++ until_text until) }
{
    match until {
        Until::At(time) => push_time(alloc, line, time),
        Until::Never => line.push_str("never"),
    }
}

/// An address, when its ban began, and when it ends.
#[tactic(auto, unfolding(crate::specs::Texts::timed_text))]
fn timed_text(alloc: Global, ban: &Ban) -> Result<Text, NoMemory>
    ensures { IfOk result (λ line. line ≡ timed_text ban.now) }
{
    let mut line = Text::new(alloc);
    push_addr(&mut line, &ban.addr)?;
    line.push_str(" ")?;
    push_time(alloc, &mut line, ban.begin)?;
    line.push_str(" ")?;
    push_until(alloc, &mut line, ban.until)?;
    Ok(line)
}

fn timed_lines(alloc: Global, bans: &[Ban]) -> Result<Seq<Text>, NoMemory>
    ensures { IfOk result (λ lines. lines ≡ map timed_text bans.now) }
{
    let mut lines = Seq::new(alloc);
    for ban in bans {
        lines.push(timed_text(alloc, ban)?)?;
    }
    Ok(lines)
}

/// A line for each ban.
#[tactic(auto, using(crate::proofs::TextLemmas::lines_joined))]
pub(crate) fn timed_bans(alloc: Global, bans: &[Ban]) -> Result<Text, NoMemory>
    ensures { IfOk result (λ text. text ≡ timed_bans_text bans.now) }
{
    let lines = timed_lines(alloc, bans)?;
    joined(alloc, "\n", lines.as_slice())
}
