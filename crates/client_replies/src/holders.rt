//! Which jails hold an address.
ghost use Rattle.std.specs.Prelude.{◌≡◌, ◌++◌, map, IfOk, OnOk};
ghost use Rattle.std.specs.List.{flat_map};
ghost use Rattle.client_replies.specs.Texts.{holders_text, view_held, view_holders_line};

use crate::change::is_banned;
use crate::text::{joined, push_addr};
use f2b_base::{Addr, JailView, NoMemory, Seq, Text};
use jail_core::Core;
use std::alloc::Global;

/// A jail's name behind a blank, where an address is banned there.
fn push_held(line: &mut Text, addr: Addr, jail: &JailView) -> Result<(), NoMemory>
    ensures { OnOk result (line.new ≡ line.old ++ view_held addr jail.now) }
{
    if is_banned(addr, jail.bans.as_slice()) {
        line.push_str(" ")?;
        line.push_str(jail.name.as_str())?;
    }
    Ok(())
}

/// The names of the jails in which an address is banned, each behind a blank.
#[tactic(auto, using(crate::proofs::TextLemmas::flat_more))]
fn push_holders(line: &mut Text, addr: Addr, jails: &[JailView]) -> Result<(), NoMemory>
    ensures { OnOk result (line.new ≡ line.old ++ flat_map (view_held addr) jails.now) }
{
    for jail in jails {
        push_held(line, addr, jail)?;
    }
    Ok(())
}

/// An address, and the jails in which it is banned.
#[tactic(auto, unfolding(crate::specs::Texts::view_holders_line))]
fn holders_line(alloc: Global, addr: &Addr, jails: &[JailView]) -> Result<Text, NoMemory>
    ensures { IfOk result (λ line. line ≡ view_holders_line jails.now addr.now) }
{
    let mut line = Text::new(alloc);
    push_addr(&mut line, addr)?;
    line.push_str(":")?;
    push_holders(&mut line, *addr, jails)?;
    Ok(line)
}

fn holders_lines(alloc: Global, addrs: &[Addr], jails: &[JailView]) -> Result<Seq<Text>, NoMemory>
    ensures { IfOk result (λ lines. lines ≡ map (view_holders_line jails.now) addrs.now) }
{
    let mut lines = Seq::new(alloc);
    for addr in addrs {
        lines.push(holders_line(alloc, addr, jails)?)?;
    }
    Ok(lines)
}

/// A line for each of these addresses. It takes time by the addresses and by the bans of all jails, each with each.
#[tactic(auto, using(crate::proofs::TextLemmas::holders_shown))]
pub(crate) fn holders_text(alloc: Global, core: &Core, addrs: &[Addr]) -> Result<Text, NoMemory>
    ensures { IfOk result (λ text. text ≡ holders_text core.now.jails.jails addrs.now) }
{
    let view = core.view()?;
    let lines = holders_lines(alloc, addrs, view.jails.as_slice())?;
    joined(alloc, "\n", lines.as_slice())
}
