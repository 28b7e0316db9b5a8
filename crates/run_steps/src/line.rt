//! The lines that the server says, each as a text and its stamp.
ghost use Rattle.std.specs.Prelude.{◌≡◌, ◌++◌, IfOk, OnOk, codes};
ghost use Rattle.std.specs.Fmt.{decimal};
ghost use Rattle.f2b_base.specs.Addresses.{printed};
ghost use Rattle.run_law.specs.Said.{stamped, ready_line, reloaded_line, stopping_line, happening_text, line_of, rotated_line, unread_line};

use f2b_base::{Addr, Bytes, NoMemory, Text};
use f2b_model::Happening;
use std::alloc::Global;

/// Room for most lines: the seconds, the name of a jail, and an address or a path. A line that is longer asks for more.
const ROOM: usize = 128;

/// The beginning of a line of this second, in seconds since 1970, with room for what mostly comes behind it.
fn begun(alloc: Global, now: u64) -> Result<Bytes, NoMemory>
    ensures { IfOk result (λ line. line ≡ decimal now ++ codes " ") }
{
    let seconds = format!(in alloc; "{now}")?;
    let mut line = Bytes::from(Vec::with_capacity(alloc, ROOM)?);
    line.push_slice(seconds.as_bytes())?;
    line.push_slice(b" ")?;
    Ok(line)
}

/// The text as a line of this second, in seconds since 1970.
#[tactic(auto, unfolding(run_law::specs::Said::stamped))]
pub fn stamped(alloc: Global, now: u64, text: &[u8]) -> Result<Bytes, NoMemory>
    ensures { IfOk result (λ line. line ≡ stamped now text.now) }
{
    let mut line = begun(alloc, now)?;
    line.push_slice(text)?;
    line.push_slice(b"\n")?;
    Ok(line)
}

/// That the server takes failures from now on.
#[tactic(auto, unfolding(run_law::specs::Said::ready_line))]
pub fn ready_line(alloc: Global, now: u64) -> Result<Bytes, NoMemory>
    ensures { IfOk result (λ line. line ≡ ready_line now) }
{
    stamped(alloc, now, b"INFO Server ready")
}

/// That a stop was asked for.
#[tactic(auto, unfolding(run_law::specs::Said::stopping_line))]
pub fn stopping_line(alloc: Global, now: u64) -> Result<Bytes, NoMemory>
    ensures { IfOk result (λ line. line ≡ stopping_line now) }
{
    stamped(alloc, now, b"INFO Stopping")
}

/// That a configuration was read again and is taken.
#[tactic(auto, unfolding(run_law::specs::Said::reloaded_line))]
pub fn reloaded_line(alloc: Global, now: u64) -> Result<Bytes, NoMemory>
    ensures { IfOk result (λ line. line ≡ reloaded_line now) }
{
    stamped(alloc, now, b"INFO Reloaded")
}

fn push_addr(text: &mut Bytes, addr: &Addr) -> Result<(), NoMemory>
    ensures { OnOk result (text.new ≡ text.old ++ printed addr.now) }
{
    let mut printed = [0; 45];
    let len = addr.print(&mut printed);
    text.push_slice(&printed[..len])
}

fn push_deed(
    text: &mut Bytes,
    begin: &[u8],
    name: &Text,
    deed: &[u8],
    addr: &Addr,
) -> Result<(), NoMemory>
    ensures { OnOk result (text.new ≡ text.old ++ begin.now ++ name.now ++ deed.now ++ printed addr.now) }
{
    text.push_slice(begin)?;
    text.push_slice(name.as_str().as_bytes())?;
    text.push_slice(deed)?;
    push_addr(text, addr)
}

fn push_happening(text: &mut Bytes, happening: &Happening) -> Result<(), NoMemory>
    ensures { OnOk result (text.new ≡ text.old ++ happening_text happening.now) }
{
    match happening {
        Happening::Counts { jail, addr } => push_deed(text, b"INFO [", jail, b"] Found ", addr),
        Happening::Begins { jail, ban, .. } => push_deed(
            text,
            b"NOTICE [",
            jail,
            b"] Ban ",
            &ban.addr,
        ),
        Happening::Ends { jail, ban } => push_deed(text, b"NOTICE [", jail, b"] Unban ", &ban.addr),
    }
}

/// What a step did in a jail, as the line of its second.
#[tactic(auto, unfolding(run_law::specs::Said::line_of, run_law::specs::Said::stamped))]
pub fn happening_line(alloc: Global, now: u64, happening: &Happening) -> Result<Bytes, NoMemory>
    ensures { IfOk result (λ line. line ≡ line_of now happening.now) }
{
    let mut line = begun(alloc, now)?;
    push_happening(&mut line, happening)?;
    line.push_slice(b"\n")?;
    Ok(line)
}

/// That a log or a directory cannot be read, by the path that the jail names.
#[tactic(auto, unfolding(run_law::specs::Said::unread_line))]
pub fn unread_line(alloc: Global, now: u64, jail: &str, path: &str) -> Result<Bytes, NoMemory>
    ensures { IfOk result (λ line. line ≡ unread_line now jail.now path.now) }
{
    let mut text = Bytes::from_slice(alloc, b"WARNING [")?;
    text.push_slice(jail.as_bytes())?;
    text.push_slice(b"] cannot read ")?;
    text.push_slice(path.as_bytes())?;
    stamped(alloc, now, text.as_slice())
}

/// That a log is another one now.
#[tactic(auto, unfolding(run_law::specs::Said::rotated_line))]
pub fn rotated_line(alloc: Global, now: u64, jail: &str, path: &str) -> Result<Bytes, NoMemory>
    ensures { IfOk result (λ line. line ≡ rotated_line now jail.now path.now) }
{
    let mut text = Bytes::from_slice(alloc, b"INFO [")?;
    text.push_slice(jail.as_bytes())?;
    text.push_slice(b"] rotated ")?;
    text.push_slice(path.as_bytes())?;
    stamped(alloc, now, text.as_slice())
}
