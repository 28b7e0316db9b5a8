//! What is written to a slot, as bytes.
ghost use Rattle.std.specs.Prelude.{◌≡◌, ◌++◌, IfOk, OnOk};
ghost use Rattle.journal_slots.specs.Starts.{start};
ghost use Rattle.record_codec.specs.declared.version.Version.TheVariants.{Two};
ghost use Rattle.slot_writes.specs.Entries.{entry, body};

use f2b_base::{Bytes, Input, NoMemory, View};
use record_codec::{write_input, write_view};
use std::alloc::Global;

/// The version that is written.
const VERSION: u8 = 2;

/// An input, and the closed gate behind it.
pub(crate) fn entry_bytes(alloc: Global, input: &Input) -> Result<Bytes, NoMemory>
    ensures { IfOk result (λ bytes. bytes ≡ entry input.now) }
{
    let mut out = Bytes::new(alloc);
    write_input(alloc, input, &mut out)?;
    out.push(0)?;
    Ok(out)
}

/// Adds a generation, the version and a view.
#[tactic(auto, unfolding(journal_slots::specs::Starts::start, journal_slots::specs::Starts::generation, journal_slots::specs::Starts::version, record_fields::specs::Addresses::eight))]
fn put_start(alloc: Global, generation: u64, view: &View, out: &mut Bytes) -> Result<(), NoMemory>
    ensures { OnOk result (out.new ≡ out.old ++ start.spell (record { generation = generation; version = Two; view = view.now })) }
{
    out.push_slice(&generation.to_be_bytes())?;
    out.push(VERSION)?;
    write_view(alloc, view, out)
}

/// A generation, the version and a view, and the closed gate behind them.
pub(crate) fn body_bytes(alloc: Global, generation: u64, view: &View) -> Result<Bytes, NoMemory>
    ensures { IfOk result (λ bytes. bytes ≡ body (record { generation = generation; version = Two; view = view.now })) }
{
    let mut out = Bytes::new(alloc);
    put_start(alloc, generation, view, &mut out)?;
    out.push(0)?;
    Ok(out)
}
