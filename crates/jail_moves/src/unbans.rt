//! Bans that end by command.
ghost use Rattle.std.specs.Prelude.{◌≡◌, ◌≤◌, ◌++◌, filter, map, OnOk, IfOk};
ghost use Rattle.f2b_base.specs.declared.ban.Ban.{Ban};
ghost use Rattle.f2b_model.specs.Steps.{is_meant};
ghost use Rattle.f2b_base.specs.Limits.{last_moment};
ghost use Rattle.f2b_model.specs.declared.happening.Happening.TheVariants.{Ends};
ghost use Rattle.jail_moves.specs.Rooms.{all_ended};

use crate::ends::end;
use ban_table::BanTable;
use f2b_base::{Addr, Ban, NoMemory, Seq, Text};
use f2b_model::Happening;

/// A copy of the active bans of these addresses, or of all, by serial.
fn meant(table: &BanTable, addrs: &Option<Seq<Addr>>) -> Result<Seq<Ban>, NoMemory>
    ensures { IfOk result (λ bans. bans ≡ filter (is_meant addrs.now) table.now.active) }
{
    match addrs {
        Some(addrs) => table.bans_of(addrs.as_slice()),
        None => table.bans(),
    }
}

/// Ends these bans at a moment, and tells of them.
fn end_bans(
    table: &mut BanTable,
    told: &mut Seq<Happening>,
    name: &Text,
    bans: &[Ban],
    at: u64,
) -> Result<(), NoMemory>
    requires { at ≤ last_moment }
    ensures bans { OnOk result (table.new ≡ all_ended (λ (b : Ban). at) bans.now table.old) }
    ensures told { OnOk result (told.new ≡ told.old ++ map (Ends name.now) bans.now) }
{
    for ban in bans {
        end(table, told, name, ban, at)?;
    }
    Ok(())
}

/// Ends the bans of these addresses, or all, by serial, at a moment, and tells of them. It takes time by the addresses that are named
/// and the bans that end.
pub fn unban(
    table: &mut BanTable,
    told: &mut Seq<Happening>,
    name: &Text,
    addrs: &Option<Seq<Addr>>,
    at: u64,
) -> Result<(), NoMemory>
    requires { at ≤ last_moment }
    ensures bans { OnOk result (table.new ≡ all_ended (λ (b : Ban). at) (filter (is_meant addrs.now) table.old.active) table.old) }
    ensures told { OnOk result (told.new ≡ told.old ++ map (Ends name.now) (filter (is_meant addrs.now) table.old.active)) }
{
    let bans = meant(table, addrs)?;
    end_bans(table, told, name, bans.as_slice(), at)
}
