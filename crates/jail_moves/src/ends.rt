//! Bans that end by time.
ghost use Rattle.std.specs.Prelude.{◌≡◌, ◌≤◌, [], ◌∷◌, ◌++◌, filter, map, OnOk};
ghost use Rattle.ban_table.specs.Tables.{ended};
ghost use Rattle.f2b_base.specs.declared.ban.Ban.{Ban};
ghost use Rattle.f2b_model.specs.Lists.{in_order};
ghost use Rattle.f2b_model.specs.Steps.{ends_before, is_due, own_end};
ghost use Rattle.f2b_base.specs.Limits.{last_moment};
ghost use Rattle.f2b_model.specs.declared.happening.Happening.TheVariants.{Ends};
ghost use Rattle.jail_moves.specs.Rooms.{all_ended};

use ban_table::BanTable;
use f2b_base::{Ban, NoMemory, Plain, Seq, Text, Until};
use f2b_model::Happening;

/// The moment at which a ban ends, 0 where it never does.
fn own_end(ban: &Ban) -> u64
    ensures { result ≡ own_end ban.now }
{
    match ban.until {
        Until::Never => 0,
        Until::At(end) => end,
    }
}

/// Ends the ban of a ban's address at a moment, and tells of the ban.
pub fn end(
    table: &mut BanTable,
    told: &mut Seq<Happening>,
    name: &Text,
    ban: &Ban,
    at: u64,
) -> Result<(), NoMemory>
    requires { at ≤ last_moment }
    ensures bans { OnOk result (table.new ≡ ended ban.now.addr at table.old) }
    ensures told { OnOk result (told.new ≡ told.old ++ Ends name.now ban.now ∷ []) }
{
    told.push(Happening::Ends {
        jail: name.copy()?,
        ban: *ban,
    })?;
    let _ = table.end(ban.addr, at);
    Ok(())
}

/// Ends the bans that are due, by end and serial, each at its end, and tells of them. It takes time by the bans that end.
pub fn end_due(
    table: &mut BanTable,
    told: &mut Seq<Happening>,
    name: &Text,
    at: u64,
) -> Result<(), NoMemory>
    requires { at ≤ last_moment }
    ensures bans { OnOk result (table.new ≡ all_ended own_end (in_order ends_before (filter (is_due at) table.old.active)) table.old) }
    ensures told { OnOk result (told.new ≡ told.old ++ map (Ends name.now) (in_order ends_before (filter (is_due at) table.old.active))) }
{
    while let Some(&ban) = table.due(at) {
        end(table, told, name, &ban, own_end(&ban))?;
    }
    Ok(())
}
