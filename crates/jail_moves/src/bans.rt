//! What a jail does with its table of bans.
ghost use Rattle.std.specs.Prelude.{◌≡◌, ◌<◌, [], ◌∷◌, ◌++◌, not, false, filter, IfOk};
ghost use Rattle.f2b_base.specs.declared.ban.Ban.{Ban};
ghost use Rattle.f2b_base.specs.Span.{IsRule};
ghost use Rattle.f2b_model.specs.Lists.{AllOf};
ghost use Rattle.f2b_model.specs.Moves.{is_banned, is_stale, new_ban};
ghost use Rattle.f2b_model.specs.Until.{until_of};

pub use crate::ends::end_due;
pub use crate::unbans::unban;
use ban_table::BanTable;
use f2b_base::{Addr, Ban, BanRule, JailDef, LAST_MOMENT, NoMemory, Span, Until, ban_span};
use std::alloc::Global;

/// The end of a ban that begins now.
fn until_of(rule: &BanRule, at: u64, count: u32, word: u64, serial: u64) -> Until
    requires { IsRule rule.now }
    ensures { result ≡ until_of rule.now at count word serial }
{
    match ban_span(rule, count, word, serial) {
        Span::Never => Until::Never,
        Span::Secs(secs) => Until::At(at.saturating_add(secs).min(LAST_MOMENT)),
    }
}

/// Begins a ban of an address to which so many failures led.
pub fn begin(
    table: &mut BanTable,
    definition: &JailDef,
    at: u64,
    word: u64,
    serial: u64,
    addr: Addr,
    failures: u64,
) -> Result<Ban, NoMemory>
    requires rule { IsRule definition.now.rule }
    requires free { is_banned addr table.old.active ≡ false }
    requires serial { AllOf (λ (b : Ban). b.serial < serial) table.old.active }
    ensures ban { IfOk result (λ ban. ban ≡ new_ban definition.now table.old.past at word serial addr failures) }
    ensures bans { IfOk result (λ ban. table.new ≡ record table.old { active = table.old.active ++ ban ∷ [] }) }
{
    let count = table.past(addr);
    let ban = Ban {
        serial,
        addr,
        begin: at,
        until: until_of(&definition.rule, at, count, word, serial),
        count,
        failures: failures.min(u64::from(u32::MAX)) as u32,
    };
    table.start(ban)?;
    Ok(ban)
}

/// Drops the past entries that ended `purge` seconds before a moment, or earlier. Takes no memory.
pub fn drop_past(table: &mut BanTable, at: u64, purge: u64)
    ensures { table.new ≡ record table.old { past = filter (λ p. not (is_stale at purge p)) table.old.past } }
{
    if purge <= at {
        table.purge(at - purge);
    }
}
