//! How long the bans of a jail last.
ghost use Rattle.std.specs.Prelude.{◌≡◌, ◌++◌, OnOk};
ghost use Rattle.record_fields.specs.Codec.{Gives, capped};
ghost use Rattle.record_fields.specs.Lists.{any, list_of};
ghost use Rattle.record_fields.specs.Numbers.{at_most};
ghost use Rattle.record_fields.specs.Small.{span};
ghost use Rattle.record_codec.specs.Definitions.{is_base, base, factor, ban_rule};

use f2b_base::{BanRule, Bytes, NoMemory};
use record_fields::{
    Fault, Items, Spell, joined_len, list_len, number_len, put_flag, put_list, put_number,
    put_signed, signed_len, tagged_len, take_between, take_flag, take_list, take_signed, take_span,
    take_up_to,
};
use std::alloc::Global;

/// The most multipliers of a rule.
const MOST_MULTIPLIERS: u64 = 64;

/// The greatest factor and multiplier, and the most seconds that are added at random.
const GREATEST: u64 = 1_000_000;

/// Whether a first span is one that a configuration may have, in seconds.
fn is_base(base: i64) -> bool
    ensures { result ≡ is_base base }
{
    if base < 0 {
        base >= -3153600000
    } else {
        1 <= base && base <= 3153600000
    }
}

/// The first span of bans at the front of the bytes, in seconds.
pub(crate) fn take_base(bytes: &[u8]) -> Result<(i64, &[u8]), Fault>
    ensures { Gives (λ x. (x.0, x.1.now)) result (base.read bytes.now) }
{
    let (base, rest) = take_signed(bytes)?;
    if is_base(base) {
        Ok((base, rest))
    } else {
        Err(Fault::Left(bytes.len() as u64))
    }
}

fn take_factor(bytes: &[u8]) -> Result<(u64, &[u8]), Fault>
    ensures { Gives (λ x. (x.0, x.1.now)) result (factor.read bytes.now) }
{
    take_between(1, GREATEST, bytes)
}

/// Multipliers, in any order.
#[derive(Clone, Copy, Drop)]
struct Multipliers;

impl Spell<u64> for Multipliers {
    ghost spelling = { factor.spell };

    fn put(item: &u64, out: &mut Bytes) -> Result<(), NoMemory> {
        put_number(*item, out)
    }

    fn len(item: &u64) -> u64 {
        number_len(*item)
    }
}

impl Items<u64> for Multipliers {
    ghost reading = { λ _. factor.read };

    ghost allowed = { λ _. any };

    fn take<'a>(&self, _alloc: Global, bytes: &'a [u8]) -> Result<(u64, &'a [u8]), Fault> {
        take_factor(bytes)
    }

    fn allows(&self, _before: &[u64], _item: &u64) -> bool {
        true
    }
}

/// Adds a rule.
#[tactic(auto, unfolding(crate::specs::Definitions::ban_rule))]
pub(crate) fn put_rule(rule: &BanRule, out: &mut Bytes) -> Result<(), NoMemory>
    ensures { OnOk result (out.new ≡ out.old ++ ban_rule.spell rule.now) }
{
    put_signed(rule.base, out)?;
    put_flag(rule.increment, out)?;
    put_number(rule.factor, out)?;
    put_list::<u64, Multipliers>(rule.multipliers.as_slice(), out)?;
    put_number(rule.maxtime, out)?;
    put_number(rule.rndtime, out)
}

fn growth_len(rule: &BanRule) -> u64
    ensures { result ≡ capped (factor.spell rule.now.factor ++ (list_of factor.spell rule.now.multipliers ++ (span.spell rule.now.maxtime ++ (at_most 1000000).spell rule.now.rndtime))) }
{
    let ends = joined_len(number_len(rule.maxtime), number_len(rule.rndtime));
    let multipliers = list_len::<u64, Multipliers>(rule.multipliers.as_slice());
    joined_len(number_len(rule.factor), joined_len(multipliers, ends))
}

/// How long a rule is.
#[tactic(auto, unfolding(crate::specs::Definitions::ban_rule))]
pub(crate) fn rule_len(rule: &BanRule) -> u64
    ensures { result ≡ capped (ban_rule.spell rule.now) }
{
    joined_len(signed_len(rule.base), tagged_len(growth_len(rule)))
}

/// The rule at the front of the bytes.
#[tactic(auto, unfolding(crate::specs::Definitions::ban_rule))]
pub(crate) fn take_rule(alloc: Global, bytes: &[u8]) -> Result<(BanRule, &[u8]), Fault>
    ensures { Gives (λ x. (x.0, x.1.now)) result (ban_rule.read bytes.now) }
{
    let (base, rest) = take_base(bytes)?;
    let (increment, rest) = take_flag(rest)?;
    let (factor, rest) = take_factor(rest)?;
    let (multipliers, rest) = take_list(&Multipliers, alloc, Some(MOST_MULTIPLIERS), rest)?;
    let (maxtime, rest) = take_span(rest)?;
    let (rndtime, rest) = take_up_to(GREATEST, rest)?;
    Ok((
        BanRule {
            base,
            increment,
            factor,
            multipliers,
            maxtime,
            rndtime,
        },
        rest,
    ))
}
