//! How long a ban lasts. The parts are small functions, each with its own bound, so that no product overflows.
ghost use Rattle.std.specs.Prelude.{◌≡◌, ◌≤◌, All};
ghost use Rattle.f2b_base.specs.Span.{first_word, jitter, growth, grown, plain_span, span_of, IsRule};

use crate::ban::{BanRule, Span};
use rand::RngExt;
use rand_pcg::Lcg64Xsh32;

/// The longest span in seconds, and the longest base.
const MAX_SECS: u64 = 3_153_600_000;

/// The longest random addition in seconds, and the greatest factor and multiplier.
const MAX_STEP: u64 = 1_000_000;

/// The most that a ban grows, before the factor: 20 doublings.
const MAX_TIMES: u64 = 1_048_576;

#[tactic(auto, unfolding(crate::specs::Span::first_word))]
fn first_word(state: u64, stream: u64) -> u32
    ensures { result ≡ first_word state stream }
{
    Lcg64Xsh32::new(state, stream).random::<u32>()
}

fn jitter(word: u64, serial: u64, most: u64) -> u64
    requires { most ≤ MAX_STEP }
    ensures value { result ≡ jitter word serial most }
    ensures small { result ≤ MAX_STEP }
{
    if most == 0 {
        return 0;
    }
    u64::from(first_word(word, serial)) % (most + 1)
}

#[tactic(auto, unfolding(crate::specs::Span::growth))]
fn growth(multipliers: &[u64], count: u32) -> u64
    requires { All (λ m. m ≤ MAX_STEP) multipliers.now }
    ensures value { result ≡ growth multipliers.now count }
    ensures small { result ≤ MAX_TIMES }
{
    match multipliers {
        [] => 1 << count.min(20),
        [_, rest @ ..] => multipliers[(count as usize).min(rest.len())],
    }
}

fn grown(base: u64, times: u64, factor: u64, maxtime: u64) -> u64
    requires base { base ≤ MAX_SECS }
    requires times { times ≤ MAX_TIMES }
    requires factor { factor ≤ MAX_STEP }
    requires maxtime { maxtime ≤ MAX_SECS }
    ensures value { result ≡ grown base times factor maxtime }
    ensures small { result ≤ MAX_SECS }
{
    let product = u128::from(base) * u128::from(times) * u128::from(factor) / 1000;
    product.max(1).min(u128::from(maxtime)) as u64
}

#[tactic(auto, unfolding(crate::specs::Span::plain_span))]
fn plain_span(rule: &BanRule, base: u64, count: u32) -> u64
    requires rule { IsRule rule.now }
    requires base { base ≤ MAX_SECS }
    ensures value { result ≡ plain_span rule.now base count }
    ensures small { result ≤ MAX_SECS }
{
    if !rule.increment || count == 0 {
        return base;
    }
    grown(
        base,
        growth(rule.multipliers.as_slice(), count),
        rule.factor,
        rule.maxtime,
    )
}

/// How long a ban lasts, by the count of the address's past bans in the jail, the word of the last reading of the clock and the
/// serial of the ban.
///
/// The random addition is the first word of PCG32 with the state `word` and the stream `serial`, modulo `rndtime + 1`. It comes
/// after the cap, and a first ban has it too, so a span may pass the rule's `maxtime` by `rndtime`.
#[tactic(auto, unfolding(crate::specs::Span::span_of))]
pub fn ban_span(rule: &BanRule, count: u32, word: u64, serial: u64) -> Span
    requires { IsRule rule.now }
    ensures { result ≡ span_of rule.now count word serial }
{
    if rule.base < 0 {
        return Span::Never;
    }
    let length = plain_span(rule, rule.base as u64, count);
    Span::Secs(length + jitter(word, serial, rule.rndtime))
}
