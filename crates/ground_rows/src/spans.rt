//! Worked spans of bans.
ghost use Rattle.std.specs.Prelude.{IfOk};
ghost use Rattle.f2b_base.specs.Span.{IsRule};

use f2b_base::{BanRule, NoMemory, Seq, Span, ban_span};
use std::alloc::Global;
use std::process::Abort;
use std::test::Fail;

fn rule(alloc: Global, times: &[u64], maxtime: u64) -> Result<BanRule, NoMemory>
    ensures { IfOk result IsRule }
{
    let mut multipliers = Seq::new(alloc);
    for &each in times {
        multipliers.push(each.min(1_000_000))?;
    }
    Ok(BanRule {
        base: 600,
        increment: true,
        factor: 1500,
        multipliers,
        maxtime: maxtime.min(3_153_600_000),
        rndtime: 0,
    })
}

/// Rows of how many bans were before, and the seconds of the next one.
fn are_spans(rt: &impl Abort, rule: &BanRule, rows: &[(u32, u64)])
    requires { IsRule rule.now }
{
    for &(count, secs) in rows {
        assert_eq!(rt; ban_span(rule, count, 7, 8), Span::Secs(secs), "at {count}");
    }
}

const DOUBLED: [(u32, u64); 4] = [(0, 600), (1, 1800), (2, 3600), (3, 5000)];

const MULTIPLIED: [(u32, u64); 4] = [(0, 600), (1, 4500), (2, 27000), (3, 27000)];

#[test]
fn bans_last_longer_each_time(rt: HostRuntime) -> Result<(), Fail> {
    let doubling = rule(rt.alloc(), &[], 5000)?;
    are_spans(&rt, &doubling, &DOUBLED);
    let multiplied = rule(rt.alloc(), &[1, 5, 30], 3_153_600_000)?;
    are_spans(&rt, &multiplied, &MULTIPLIED);
    Ok(())
}

/// The first word of PCG32 at seed 42 and stream 54 is 0xa15c02b7, as pcg-random.org's demo prints it.
#[test]
fn adds_at_random(rt: HostRuntime) -> Result<(), Fail> {
    let mut jittered = rule(rt.alloc(), &[], 5000)?;
    jittered.rndtime = 1_000_000;
    assert_eq!(rt;
        ban_span(&jittered, 0, 42, 54),
        Span::Secs(600 + 0xa15c_02b7 % 1_000_001)
    );
    jittered.base = -1;
    assert_eq!(rt; ban_span(&jittered, 0, 42, 54), Span::Never);
    Ok(())
}
