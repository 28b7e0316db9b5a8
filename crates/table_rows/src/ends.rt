//! Who comes, and when a client is over.

use crate::calls::{Came, NoByte, PING, PING_WORD, Step, play};
use client_table::MOST_CLIENTS;
use std::test::Fail;

// Sixteen, and no more; where one is closed the next one stands in its place, and another has room, in the place of its number.
const SIXTEEN: [Step; 26] = [
    Step::Accept(100, 1000),
    Step::Accept(101, 1000),
    Step::Accept(102, 1000),
    Step::Accept(103, 1000),
    Step::Accept(104, 1000),
    Step::Accept(105, 1000),
    Step::Accept(106, 1000),
    Step::Accept(107, 1000),
    Step::Accept(108, 1000),
    Step::Accept(109, 1000),
    Step::Accept(110, 1000),
    Step::Accept(111, 1000),
    Step::Accept(112, 1000),
    Step::Accept(113, 1000),
    Step::Accept(114, 1000),
    Step::Accept(115, 1000),
    Step::Full(true),
    Step::Count(MOST_CLIENTS),
    Step::Close(3),
    Step::Conn(3, 104),
    Step::Full(false),
    Step::Accept(7, 1000),
    Step::Conn(0, 7),
    Step::Conn(4, 104),
    Step::Conn(15, 115),
    Step::Count(16),
];

#[test]
fn sixteen_at_once(rt: HostRuntime) -> Result<(), Fail> {
    play(&rt, rt.alloc(), &SIXTEEN)?;
    Ok(())
}

// Thirty seconds without a byte are too many: after the accept, after a byte that came, and after one that was taken.
const THIRTY: [Step; 17] = [
    Step::Accept(7, 1000),
    Step::Over(0, 1029, false),
    Step::Over(0, 1030, true),
    Step::ComeNot(0, NoByte::Quiet, 1029),
    Step::Over(0, 1029, false),
    Step::Over(0, 1030, true),
    Step::Come(0, PING, 1031, Came::Nothing, 4),
    Step::Over(0, 1060, false),
    Step::Over(0, 1061, true),
    Step::Come(0, PING_WORD, 1040, Came::Words(1), 6),
    Step::Reply(0, true, "pong"),
    Step::Over(0, 1069, false),
    Step::Over(0, 1070, true),
    Step::Take(0, 1, 1080, &[0]),
    Step::Over(0, 1109, false),
    Step::Over(0, 1110, true),
    Step::Over(0, 0, false),
];

#[test]
fn thirty_seconds(rt: HostRuntime) -> Result<(), Fail> {
    play(&rt, rt.alloc(), &THIRTY)?;
    Ok(())
}

// One whose end was seen, or of which a read failed, is over at once, and one that is quiet is not.
const QUIET: [Step; 5] = [
    Step::Accept(7, 1000),
    Step::Accept(8, 1000),
    Step::ComeNot(1, NoByte::Quiet, 1000),
    Step::Over(1, 1000, false),
    Step::Over(0, 1000, false),
];

const ENDED: [Step; 5] = [
    Step::Accept(7, 1000),
    Step::Accept(8, 1000),
    Step::ComeNot(1, NoByte::End, 1000),
    Step::Over(1, 1000, true),
    Step::Over(0, 1000, false),
];

const FAILED: [Step; 5] = [
    Step::Accept(7, 1000),
    Step::Accept(8, 1000),
    Step::ComeNot(1, NoByte::Failed, 1000),
    Step::Over(1, 1000, true),
    Step::Over(0, 1000, false),
];

#[test]
fn one_that_is_gone(rt: HostRuntime) -> Result<(), Fail> {
    play(&rt, rt.alloc(), &QUIET)?;
    play(&rt, rt.alloc(), &ENDED)?;
    play(&rt, rt.alloc(), &FAILED)?;
    Ok(())
}
