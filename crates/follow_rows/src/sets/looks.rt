//! What looks bring.
use super::*;

const OF_TWO_JAILS: &str = "1700000100 web from 192.0.2.7\n1700000101 mail from 192.0.2.8\n";

const EACH_LOG: [(usize, &str, &str); 4] = [
    (
        0,
        OF_TWO_JAILS,
        "web /w 61 7@100[1700000100 web from 192.0.2.7]",
    ),
    (1, OF_TWO_JAILS, "mail /m 61 8@101[]"),
    (
        2,
        OF_TWO_JAILS,
        "web /v 61 7@100[1700000100 web from 192.0.2.7]",
    ),
    // Nothing is new.
    (1, OF_TWO_JAILS, ""),
];

#[test]
fn each_log_is_searched_by_its_own_jail(rt: HostRuntime) -> Result<(), Fail> {
    let jails = two_jails(rt.alloc())?;
    let mut set = LogSet::new(rt.alloc(), &jails.filters, &jails.definitions)?;
    add_each(
        rt.alloc(),
        &mut set,
        &[("web", "/w"), ("mail", "/m"), ("web", "/v")],
    )?;
    are_told(&rt, rt.alloc(), &mut set, &EACH_LOG)?;
    assert_eq!(rt; set.jails(), 2);
    Ok(())
}

const ONCE: [(usize, &str, &str); 6] = [
    (0, "1700000101 mail fr", ""),
    (
        0,
        "1700000101 mail from 192.0.2.8\n1700000102 mail from 192.0.2.9\n17",
        "mail /m 62 8@101[] 9@102[]",
    ),
    (
        0,
        "1700000101 mail from 192.0.2.8\n1700000102 mail from 192.0.2.9\n1700000103 mail from 192.0.2.7\n",
        "mail /m 93 7@103[]",
    ),
    // The log is another one: its lines come with the next look.
    (0, "1700000104 mail from 192.0.2.6\n", "rotated mail /m 0"),
    (0, "1700000104 mail from 192.0.2.6\n", "mail /m 31 6@104[]"),
    // A line that shows no failure moves the place.
    (0, "1700000104 mail from 192.0.2.6\nx\n", "mail /m 33"),
];

#[test]
fn lines_come_once_and_a_rotated_log_begins_again(rt: HostRuntime) -> Result<(), Fail> {
    let jails = two_jails(rt.alloc())?;
    let mut set = LogSet::new(rt.alloc(), &jails.filters, &jails.definitions)?;
    add_each(rt.alloc(), &mut set, &[("mail", "/m")])?;
    are_told(&rt, rt.alloc(), &mut set, &ONCE)
}

const STAYS: [(usize, &str, &str); 6] = [
    // Half a line was read, and its log is another one.
    (0, "half", ""),
    (0, "x", "rotated "),
    (0, "x", ""),
    // A log that is followed from its end.
    (1, "1700000101 mail from 192.0.2.8\n", "mail /t 31"),
    (1, "1700000101 mail from 192.0.2.8\n", ""),
    (
        1,
        "1700000101 mail from 192.0.2.8\n1700000102 mail from 192.0.2.9\n",
        "mail /t 62 9@102[]",
    ),
];

#[test]
fn a_place_that_stays_makes_no_input(rt: HostRuntime) -> Result<(), Fail> {
    let jails = two_jails(rt.alloc())?;
    let mut set = LogSet::new(rt.alloc(), &jails.filters, &jails.definitions)?;
    add_each(rt.alloc(), &mut set, &[("mail", "/m")])?;
    add(rt.alloc(), &mut set, "mail", "/t", &Place::Tail)?;
    are_told(&rt, rt.alloc(), &mut set, &STAYS)
}

/// A line of so many bytes `x` behind a failure.
fn long_line(alloc: Global, count: usize) -> Result<String, Fail> {
    let mut file = String::from_str(alloc, "1700000100 web from 192.0.2.7 ")?;
    for _ in 0..count {
        file.push('x')?;
    }
    file.push('\n')?;
    Ok(file)
}

#[test]
fn a_failure_keeps_the_first_512_bytes_of_its_line(rt: HostRuntime) -> Result<(), Fail> {
    let jails = two_jails(rt.alloc())?;
    let mut set = LogSet::new(rt.alloc(), &jails.filters, &jails.definitions)?;
    add_each(rt.alloc(), &mut set, &[("web", "/w")])?;
    let file = long_line(rt.alloc(), 600)?;
    let text = told(rt.alloc(), &mut set, 0, file.as_str())?;
    assert_eq!(rt; text.len(), 512 + "web /w 631 7@100[]".len());
    Ok(())
}
