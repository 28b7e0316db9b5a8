//! Jails that change, and logs that outlive a set.
use super::*;

const EIGHT: &str = "1700000101 mail from 192.0.2.8\n";

fn ignore(alloc: Global, set: &mut LogSet<'_>, jail: &str, masks: &[Cidr]) -> Result<(), Fail> {
    let jail = Text::from_str(alloc, jail)?;
    let mut list = Seq::new(alloc);
    for mask in masks {
        list.push(*mask)?;
    }
    Ok(set.set_ignore(alloc, &jail, &list)?)
}

#[test]
fn a_jail_changes_by_command(rt: HostRuntime) -> Result<(), Fail> {
    let jails = two_jails(rt.alloc())?;
    let mut set = LogSet::new(rt.alloc(), &jails.filters, &jails.definitions)?;
    add_each(
        rt.alloc(),
        &mut set,
        &[
            ("mail", "/a"),
            ("mail", "/b"),
            ("mail", "/c"),
            ("mail", "/d"),
        ],
    )?;
    are_told(
        &rt,
        rt.alloc(),
        &mut set,
        &[(0, EIGHT, "mail /a 31 8@101[]")],
    )?;

    let mask = Cidr::read(b"192.0.2.0/24").ok_or("no mask")?;
    ignore(rt.alloc(), &mut set, "web", &[mask])?;
    are_told(
        &rt,
        rt.alloc(),
        &mut set,
        &[(1, EIGHT, "mail /b 31 8@101[]")],
    )?;
    ignore(rt.alloc(), &mut set, "mail", &[mask])?;
    are_told(&rt, rt.alloc(), &mut set, &[(2, EIGHT, "mail /c 31")])?;

    ignore(rt.alloc(), &mut set, "mail", &[])?;
    set.set_findtime(&Text::from_str(rt.alloc(), "mail")?, 9);
    are_told(&rt, rt.alloc(), &mut set, &[(3, EIGHT, "mail /d 31")])
}

/// The paths of the logs that are looked at, in their order.
fn paths(alloc: Global, set: &LogSet<'_>) -> Result<String, Fail> {
    let mut text = String::new(alloc);
    for place in 0..set.len() {
        if set.next(place) == Some(place) {
            text.push_str(set.jail(place))?;
            text.push_str(set.path(place))?;
        }
    }
    Ok(text)
}

#[test]
fn logs_of_an_idle_jail_are_passed_over(rt: HostRuntime) -> Result<(), Fail> {
    let jails = two_jails(rt.alloc())?;
    let mut set = LogSet::new(rt.alloc(), &jails.filters, &jails.definitions)?;
    add_each(
        rt.alloc(),
        &mut set,
        &[("web", "/w"), ("mail", "/m"), ("gone", "/g"), ("web", "/v")],
    )?;
    let web = Text::from_str(rt.alloc(), "web")?;
    assert_eq!(rt; paths(rt.alloc(), &set)?.as_str(), "web/wmail/mweb/v");
    set.set_idle(&web, true);
    assert_eq!(rt; paths(rt.alloc(), &set)?.as_str(), "mail/m");
    set.set_idle(&web, false);
    assert_eq!(rt; paths(rt.alloc(), &set)?.as_str(), "web/wmail/mweb/v");
    Ok(())
}

const TWO: &str = "1700000101 mail from 192.0.2.8\n1700000102 mail from 192.0.2.9\n";

const GOING_ON: [(usize, &str, &str); 2] = [
    (0, TWO, "mail /m 62 9@102[]"),
    (1, TWO, "mail /n 62 8@101[] 9@102[]"),
];

#[test]
fn logs_go_on_in_another_set(rt: HostRuntime) -> Result<(), Fail> {
    let jails = two_jails(rt.alloc())?;
    let mut set = LogSet::new(rt.alloc(), &jails.filters, &jails.definitions)?;
    add_each(rt.alloc(), &mut set, &[("web", "/w"), ("mail", "/m")])?;
    are_told(
        &rt,
        rt.alloc(),
        &mut set,
        &[(1, EIGHT, "mail /m 31 8@101[]")],
    )?;

    let logs = set.into_logs();
    let mut next = LogSet::new(rt.alloc(), &jails.filters, &jails.definitions)?;
    add_each(rt.alloc(), &mut next, &[("mail", "/m"), ("mail", "/n")])?;
    next.go_on(logs);
    are_told(&rt, rt.alloc(), &mut next, &GOING_ON)
}
