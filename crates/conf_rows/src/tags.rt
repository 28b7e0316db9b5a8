//! Texts with tags, with what they come to by the rules.

use crate::rows::same;
use f2b_base::{Addr, Family, NoMemory, Seq, Text};
use f2b_model::Fill;
use ini_interp::{InterpError, Sections, read_file};
use std::alloc::Global;
use std::process::Abort;
use tag_subst::{TagError, escape, render, substitute};

/// What an answer says, and the text or the name with it.
fn said(answer: &Result<Text, TagError>) -> (&'static str, &str) {
    match answer {
        Ok(text) => ("=", text.as_str()),
        Err(TagError::TooDeep(name)) => ("too deep", name.as_str()),
        Err(TagError::Interp(error)) => said_of_value(error),
        Err(TagError::NoMemory) => ("no memory", ""),
    }
}

/// The same of the fault of a value.
fn said_of_value(error: &InterpError) -> (&'static str, &str) {
    match error {
        InterpError::Missing(name) => ("missing", name.as_str()),
        InterpError::TooDeep(name) => ("value too deep", name.as_str()),
        InterpError::BadPercent(_) => ("percent", ""),
        InterpError::NoMemory => ("misled", ""),
    }
}

/// The answer as one text.
fn shown(alloc: Global, answer: &Result<Text, TagError>) -> Result<String, NoMemory> {
    if let Err(TagError::Interp(InterpError::BadPercent(at))) = answer {
        return Ok(format!(in alloc; "percent {at}")?);
    }
    let (word, text) = said(answer);
    Ok(format!(in alloc; "{word} {text}")?)
}

/// Items of the scope of an action, and of sections outside it.
const ITEMS: &[u8] =
    b"[Init]\nport=ssh\n[Init?family=inet6]\nport=six\n[Definition]\na=1\nb=<a>\nc=a\ntwo=<c><c>\nempty=\nless=<\ngroup=(?\nip=item\nf-x=fx\nq=%(a)s\nbad=x%\ngone=%(nowhere)s\nloop=<loop>\n[DEFAULT]\nd=def\n[other]\ny=5\nz=%(y)s\nw=%(a)s\n";

/// Items that stand in one another.
const CHAIN: &[u8] =
    b"[Definition]\nd0=<d1>\nd1=<d2>\nd2=<d3>\nd3=<d4>\nd4=<d5>\nd5=<d6>\nd6=<d7>\nd7=<d8>\nd8=<d9>\nd9=<d10>\nd10=end\ne=d1\nempty=\n";

/// The scope of an action.
const SCOPE: [&str; 4] = ["]options", "Init", "Definition", "DEFAULT"];

fn texts(alloc: Global, list: &[&str]) -> Result<Seq<Text>, NoMemory> {
    let mut texts = Seq::new(alloc);
    for text in list {
        texts.push(Text::from_str(alloc, text)?)?;
    }
    Ok(texts)
}

fn put_options(items: &mut Sections) -> Result<(), NoMemory> {
    items.put("]options", "port", "2222")?;
    items.put("]options", "o", "opt")
}

/// Items, which read.
fn read(rt: &impl Abort, alloc: Global, bytes: &[u8]) -> Sections {
    match read_file(alloc, bytes) {
        Ok(items) => items,
        Err(_) => panic!(rt; "not read"),
    }
}

/// The items, with options.
fn items(rt: &impl Abort, alloc: Global) -> Result<Sections, NoMemory> {
    let mut items = read(rt, alloc, ITEMS);
    put_options(&mut items)?;
    Ok(items)
}

/// Rows of a text and what it comes to.
fn are_replaced(
    rt: &impl Abort,
    alloc: Global,
    items: &Sections,
    rows: &[(&str, &str)],
) -> Result<(), NoMemory> {
    let scope = texts(alloc, &SCOPE)?;
    for &(text, want) in rows {
        let answer = substitute(alloc, text, items, &scope);
        let shown = shown(alloc, &answer)?;
        same(rt, text, shown.as_str(), want);
    }
    Ok(())
}

/// The same of the items with options.
fn are_replaced_first(
    rt: &impl Abort,
    alloc: Global,
    rows: &[(&str, &str)],
) -> Result<(), NoMemory> {
    let items = items(rt, alloc)?;
    are_replaced(rt, alloc, &items, rows)
}

const STATIC_TAGS: [(&str, &str); 16] = [
    ("", "= "),
    ("no tag", "= no tag"),
    ("x <a>", "= x 1"),
    ("<a><a>", "= 11"),
    ("<A>", "= 1"),
    ("<b>", "= 1"),
    ("<two>", "= aa"),
    ("<empty>", "= "),
    ("<q>", "= 1"),
    ("%<a>", "= %1"),
    // Tags in tags.
    ("<<c>>", "= 1"),
    ("<<c>", "= <a"),
    ("<c>>", "= a>"),
    ("<less>a>", "= 1"),
    ("<less><c>>", "= 1"),
    ("<a<empty>>", "= 1"),
];

#[test]
fn replaces_static_tags(rt: HostRuntime) -> Result<(), NoMemory> {
    are_replaced_first(&rt, rt.alloc(), &STATIC_TAGS)
}

const NO_TAGS: [(&str, &str); 15] = [
    ("<a", "= <a"),
    ("a>", "= a>"),
    ("<>", "= <>"),
    ("< a>", "= < a>"),
    ("<a b>", "= <a b>"),
    ("<1>", "= <1>"),
    ("<-a>", "= <-a>"),
    ("<\u{e9}>", "= <\u{e9}>"),
    ("\u{e9}<a>\u{65e5}", "= \u{e9}1\u{65e5}"),
    // Groups of patterns.
    ("(?<a>x)", "= (?<a>x)"),
    ("(?P<a>x)", "= (?P<a>x)"),
    ("(?:<a>)", "= (?:1)"),
    ("[(]?<a>", "= [(]?1"),
    ("(?<x<c>>", "= (?<xa>"),
    ("<group><a>", "= (?<a>"),
];

#[test]
fn leaves_what_is_no_tag(rt: HostRuntime) -> Result<(), NoMemory> {
    are_replaced_first(&rt, rt.alloc(), &NO_TAGS)
}

const WITHOUT_AN_ITEM: [(&str, &str); 16] = [
    ("<no>", "= <no>"),
    ("<no<c>>", "= <noa>"),
    ("<<no>>", "= <<no>>"),
    ("<<no><a>>", "= <<no>1>"),
    ("<less>no>", "= <no>"),
    // Reserved names.
    ("<ip> <br> <matches>", "= <ip> <br> <matches>"),
    ("<HOST> <ADDR>", "= <HOST> <ADDR>"),
    ("<F-CONTENT></F-CONTENT>", "= <F-CONTENT></F-CONTENT>"),
    ("<F-X>", "= <F-X>"),
    ("<f-x>", "= fx"),
    ("<known/ip>", "= item"),
    // The first fault from the left.
    ("<bad>", "percent 1"),
    ("<gone>", "missing nowhere"),
    ("<loop><bad>", "too deep loop"),
    ("<bad><loop>", "percent 1"),
    ("<no><gone>", "missing nowhere"),
];

#[test]
fn leaves_tags_without_an_item(rt: HostRuntime) -> Result<(), NoMemory> {
    are_replaced_first(&rt, rt.alloc(), &WITHOUT_AN_ITEM)
}

const IN_SECTIONS: [(&str, &str); 16] = [
    ("<port>", "= 2222"),
    ("<known/port>", "= ssh"),
    ("<Init/port>", "= ssh"),
    ("<init/port>", "= <init/port>"),
    ("<Init?family=inet6/port>", "= six"),
    ("<o>", "= opt"),
    ("<known/o>", "= <known/o>"),
    ("<other/y>", "= 5"),
    ("<other/Y>", "= 5"),
    ("<other/z>", "= 5"),
    ("<other/w>", "= 1"),
    ("<other/a>", "= <other/a>"),
    ("<other/y/z>", "= <other/y/z>"),
    ("<none/a>", "= <none/a>"),
    ("<DEFAULT/d>", "= def"),
    ("<default/d>", "= <default/d>"),
];

#[test]
fn looks_in_sections(rt: HostRuntime) -> Result<(), NoMemory> {
    are_replaced_first(&rt, rt.alloc(), &IN_SECTIONS)
}

const TEN_DEEP: [(&str, &str); 7] = [
    ("<d1>", "= end"),
    ("<d1><d1>", "= endend"),
    ("<d0>", "too deep d10"),
    // A tag that another one formed is deeper than that one.
    ("<d2>", "= end"),
    ("<<e>>", "too deep d10"),
    ("<d1<empty>>", "= end"),
    ("<d1<d2>>", "= <d1end>"),
];

// The depth is tested before the look-up, and a reserved name has none.
const ABSENT: [(&str, &str); 1] = [("<d1>", "too deep Gone")];

fn are_replaced_ten_deep(
    rt: &impl Abort,
    alloc: Global,
    items: &mut Sections,
) -> Result<(), NoMemory> {
    are_replaced(rt, alloc, items, &TEN_DEEP)?;
    items.put("Definition", "d10", "<ip><Definition/Gone>")?;
    are_replaced(rt, alloc, items, &ABSENT)
}

#[test]
fn replaces_ten_deep(rt: HostRuntime) -> Result<(), NoMemory> {
    are_replaced_ten_deep(&rt, rt.alloc(), &mut read(&rt, rt.alloc(), CHAIN))
}

/// What a ban's tags stand for.
fn fill_of(alloc: Global, ban: Ban, matches: &str) -> Result<Fill, NoMemory> {
    let (ip, family, bantime) = ban;
    Ok(Fill {
        ip,
        family,
        failures: 3,
        time: 1709287230,
        bantime,
        bancount: 2,
        matches: Text::from_str(alloc, matches)?,
    })
}

/// A ban, by its address, its family and its seconds.
type Ban = (Option<Addr>, Family, i64);

/// Rows of a template and what is rendered of it for a ban with these lines.
fn are_filled(
    rt: &impl Abort,
    alloc: Global,
    ban: Ban,
    matches: &str,
    rows: &[(&str, &str)],
) -> Result<(), NoMemory> {
    let fill = fill_of(alloc, ban, matches)?;
    for &(template, want) in rows {
        let text = render(alloc, template, &fill)?;
        same(rt, template, text.as_str(), want);
    }
    Ok(())
}

const DYNAMIC_TAGS: [(&str, &str); 18] = [
    ("x <ip><br><matches>", "x 192.0.2.7\na_b _c"),
    ("<ip>", "192.0.2.7"),
    ("<family>", "inet4"),
    ("<failures> <time>", "3 1709287230"),
    ("<bantime> <bancount>", "600 2"),
    ("<IP>", "<IP>"),
    ("<no> <a<ip>>", "<no> <a192.0.2.7>"),
    ("<ip", "<ip"),
    ("ip>", "ip>"),
    ("<ip >", "<ip >"),
    ("<<ip>>", "<192.0.2.7>"),
    ("(?<ip>x)", "(?<ip>x)"),
    ("(?P<ip>x)", "(?P<ip>x)"),
    ("\"<ip>\" '<ip>'", "\"192.0.2.7\" '192.0.2.7'"),
    ("$(<ip>) `<ip>`", "$(192.0.2.7) `192.0.2.7`"),
    ("a\n<ip>\0", "a\n192.0.2.7\0"),
    ("\u{e9}<ip>\u{65e5}", "\u{e9}192.0.2.7\u{65e5}"),
    ("", ""),
];

const OF_IPV4: Ban = (Some(Addr::V4(0xc000_0207)), Family::Inet4, 600);

#[test]
fn fills_dynamic_tags_in(rt: HostRuntime) -> Result<(), NoMemory> {
    let safe = escape(rt.alloc(), "a;b $c")?;
    are_filled(&rt, rt.alloc(), OF_IPV4, safe.as_str(), &DYNAMIC_TAGS)
}

const OTHER_BANS: [(&str, &str); 4] = [
    ("<ip>", "2001:db8::1"),
    ("<family> <bantime>", "inet6 -1"),
    // A value that looks like a tag.
    ("<matches>", "<ip>$(x)"),
    ("<<matches>>", "<<ip>$(x)>"),
];

// A Start or a Stop has no address.
const NO_ADDRESS: [(&str, &str); 1] = [("[<ip>] <family> <bantime> [<matches>]", "[] inet4 0 []")];

const OF_IPV6: Ban = (
    Some(Addr::V6(0x2001_0db8_0000_0000_0000_0000_0000_0001)),
    Family::Inet6,
    -1,
);

const OF_NONE: Ban = (None, Family::Both, 0);

#[test]
fn fills_in_other_bans(rt: HostRuntime) -> Result<(), NoMemory> {
    are_filled(&rt, rt.alloc(), OF_IPV6, "<ip>$(x)", &OTHER_BANS)?;
    are_filled(&rt, rt.alloc(), OF_NONE, "", &NO_ADDRESS)
}

/// Rows of a text and what is safe of it.
fn are_escaped(rt: &impl Abort, alloc: Global, rows: &[(&str, &str)]) -> Result<(), NoMemory> {
    for &(text, want) in rows {
        let safe = escape(alloc, text)?;
        same(rt, text, safe.as_str(), want);
    }
    Ok(())
}

const ESCAPED: [(&str, &str); 10] = [
    ("", ""),
    ("a;b $c", "a_b _c"),
    ("AZaz09 ._:,=@/+-", "AZaz09 ._:,=@/+-"),
    ("'\"`$()", "______"),
    ("<ip>", "_ip_"),
    ("a\\b|c&d", "a_b_c_d"),
    ("#!%^*[]{}~?", "___________"),
    ("\n\r\t\0\u{7f}", "_____"),
    ("\u{e9}a\u{65e5}\u{672c}\u{1f600}", "_a___"),
    ("user=root rhost=2001:db8::1", "user=root rhost=2001:db8::1"),
];

#[test]
fn escapes(rt: HostRuntime) -> Result<(), NoMemory> {
    are_escaped(&rt, rt.alloc(), &ESCAPED)
}
