//! Small files, with what they mean by the rules.

use crate::rows::same;
use f2b_base::NoMemory;
use ini_interp::{IniError, Sections, read_file};
use std::alloc::Global;
use std::process::Abort;
use std::test::Fail;

/// A value with `/` behind each line.
fn write_value(out: &mut String, value: &str) -> Result<(), NoMemory> {
    for part in value.split('\n') {
        out.push_str(part)?;
        out.push_str("/")?;
    }
    Ok(())
}

/// The items of a section.
fn write_items(out: &mut String, sections: &Sections, section: &str) -> Result<(), NoMemory> {
    for index in 0..9 {
        let Some(name) = sections.item(section, index) else {
            break;
        };
        out.push_str(name)?;
        out.push_str("=")?;
        write_value(out, sections.raw(section, name).unwrap_or("?"))?;
        out.push_str("|")?;
    }
    Ok(())
}

/// Sections as one text: `[NAME]`, and `NAME=VALUE` for each item, where `|` stands behind each and `/` for LF.
fn shown(alloc: Global, sections: &Sections) -> Result<String, NoMemory> {
    let mut out = String::new(alloc);
    for place in 0..9 {
        let Some(section) = sections.section(place) else {
            break;
        };
        out.push_str("[")?;
        out.push_str(section)?;
        out.push_str("]|")?;
        write_items(&mut out, sections, section)?;
    }
    Ok(out)
}

/// What a file means.
fn meaning(alloc: Global, file: &str) -> Result<String, NoMemory> {
    match read_file(alloc, file.as_bytes()) {
        Ok(sections) => shown(alloc, &sections),
        Err(error) => Ok(format!(in alloc; "{error:?}")?),
    }
}

/// Rows of a file and what it means.
fn are_read(rt: &impl Abort, alloc: Global, rows: &[(&str, &str)]) -> Result<(), Fail> {
    for &(file, want) in rows {
        let seen = meaning(alloc, file)?;
        same(rt, file, seen.as_str(), want);
    }
    Ok(())
}

const FILES: [(&str, &str); 47] = [
    // Lines, blanks and comments.
    ("", ""),
    ("\n\n \t\n", ""),
    ("# x\n; y\n  # z\n\t; w\n", ""),
    ("[a]\nx=1\n", "[a]|x=1/|"),
    ("[a]\nx=1", "[a]|x=1/|"),
    ("[a]\r\nx=1\r\n\r\ny=2\r\n", "[a]|x=1/|y=2/|"),
    ("[a]\nx=1\r\r\n", "[a]|x=1\r/|"),
    ("[a]\nx=1\r", "[a]|x=1\r/|"),
    ("[a]\nx=1\ry=2\n", "[a]|x=1\ry=2/|"),
    ("[a]\nx = 1 # 2\n", "[a]|x=1 # 2/|"),
    ("[a]\nx = #1\n", "[a]|x=#1/|"),
    ("[a]\nx = a ; b\n", "[a]|x=a/|"),
    ("[a]\nx = a\t; b\n", "[a]|x=a/|"),
    ("[a]\nx = a;b\n", "[a]|x=a;b/|"),
    ("[a]\nx = a;b ;c\n", "[a]|x=a;b/|"),
    ("[a]\nx = ;b\n", "[a]|x=/|"),
    ("[a]\nx=;b\n", "[a]|x=;b/|"),
    // Headers.
    ("[a]\n[b]\n", "[a]|[b]|"),
    ("[]\n", "[]|"),
    ("[ a ]\n", "[ a ]|"),
    ("[a] b=c\n", "[a]|"),
    ("[a]b]c\n", "[a]|"),
    ("[a;b]\n", "[a;b]|"),
    ("[a] ; b\n", "[a]|"),
    ("[a]\n[A]\n[a]\n", "[a]|[A]|"),
    // Items.
    ("[a]\nx:1\n", "[a]|x=1/|"),
    ("[a]\nx : y = 1\n", "[a]|x=y = 1/|"),
    ("[a]\nx = y : 1\n", "[a]|x=y : 1/|"),
    ("[a]\nx \t=\t 1 \t\n", "[a]|x=1/|"),
    ("[a]\nx y = 1\n", "[a]|x y=1/|"),
    ("[a]\nXy = Zw\n", "[a]|xy=Zw/|"),
    ("[a]\nx =\n", "[a]|x=/|"),
    ("[a]\n[x = 1\n", "[a]|[x=1/|"),
    ("[a]\n]x = 1\n", "[a]|]x=1/|"),
    ("[a]\nx=1\ny=2\nX=3\n", "[a]|x=3/|y=2/|"),
    ("[a]\nx=1\n[b]\nx=2\n[a]\ny=3\n", "[a]|x=1/|y=3/|[b]|x=2/|"),
    ("[a]\nÄ = ü\n", "[a]|Ä=ü/|"),
    // Values of several lines.
    ("[a]\nx = 1\n  2\n\t3\n", "[a]|x=1/2/3/|"),
    ("[a]\nx =\n 1\n", "[a]|x=/1/|"),
    ("[a]\nx = 1\n\n# y\n 2\n", "[a]|x=1/2/|"),
    ("[a]\nx = 1\n  2 ; y\n  ; z\n  3\n", "[a]|x=1/2/3/|"),
    ("[a]\nx = 1\n [b]\n y = 2\n", "[a]|x=1/[b]/y = 2/|"),
    ("[a]\nx = 1\r\n  2\r\n", "[a]|x=1/2/|"),
    ("[a]\nx=1\ny=2\nx=3\n 4\n", "[a]|x=3/4/|y=2/|"),
    ("[a]\nx=1\n 2\nx=3\n", "[a]|x=3/|"),
    ("[a]\nx=1\n[b]\ny=2\n[a]\n 3\n", "[a]|x=1/3/|[b]|y=2/|"),
    ("[a]\nx=1\nX=2\n[b]\n[a]\n 3\n 4\n", "[a]|x=2/3/4/|[b]|"),
];

#[test]
fn reads_files(rt: HostRuntime) -> Result<(), Fail> {
    are_read(&rt, rt.alloc(), &FILES)
}

/// Rows of a file and its fault.
fn are_faults(rt: &impl Abort, alloc: Global, rows: &[(&[u8], IniError)]) {
    for &(file, want) in rows {
        same(rt, file, read_file(alloc, file).err(), Some(want));
    }
}

const FAULTS: [(&[u8], IniError); 22] = [
    (b"x = 1\n", IniError::NoSection(1)),
    (b"\n# y\nx = 1\n[a]\n", IniError::NoSection(3)),
    (b"x\n", IniError::NoDelimiter(1)),
    (b"[a]\nx\n", IniError::NoDelimiter(2)),
    (b"[a]\r\n\r\nx\r\n", IniError::NoDelimiter(3)),
    (b"[a]\n= 1\n", IniError::NoDelimiter(2)),
    (b"[a]\n:\n", IniError::NoDelimiter(2)),
    (b"[a ; b]\n", IniError::NoDelimiter(1)),
    (b"[a\n", IniError::NoDelimiter(1)),
    (b"[a]\nx ; y = 1\n", IniError::NoDelimiter(2)),
    (b"\r", IniError::NoDelimiter(1)),
    (b" x = 1\n", IniError::Indent(1)),
    (b" [a]\n", IniError::Indent(1)),
    (b"[a]\n x = 1\n", IniError::Indent(2)),
    (b"[a]\nx = 1\n[b]\n 2\n", IniError::Indent(4)),
    (b"[a]\nx\ny\n z\n", IniError::NoDelimiter(2)),
    (b"[a]\nx=1\n\n\n\n[b]\n\n y\nz\n", IniError::Indent(8)),
    // Bytes that are not UTF-8.
    (b"[a]\nx=1\ny=\xff\n", IniError::NotUtf8(10)),
    (b"x\n\xe4=1\n", IniError::NotUtf8(2)),
    (b"[a]\nx=\xc3", IniError::NotUtf8(6)),
    (b"\xff\xfe[\0", IniError::NotUtf8(0)),
    // A byte order mark is no blank, so the line is no header.
    (b"\xef\xbb\xbf[a]\n", IniError::NoDelimiter(1)),
];

#[test]
fn answers_the_first_fault(rt: HostRuntime) {
    are_faults(&rt, rt.alloc(), &FAULTS);
}

/// One thing that is done to sections, or that is expected of them.
enum Step {
    /// An item of a section is set.
    Put(&'static str, &'static str, &'static str),
    /// A section is taken out.
    Clear(&'static str),
    /// All sections, with their items.
    Shown(&'static str),
    /// The section at a place.
    Section(usize, Option<&'static str>),
    /// The item of a section at a place.
    Item(&'static str, usize, Option<&'static str>),
    /// The value of an item of a section.
    Raw(&'static str, &'static str, Option<&'static str>),
    /// The same, by a name in any case.
    Find(&'static str, &'static str, Option<&'static str>),
}

fn are_shown(rt: &impl Abort, alloc: Global, sections: &Sections, want: &str) -> Result<(), Fail> {
    let seen = shown(alloc, sections)?;
    same(rt, "shown", seen.as_str(), want);
    Ok(())
}

fn take(rt: &impl Abort, alloc: Global, sections: &mut Sections, step: &Step) -> Result<(), Fail> {
    match *step {
        Step::Put(section, name, value) => sections.put(section, name, value)?,
        Step::Clear(section) => sections.clear(section),
        Step::Shown(want) => return are_shown(rt, alloc, sections, want),
        Step::Section(place, want) => same(rt, place, sections.section(place), want),
        Step::Item(section, place, want) => {
            same(rt, (section, place), sections.item(section, place), want);
        }
        Step::Raw(section, name, want) => {
            same(rt, (section, name), sections.raw(section, name), want);
        }
        Step::Find(section, name, want) => {
            same(
                rt,
                (section, name),
                sections.find(alloc, section, name)?,
                want,
            );
        }
    }
    Ok(())
}

/// Takes these steps, one after the other.
fn play(
    rt: &impl Abort,
    alloc: Global,
    sections: &mut Sections,
    steps: &[Step],
) -> Result<(), Fail> {
    for step in steps {
        take(rt, alloc, sections, step)?;
    }
    Ok(())
}

const SETS_AND_FINDS: [Step; 15] = [
    Step::Section(0, None),
    Step::Put("b", "X", "1"),
    Step::Put("a", "y", "2"),
    Step::Put("b", "Y", "3"),
    Step::Put("b", "x", "4"),
    Step::Shown("[b]|x=4/|y=3/|[a]|y=2/|"),
    Step::Section(2, None),
    Step::Raw("b", "x", Some("4")),
    Step::Raw("b", "X", Some("4")),
    Step::Raw("B", "x", None),
    Step::Raw("a", "x", None),
    Step::Item("b", 2, None),
    Step::Item("c", 0, None),
    Step::Find("b", "X", Some("4")),
    Step::Find("b", "z", None),
];

#[test]
fn sets_and_finds_items(rt: HostRuntime) -> Result<(), Fail> {
    let mut sections = Sections::new(rt.alloc());
    play(&rt, rt.alloc(), &mut sections, &SETS_AND_FINDS)
}

const TAKES_OUT: [Step; 9] = [
    Step::Clear("b"),
    Step::Shown("[a]|x=1/|[c]|[d]|z=3/|"),
    Step::Raw("b", "y", None),
    Step::Clear("B"),
    Step::Clear("b"),
    Step::Clear("d"),
    Step::Shown("[a]|x=1/|[c]|"),
    Step::Put("b", "y", "4"),
    Step::Shown("[a]|x=1/|[c]|[b]|y=4/|"),
];

#[test]
fn takes_sections_out(rt: HostRuntime) -> Result<(), Fail> {
    let mut sections = read_file(rt.alloc(), b"[a]\nx=1\n[b]\ny=2\n[c]\n[d]\nz=3\n")?;
    play(&rt, rt.alloc(), &mut sections, &TAKES_OUT)
}
