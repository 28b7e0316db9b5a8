//! Values, with what they come to by the rules of references.

use crate::rows::same;
use f2b_base::{NoMemory, Seq, Text};
use ini_interp::{InterpError, Sections, read_file, value};
use std::alloc::Global;
use std::process::Abort;
use std::test::Fail;

/// The answer as one text.
fn shown(alloc: Global, answer: Result<Option<Text>, InterpError>) -> Result<String, NoMemory> {
    match answer {
        Ok(None) => Ok(String::from_str(alloc, "nothing")?),
        Ok(Some(text)) => {
            let text = text.as_str();
            Ok(format!(in alloc; "= {text}")?)
        }
        Err(InterpError::Missing(name)) => {
            let name = name.as_str();
            Ok(format!(in alloc; "missing {name}")?)
        }
        Err(InterpError::TooDeep(name)) => {
            let name = name.as_str();
            Ok(format!(in alloc; "too deep {name}")?)
        }
        Err(InterpError::BadPercent(at)) => Ok(format!(in alloc; "percent {at}")?),
        Err(InterpError::NoMemory) => Ok(String::from_str(alloc, "no memory")?),
    }
}

/// The value of a name in the scope of a jail, `[a]` before `[DEFAULT]`.
fn jail_value(alloc: Global, sections: &Sections, name: &str) -> Result<String, NoMemory> {
    let mut scope = Seq::new(alloc);
    scope.push(Text::from_str(alloc, "a")?)?;
    scope.push(Text::from_str(alloc, "DEFAULT")?)?;
    shown(alloc, value(alloc, sections, &scope, name))
}

/// What `x` is in a file.
fn x_of(alloc: Global, file: &[u8]) -> Result<String, Fail> {
    let sections = read_file(alloc, file)?;
    Ok(jail_value(alloc, &sections, "x")?)
}

/// Rows of a file and what `x` is in it.
fn are_values(rt: &impl Abort, alloc: Global, rows: &[(&[u8], &str)]) -> Result<(), Fail> {
    for &(file, want) in rows {
        let got = x_of(alloc, file)?;
        same(rt, file, got.as_str(), want);
    }
    Ok(())
}

const VALUES: [(&[u8], &str); 42] = [
    // Where a name is looked for.
    (b"[a]\nx=1\n", "= 1"),
    (b"[a]\ny=1\n", "nothing"),
    (b"[b]\nx=1\n", "nothing"),
    (b"[DEFAULT]\nx=1\n", "= 1"),
    (b"[DEFAULT]\nx=1\n[a]\nx=2\n", "= 2"),
    (b"[a]\nX=1\n", "= 1"),
    (b"[A]\nx=1\n", "nothing"),
    (b"[a]\nx=\n", "= "),
    // References.
    (b"[a]\nx=<%(y)s>\ny=1\n", "= <1>"),
    (b"[a]\nx=%(Y)s\ny=1\n", "= 1"),
    (b"[a]\nx=%(y)s%(y)s\ny=1\n", "= 11"),
    (b"[a]\nx=%(y)s\n[DEFAULT]\ny=1\n", "= 1"),
    (b"[DEFAULT]\nx=%(y)s\ny=1\n[a]\ny=2\n", "= 2"),
    (b"[a]\nx=%(b/y)s\n[b]\ny=1\n", "= 1"),
    (b"[a]\nx=%(B/y)s\n[b]\ny=1\n", "missing y"),
    (b"[a]\nx=%(b/y)s\ny=2\n[b]\nz=1\n", "missing y"),
    (b"[a]\nx=%(b/y)s\nz=2\n[b]\ny=%(z)s\nz=1\n", "= 2"),
    (b"[a]\nx=%(default/y)s\ny=2\n[DEFAULT]\ny=1\n", "= 1"),
    (b"[a]\nx=%(DEFAULT/y)s\n[DEFAULT]\ny=1\n", "= 1"),
    (b"[a]\nx=%(b/y/z)s\n[b]\ny/z=1\n", "= 1"),
    (b"[a]\nx=%(known/y)s\ny=1\n", "missing y"),
    (b"[a]\nx=%(y)s\n", "missing y"),
    (b"[a]\nx=%(Y)s\n", "missing Y"),
    (b"[a]\nx=%()s\n", "missing "),
    (b"[a]\nx=%(y z)s\ny z=1\n", "= 1"),
    // Percent signs.
    (b"[a]\nx=50%%\n", "= 50%"),
    (b"[a]\nx=50%x\n", "percent 2"),
    (b"[a]\nx=%%(y)s\ny=1\n", "= %(y)s"),
    (b"[a]\nx=%%%(y)s\ny=1\n", "= %1"),
    (b"[a]\nx=%%%\n", "percent 2"),
    (b"[a]\nx=1%\n", "percent 1"),
    (b"[a]\nx=%(y\ny=1\n", "percent 0"),
    (b"[a]\nx=%(y)\ny=1\n", "percent 0"),
    (b"[a]\nx=%(y)d\ny=1\n", "percent 0"),
    (b"[a]\nx=ab%(y)s\ny=cde%z\n", "percent 3"),
    (b"[a]\nx=\xc3\xa9%z\n", "percent 2"),
    // The first fault from the left.
    (b"[a]\nx=%(y)s%z\n", "missing y"),
    (b"[a]\nx=%z%(y)s\n", "percent 0"),
    (b"[a]\nx=%(y)s%(z)s\ny=%\n", "percent 0"),
    // A value that refers to itself.
    (b"[a]\nx=%(x)s\n", "too deep x"),
    (b"[a]\nx=%(y)s\ny=%(X)s\n", "too deep y"),
    (b"[a]\nx=%(X)s\n", "too deep X"),
];

#[test]
fn values(rt: HostRuntime) -> Result<(), Fail> {
    are_values(&rt, rt.alloc(), &VALUES)
}

/// Rows of a section, an item of it that is set, its value, and what `x0` is then.
fn are_values_then(
    rt: &impl Abort,
    alloc: Global,
    sections: &mut Sections,
    rows: &[(&str, &str, &str, &str)],
) -> Result<(), Fail> {
    for &(section, name, value, want) in rows {
        sections.put(section, name, value)?;
        let got = jail_value(alloc, sections, "x0")?;
        same(rt, (name, value), got.as_str(), want);
    }
    Ok(())
}

const CHAIN: &[u8] =
    b"[DEFAULT]\nx1=%(x2)s\nx2=%(x3)s\nx3=%(x4)s\nx4=%(x5)s\nx5=%(x6)s\nx6=%(x7)s\nx7=%(x8)s\nx8=%(x9)s\nx9=%(x10)s\nx10=%(x11)s\nx11=a\n";

const TEN_DEEP: [(&str, &str, &str, &str); 3] = [
    // An item that refers to x1 has x10 at depth 10, and x11 at depth 11, also where it is not there.
    ("a", "x0", "%(x1)s", "too deep x11"),
    ("DEFAULT", "x10", "b", "= b"),
    ("DEFAULT", "x10", "%(a/x12)s", "too deep x12"),
];

#[test]
fn replaces_ten_deep(rt: HostRuntime) -> Result<(), Fail> {
    let mut sections = read_file(rt.alloc(), CHAIN)?;
    are_values_then(&rt, rt.alloc(), &mut sections, &TEN_DEEP)
}

/// Sections that no file has.
fn put_sections(alloc: Global) -> Result<Sections, NoMemory> {
    let mut sections = Sections::new(alloc);
    sections.put("]name", "x0", "a")?;
    sections.put("]known", "y", "%(x0)s")?;
    sections.put("]name", "z", "%(known/y)s")?;
    Ok(sections)
}

/// The value of a name in the scope of `]name`.
fn put_value(alloc: Global, sections: &Sections, name: &str) -> Result<String, NoMemory> {
    let mut scope = Seq::new(alloc);
    scope.push(Text::from_str(alloc, "]name")?)?;
    shown(alloc, value(alloc, sections, &scope, name))
}

/// Rows of a name and its value in the scope of `]name`.
fn are_put(
    rt: &impl Abort,
    alloc: Global,
    sections: &Sections,
    rows: &[(&str, &str)],
) -> Result<(), Fail> {
    for &(name, want) in rows {
        let got = put_value(alloc, sections, name)?;
        same(rt, name, got.as_str(), want);
    }
    Ok(())
}

#[test]
fn reads_what_was_put(rt: HostRuntime) -> Result<(), Fail> {
    let sections = put_sections(rt.alloc())?;
    are_put(&rt, rt.alloc(), &sections, &[("x0", "= a"), ("z", "= a")])
}
