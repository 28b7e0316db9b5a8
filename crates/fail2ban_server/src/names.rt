//! The names in a directory.
ghost use Rattle.std.specs.Prelude.{◌≡◌, All, IfOk, IsUtf8, map, string_bytes};
ghost use Rattle.f2b_world.specs.Trees.{IsInByteOrder};

use crate::fault::Fault;
use f2b_base::{NoMemory, Seq, Text};
use std::alloc::{AllocError, AllocGlobal, Global};
use std::fs;
use std::io::ErrorKind;
use std::rt::Files;

/// The names in a directory, of whatever kind, in byte order. A name that is not text is left out.
pub fn list_names<R: Files + AllocGlobal + Clone + Drop>(
    rt: &R,
    dir: &str,
) -> Result<Seq<Text>, Fault>
    ensures ordered { IfOk result IsInByteOrder }
    ensures texts { IfOk result (All IsUtf8) }
{
    let mut found = Vec::new(rt.alloc());
    for entry in fs::read_dir(rt, dir)? {
        match entry {
            Ok(entry) => found.push(String::from_str(rt.alloc(), entry.file_name())?)?,
            Err(e) if e.kind() == ErrorKind::InvalidFilename => {}
            Err(e) => return Err(Fault::from(e)),
        }
    }
    let found = sorted(found)?;
    let names = texts(rt.alloc(), found.as_slice())?;
    know_texts(names.as_slice());
    Ok(names)
}

/// The names in byte order.
fn sorted(names: Vec<String>) -> Result<Vec<String>, AllocError>
    ensures { IfOk result (λ sorted. IsInByteOrder (map string_bytes sorted.items)) }
{
    let mut names = names;
    names.sort()?;
    Ok(names)
}

/// The names as texts.
fn texts(alloc: Global, names: &[String]) -> Result<Seq<Text>, NoMemory>
    ensures { IfOk result (λ texts. texts ≡ map string_bytes names.now) }
{
    let mut texts = Seq::new(alloc);
    for name in names {
        texts.push(Text::from_str(alloc, name.as_str())?)?;
    }
    Ok(texts)
}

/// Texts are UTF-8.
fn know_texts(names: &[Text])
    ensures { All IsUtf8 names.now }
{
    for name in names {
        let _text = name.as_str();
    }
}
