//! The files that are being read, each with what is left to do with it. A file whose includes are read waits below them, so that the
//! depth of includes takes memory and not the machine's stack.
ghost use Rattle.std.specs.Prelude.{◌≡◌, ◌≢◌, ◌<◌, ◌++◌, [], ◌∷◌, Some, Ok, Err, IfOk, IfErr, IfSome, IfNone, OnOk, map};
ghost use Rattle.std.specs.List.{list_any};
ghost use Rattle.std.specs.Str.{bytes_eq};
ghost use Rattle.ini_interp.specs.Frames.{steps_of, read_at, pending, way_of, weight, IsWay, IsKept, IsOpened, IsFaulty, IsEntered};
ghost use Rattle.ini_interp.specs.Merges.{included, is_among};
ghost use Rattle.ini_interp.specs.Sections.{value_of};

use crate::error::IniError;
use crate::file::read_file;
use crate::file_table::FileTable;
use crate::includes::includes;
use crate::joins::join;
use crate::merge_error::MergeError;
use crate::names::{beside, ends_with, is_outside};
use crate::sections::Sections;
use f2b_base::{NoMemory, Plain, Seq, Text};
use std::alloc::Global;
use std::collections::VecDeque;

/// What is left to do with a file.
#[derive(Drop)]
pub(crate) enum Step {
    /// Read what it includes under this name.
    Include(Text),
    /// Lay its sections over those of the files read before.
    Join(Sections),
}

/// A file that is being read.
#[derive(Drop)]
pub(crate) struct Frame {
    pub path: Text,
    /// In order.
    pub steps: VecDeque<Step>,
}

/// Adds a step for each name.
fn push_includes(names: &Seq<Text>, steps: &mut VecDeque<Step>) -> Result<(), NoMemory>
    ensures { OnOk result (steps.new.items ≡ steps.old.items ++ map Step.Include names.now) }
{
    for name in names.as_slice() {
        steps.push_back(Step::Include(name.copy()?))?;
    }
    Ok(())
}

/// What is to be done with a file, in order.
fn steps_of(alloc: Global, file: Sections) -> Result<VecDeque<Step>, NoMemory>
    ensures { IfOk result (λ steps. steps.items ≡ steps_of file) }
{
    let before = includes(alloc, &file, "before")?;
    let after = includes(alloc, &file, "after")?;
    let mut steps = VecDeque::new(alloc);
    push_includes(&before, &mut steps)?;
    steps.push_back(Step::Join(file))?;
    push_includes(&after, &mut steps)?;
    Ok(steps)
}

/// The frame of a file, with all its steps.
fn opened(alloc: Global, path: Text, content: &[u8]) -> Result<Frame, MergeError>
    ensures ok { IfOk result (IsOpened path content.now) }
    ensures fault { IfErr result (λ fault. fault ≢ MergeError.NoMemory → IsFaulty path content.now fault) }
{
    let file = match read_file(alloc, content) {
        Ok(file) => file,
        Err(IniError::NoMemory) => return Err(MergeError::NoMemory),
        Err(error) => return Err(MergeError::Ini { file: path, error }),
    };
    let steps = steps_of(alloc, file)?;
    Ok(Frame { path, steps })
}

/// Whether one of the frames is that of the path.
fn has_frame(frames: &[Frame], path: &str) -> bool
    ensures { result ≡ list_any (λ frame. bytes_eq path.now frame.path) frames.now }
{
    frames.iter().any(|frame| path == frame.path.as_str())
}

/// Whether the path stands on the way of these frames.
fn is_among(frames: &[Frame], path: &str) -> bool
    ensures { result ≡ is_among (way_of [] frames.now) path.now }
{
    has_frame(frames, path)
}

/// The error that the file includes what is not there.
fn missing(alloc: Global, file: &str, path: Text) -> MergeError
    ensures { result ≢ MergeError.NoMemory → result ≡ MergeError.MissingInclude file.now path }
{
    match Text::from_str(alloc, file) {
        Ok(file) => MergeError::MissingInclude { file, path },
        Err(_) => MergeError::NoMemory,
    }
}

/// The frame of what the file includes under a name, or `None` where it is not there and may be missing. The file is that of the last
/// frame.
fn included(
    alloc: Global,
    files: &FileTable<'_>,
    frames: &[Frame],
    file: &str,
    name: Text,
) -> Result<Option<Frame>, MergeError>
    requires { IsWay files.now (way_of [] frames.now) }
    ensures none { IfOk result (λ next. IfNone next
        (included files.now (read_at files.now (way_of [] frames.now)) (way_of [] frames.now) file.now name ≡ Ok [])) }
    ensures some { IfOk result (λ next. IfSome next (IsEntered files.now (way_of [] frames.now) file.now name)) }
    ensures fault { IfErr result (λ fault. fault ≢ MergeError.NoMemory
        → included files.now (read_at files.now (way_of [] frames.now)) (way_of [] frames.now) file.now name ≡ Err fault) }
{
    if is_outside(name.as_str()) {
        return Err(missing(alloc, file, name));
    }
    let path = beside(alloc, file, name.as_str())?;
    if is_among(frames, path.as_str()) {
        return Err(MergeError::IncludeLoop { file: path });
    }
    let Some(content) = files.get(path.as_str()) else {
        if ends_with(name.as_str(), ".local") {
            return Ok(None);
        }
        return Err(missing(alloc, file, name));
    };
    match opened(alloc, path, content) {
        Ok(frame) => Ok(Some(frame)),
        Err(fault) => Err(fault),
    }
}

/// Does the next step of a file, which stands above these frames.
fn advance(
    alloc: Global,
    files: &FileTable<'_>,
    frames: &mut Vec<Frame>,
    mut frame: Frame,
    sections: &mut Sections,
) -> Result<(), MergeError>
    requires { IsWay files.now (way_of [] (frames.old.items ++ frame ∷ [])) }
    ensures ok { OnOk result (IsKept (pending files.now [] (frames.old.items ++ frame ∷ []))
        (pending files.now [] frames.new.items) sections.old sections.new) }
    ensures way { OnOk result (IsWay files.now (way_of [] frames.new.items)) }
    ensures less { OnOk result (weight files.now [] frames.new.items
        < weight files.now [] (frames.old.items ++ frame ∷ [])) }
    ensures fault { IfErr result (λ fault. fault ≢ MergeError.NoMemory
        → pending files.now [] (frames.old.items ++ frame ∷ []) ≡ Err fault) }
{
    match frame.steps.pop_front() {
        None => Ok(()),
        Some(Step::Join(file)) => {
            join(alloc, sections, &file)?;
            Ok(frames.push(frame)?)
        }
        Some(Step::Include(name)) => {
            let file = frame.path.copy()?;
            frames.push(frame)?;
            match included(alloc, files, frames.as_slice(), file.as_str(), name) {
                Ok(Some(next)) => Ok(frames.push(next)?),
                Ok(None) => Ok(()),
                Err(fault) => Err(fault),
            }
        }
    }
}

/// Reads a file and what it includes, and lays them over the sections in their order.
pub(crate) fn read_with_includes(
    alloc: Global,
    files: &FileTable<'_>,
    path: &Text,
    content: &[u8],
    sections: &mut Sections,
) -> Result<(), MergeError>
    requires { value_of path.now files.now ≡ Some content.now }
    ensures ok { OnOk result (IsKept (read_at files.now [] path.now content.now) (Ok []) sections.old sections.new) }
    ensures fault { IfErr result (λ fault. fault ≢ MergeError.NoMemory
        → read_at files.now [] path.now content.now ≡ Err fault) }
{
    let own = path.copy()?;
    let first = match opened(alloc, own, content) {
        Ok(frame) => frame,
        Err(fault) => return Err(fault),
    };
    let mut frames = Vec::new(alloc);
    frames.push(first)?;
    while let Some(frame) = frames.pop() {
        match advance(alloc, files, &mut frames, frame, sections) {
            Ok(()) => (),
            Err(fault) => return Err(fault),
        }
    }
    Ok(())
}
