//! Files, and a terminal that shows how far a log was read.

use crate::terminal::Terminal;
use f2b_base::TreeAnswer;
use f2b_world::{FileAnswer, FilePiece, Files, Made, Outside, Patterns};
use std::alloc::Global;

/// A mebibyte.
const MEBIBYTE: u64 = 1_048_576;

/// How far a file was read, as a terminal shows it.
#[derive(Drop)]
pub struct Progress {
    terminal: Terminal,
    alloc: Global,
    /// In mebibytes; 0 before the first.
    shown: u64,
}

impl Progress {
    /// Nothing is shown yet.
    pub fn new(alloc: Global, terminal: Terminal) -> Progress {
        Progress {
            terminal,
            alloc,
            shown: 0,
        }
    }

    /// Shows how many mebibytes were read, where there are more than are shown.
    fn show(&mut self, read: u64) {
        let whole = read / MEBIBYTE;
        if whole <= self.shown {
            return;
        }
        if let Ok(text) = format!(in self.alloc; "\r{whole} MiB read") {
            self.terminal.write(text.as_str());
        }
        self.shown = whole;
    }

    /// Takes off what is shown.
    fn end(&mut self) {
        if self.shown > 0 {
            self.terminal.write("\r                              \r");
        }
        self.shown = 0;
    }
}

/// Shows how far a file was read, up to this piece. It is taken off behind the last one.
fn show(progress: &mut Option<Progress>, at: u64, piece: &FilePiece) {
    let Some(progress) = progress else {
        return;
    };
    match piece {
        FilePiece::Bytes(bytes) if !bytes.is_empty() => {
            progress.show(at.saturating_add(bytes.len() as u64));
        }
        _ => progress.end(),
    }
}

/// Files that are watched while they are read piece by piece.
#[derive(Drop)]
pub struct Watched<F>
where
    F: Files + Drop,
{
    files: F,
    progress: Option<Progress>,
}

impl<F> Watched<F>
where
    F: Files + Drop,
{
    /// Nothing is shown where there is no progress to show.
    pub fn new(files: F, progress: Option<Progress>) -> Watched<F> {
        Watched { files, progress }
    }
}

impl<F> Outside for Watched<F>
where
    F: Files + Drop,
{
    ghost stands = { λ w. F.stands w.files };
}

impl<F> Patterns for Watched<F>
where
    F: Files + Drop,
{
    fn make(&mut self, text: &str) -> Made {
        self.files.make(text)
    }
}

impl<F> Files for Watched<F>
where
    F: Files + Drop,
{
    fn read(&mut self, path: &str) -> FileAnswer {
        self.files.read(path)
    }

    fn piece(&mut self, path: &str, at: u64, max: u32) -> FilePiece {
        let piece = self.files.piece(path, at, max);
        show(&mut self.progress, at, &piece);
        piece
    }

    fn tree(&mut self, dir: &str) -> TreeAnswer {
        self.files.tree(dir)
    }
}
