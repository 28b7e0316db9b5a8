//! Files in memory.
ghost use Rattle.std.specs.Prelude.{◌≡◌, ◌≢◌, ◌↔◌, ◌≤◌, [], Some, option_copied, IfOk, IsTrue};
ghost use Rattle.f2b_world.specs.Faults.{Fault};
ghost use Rattle.f2b_mem.specs.Files.{file_in};

use crate::answers::{file_answer, file_piece, is_too_big, made, tree_answer};
use crate::book::Book;
use crate::calls::Calls;
use crate::counts::counted;
use crate::events::make_event;
use f2b_base::{NoMemory, Seq, TreeAnswer, TreeFile};
use f2b_world::{FileAnswer, FilePiece, Files, Made, Outside, Patterns};
use std::alloc::Global;

/// Files under their whole paths. They tell what they hold, and which patterns were made as long as they find memory for that.
#[derive(Drop)]
pub struct MemFiles {
    alloc: Global,
    files: Seq<TreeFile>,
    /// Each call counts, also one that finds no memory.
    calls: Calls,
    book: Book,
    pattern_faults: u64,
    file_faults: u64,
}

/// The content of the first file of a path.
fn file_in<'a>(files: &'a [TreeFile], path: &str) -> Option<&'a [u8]>
    ensures { option_copied result ≡ file_in files.now path.now }
{
    for file in files {
        if file.path.as_str() == path {
            return Some(file.content.as_slice());
        }
    }
    None
}

impl MemFiles {
    ghost use Rattle.f2b_mem.specs.Calls.{none_made};
    ghost use Rattle.f2b_mem.specs.Shelved.{shelf_of, book_of, calls_of, faults_of};

    /// These files, of which the first of a path counts. The calls at these places, from 0, fail.
    pub fn new(alloc: Global, files: Seq<TreeFile>, fails: Seq<u64>) -> Result<MemFiles, NoMemory>
        ensures shelf { IfOk result (λ m. shelf_of m ≡ Some (file_in files)) }
        ensures made { IfOk result (λ m. book_of m ≡ Some []) }
        ensures calls { IfOk result (λ m. calls_of m ≡ none_made fails) }
        ensures faults { IfOk result (λ m. (kind : Fault) → faults_of m kind ≡ 0) }
    {
        Ok(MemFiles {
            alloc,
            files,
            calls: Calls::new(fails),
            book: Book::new(alloc),
            pattern_faults: 0,
            file_faults: 0,
        })
    }
}

impl Outside for MemFiles {
    ghost use Rattle.f2b_mem.specs.Shelved.{stands_of};

    ghost stands = { stands_of };
}

impl Patterns for MemFiles {
    ghost use Rattle.f2b_world.specs.Reading.{IsAnswerTo};
    ghost use Rattle.f2b_world.specs.Told.{Asked, make_event};
    ghost use Rattle.f2b_world.specs.declared.pattern.Made.TheVariants.{TooBig as MadeTooBig, NoMemory as MadeNoMemory};
    ghost use Rattle.f2b_mem.specs.Calls.{fails_next, one_more};
    ghost use Rattle.f2b_mem.specs.Shelved.{calls_of, stands_of};

    fn make(&mut self, text: &str) -> Made
        ensures event { Asked (stands_of self.old) (make_event text.now result) (stands_of self.new) }
        ensures made { IsAnswerTo text.now result }
        ensures failing { IsTrue (fails_next (calls_of self.old)) → result ≢ MadeNoMemory → result ≡ MadeTooBig }
        ensures calls { calls_of self.new ≡ one_more (calls_of self.old) }
    {
        let failing = self.calls.count();
        let made = made(self.alloc, text, failing);
        let Ok(event) = make_event(self.alloc, text, &made) else {
            return Made::NoMemory;
        };
        let Ok(()) = self.book.reserve() else {
            return Made::NoMemory;
        };
        self.book.add(event, true);
        self.pattern_faults = counted(self.pattern_faults, is_too_big(&made));
        made
    }
}

impl Files for MemFiles {
    ghost use Rattle.f2b_base.specs.declared.outside.TreeAnswer.TheVariants.{Failed as TreeFailed};
    ghost use Rattle.f2b_world.specs.Shelves.{IsFile, IsPieceAt, IsWholeFile, IsShort, file_fault, piece_fault, tree_fault};
    ghost use Rattle.f2b_world.specs.Told.{Opened};
    ghost use Rattle.f2b_world.specs.Trees.{IsTreeOf, KeepsTree};
    ghost use Rattle.f2b_world.specs.declared.answer.FileAnswer.TheVariants.{Failed as FileFailed};
    ghost use Rattle.f2b_world.specs.declared.answer.FilePiece.TheVariants.{Failed as PieceFailed};
    ghost use Rattle.f2b_mem.specs.Calls.{fails_next, one_more};
    ghost use Rattle.f2b_mem.specs.Shelved.{calls_of, stands_of};

    fn read(&mut self, path: &str) -> FileAnswer
        ensures file { Opened (stands_of self.old) (file_fault result) (λ shelf. IsFile (shelf path.now) result) (stands_of self.new) }
        ensures bounds { IsWholeFile result }
        ensures failing { (result ≡ FileFailed) ↔ IsTrue (fails_next (calls_of self.old)) }
        ensures calls { calls_of self.new ≡ one_more (calls_of self.old) }
    {
        let failing = self.calls.count();
        let content = file_in(self.files.as_slice(), path);
        let Ok(answer) = file_answer(self.alloc, failing, content) else {
            return FileAnswer::NoMemory;
        };
        self.file_faults = counted(self.file_faults, failing);
        answer
    }

    fn piece(&mut self, path: &str, at: u64, max: u32) -> FilePiece
        requires { 1 ≤ max }
        ensures file { Opened (stands_of self.old) (piece_fault result) (λ shelf. IsPieceAt (shelf path.now) at max result) (stands_of self.new) }
        ensures bounds { IsShort max result }
        ensures failing { (result ≡ PieceFailed) ↔ IsTrue (fails_next (calls_of self.old)) }
        ensures calls { calls_of self.new ≡ one_more (calls_of self.old) }
    {
        let failing = self.calls.count();
        let content = file_in(self.files.as_slice(), path);
        let Ok(answer) = file_piece(self.alloc, failing, content, at, max) else {
            return FilePiece::NoMemory;
        };
        self.file_faults = counted(self.file_faults, failing);
        answer
    }

    fn tree(&mut self, dir: &str) -> TreeAnswer
        ensures file { Opened (stands_of self.old) (tree_fault result) (IsTreeOf dir.now result) (stands_of self.new) }
        ensures bounds { KeepsTree result }
        ensures failing { (result ≡ TreeFailed) ↔ IsTrue (fails_next (calls_of self.old)) }
        ensures calls { calls_of self.new ≡ one_more (calls_of self.old) }
    {
        let failing = self.calls.count();
        let files = self.files.as_slice();
        let Ok(answer) = tree_answer(self.alloc, failing, files, dir) else {
            return TreeAnswer::NoMemory;
        };
        self.file_faults = counted(self.file_faults, failing);
        answer
    }
}
