//! The answers of a world in memory.
ghost use Rattle.std.specs.Prelude.{◌≡◌, ◌≢◌, ◌↔◌, ◌≤◌, ◌==◌, false, if◌then◌else◌, length, take, drop, option_copied, None, Some, IfOk, IsTrue, OnErr};
ghost use Rattle.f2b_world.specs.Faults.{OfFiles};
ghost use Rattle.f2b_world.specs.Told.{KeepsBounds, IsPieceOf, IsReceived};
ghost use Rattle.f2b_world.specs.Reading.{IsAnswerTo, IsMadeOf};
ghost use Rattle.f2b_world.specs.Bounds.{FitsLook, FitsPiece, FitsRead};
ghost use Rattle.f2b_base.specs.declared.outside.TreeAnswer.TheVariants.{Failed as TreeFailed};
ghost use Rattle.f2b_world.specs.declared.answer.FileAnswer.TheVariants.{Failed as FileFailed};
ghost use Rattle.f2b_world.specs.declared.answer.FilePiece.TheVariants.{Failed as FilePieceFailed};
ghost use Rattle.f2b_world.specs.declared.answer.Accept.TheVariants.{Failed as AcceptFailed};
ghost use Rattle.f2b_world.specs.declared.answer.GateRead.TheVariants.{Failed as ReadFailed};
ghost use Rattle.f2b_world.specs.declared.answer.GateWrite.TheVariants.{Took, Failed as TookFailed};
ghost use Rattle.f2b_world.specs.declared.answer.Len.TheVariants.{Bytes as LenBytes, Failed as LenFailed};
ghost use Rattle.f2b_world.specs.declared.answer.Listen.TheVariants.{Listening, Failed as ListenFailed};
ghost use Rattle.f2b_world.specs.declared.answer.Look.TheVariants.{Failed as LookFailed};
ghost use Rattle.f2b_world.specs.declared.answer.Piece.TheVariants.{Bytes as PieceBytes, Failed as PieceFailed};
ghost use Rattle.f2b_world.specs.declared.answer.PollAnswer.TheVariants.{Failed as PollFailed};
ghost use Rattle.f2b_world.specs.declared.answer.Said.TheVariants.{Done as SayDone, Failed as SayFailed};
ghost use Rattle.f2b_world.specs.declared.answer.StartAnswer.TheVariants.{Started, Failed as StartFailed};
ghost use Rattle.f2b_world.specs.declared.answer.Synced.TheVariants.{Done as SyncDone, Failed as SyncFailed};
ghost use Rattle.f2b_world.specs.declared.answer.Wrote.TheVariants.{Done as WroteDone, Failed as WriteFailed};
ghost use Rattle.f2b_world.specs.declared.pattern.Made.TheVariants.{TooBig as MadeTooBig};
ghost use Rattle.f2b_world.specs.declared.answer.LinkRead.TheVariants.{Bytes as LinkBytes, End as LinkEnd};
ghost use Rattle.f2b_world.specs.Trees.{IsTreeOf, KeepsTree};
ghost use Rattle.f2b_mem.specs.Files.{file_in};
ghost use Rattle.f2b_world.specs.Shelves.{IsFile, IsPieceAt, IsWholeFile, IsShort, file_fault, piece_fault, tree_fault};
ghost use Rattle.f2b_mem.specs.Plays.{accepting, receiving};
ghost use Rattle.f2b_mem.specs.Script.{seen, is_too_big};

use crate::file_tree::tree_of;
use crate::pieces::{owned, piece_of};
use f2b_base::{Bytes, FileLook, NoMemory, TreeAnswer, TreeFile};
use f2b_world::{
    Accept, FileAnswer, FilePiece, GateRead, GateWrite, Len, LinkRead, Listen, Look, Made, Piece,
    PollAnswer, Said, StartAnswer, Synced, Wrote, build_pattern,
};
use std::alloc::Global;

pub fn said(failing: bool) -> Said
    ensures value { result ≡ (if failing then SayFailed else SayDone) }
    ensures cause { result ≡ SayFailed → IsTrue failing }
{
    if failing { Said::Failed } else { Said::Done }
}

pub fn len_answer(failing: bool, len: u64) -> Len
    ensures value { result ≡ (if failing then LenFailed else LenBytes len) }
    ensures cause { result ≡ LenFailed → IsTrue failing }
{
    if failing {
        Len::Failed
    } else {
        Len::Bytes(len)
    }
}

pub fn wrote(failing: bool) -> Wrote
    ensures value { result ≡ (if failing then WriteFailed else WroteDone) }
    ensures cause { result ≡ WriteFailed → IsTrue failing }
{
    if failing { Wrote::Failed } else { Wrote::Done }
}

pub fn synced(failing: bool) -> Synced
    ensures value { result ≡ (if failing then SyncFailed else SyncDone) }
    ensures cause { result ≡ SyncFailed → IsTrue failing }
{
    if failing {
        Synced::Failed
    } else {
        Synced::Done
    }
}

pub fn start_answer(failing: bool) -> StartAnswer
    ensures value { result ≡ (if failing then StartFailed else Started) }
    ensures cause { result ≡ StartFailed → IsTrue failing }
{
    if failing {
        StartAnswer::Failed
    } else {
        StartAnswer::Started
    }
}

pub fn poll_answer(failing: bool, answer: PollAnswer) -> PollAnswer
    requires { answer ≢ PollFailed }
    ensures value { result ≡ (if failing then PollFailed else answer) }
    ensures cause { result ≡ PollFailed → IsTrue failing }
{
    if failing { PollAnswer::Failed } else { answer }
}

pub fn listen_answer(failing: bool) -> Listen
    ensures value { result ≡ (if failing then ListenFailed else Listening) }
    ensures cause { result ≡ ListenFailed → IsTrue failing }
{
    if failing {
        Listen::Failed
    } else {
        Listen::Listening
    }
}

pub fn accept_answer(failing: bool, waiting: Option<u32>) -> Accept
    ensures value { result ≡ (if failing then AcceptFailed else accepting waiting) }
    ensures cause { result ≡ AcceptFailed → IsTrue failing }
{
    if failing {
        return Accept::Failed;
    }
    match waiting {
        Some(number) => Accept::Conn(number),
        None => Accept::Quiet,
    }
}

pub fn write_answer(failing: bool, count: u32) -> GateWrite
    ensures value { result ≡ (if failing then TookFailed else Took count) }
    ensures cause { result ≡ TookFailed → IsTrue failing }
{
    if failing {
        GateWrite::Failed
    } else {
        GateWrite::Took(count)
    }
}

/// The pattern of a text, or a refusal for size.
pub fn made(alloc: Global, text: &str, failing: bool) -> Made
    ensures made { failing ≡ false → IsMadeOf text.now result }
    ensures answer { IsAnswerTo text.now result }
    ensures failing { IsTrue failing → result ≡ MadeTooBig }
{
    if failing {
        return Made::TooBig;
    }
    build_pattern(alloc, text)
}

pub fn is_too_big(made: &Made) -> bool
    ensures { result ≡ is_too_big made.now }
{
    matches!(made, Made::TooBig)
}

/// The piece of a slot that was asked for. There is no memory for one that it does not have.
pub fn piece_answer(
    alloc: Global,
    failing: bool,
    held: &[u8],
    at: u64,
    len: u64,
) -> Result<Piece, NoMemory>
    ensures value { IfOk result (λ piece. piece ≡ (if failing then PieceFailed else PieceBytes (take len (drop at held.now)))) }
    ensures cause { IfOk result (λ piece. piece ≡ PieceFailed → IsTrue failing) }
    ensures whole { IfOk result (IsPieceOf len) }
    ensures bytes { IfOk result FitsPiece }
{
    if failing {
        return Ok(Piece::Failed);
    }
    let size = held.len() as u64;
    if at > size || len > size - at {
        return Err(NoMemory);
    }
    let bytes = &held[at as usize..(at + len) as usize];
    Ok(Piece::Bytes(owned(alloc, bytes)?))
}

/// The answer to a client's bytes, which are none once it has given all.
pub fn receive_answer(
    alloc: Global,
    failing: bool,
    bytes: &[u8],
    max: u32,
) -> Result<GateRead, NoMemory>
    requires { length bytes.now ≤ max }
    ensures value { IfOk result (λ answer. answer ≡ (if failing then ReadFailed else receiving bytes.now)) }
    ensures cause { IfOk result (λ answer. answer ≡ ReadFailed → IsTrue failing) }
    ensures bounds { IfOk result (IsReceived max) }
    ensures bytes { IfOk result FitsRead }
{
    if failing {
        return Ok(GateRead::Failed);
    }
    if bytes.is_empty() {
        return Ok(GateRead::Quiet);
    }
    Ok(GateRead::Bytes(owned(alloc, bytes)?))
}

// What a look shows of a file with this content.
fn file_look(
    alloc: Global,
    content: &[u8],
    head: u32,
    from: u64,
    max: u32,
) -> Result<Look, NoMemory>
    ensures value { IfOk result (λ look. look ≡ seen (Some content.now) head from max) }
    ensures bounds { IfOk result (KeepsBounds head from max) }
    ensures bytes { IfOk result FitsLook }
{
    Ok(Look::File(FileLook {
        size: content.len() as u64,
        head: owned(alloc, piece_of(content, 0, head))?,
        bytes: owned(alloc, piece_of(content, from, max))?,
    }))
}

/// The answer to a look.
pub fn look_answer(
    alloc: Global,
    failing: bool,
    content: Option<&[u8]>,
    head: u32,
    from: u64,
    max: u32,
) -> Result<Look, NoMemory>
    ensures value { IfOk result (λ look. look ≡ (if failing then LookFailed else seen (option_copied content.entry) head from max)) }
    ensures cause { IfOk result (λ look. look ≡ LookFailed → IsTrue failing) }
    ensures bounds { IfOk result (KeepsBounds head from max) }
    ensures bytes { IfOk result FitsLook }
{
    if failing {
        return Ok(Look::Failed);
    }
    match content {
        Some(content) => file_look(alloc, content, head, from, max),
        None => Ok(Look::Absent),
    }
}

/// What a server said, of which nothing more is the end.
pub fn link_answer(alloc: Global, bytes: &[u8]) -> Result<LinkRead, NoMemory>
    ensures { IfOk result (λ answer. answer ≡ (if length bytes.now == 0 then LinkEnd else LinkBytes bytes.now)) }
{
    if bytes.is_empty() {
        return Ok(LinkRead::End);
    }
    Ok(LinkRead::Bytes(Bytes::from_slice(alloc, bytes)?))
}

/// The most bytes of a file that is read whole.
const WHOLE_FILE: usize = 268_435_456;

/// The answer to a reading of a whole file.
pub fn file_answer(
    alloc: Global,
    failing: bool,
    content: Option<&[u8]>,
) -> Result<FileAnswer, NoMemory>
    ensures file { IfOk result (IsFile (option_copied content.entry)) }
    ensures fault { IfOk result (λ answer. file_fault answer ≡ (if failing then Some OfFiles else None)) }
    ensures bounds { IfOk result IsWholeFile }
    ensures failing { IfOk result (λ answer. (answer ≡ FileFailed) ↔ IsTrue failing) }
    ensures memory { OnErr result (failing ≡ false) }
{
    if failing {
        return Ok(FileAnswer::Failed);
    }
    match content {
        Some(bytes) if bytes.len() > WHOLE_FILE => Ok(FileAnswer::TooLarge),
        Some(bytes) => Ok(FileAnswer::Bytes(Bytes::from_slice(alloc, bytes)?)),
        None => Ok(FileAnswer::Absent),
    }
}

/// The answer to a reading of a piece of a file.
pub fn file_piece(
    alloc: Global,
    failing: bool,
    content: Option<&[u8]>,
    at: u64,
    max: u32,
) -> Result<FilePiece, NoMemory>
    ensures file { IfOk result (IsPieceAt (option_copied content.entry) at max) }
    ensures fault { IfOk result (λ answer. piece_fault answer ≡ (if failing then Some OfFiles else None)) }
    ensures bounds { IfOk result (IsShort max) }
    ensures failing { IfOk result (λ answer. (answer ≡ FilePieceFailed) ↔ IsTrue failing) }
    ensures memory { OnErr result (failing ≡ false) }
{
    if failing {
        return Ok(FilePiece::Failed);
    }
    match content {
        Some(bytes) => {
            let piece = piece_of(bytes, at, max);
            Ok(FilePiece::Bytes(Bytes::from_slice(alloc, piece)?))
        }
        None => Ok(FilePiece::Absent),
    }
}

/// The answer to a reading of all files of a directory.
pub fn tree_answer(
    alloc: Global,
    failing: bool,
    files: &[TreeFile],
    dir: &str,
) -> Result<TreeAnswer, NoMemory>
    ensures file { IfOk result (λ answer. IsTreeOf dir.now answer (file_in files.now)) }
    ensures bounds { IfOk result KeepsTree }
    ensures fault { IfOk result (λ answer. tree_fault answer ≡ (if failing then Some OfFiles else None)) }
    ensures failing { IfOk result (λ answer. (answer ≡ TreeFailed) ↔ IsTrue failing) }
    ensures memory { OnErr result (failing ≡ false) }
{
    if failing {
        return Ok(TreeAnswer::Failed);
    }
    tree_of(alloc, files, dir)
}
