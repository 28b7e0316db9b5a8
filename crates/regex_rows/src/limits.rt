//! Logs and directories at their limits.
use crate::row::{NO_FAULTS, Row, ends, file_with};
use f2b_base::{Bytes, NoMemory, Seq, TreeFile};
use std::alloc::Global;
use std::process::Abort;
use std::test::Fail;

/// So many bytes of a comment, and then a text.
fn content(alloc: Global, count: usize, end: &[u8]) -> Result<Bytes, NoMemory> {
    let mut content = vec![in alloc; b'#'; count]?;
    content.extend_from_slice(end)?;
    Ok(Bytes::from(content))
}

fn one_file(alloc: Global, file: Result<TreeFile, NoMemory>) -> Result<Seq<TreeFile>, NoMemory> {
    let mut files = Seq::new(alloc);
    files.push(file?)?;
    Ok(files)
}

/// Makes the test of a row over one file of so many bytes of a comment and a text.
fn ends_over(
    rt: &impl Abort,
    alloc: Global,
    path: &str,
    count: usize,
    end: &[u8],
    row: &Row,
) -> Result<(), NoMemory> {
    let file = file_with(alloc, path, content(alloc, count, end));
    ends(rt, alloc, one_file(alloc, file), &NO_FAULTS, row)
}

const LONG: Row = Row {
    words: &["-o", "ip", "--print-all-missed", "/log", "from <IP4>$"],
    status: 0,
    said: "192.0.2.7\nMissed lines:\n   (a line of more than 65,536 bytes)\n",
};

#[test]
fn misses_a_line_of_ten_million_bytes(rt: HostRuntime) -> Result<(), Fail> {
    let end = b"\n1709287200 from 192.0.2.7\n";
    ends_over(&rt, rt.alloc(), "/log", 10_000_000, end, &LONG)?;
    Ok(())
}

const LARGE: Row = Row {
    words: &["/log", "/c/filter.d/large.conf"],
    status: 10,
    said: "ERROR Configuration too large\n",
};

#[test]
fn refuses_a_filter_of_more_than_16_mib(rt: HostRuntime) -> Result<(), Fail> {
    let path = "/c/filter.d/large.conf";
    ends_over(&rt, rt.alloc(), path, 16_777_216, b"\n", &LARGE)?;
    Ok(())
}
