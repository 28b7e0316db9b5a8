//! How much of a line is kept.
use f2b_base::{KEPT_LINE_BYTES, kept_line};
use std::alloc::Global;
use std::test::Fail;

/// So many times `a`.
fn repeated(alloc: Global, count: usize) -> Result<String, Fail> {
    let mut line = String::new(alloc);
    for _ in 0..count {
        line.push('a')?;
    }
    Ok(line)
}

#[test]
fn a_line_is_kept_up_to_a_character(rt: HostRuntime) -> Result<(), Fail> {
    assert_eq!(rt; kept_line("bad from 192.0.2.7"), "bad from 192.0.2.7");
    let mut line = repeated(rt.alloc(), KEPT_LINE_BYTES - 1)?;
    line.push('\u{e9}')?;
    assert_eq!(rt; kept_line(line.as_str()).len(), KEPT_LINE_BYTES - 1);
    Ok(())
}

#[test]
fn no_more_than_the_first_bytes_of_a_line_are_kept(rt: HostRuntime) -> Result<(), Fail> {
    let mut line = repeated(rt.alloc(), KEPT_LINE_BYTES - 1)?;
    line.push('b')?;
    line.push('c')?;
    assert_eq!(rt; kept_line(line.as_str()).len(), KEPT_LINE_BYTES);
    Ok(())
}
