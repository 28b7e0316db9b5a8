//! The part of a line that a failure keeps.
ghost use Rattle.f2b_base.specs.Lines.{IsKeptOf};

use crate::limits::KEPT_LINE_BYTES;

/// The part of a matched line that its failure keeps: the longest beginning of at most `KEPT_LINE_BYTES` bytes that ends between
/// two characters. Takes no memory.
pub fn kept_line(line: &str) -> &str
    ensures { IsKeptOf line.now result.now }
{
    &line[..line.floor_char_boundary(KEPT_LINE_BYTES)]
}
