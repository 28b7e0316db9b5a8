//! Places in a pattern as it was written.
ghost use Rattle.std.specs.Prelude.{◌≡◌, ◌↔◌, IfOk, IsCharBoundary, IsTrue, length, take};
ghost use Rattle.host_ident.specs.Expanded.{expanded};
ghost use Rattle.pattern_fault.specs.Places.{IsBefore, IsPlaceOf};

use f2b_base::NoMemory;
use host_ident::expand;
use std::alloc::Global;

/// How many bytes the front of a pattern expands to, up to a place between characters.
fn expanded_len(alloc: Global, pattern: &str, place: usize) -> Result<usize, NoMemory>
    requires { IsCharBoundary pattern.now place }
    ensures { IfOk result (λ len. len ≡ length (expanded (take place pattern.now))) }
{
    let front = expand(alloc, &pattern[..place])?;
    Ok(front.as_str().len())
}

/// Whether a place is one between characters before which the pattern expands to no more bytes than that.
fn is_before(alloc: Global, pattern: &str, place: usize, offset: usize) -> Result<bool, NoMemory>
    ensures yes { IfOk result (λ yes. IsTrue yes ↔ IsBefore pattern.now offset place) }
{
    if !pattern.is_char_boundary(place) {
        return Ok(false);
    }
    Ok(expanded_len(alloc, pattern, place)? <= offset)
}

/// The place in a pattern of what stands at an offset where its tags are expanded. What a tag expands to has a place in that tag.
/// Takes time by the square of the pattern's length.
pub(crate) fn place_in(alloc: Global, pattern: &str, offset: usize) -> Result<usize, NoMemory>
    ensures { IfOk result (IsPlaceOf pattern.now offset) }
{
    let len = pattern.len();
    for back in 0..len {
        let place = len - back;
        if is_before(alloc, pattern, place, offset)? {
            return Ok(place);
        }
    }
    Ok(0)
}
