//! Whether there is room, in numbers that no sum passes.
ghost use Rattle.std.specs.Prelude.{◌≡◌, ◌+◌, ◌^◌, ◌-◌, nat_le, min};

/// Whether so many bytes and a gate behind them end within the limit, behind the gate at that place.
pub(crate) fn has_room(gate: u64, len: u64, limit: u64) -> bool
    ensures { result ≡ nat_le (gate + len + 2) limit }
{
    u128::from(gate) + u128::from(len) + 2 <= u128::from(limit)
}

/// How many bytes a fresh slot has with a view and an input of these lengths.
pub(crate) fn needed(view_len: u64, input_len: u64) -> u128
    ensures { result ≡ view_len + input_len + 12 }
{
    u128::from(view_len) + u128::from(input_len) + 12
}

/// A number of bytes, or the greatest number of 64 bits where it is more.
pub(crate) fn as_said(bytes: u128) -> u64
    ensures { result ≡ min bytes (2 ^ 64 - 1) }
{
    if bytes < u128::from(u64::MAX) {
        bytes as u64
    } else {
        u64::MAX
    }
}
