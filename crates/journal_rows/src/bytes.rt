//! Slots, byte by byte.

/// The gate, generation 1, version 2, the view before the first configuration, that time passed at 100, and a closed gate.
pub(crate) const TICK: [u8; 26] = [
    1, 0, 0, 0, 0, 0, 0, 0, 1, 2, 0, 0x80, 0xa3, 5, 0, 0, 0, 0, 0, 0, 0, 1, 100, 0, 0, 0,
];

/// The same in generation 2, and at 101.
pub(crate) const NEWER: [u8; 26] = [
    1, 0, 0, 0, 0, 0, 0, 0, 2, 2, 0, 0x80, 0xa3, 5, 0, 0, 0, 0, 0, 0, 0, 1, 101, 0, 0, 0,
];

/// The first in version 1.
pub(crate) const OLD_VERSION: [u8; 26] = [
    1, 0, 0, 0, 0, 0, 0, 0, 1, 1, 0, 0x80, 0xa3, 5, 0, 0, 0, 0, 0, 0, 0, 1, 100, 0, 0, 0,
];

/// The first in the last generation.
pub(crate) const LAST: [u8; 26] = [
    1, 0x40, 0, 0, 0, 0, 0, 0, 0, 2, 0, 0x80, 0xa3, 5, 0, 0, 0, 0, 0, 0, 0, 1, 100, 0, 0, 0,
];

/// The first in a generation that there is not.
pub(crate) const PAST_LAST: [u8; 26] = [
    1, 0x40, 0, 0, 0, 0, 0, 0, 1, 2, 0, 0x80, 0xa3, 5, 0, 0, 0, 0, 0, 0, 0, 1, 100, 0, 0, 0,
];

/// The first with its own gate closed.
pub(crate) const SHUT: [u8; 26] = [
    0, 0, 0, 0, 0, 0, 0, 0, 1, 2, 0, 0x80, 0xa3, 5, 0, 0, 0, 0, 0, 0, 0, 1, 100, 0, 0, 0,
];

/// The first with a version that nobody writes.
pub(crate) const BAD: [u8; 26] = [
    1, 0, 0, 0, 0, 0, 0, 0, 1, 3, 0, 0x80, 0xa3, 5, 0, 0, 0, 0, 0, 0, 0, 1, 100, 0, 0, 0,
];

/// A view whose next id is 7, that time passed at 100, and two bans by command at 1000.
pub(crate) const BANS: [u8; 44] = [
    1, 0, 0, 0, 0, 0, 0, 0, 1, 2, 0, 0x80, 0xa3, 5, 0, 0, 0, 0, 0, 7, 0, 1, 100, 0, 0, 1, 0xe8, 7,
    7, 5, 1, b'a', 2, 4, 0xc0, 0, 2, 7, 4, 0xc0, 0, 2, 8, 0,
];
