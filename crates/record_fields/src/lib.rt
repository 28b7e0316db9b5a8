//! Fields of records: numbers, flags, bytes, texts, addresses and lists, each with one spelling.
//!
//! Of each kind of field there is a `put_` that adds its spelling to bytes, a `_len` that says how long that is, and a `take_` that
//! reads the value at the front of bytes and hands on what follows. A value has one spelling alone: a longer form of a number is
//! no number here, and an address has one family. Where bytes have no reading, a `take_` says how many of them are left where
//! the first field begins that has none. No memory is taken for a count that was read before its items are. A list is read and
//! written by a type that says what its items are (`Items`, `Spell`). Nothing here knows what the records mean.
//!
//! ```text
//! put_number(300, &mut out)?;                    // ac 02
//! let (number, rest) = take_number(bytes)?;      // of ac 02 ff: 300, and ff
//! ```
#![tactic(auto)]

mod addresses;
mod bits;
mod fault;
mod lengths;
mod lists;
mod numbers;
mod small;
mod texts;

pub use addresses::{addr_len, put_addr, take_addr};
pub use bits::{cidr_len, put_cidr, take_cidr};
pub use fault::Fault;
pub use lengths::{byte_len, joined_len, tagged_len};
pub use lists::{Items, ItemsBy, Spell, list_len, put_list, take_each, take_list};
pub use numbers::{
    number_len, put_number, put_signed, signed_len, take_between, take_number, take_signed,
    take_up_to,
};
pub use small::{put_flag, take_count, take_flag, take_moment, take_span};
pub use texts::{bytes_len, put_bytes, put_text, take_bytes, take_short, take_text, text_len};
