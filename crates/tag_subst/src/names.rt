//! Which part of a text is a static tag.
ghost use Rattle.std.specs.Prelude.{◌≡◌, ◌≤◌, ◌-◌, length};
ghost use Rattle.tag_subst.specs.Names.{is_name_byte, begins_name, name_start, is_open_at, is_listed, is_reserved};

use crate::groups::opens_group;

/// Whether a name may have the byte.
fn is_name_byte(byte: u8) -> bool
    ensures { result ≡ is_name_byte byte }
{
    byte.is_ascii_alphanumeric() || matches!(byte, b'_' | b'.' | b':' | b'/' | b'?' | b'=' | b'-')
}

/// Whether a name may begin so.
fn begins_name(text: &[u8]) -> bool
    ensures { result ≡ begins_name text.now }
{
    match text {
        [first, ..] => first.is_ascii_alphabetic() || *first == b'_',
        [] => false,
    }
}

/// Where the bytes of a name begin with which the text ends.
pub(crate) fn name_start(text: &[u8]) -> usize
    ensures start { result ≡ name_start text.now }
    ensures within { result ≤ length text.now }
{
    let mut start = text.len();
    while start > 0 && is_name_byte(text[start - 1]) {
        start -= 1;
    }
    start
}

/// Whether the bytes from `start` on are the name of a tag that lacks only its `>`.
pub(crate) fn is_open_at(start: usize, text: &[u8]) -> bool
    requires { start ≤ length text.now }
    ensures { result ≡ is_open_at start text.now }
{
    if start == 0 {
        return false;
    }
    text[start - 1] == b'<' && begins_name(&text[start..]) && !opens_group(&text[..start - 1])
}

/// Whether the name is one of those that stand for no item.
fn is_listed(name: &str) -> bool
    ensures { result ≡ is_listed name.now }
{
    matches!(
        name,
        "ip" | "family"
            | "failures"
            | "time"
            | "bantime"
            | "bancount"
            | "matches"
            | "br"
            | "HOST"
            | "ADDR"
            | "IP4"
            | "IP6"
            | "DNS"
            | "SUBNET"
            | "CIDR"
            | "SKIPLINES"
    )
}

/// Whether the name stands for no item.
pub(crate) fn is_reserved(name: &str) -> bool
    ensures { result ≡ is_reserved name.now }
{
    is_listed(name) || name.starts_with("F-")
}
