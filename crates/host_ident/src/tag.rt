//! The tags, and what each stands for.
ghost use Rattle.std.specs.Prelude.{◌≡◌, ◌++◌, OnOk};
ghost use Rattle.std.specs.List.{list_all};
ghost use Rattle.host_ident.specs.Tags.{tag_named, host_tag_named, mark_named, is_name_byte, is_mark_name, addresses, expansion, is_host};

use f2b_base::{NoMemory, Text};

/// A tag of a pattern.
#[derive(Clone, Copy, PartialEq, Eq)]
pub(crate) enum Tag {
    Ip4,
    Ip6,
    Dns,
    Addr,
    Host,
    /// Begins the part of the line that is looked at further.
    Content,
    /// Begins any other part that has a name.
    Open,
    /// Ends a part.
    Close,
}

/// An IPv4 address, perhaps mapped into IPv6.
const IP4: &str = r"(?:::[fF]{4}:)?(?P<f2b4>[0-9]{1,3}(?:\.[0-9]{1,3}){3})";

/// An IPv6 address, perhaps in brackets.
const IP6: &str =
    r"\[?(?P<f2b6>(?:[0-9A-Fa-f]{1,4}(?::[0-9A-Fa-f]{1,4}){0,6})?::(?:[0-9A-Fa-f]{1,4}(?::[0-9A-Fa-f]{1,4}){0,6})?|[0-9A-Fa-f]{1,4}(?::[0-9A-Fa-f]{1,4}){7})\]?";

/// The name of a host.
const DNS: &str = "(?P<f2bn>[A-Za-z0-9_](?:[A-Za-z0-9._-]*[A-Za-z0-9_])?)";

/// The tag of an address or a name of a host.
fn host_tag(name: &str) -> Option<Tag>
    ensures { result ≡ host_tag_named name.now }
{
    if name == "IP4" {
        Some(Tag::Ip4)
    } else if name == "IP6" {
        Some(Tag::Ip6)
    } else if name == "DNS" {
        Some(Tag::Dns)
    } else if name == "ADDR" {
        Some(Tag::Addr)
    } else if name == "HOST" {
        Some(Tag::Host)
    } else {
        None
    }
}

/// Whether a name may have each of the bytes.
fn is_name(name: &str) -> bool
    ensures { result ≡ list_all is_name_byte name.now }
{
    name.as_bytes().iter().all(|byte| is_name_byte(*byte))
}

/// Whether it is a name that begins so.
fn is_mark(name: &str, front: &str) -> bool
    ensures { result ≡ is_mark_name front.now name.now }
{
    name.starts_with(front) && is_name(name)
}

/// The tag of a part that has a name.
fn mark(name: &str) -> Option<Tag>
    ensures { result ≡ mark_named name.now }
{
    if name == "F-CONTENT" {
        Some(Tag::Content)
    } else if is_mark(name, "F-") {
        Some(Tag::Open)
    } else if is_mark(name, "/F-") {
        Some(Tag::Close)
    } else {
        None
    }
}

/// Begins a choice, with an address of either family.
fn push_addresses(pattern: &mut Text) -> Result<(), NoMemory>
    ensures { OnOk result (pattern.new ≡ pattern.old ++ addresses) }
{
    pattern.push_str("(?:")?;
    pattern.push_str(IP4)?;
    pattern.push_str("|")?;
    pattern.push_str(IP6)?;
    Ok(())
}

/// Whether a name may have the byte.
fn is_name_byte(byte: u8) -> bool
    ensures { result ≡ is_name_byte byte }
{
    byte.is_ascii_alphanumeric() || matches!(byte, b'_' | b'.' | b':' | b'/' | b'?' | b'=' | b'-')
}

impl Tag {
    /// The tag with that name.
    pub(crate) fn named(name: &str) -> Option<Tag>
        ensures { result ≡ tag_named name.now }
    {
        match host_tag(name) {
            Some(tag) => Some(tag),
            None => mark(name),
        }
    }

    /// Adds the piece of a pattern that it stands for.
    pub(crate) fn push_expansion(self, pattern: &mut Text) -> Result<(), NoMemory>
        ensures { OnOk result (pattern.new ≡ pattern.old ++ expansion self) }
    {
        match self {
            Tag::Ip4 => pattern.push_str(IP4),
            Tag::Ip6 => pattern.push_str(IP6),
            Tag::Dns => pattern.push_str(DNS),
            Tag::Addr => {
                push_addresses(pattern)?;
                pattern.push_str(")")
            }
            Tag::Host => {
                push_addresses(pattern)?;
                pattern.push_str("|")?;
                pattern.push_str(DNS)?;
                pattern.push_str(")")?;
                Ok(())
            }
            Tag::Content => pattern.push_str("(?P<f2bc>"),
            Tag::Open => pattern.push_str("(?:"),
            Tag::Close => pattern.push_str(")"),
        }
    }

    /// Whether it finds a host.
    pub(crate) fn is_host(self) -> bool
        ensures { result ≡ is_host self }
    {
        matches!(self, Tag::Ip4 | Tag::Ip6 | Tag::Dns | Tag::Addr | Tag::Host)
    }
}
