//! The texts of lists.
ghost use Rattle.std.specs.Prelude.{◌≡◌, ◌++◌, ℕ, List, IfOk, IsUtf8, OnOk};
ghost use Rattle.std.specs.Fmt.{decimal, signed_decimal};
ghost use Rattle.std.specs.List.{flat_map, join_by};
ghost use Rattle.f2b_base.specs.Addresses.{printed};
ghost use Rattle.client_replies.specs.Texts.{all_bits, ban_text, def_name, itself, line_of, mask_text, path_of, titled, view_line};

use f2b_base::{Addr, Ban, Cidr, JailDef, JailView, NoMemory, Text, WatchDef};
use std::alloc::Global;
use std::str;

/// What stands in lists of a reply.
pub(crate) trait Listed {
    ghost text: { Self → List ℕ };

    /// Adds the text at the end of a reply.
    fn push_to(&self, alloc: Global, reply: &mut Text) -> Result<(), NoMemory>
        ensures { OnOk result (reply.new ≡ reply.old ++ text self.now) };
}

/// Adds items at the end of a reply, with a text before each.
#[tactic(auto, using(crate::proofs::TextLemmas::flat_more))]
fn push_others<T: Listed>(
    alloc: Global,
    reply: &mut Text,
    before: &str,
    items: &[T],
) -> Result<(), NoMemory>
    ensures { OnOk result (reply.new ≡ reply.old ++ flat_map (λ item. before.now ++ T.text item) items.now) }
{
    for item in items {
        reply.push_str(before)?;
        item.push_to(alloc, reply)?;
    }
    Ok(())
}

/// Adds items at the end of a reply, with a text between each two.
pub(crate) fn push_joined<T: Listed>(
    alloc: Global,
    reply: &mut Text,
    between: &str,
    items: &[T],
) -> Result<(), NoMemory>
    ensures { OnOk result (reply.new ≡ reply.old ++ join_by T.text between.now items.now) }
{
    let [first, others @ ..] = items else {
        return Ok(());
    };
    first.push_to(alloc, reply)?;
    push_others(alloc, reply, between, others)
}

pub(crate) fn push_number(alloc: Global, reply: &mut Text, number: u128) -> Result<(), NoMemory>
    ensures { OnOk result (reply.new ≡ reply.old ++ decimal number) }
{
    let digits = format!(in alloc; "{number}")?;
    reply.push_str(digits.as_str())
}

/// A list as a text, with another one between each two of its items.
pub(crate) fn joined<T: Listed>(alloc: Global, between: &str, items: &[T]) -> Result<Text, NoMemory>
    ensures { IfOk result (λ text. text ≡ join_by T.text between.now items.now) }
{
    let mut text = Text::new(alloc);
    push_joined(alloc, &mut text, between, items)?;
    Ok(text)
}

/// A title, and a number behind it.
#[tactic(auto, unfolding(crate::specs::Texts::titled))]
pub(crate) fn push_titled_number(
    alloc: Global,
    reply: &mut Text,
    title: &str,
    number: u128,
) -> Result<(), NoMemory>
    ensures { OnOk result (reply.new ≡ reply.old ++ titled title.now (decimal number)) }
{
    reply.push_str(title)?;
    push_number(alloc, reply, number)
}

/// A title, and items behind it with a text between each two.
#[tactic(auto, unfolding(crate::specs::Texts::titled))]
pub(crate) fn push_titled_list<T: Listed>(
    alloc: Global,
    reply: &mut Text,
    title: &str,
    between: &str,
    items: &[T],
) -> Result<(), NoMemory>
    ensures { OnOk result (reply.new ≡ reply.old ++ titled title.now (join_by T.text between.now items.now)) }
{
    reply.push_str(title)?;
    push_joined(alloc, reply, between, items)
}

pub(crate) fn number_text(alloc: Global, number: u128) -> Result<Text, NoMemory>
    ensures { IfOk result (λ text. text ≡ decimal number) }
{
    let digits = format!(in alloc; "{number}")?;
    Ok(Text::from(digits))
}

pub(crate) fn signed_text(alloc: Global, number: i64) -> Result<Text, NoMemory>
    ensures { IfOk result (λ text. text ≡ signed_decimal number) }
{
    let digits = format!(in alloc; "{number}")?;
    Ok(Text::from(digits))
}

/// Bytes that are text.
pub(crate) fn text_of(bytes: &[u8]) -> &str
    requires { IsUtf8 bytes.now }
    ensures { result.now ≡ bytes.now }
{
    str::from_utf8(bytes).unwrap()
}

pub(crate) fn push_addr(reply: &mut Text, addr: &Addr) -> Result<(), NoMemory>
    ensures { OnOk result (reply.new ≡ reply.old ++ printed addr.now) }
{
    let mut printed = [0; 45];
    let len = addr.print(&mut printed);
    reply.push_str(text_of(&printed[..len]))
}

/// How many bits an address has.
fn all_bits(addr: &Addr) -> u8
    ensures { result ≡ all_bits addr.now }
{
    match addr {
        Addr::V4(_) => 32,
        Addr::V6(_) => 128,
    }
}

impl Listed for Text {
    ghost text = { itself };

    fn push_to(&self, _alloc: Global, reply: &mut Text) -> Result<(), NoMemory> {
        reply.push_str(self.as_str())
    }
}

impl Listed for Ban {
    ghost text = { ban_text };

    fn push_to(&self, _alloc: Global, reply: &mut Text) -> Result<(), NoMemory> {
        push_addr(reply, &self.addr)
    }
}

impl Listed for Cidr {
    ghost text = { mask_text };

    fn push_to(&self, alloc: Global, reply: &mut Text) -> Result<(), NoMemory> {
        push_addr(reply, &self.base)?;
        if self.bits != all_bits(&self.base) {
            reply.push_str("/")?;
            push_number(alloc, reply, u128::from(self.bits))?;
        }
        Ok(())
    }
}

impl Listed for WatchDef {
    ghost text = { path_of };

    fn push_to(&self, _alloc: Global, reply: &mut Text) -> Result<(), NoMemory> {
        reply.push_str(self.path.as_str())
    }
}

impl Listed for JailDef {
    ghost text = { def_name };

    fn push_to(&self, _alloc: Global, reply: &mut Text) -> Result<(), NoMemory> {
        reply.push_str(self.name.as_str())
    }
}

impl Listed for JailView {
    ghost text = { view_line };

    #[tactic(auto, unfolding(crate::specs::Texts::line_of))]
    fn push_to(&self, alloc: Global, reply: &mut Text) -> Result<(), NoMemory> {
        reply.push_str(self.name.as_str())?;
        reply.push_str(": ")?;
        push_joined(alloc, reply, " ", self.bans.as_slice())
    }
}
