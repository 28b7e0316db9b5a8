//! Printing addresses: dotted decimals, or the form of RFC 5952, section 4.
ghost use Rattle.std.specs.Prelude.{◌≡◌, ℕ, ◌+◌, ◌*◌, ◌<◌, ◌≤◌, List, [], ◌++◌, length, take, decimal, Some};
ghost use Rattle.std.specs.Char.{digit_char};
ghost use Rattle.std.specs.Net.Text as text;
ghost use Rattle.f2b_base.specs.Addresses.{octets, groups, printed, read_addr, IsAddr};

use super::Addr;
use std::marker::Model;
use std::net::Ipv6Addr;

/// The room for the text of an address.
const ROOM: usize = 45;

/// The text of an address while it is written.
#[derive(Drop)]
struct AddrText {
    bytes: [u8; ROOM],
    len: usize,
}

impl Model for AddrText {
    ghost Value = { List ℕ };

    ghost view = { λ t. take t.len t.bytes };

    ghost invariant = { λ t. t.len ≤ 45 };
}

impl AddrText {
    fn new() -> AddrText
        ensures { result ≡ [] }
    {
        AddrText {
            bytes: [0; ROOM],
            len: 0,
        }
    }

    fn push(&mut self, bytes: &[u8])
        requires { length self.old + length bytes.now ≤ ROOM }
        ensures { self.new ≡ self.old ++ bytes.now }
    {
        let end = self.len + bytes.len();
        self.bytes[self.len..end].copy_from_slice(bytes);
        self.len = end;
    }

    /// Adds the decimal of an octet.
    fn push_octet(&mut self, octet: u8)
        requires { length self.old + 3 ≤ ROOM }
        ensures value { self.new ≡ self.old ++ decimal octet }
        ensures short { length self.new ≤ length self.old + 3 }
    {
        let digits = [
            b'0' + octet / 100,
            b'0' + octet / 10 % 10,
            b'0' + octet % 10,
        ];
        self.push(&digits[leading_zeros(octet)..]);
    }

    /// Adds a group of 16 bits in hex, in lower case and without leading zeros.
    #[tactic(auto, unfolding(std::specs::Net::Text::hex))]
    fn push_group(&mut self, group: u16)
        requires { length self.old + 4 ≤ ROOM }
        ensures value { self.new ≡ self.old ++ text.hex group }
        ensures short { length self.new ≤ length self.old + 4 }
    {
        let digits = [
            hex_digit(group / 0x1000),
            hex_digit(group / 0x100 % 16),
            hex_digit(group / 0x10 % 16),
            hex_digit(group % 16),
        ];
        self.push(&digits[leading_hex_zeros(group)..]);
    }

    /// Adds groups with colons between them.
    fn push_groups(&mut self, groups: &[u16])
        requires { length self.old + 5 * length groups.now ≤ ROOM }
        ensures value { self.new ≡ self.old ++ text.groups_text groups.now }
        ensures short { length self.new ≤ length self.old + 5 * length groups.now }
    {
        let [first, rest @ ..] = groups else {
            return;
        };
        self.push_group(*first);
        for group in rest {
            self.push(b":");
            self.push_group(*group);
        }
    }

    /// Hands the text out, and returns its length.
    fn finish(self, out: &mut [u8; 45]) -> usize
        ensures value { take result out.new ≡ self }
        ensures len { result ≡ length self }
    {
        out.copy_from_slice(&self.bytes);
        self.len
    }
}

/// How many of an octet's three decimal digits are leading zeros, the last digit apart.
fn leading_zeros(octet: u8) -> usize
    ensures high { 100 ≤ octet → result ≡ 0 }
    ensures middle { 10 ≤ octet → octet < 100 → result ≡ 1 }
    ensures low { octet < 10 → result ≡ 2 }
    ensures within { result < 3 }
{
    match octet {
        100.. => 0,
        10.. => 1,
        _ => 2,
    }
}

/// How many of a group's four hex digits are leading zeros, the last digit apart.
fn leading_hex_zeros(group: u16) -> usize
    ensures value { result ≡ text.leading_zero_digits group }
    ensures within { result < 4 }
{
    match group {
        0x1000.. => 0,
        0x100.. => 1,
        0x10.. => 2,
        _ => 3,
    }
}

fn hex_digit(digit: u16) -> u8
    requires { digit < 16 }
    ensures { result ≡ digit_char digit }
{
    if digit < 10 {
        b'0' + digit as u8
    } else {
        b'a' + (digit - 10) as u8
    }
}

/// The start and the length of the longest run of zero groups, and of two such runs the first.
fn longest_zero_run(groups: &[u16]) -> (usize, usize)
    ensures value { result ≡ text.longest_zero_run groups.now }
    ensures within { result.0 + result.1 ≤ length groups.now }
{
    let mut start = groups.len();
    let mut len = 0;
    let mut run = 0;
    for i in (0..groups.len()).rev() {
        run = if groups[i] == 0 { run + 1 } else { 0 };
        if run >= len {
            start = i;
            len = run;
        }
    }
    (start, len)
}

#[tactic(auto, unfolding(crate::specs::Addresses::printed))]
fn text_of(addr: Addr) -> AddrText
    ensures { result ≡ printed addr }
{
    match addr {
        Addr::V4(number) => text_of_v4(number),
        Addr::V6(number) => text_of_v6(number),
    }
}

#[tactic(auto, unfolding(crate::specs::Addresses::octets))]
fn text_of_v4(number: u32) -> AddrText
    ensures { result ≡ text.ipv4_text (octets number) }
{
    let [a, b, c, d] = number.to_be_bytes();
    let mut text = AddrText::new();
    text.push_octet(a);
    text.push(b".");
    text.push_octet(b);
    text.push(b".");
    text.push_octet(c);
    text.push(b".");
    text.push_octet(d);
    text
}

#[tactic(auto, unfolding(crate::specs::Addresses::groups, std::specs::Net::Addr::IsIpv6OfBits))]
fn text_of_v6(number: u128) -> AddrText
    ensures { result ≡ text.hex_groups_text (groups number) }
{
    let groups = Ipv6Addr::from_bits(number).segments();
    text_of_groups(&groups)
}

#[tactic(auto, unfolding(std::specs::Net::Text::hex_groups_text))]
fn text_of_groups(groups: &[u16]) -> AddrText
    requires { length groups.now ≤ 8 }
    ensures { result ≡ text.hex_groups_text groups.now }
{
    let (start, len) = longest_zero_run(groups);
    let mut text = AddrText::new();
    if len > 1 {
        text.push_groups(&groups[..start]);
        text.push(b"::");
        text.push_groups(&groups[start + len..]);
    } else {
        text.push_groups(groups);
    }
    text
}

impl Addr {
    /// Writes the text of the address at the front of `out`, and returns its length in bytes.
    ///
    /// IPv4 is dotted decimals. IPv6 has the form of RFC 5952, section 4: lower case, no leading zeros, and the longest run of at
    /// least two zero groups as `::`, on a tie the first. `Addr::read` gives the address back. What stands in `out` behind the
    /// text is no part of it. Takes no memory.
    pub fn print(&self, out: &mut [u8; 45]) -> usize
        ensures value { take result out.new ≡ printed self.now }
        ensures len { result ≤ 45 }
        ensures again { IsAddr self.now → read_addr (take result out.new) ≡ Some self.now }
    {
        text_of(*self).finish(out)
    }
}
