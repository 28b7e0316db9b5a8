//! When two configurations are one, as a test whose clause says so: a derived `==` says nothing of a value that holds a list.
ghost use Rattle.std.specs.Prelude.{◌≡◌, ◌↔◌, length, map, IsTrue};
ghost use Rattle.f2b_model.specs.declared.jail_now.JailNow.{JailNow};
ghost use Rattle.jail_rooms.specs.Kept.{now_of};

use crate::jail::Jail;
use f2b_base::{ActionDef, BanRule, Cidr, JailDef, Seq, Text, WatchDef};

/// A value of fields alone, of which it can be told whether another one is equal.
trait Same {
    /// Whether both are equal. Takes no memory.
    fn same(&self, other: &Self) -> bool
        ensures { IsTrue result ↔ (self.now ≡ other.now) };
}

impl Same for u64 {
    fn same(&self, other: &u64) -> bool {
        *self == *other
    }
}

impl Same for Text {
    fn same(&self, other: &Text) -> bool {
        *self == *other
    }
}

impl Same for Cidr {
    fn same(&self, other: &Cidr) -> bool {
        *self == *other
    }
}

impl Same for WatchDef {
    fn same(&self, other: &WatchDef) -> bool {
        *self == *other
    }
}

impl Same for ActionDef {
    fn same(&self, other: &ActionDef) -> bool {
        *self == *other
    }
}

/// Whether the items of two lists are the same, place by place.
fn same_items<T: Same>(items: &[T], others: &[T]) -> bool
    requires { length items.now ≡ length others.now }
    ensures { IsTrue result ↔ (items.now ≡ others.now) }
{
    for (index, item) in items.iter().enumerate() {
        if !item.same(&others[index]) {
            return false;
        }
    }
    true
}

impl<T: Same> Same for Seq<T> {
    fn same(&self, other: &Seq<T>) -> bool {
        self.len() == other.len() && same_items(self.as_slice(), other.as_slice())
    }
}

impl Same for BanRule {
    fn same(&self, other: &BanRule) -> bool {
        self.base == other.base
            && self.increment == other.increment
            && self.factor == other.factor
            && self.multipliers.same(&other.multipliers)
            && self.maxtime == other.maxtime
            && self.rndtime == other.rndtime
    }
}

impl Same for JailDef {
    fn same(&self, other: &JailDef) -> bool {
        self.name == other.name
            && self.watches.same(&other.watches)
            && self.zone == other.zone
            && self.date == other.date
            && self.pref == other.pref
            && self.fail.same(&other.fail)
            && self.ignore_lines.same(&other.ignore_lines)
            && self.ignore.same(&other.ignore)
            && self.findtime == other.findtime
            && self.maxretry == other.maxretry
            && self.maxmatches == other.maxmatches
            && self.rule.same(&other.rule)
            && self.actions.same(&other.actions)
    }
}

/// Whether these are the definitions of jails, in their order. Takes no memory.
pub fn are_definitions(jails: &[Jail], definitions: &[JailDef]) -> bool
    ensures { IsTrue result ↔ (definitions.now ≡ map (λ (j : JailNow). j.definition) (map now_of jails.now)) }
{
    if jails.len() != definitions.len() {
        return false;
    }
    for (index, jail) in jails.iter().enumerate() {
        if !definitions[index].same(&jail.definition) {
            return false;
        }
    }
    true
}
