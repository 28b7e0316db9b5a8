//! Which command words name, and how many words it has.
ghost use Rattle.std.specs.Prelude.{◌≡◌};
ghost use Rattle.client_words.specs.Verbs.{begins_with_address, fits_count, get_verb, has_unknown_switch, is_with_time, item_behind, items, named_in, plain_verb, set_verb, settings, switches, verb_behind, verb_of, verbs};

use crate::error::CommandError;
use f2b_base::{Addr, Text};

/// What `set` sets.
#[derive(Clone, Copy)]
pub(crate) enum Setting {
    Banip,
    Unbanip,
    Attempt,
    Addignoreip,
    Delignoreip,
    Findtime,
    Bantime,
    Maxretry,
    Idle,
}

/// What `get` gets.
#[derive(Clone, Copy)]
pub(crate) enum Item {
    Banip,
    Findtime,
    Bantime,
    Maxretry,
    Ignoreip,
    Logpath,
    Failregex,
    /// Of bans, with their times.
    Bantimes,
    Ignoreregex,
    Datepattern,
    Maxmatches,
    Increment,
    Actions,
}

/// What words ask for, before their values are read.
#[derive(Clone, Copy)]
pub(crate) enum Verb {
    Ping,
    Version,
    Status,
    Banned,
    /// Of addresses, by which jails they are held.
    Holders,
    Unban,
    Reload,
    Stop,
    Set(Setting),
    Get(Item),
}

/// The verb that a first word names alone.
fn verb_named(word: &str) -> Option<Verb>
    ensures { result ≡ named_in verbs word.now }
{
    match word {
        "ping" => Some(Verb::Ping),
        "version" => Some(Verb::Version),
        "status" => Some(Verb::Status),
        "banned" => Some(Verb::Banned),
        "unban" => Some(Verb::Unban),
        "reload" => Some(Verb::Reload),
        "stop" => Some(Verb::Stop),
        _ => None,
    }
}

fn setting_named(word: &str) -> Option<Setting>
    ensures { result ≡ named_in settings word.now }
{
    match word {
        "banip" => Some(Setting::Banip),
        "unbanip" => Some(Setting::Unbanip),
        "attempt" => Some(Setting::Attempt),
        "addignoreip" => Some(Setting::Addignoreip),
        "delignoreip" => Some(Setting::Delignoreip),
        "findtime" => Some(Setting::Findtime),
        "bantime" => Some(Setting::Bantime),
        "maxretry" => Some(Setting::Maxretry),
        "idle" => Some(Setting::Idle),
        _ => None,
    }
}

fn item_named(word: &str) -> Option<Item>
    ensures { result ≡ named_in items word.now }
{
    match word {
        "banip" => Some(Item::Banip),
        "findtime" => Some(Item::Findtime),
        "bantime" => Some(Item::Bantime),
        "maxretry" => Some(Item::Maxretry),
        "ignoreip" => Some(Item::Ignoreip),
        "logpath" => Some(Item::Logpath),
        "failregex" => Some(Item::Failregex),
        "ignoreregex" => Some(Item::Ignoreregex),
        "datepattern" => Some(Item::Datepattern),
        "maxmatches" => Some(Item::Maxmatches),
        "bantime.increment" => Some(Item::Increment),
        "actions" => Some(Item::Actions),
        _ => None,
    }
}

/// Whether a jail is to be idle, by the word that says so.
pub(crate) fn switch_named(word: &str) -> Option<bool>
    ensures { result ≡ named_in switches word.now }
{
    match word {
        "on" => Some(true),
        "off" => Some(false),
        _ => None,
    }
}

/// Whether a word stands behind `idle` and is no switch.
fn has_unknown_switch(setting: Setting, values: &[Text]) -> bool
    ensures { result ≡ has_unknown_switch setting values.now }
{
    match (setting, values) {
        (Setting::Idle, [word, ..]) => switch_named(word.as_str()).is_none(),
        _ => false,
    }
}

fn set_verb(words: &[Text]) -> Result<Verb, CommandError>
    ensures { result ≡ set_verb words.now }
{
    let [_, _, word, values @ ..] = words else {
        return Err(CommandError::WrongCount);
    };
    match setting_named(word.as_str()) {
        None => Err(CommandError::Unknown),
        Some(setting) if has_unknown_switch(setting, values) => Err(CommandError::Unknown),
        Some(setting) => Ok(Verb::Set(setting)),
    }
}

/// Whether the times of bans are asked for: `--with-time`, and nothing behind it.
fn is_with_time(values: &[Text]) -> bool
    ensures { result ≡ is_with_time values.now }
{
    match values {
        [word] => word.as_str() == "--with-time",
        _ => false,
    }
}

/// What is got by the words behind an item's.
#[tactic(auto, using(crate::proofs::VerbLemmas::other_item))]
fn item_behind(item: Item, values: &[Text]) -> Item
    ensures { result ≡ item_behind item values.now }
{
    match item {
        Item::Banip => {
            if is_with_time(values) {
                Item::Bantimes
            } else {
                Item::Banip
            }
        }
        other => other,
    }
}

fn get_verb(words: &[Text]) -> Result<Verb, CommandError>
    ensures { result ≡ get_verb words.now }
{
    let [_, _, word, values @ ..] = words else {
        return Err(CommandError::WrongCount);
    };
    match item_named(word.as_str()) {
        Some(item) => Ok(Verb::Get(item_behind(item, values))),
        None => Err(CommandError::Unknown),
    }
}

/// Whether an address stands first.
fn begins_with_address(values: &[Text]) -> bool
    ensures { result ≡ begins_with_address values.now }
{
    match values {
        [word, ..] => Addr::read(word.as_str().as_bytes()).is_some(),
        [] => false,
    }
}

/// The verb by the words behind its own.
#[tactic(auto, using(crate::proofs::VerbLemmas::other_verb))]
fn verb_behind(verb: Verb, values: &[Text]) -> Verb
    ensures { result ≡ verb_behind verb values.now }
{
    match verb {
        Verb::Banned => {
            if begins_with_address(values) {
                Verb::Holders
            } else {
                Verb::Banned
            }
        }
        other => other,
    }
}

fn plain_verb(words: &[Text]) -> Result<Verb, CommandError>
    ensures { result ≡ plain_verb words.now }
{
    let [first, values @ ..] = words else {
        return Err(CommandError::WrongCount);
    };
    match verb_named(first.as_str()) {
        Some(verb) => Ok(verb_behind(verb, values)),
        None => Err(CommandError::Unknown),
    }
}

/// The verb that words name. One that is there and names none is an unknown command, and one that is not there a wrong count.
#[tactic(auto, unfolding(crate::specs::Verbs::verb_of))]
pub(crate) fn verb_of(words: &[Text]) -> Result<Verb, CommandError>
    ensures { result ≡ verb_of words.now }
{
    let [first, ..] = words else {
        return Err(CommandError::WrongCount);
    };
    match first.as_str() {
        "set" => set_verb(words),
        "get" => get_verb(words),
        _ => plain_verb(words),
    }
}

/// Whether a command with this verb has so many words.
pub(crate) fn fits_count(verb: Verb, count: usize) -> bool
    ensures { result ≡ fits_count verb count }
{
    match verb {
        Verb::Ping | Verb::Version | Verb::Banned | Verb::Reload | Verb::Stop => count == 1,
        Verb::Status => count <= 2,
        Verb::Holders | Verb::Unban => count >= 2,
        Verb::Set(Setting::Banip | Setting::Unbanip) => count >= 4,
        Verb::Set(_) => count == 4,
        Verb::Get(Item::Bantimes) => count == 4,
        Verb::Get(_) => count == 3,
    }
}
