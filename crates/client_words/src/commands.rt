//! Words as requests.
ghost use Rattle.std.specs.Prelude.{◌≡◌, ◌<◌, ◌≤◌, ◌+◌, ◌^◌, length, IfOk};
ghost use Rattle.f2b_model.specs.Storable.{IsJailName};
ghost use Rattle.client_words.specs.Bounds.{IsBoundedRequest};
ghost use Rattle.client_words.specs.Commands.{command_of, get_request, holders_request, is_all, request_of, set_one, set_request, status_request, unban_request};
ghost use Rattle.client_words.specs.Values.{Gives};

use crate::error::CommandError;
use crate::numbers::{bantime, findtime, maxretry};
use crate::request::Request;
use crate::values::{address, addresses, jail_name, mask};
use crate::verb::{Item, Setting, Verb, fits_count, switch_named, verb_of};
use f2b_base::{Seq, Text};
use std::alloc::Global;

/// What one word sets of a jail, the fourth.
fn set_one(setting: Setting, jail: Text, word: &Text) -> Result<Request, CommandError>
    ensures request { Gives (set_one setting jail word.now) result }
    ensures bounds { IsJailName jail → IfOk result IsBoundedRequest }
{
    match setting {
        Setting::Attempt => {
            let addr = address(4, word)?;
            Ok(Request::SetAttempt { jail, addr })
        }
        Setting::Addignoreip => {
            let cidr = mask(4, word)?;
            Ok(Request::AddIgnore { jail, cidr })
        }
        Setting::Delignoreip => {
            let cidr = mask(4, word)?;
            Ok(Request::DelIgnore { jail, cidr })
        }
        Setting::Findtime => {
            let secs = findtime(word)?;
            Ok(Request::SetFindtime { jail, secs })
        }
        Setting::Bantime => {
            let secs = bantime(word)?;
            Ok(Request::SetBantime { jail, secs })
        }
        Setting::Maxretry => {
            let number = maxretry(word)?;
            Ok(Request::SetMaxretry { jail, number })
        }
        Setting::Idle => match switch_named(word.as_str()) {
            Some(idle) => Ok(Request::SetIdle { jail, idle }),
            None => Err(CommandError::Unknown),
        },
        Setting::Banip | Setting::Unbanip => Err(CommandError::WrongCount),
    }
}

/// What the words from the fourth on set of a jail.
fn set_request(
    alloc: Global,
    setting: Setting,
    jail: Text,
    values: &[Text],
) -> Result<Request, CommandError>
    requires { 4 + length values.now ≤ 2 ^ 32 }
    ensures request { Gives (set_request setting jail values.now) result }
    ensures bounds { IsJailName jail → IfOk result IsBoundedRequest }
{
    match setting {
        Setting::Banip => {
            let addrs = addresses(alloc, 4, values)?;
            Ok(Request::SetBanip { jail, addrs })
        }
        Setting::Unbanip => {
            let addrs = addresses(alloc, 4, values)?;
            Ok(Request::SetUnbanip { jail, addrs })
        }
        _ => match values {
            [value, ..] => set_one(setting, jail, value),
            [] => Err(CommandError::WrongCount),
        },
    }
}

/// What is got of a jail.
fn get_request(item: Item, jail: Text) -> Request
    ensures request { result ≡ get_request item jail }
    ensures bounds { IsBoundedRequest result }
{
    match item {
        Item::Banip => Request::GetBanip { jail },
        Item::Findtime => Request::GetFindtime { jail },
        Item::Bantime => Request::GetBantime { jail },
        Item::Maxretry => Request::GetMaxretry { jail },
        Item::Ignoreip => Request::GetIgnoreip { jail },
        Item::Logpath => Request::GetLogpath { jail },
        Item::Failregex => Request::GetFailregex { jail },
        Item::Bantimes => Request::GetBantimes { jail },
        Item::Ignoreregex => Request::GetIgnoreregex { jail },
        Item::Datepattern => Request::GetDatepattern { jail },
        Item::Maxmatches => Request::GetMaxmatches { jail },
        Item::Increment => Request::GetIncrement { jail },
        Item::Actions => Request::GetActions { jail },
    }
}

/// Whether all addresses are meant: `--all`, and nothing behind it.
fn is_all(values: &[Text]) -> bool
    ensures { result ≡ is_all values.now }
{
    match values {
        [word] => word.as_str() == "--all",
        _ => false,
    }
}

/// What the words from the second on unban.
fn unban_request(alloc: Global, values: &[Text]) -> Result<Request, CommandError>
    requires { 2 + length values.now ≤ 2 ^ 32 }
    ensures request { Gives (unban_request values.now) result }
    ensures bounds { IfOk result IsBoundedRequest }
{
    if is_all(values) {
        return Ok(Request::UnbanAll);
    }
    let addrs = addresses(alloc, 2, values)?;
    Ok(Request::Unban { addrs })
}

/// Of which addresses the words from the second on ask who holds them.
fn holders_request(alloc: Global, values: &[Text]) -> Result<Request, CommandError>
    requires { 2 + length values.now ≤ 2 ^ 32 }
    ensures request { Gives (holders_request values.now) result }
    ensures bounds { IfOk result IsBoundedRequest }
{
    let held = addresses(alloc, 2, values)?;
    Ok(Request::Holders { addrs: held })
}

/// Of which jails the status is asked for by one word.
fn status_request(word: &Text) -> Result<Request, CommandError>
    ensures request { Gives (status_request word.now) result }
    ensures bounds { IfOk result IsBoundedRequest }
{
    if word.as_str() == "--all" {
        return Ok(Request::StatusAll);
    }
    let jail = jail_name(word)?;
    Ok(Request::StatusOf { jail })
}

/// The request of a verb by all words, which are as many as it has.
fn request_of(alloc: Global, verb: Verb, words: &[Text]) -> Result<Request, CommandError>
    requires { length words.now < 2 ^ 32 }
    ensures request { Gives (request_of verb words.now) result }
    ensures bounds { IfOk result IsBoundedRequest }
{
    match (verb, words) {
        (Verb::Ping, _) => Ok(Request::Ping),
        (Verb::Version, _) => Ok(Request::Version),
        (Verb::Status, [_]) => Ok(Request::Status),
        (Verb::Status, [_, word, ..]) => status_request(word),
        (Verb::Banned, _) => Ok(Request::Banned),
        (Verb::Holders, [_, values @ ..]) => holders_request(alloc, values),
        (Verb::Unban, [_, values @ ..]) => unban_request(alloc, values),
        (Verb::Reload, _) => Ok(Request::Reload),
        (Verb::Stop, _) => Ok(Request::Stop),
        (Verb::Set(setting), [_, jail, _, values @ ..]) => {
            let jail = jail_name(jail)?;
            set_request(alloc, setting, jail, values)
        }
        (Verb::Get(item), [_, jail, ..]) => {
            let jail = jail_name(jail)?;
            Ok(get_request(item, jail))
        }
        _ => Err(CommandError::WrongCount),
    }
}

/// The request that words make, or what is wrong with them first: the words that name the command, how many words there are, the name of
/// the jail, and then the values.
#[tactic(auto, unfolding(crate::specs::Commands::command_of))]
pub fn command(alloc: Global, words: &Seq<Text>) -> Result<Request, CommandError>
    requires { length words.now < 2 ^ 32 }
    ensures request { Gives (command_of words.now) result }
    ensures bounds { IfOk result IsBoundedRequest }
{
    let words = words.as_slice();
    let verb = verb_of(words)?;
    if !fits_count(verb, words.len()) {
        return Err(CommandError::WrongCount);
    }
    request_of(alloc, verb, words)
}
