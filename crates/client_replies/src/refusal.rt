//! Why a request is refused by the state.
ghost use Rattle.std.specs.Prelude.{◌≡◌, IfOk, is_some};
ghost use Rattle.std.specs.Option.{option_copied};
ghost use Rattle.client_replies.specs.Refusals.{comes_late, is_change, missing, named, no_jail_text, refusal};

use client_words::Request;
use f2b_base::{NoMemory, Text};
use jail_core::Core;
use std::alloc::Global;

/// The jail that a request names, if it names one.
pub(crate) fn named(request: &Request) -> Option<&Text>
    ensures { option_copied result ≡ named request.now }
{
    match request {
        Request::StatusOf { jail } => Some(jail),
        Request::SetBanip { jail, .. } => Some(jail),
        Request::SetUnbanip { jail, .. } => Some(jail),
        Request::SetAttempt { jail, .. } => Some(jail),
        Request::AddIgnore { jail, .. } => Some(jail),
        Request::DelIgnore { jail, .. } => Some(jail),
        Request::SetFindtime { jail, .. } => Some(jail),
        Request::SetBantime { jail, .. } => Some(jail),
        Request::SetMaxretry { jail, .. } => Some(jail),
        Request::SetIdle { jail, .. } => Some(jail),
        Request::GetBanip { jail } => Some(jail),
        Request::GetFindtime { jail } => Some(jail),
        Request::GetBantime { jail } => Some(jail),
        Request::GetMaxretry { jail } => Some(jail),
        Request::GetIgnoreip { jail } => Some(jail),
        Request::GetLogpath { jail } => Some(jail),
        Request::GetFailregex { jail } => Some(jail),
        Request::GetBantimes { jail } => Some(jail),
        Request::GetIgnoreregex { jail } => Some(jail),
        Request::GetDatepattern { jail } => Some(jail),
        Request::GetMaxmatches { jail } => Some(jail),
        Request::GetIncrement { jail } => Some(jail),
        Request::GetActions { jail } => Some(jail),
        Request::Ping
        | Request::Version
        | Request::Status
        | Request::StatusAll
        | Request::Banned
        | Request::Holders { .. }
        | Request::UnbanAll
        | Request::Unban { .. }
        | Request::Reload
        | Request::Stop => None,
    }
}

/// Whether a request changes something, or may.
fn is_change(request: &Request) -> bool
    ensures { result ≡ is_change request.now }
{
    matches!(
        request,
        Request::UnbanAll
            | Request::Unban { .. }
            | Request::Reload
            | Request::SetBanip { .. }
            | Request::SetUnbanip { .. }
            | Request::SetAttempt { .. }
            | Request::AddIgnore { .. }
            | Request::DelIgnore { .. }
            | Request::SetFindtime { .. }
            | Request::SetBantime { .. }
            | Request::SetMaxretry { .. }
            | Request::SetIdle { .. }
    )
}

/// The name of the jail that a request names, where no such jail is there.
#[tactic(auto, using(crate::proofs::RefusalLemmas::is_there, crate::proofs::RefusalLemmas::is_gone))]
fn missing<'a>(core: &Core, request: &'a Request) -> Option<&'a Text>
    ensures { option_copied result ≡ missing core.now request.now }
{
    let name = named(request)?;
    match core.jail(name.as_str()) {
        Some(_) => None,
        None => Some(name),
    }
}

fn no_jail_text(alloc: Global, name: &Text) -> Result<Text, NoMemory>
    ensures { IfOk result (λ text. text ≡ no_jail_text name.now) }
{
    let mut text = Text::from_str(alloc, "Sorry but the jail '")?;
    text.push_str(name.as_str())?;
    text.push_str("' does not exist")?;
    Ok(text)
}

/// Whether a request would change something while the server is stopping.
fn comes_late(core: &Core, request: &Request) -> bool
    ensures { result ≡ comes_late core.now request.now }
{
    core.is_stopping() && is_change(request)
}

/// Whether a request is refused. Takes no memory.
#[tactic(auto, using(crate::proofs::RefusalLemmas::late_is), unfolding(crate::specs::Refusals::refusal))]
pub(crate) fn is_refused(core: &Core, request: &Request) -> bool
    ensures { result ≡ is_some (refusal core.now request.now) }
{
    match missing(core, request) {
        Some(_) => true,
        None => comes_late(core, request),
    }
}

/// Why a request is refused, if it is.
#[tactic(auto, unfolding(crate::specs::Refusals::refusal))]
pub(crate) fn refusal(
    alloc: Global,
    core: &Core,
    request: &Request,
) -> Result<Option<Text>, NoMemory>
    ensures { IfOk result (λ text. text ≡ refusal core.now request.now) }
{
    if let Some(name) = missing(core, request) {
        return Ok(Some(no_jail_text(alloc, name)?));
    }
    if comes_late(core, request) {
        return Ok(Some(Text::from_str(alloc, "Server is stopping")?));
    }
    Ok(None)
}
