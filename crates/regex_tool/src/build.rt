//! What is tried on the lines of a log, by the jail that is tested.
ghost use Rattle.std.specs.Prelude.{◌≡◌, None, IfErr, IfOk, OnOk};
ghost use Rattle.date_detect.specs.Forms.{HasDatePattern};
ghost use Rattle.filter_regex.specs.Rules.{rules_of};
ghost use Rattle.regex_tool.specs.Builds.{HasBuildCause, IsBuilt, not_dated, tool_kind};
ghost use Rattle.regex_tool.specs.Checks.{first_fault, IsTestable};
ghost use Rattle.regex_tool.specs.Logs.{dates_if, looks_of};

use crate::checks::first_fault;
use crate::kind::ToolKind;
use crate::shows::Shows;
use crate::status::ToolStatus;
use crate::trial::Trial;
use date_detect::{BuildError, Dates};
use f2b_base::JailDef;
use f2b_world::Patterns;
use filter_regex::{BuildKind, Filter, PatternError, PatternPlace};
use std::alloc::Global;

fn tool_kind(kind: BuildKind) -> ToolKind
    ensures { result ≡ tool_kind kind }
{
    match kind {
        BuildKind::Syntax => ToolKind::Syntax,
        BuildKind::TooBig => ToolKind::TooBig,
    }
}

/// The filter of a jail. Faults that are seen before any pattern is built come first.
fn filter<P: Patterns>(
    alloc: Global,
    patterns: &mut P,
    jail: &JailDef,
) -> Result<Filter, ToolStatus>
    requires { IsTestable jail.now }
    ensures value { IfOk result (λ filter. filter ≡ rules_of jail.now) }
    ensures none { OnOk result (first_fault jail.now ≡ None) }
    ensures date { OnOk result (HasDatePattern jail.now.date) }
    ensures cause { IfErr result (HasBuildCause jail.now (P.stands patterns.old) (P.stands patterns.new)) }
    ensures built { IsBuilt (P.stands patterns.old) (P.stands patterns.new) }
{
    if let Some(refused) = first_fault(jail) {
        return Err(ToolStatus::PatternRefused {
            place: refused.place,
            kind: refused.kind,
        });
    }
    match Filter::build(alloc, patterns, jail) {
        Ok(filter) => Ok(filter),
        Err(PatternError::NoMemory) => Err(ToolStatus::NoMemory),
        Err(PatternError::Refused { place, kind }) => Err(ToolStatus::PatternRefused {
            place,
            kind: tool_kind(kind),
        }),
    }
}

/// Why dates are not built a second time.
fn not_dated(error: BuildError) -> ToolStatus
    ensures { result ≡ not_dated error }
{
    let kind = match error {
        BuildError::Syntax => ToolKind::Syntax,
        BuildError::TooBig => ToolKind::TooBig,
        BuildError::NoMemory => return ToolStatus::NoMemory,
    };
    ToolStatus::PatternRefused {
        place: PatternPlace::Date,
        kind,
    }
}

/// The dates of a jail whose filter was built, where they are wanted.
fn dates_if<P: Patterns>(
    alloc: Global,
    patterns: &mut P,
    wanted: bool,
    jail: &JailDef,
) -> Result<Option<Dates>, ToolStatus>
    requires date { HasDatePattern jail.now.date }
    requires none { first_fault jail.now ≡ None }
    ensures value { IfOk result (λ dates. dates ≡ dates_if wanted jail.now.date) }
    ensures cause { IfErr result (HasBuildCause jail.now (P.stands patterns.old) (P.stands patterns.new)) }
    ensures built { IsBuilt (P.stands patterns.old) (P.stands patterns.new) }
{
    if !wanted {
        return Ok(None);
    }
    match Dates::build(alloc, patterns, &jail.date) {
        Ok(dates) => Ok(Some(dates)),
        Err(error) => Err(not_dated(error)),
    }
}

/// What is tried on lines: the filter of a jail, and where the words want details its dates.
pub(crate) fn build<P: Patterns>(
    alloc: Global,
    patterns: &mut P,
    jail: &JailDef,
    shows: Shows,
) -> Result<Trial, ToolStatus>
    requires { IsTestable jail.now }
    ensures value { IfOk result (λ trial. trial ≡ looks_of jail.now shows) }
    ensures none { OnOk result (first_fault jail.now ≡ None) }
    ensures cause { IfErr result (HasBuildCause jail.now (P.stands patterns.old) (P.stands patterns.new)) }
    ensures built { IsBuilt (P.stands patterns.old) (P.stands patterns.new) }
{
    let filter = filter(alloc, patterns, jail)?;
    let dates = dates_if(alloc, patterns, shows.detail, jail)?;
    Ok(Trial {
        filter,
        dates,
        zone: shows.zone,
    })
}
