//! Filters, and how they are built.
ghost use Rattle.std.specs.Prelude.{◌≡◌, IfOk};
ghost use Rattle.date_detect.specs.Forms.{rule_of, texts, HasDatePattern};
ghost use Rattle.filter_regex.specs.Rules.{rules_of, date_places, is_undated, IsSupported};
ghost use Rattle.filter_regex.specs.Builds.{Builds, MakesAll, refusal};

use crate::error::{BuildKind, PatternError, PatternPlace};
use crate::make::{Role, made_list, made_pref};
use date_detect::{BuildError, Dates};
use f2b_base::{DateSpec, JailDef};
use f2b_world::{Pattern, Patterns};
use std::alloc::Global;
use std::marker::Model;

/// The patterns of a jail, which contracts see as rules.
#[derive(Debug, Drop)]
pub struct Filter {
    pub(crate) dates: Dates,
    /// Lines have no date: each is dated now.
    pub(crate) undated: bool,
    /// How many seconds a date without a zone is ahead of UTC.
    pub(crate) zone: i32,
    pub(crate) pref: Option<Pattern>,
    pub(crate) fail: Vec<Pattern>,
    pub(crate) ignore_lines: Vec<Pattern>,
}

impl Model for Filter {
    ghost use Rattle.std.specs.Prelude.{◌<◌, ◌^◌, length};
    ghost use Rattle.filter_regex.specs.Rules.{Rules};

    ghost Value = { Rules };

    ghost view = { λ f. record {
      dates = f.dates;
      undated = f.undated;
      zone = f.zone;
      pref = f.pref;
      fail = f.fail.items;
      ignore_lines = f.ignore_lines.items;
    } };

    ghost invariant = { λ f. (length f.fail.items < 2 ^ 32) × (length f.ignore_lines.items < 2 ^ 32) };
}

/// Why a filter is not built whose dates are not.
fn not_built(error: BuildError) -> PatternError
    ensures { result ≡ refusal error }
{
    let kind = match error {
        BuildError::Syntax => BuildKind::Syntax,
        BuildError::TooBig => BuildKind::TooBig,
        BuildError::NoMemory => return PatternError::NoMemory,
    };
    PatternError::Refused {
        place: PatternPlace::Date,
        kind,
    }
}

/// The patterns of dates.
fn made_dates<P: Patterns>(
    alloc: Global,
    patterns: &mut P,
    spec: &DateSpec,
) -> Result<Dates, PatternError>
    requires { HasDatePattern spec.now }
    ensures value { IfOk result (λ dates. dates ≡ rule_of spec.now) }
    ensures calls { MakesAll (date_places (texts (rule_of spec.now))) result (P.stands patterns.old) (P.stands patterns.new) }
{
    match Dates::build(alloc, patterns, spec) {
        Ok(dates) => Ok(dates),
        Err(error) => Err(not_built(error)),
    }
}

/// Whether lines have no date.
fn is_undated(spec: &DateSpec) -> bool
    ensures { result ≡ is_undated spec.now }
{
    matches!(spec, DateSpec::NoDate)
}

impl Filter {
    /// Builds the filter of a jail. Each of its patterns is one call, up to the first that is not built: those of dates, the
    /// prefix pattern, those of failures, and those of ignored lines.
    pub fn build<P: Patterns>(
        alloc: Global,
        patterns: &mut P,
        jail: &JailDef,
    ) -> Result<Filter, PatternError>
        requires { IsSupported jail.now }
        ensures value { IfOk result (λ filter. filter ≡ rules_of jail.now) }
        ensures calls { Builds (rules_of jail.now) result (P.stands patterns.old) (P.stands patterns.new) }
    {
        let dates = made_dates(alloc, patterns, &jail.date)?;
        let pref = made_pref(alloc, patterns, &jail.pref)?;
        let fail = made_list(alloc, patterns, Role::Fail, jail.fail.as_slice())?;
        let ignore_lines = made_list(alloc, patterns, Role::Ignore, jail.ignore_lines.as_slice())?;
        Ok(Filter {
            dates,
            undated: is_undated(&jail.date),
            zone: jail.zone as i32,
            pref,
            fail,
            ignore_lines,
        })
    }
}
