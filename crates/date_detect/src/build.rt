//! The dates of a jail, and how they are built.
ghost use Rattle.std.specs.Prelude.{◌≡◌, ◌≢◌, Err, IfOk, string_bytes};
ghost use Rattle.date_detect.specs.Forms.{framed, usual_rule, own_rule, rule_of, texts, HasDatePattern, IsUsual};
ghost use Rattle.date_detect.specs.Builds.{Builds, Makes};

use crate::error::BuildError;
use crate::form::Form;
use crate::names::named_groups;
use crate::usual::UsualForm;
use date_words::expand;
use f2b_base::{DateSpec, NoMemory};
use f2b_world::{Made, Pattern, Patterns};
use std::alloc::Global;
use std::marker::Model;

/// The forms of dates of a jail, which contracts see as a rule. It does not search by itself: `searcher` makes what does.
#[derive(Debug, Drop)]
pub struct Dates {
    pub(crate) anchored: bool,
    pub(crate) forms: Vec<Form>,
}

impl Model for Dates {
    ghost use Rattle.date_detect.specs.Forms.{Rule};

    ghost Value = { Rule };

    ghost view = { λ d. record { anchored = d.anchored; forms = d.forms.items } };
}

/// The pattern of a text, by one call.
fn made<P: Patterns>(patterns: &mut P, text: &str) -> Result<Pattern, BuildError>
    ensures { Makes text.now result (P.stands patterns.old) (P.stands patterns.new) }
{
    match patterns.make(text) {
        Made::Built(pattern) => Ok(pattern),
        Made::Syntax => Err(BuildError::Syntax),
        Made::TooBig => Err(BuildError::TooBig),
        Made::NoMemory => Err(BuildError::NoMemory),
    }
}

/// The pattern, or the pattern that matches at the beginning alone.
fn framed(alloc: Global, anchored: bool, text: &str) -> Result<String, NoMemory>
    ensures { IfOk result (λ pattern. string_bytes pattern ≡ framed anchored text.now) }
{
    let mut pattern = String::new(alloc);
    if anchored {
        pattern.push_str("^(?:")?;
        pattern.push_str(text)?;
        pattern.push_str(")")?;
    } else {
        pattern.push_str(text)?;
    }
    Ok(pattern)
}

/// Builds usual forms, in their order.
fn usual<P: Patterns>(
    alloc: Global,
    patterns: &mut P,
    anchored: bool,
    usual: &[UsualForm],
) -> Result<Dates, BuildError>
    ensures value { IfOk result (λ dates. dates ≡ usual_rule anchored usual.now) }
    ensures calls { Builds (texts (usual_rule anchored usual.now)) result (P.stands patterns.old) (P.stands patterns.new) }
{
    let mut forms = Vec::new(alloc);
    for form in usual {
        let text = framed(alloc, anchored, form.text())?;
        let pattern = made(patterns, text.as_str())?;
        forms.push(Form {
            pattern,
            groups: form.groups(),
        })?;
    }
    Ok(Dates { anchored, forms })
}

/// Builds the form of a user's pattern.
fn own<P: Patterns>(
    alloc: Global,
    patterns: &mut P,
    anchored: bool,
    text: &str,
) -> Result<Dates, BuildError>
    ensures value { IfOk result (λ dates. dates ≡ own_rule anchored text.now) }
    ensures calls { Builds (texts (own_rule anchored text.now)) result (P.stands patterns.old) (P.stands patterns.new) }
{
    let expanded = expand(alloc, text)?;
    let text = framed(alloc, anchored, expanded.as_str())?;
    let pattern = made(patterns, text.as_str())?;
    let groups = named_groups(alloc, text.as_str())?;
    let mut forms = Vec::new(alloc);
    forms.push(Form { pattern, groups })?;
    Ok(Dates { anchored, forms })
}

impl Dates {
    /// Builds the dates of a jail. Each pattern is one call, in the order in which they are tried, up to the first that is not
    /// built. Ask `is_date_pattern` of a user's pattern first.
    pub fn build<P: Patterns>(
        alloc: Global,
        patterns: &mut P,
        spec: &DateSpec,
    ) -> Result<Dates, BuildError>
        requires { HasDatePattern spec.now }
        ensures value { IfOk result (λ dates. dates ≡ rule_of spec.now) }
        ensures calls { Builds (texts (rule_of spec.now)) result (P.stands patterns.old) (P.stands patterns.new) }

        // The usual forms are patterns.
        ensures usual { IsUsual spec.now → result ≢ Err BuildError.Syntax }
    {
        match spec {
            DateSpec::Default => usual(alloc, patterns, false, &UsualForm::ALL),
            DateSpec::Anchored => usual(alloc, patterns, true, &UsualForm::ALL),
            DateSpec::NoDate => usual(alloc, patterns, false, &[]),
            DateSpec::Epoch => usual(alloc, patterns, false, &[UsualForm::Epoch]),
            DateSpec::Iso => usual(alloc, patterns, false, &[UsualForm::Iso]),
            DateSpec::Pattern(text) => own(alloc, patterns, false, text.as_str()),
            DateSpec::AnchoredPattern(text) => own(alloc, patterns, true, text.as_str()),
        }
    }
}
