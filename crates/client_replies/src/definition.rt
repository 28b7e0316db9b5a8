//! What a jail's definition has, as text.
ghost use Rattle.std.specs.Prelude.{◌≡◌, IfOk, OnOk};
ghost use Rattle.client_replies.specs.Texts.{action_names, date_text, flag_text, has_text, with_text};

use f2b_base::{ActionDef, DateSpec, NoMemory, Plain, Seq, Text};
use std::alloc::Global;

/// A flag, as items of a configuration have it.
pub(crate) fn flag_text(flag: bool) -> &'static str
    ensures { result.now ≡ flag_text flag }
{
    if flag { "true" } else { "false" }
}

/// Which dates lines have: the item that a configuration has for it, or that these are the usual forms.
pub(crate) fn date_text(alloc: Global, date: &DateSpec) -> Result<Text, NoMemory>
    ensures { IfOk result (λ text. text ≡ date_text date.now) }
{
    match date {
        DateSpec::Default => Text::from_str(alloc, "Default Detectors"),
        DateSpec::Anchored => Text::from_str(alloc, "{^LN-BEG}"),
        DateSpec::NoDate => Text::from_str(alloc, "{NONE}"),
        DateSpec::Epoch => Text::from_str(alloc, "Epoch"),
        DateSpec::Iso => Text::from_str(alloc, "ISO8601"),
        DateSpec::Pattern(pattern) => pattern.copy(),
        DateSpec::AnchoredPattern(pattern) => {
            let mut text = Text::from_str(alloc, "{^LN-BEG}")?;
            text.push_str(pattern.as_str())?;
            Ok(text)
        }
    }
}

fn has_text(texts: &[Text], text: &Text) -> bool
    ensures { result ≡ has_text texts.now text.now }
{
    texts.iter().any(|other| *text == *other)
}

/// One text more, unless it is there.
fn add_text(texts: &mut Seq<Text>, text: &Text) -> Result<(), NoMemory>
    ensures { OnOk result (texts.new ≡ with_text texts.old text.now) }
{
    if has_text(texts.as_slice(), text) {
        return Ok(());
    }
    texts.push(text.copy()?)
}

/// The names of actions, each once, in the order in which they stand first.
#[tactic(auto, using(crate::proofs::NameLemmas::names_more))]
pub(crate) fn action_names(alloc: Global, actions: &[ActionDef]) -> Result<Seq<Text>, NoMemory>
    ensures { IfOk result (λ names. names ≡ action_names actions.now) }
{
    let mut names = Seq::new(alloc);
    for action in actions {
        add_text(&mut names, &action.name)?;
    }
    Ok(names)
}
