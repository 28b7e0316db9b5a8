//! The jail that is tested.
ghost use Rattle.std.specs.Prelude.{◌≡◌, ◌<◌, ◌++◌, ◌∷◌, ◌^◌, [], length, Some, option_copied, IfErr, IfOk, OnOk};
ghost use Rattle.regex_tool.specs.Asks.{shown};
ghost use Rattle.regex_tool.specs.Definitions.{plain_jail, pattern_jail, option_text, jail_text, jail_file, is_of_filters, filter_tree, first_of, date_spec, date_or, lines_or, with_words, target_for, IsBase, IsDefined, IsJailOf};
ghost use Rattle.regex_tool.specs.Checks.{IsFew, IsTestable};
ghost use Rattle.regex_tool.specs.Readings.{IsOpened};
ghost use Rattle.regex_tool.specs.Runs.{HasTreeCause, IsConfFail, IsJailFail};
ghost use Rattle.regex_tool.specs.Targets.{shown as shown_target};
ghost use Rattle.regex_tool.specs.Zones.{IsNear};

use crate::status::ToolStatus;
use crate::target::{Target, target_in};
use crate::words::Asked;
use f2b_base::{
    BanRule, Bytes, DateSpec, JailDef, NoMemory, Plain, Seq, Text, Tree, TreeAnswer, TreeFile,
};
use f2b_world::Files;
use jail_conf::{ConfFail, Fail, Settings, conf};
use std::alloc::Global;

/// A jail with these patterns of failures. What a test does not look at has some value that a jail may have.
fn plain_jail(alloc: Global, fail: Seq<Text>) -> Result<JailDef, NoMemory>
    ensures { IfOk result (λ jail. jail ≡ plain_jail fail) }
{
    Ok(JailDef {
        name: Text::from_str(alloc, "regex")?,
        watches: Seq::new(alloc),
        zone: 0,
        date: DateSpec::Default,
        pref: None,
        fail,
        ignore_lines: Seq::new(alloc),
        ignore: Seq::new(alloc),
        findtime: 1,
        maxretry: 1,
        maxmatches: 0,
        rule: BanRule {
            base: 1,
            increment: false,
            factor: 1_000,
            multipliers: Seq::new(alloc),
            maxtime: 1,
            rndtime: 0,
        },
        actions: Seq::new(alloc),
    })
}

/// A list of one pattern.
fn one_pattern(alloc: Global, text: &str) -> Result<Seq<Text>, NoMemory>
    ensures { IfOk result (λ lines. lines ≡ text.now ∷ []) }
{
    let mut lines = Seq::new(alloc);
    lines.push(Text::from_str(alloc, text)?)?;
    Ok(lines)
}

/// A jail with this one.
fn pattern_jail(alloc: Global, regex: &str) -> Result<JailDef, NoMemory>
    ensures { IfOk result (λ jail. jail ≡ pattern_jail regex.now) }
{
    plain_jail(alloc, one_pattern(alloc, regex)?)
}

fn push_options(text: &mut Bytes, options: Option<&str>) -> Result<(), NoMemory>
    ensures { OnOk result (text.new ≡ text.old ++ option_text (option_copied options.entry)) }
{
    let Some(options) = options else {
        return Ok(());
    };
    text.push_slice(b"[")?;
    text.push_slice(options.as_bytes())
}

fn push_jail(text: &mut Bytes, target: Target<'_>) -> Result<(), NoMemory>
    ensures { OnOk result (text.new ≡ text.old ++ jail_text (shown_target target.entry)) }
{
    text.push_slice(b"[")?;
    text.push_slice(target.name.as_bytes())?;
    text.push_slice(b"]\nenabled = true\nignoreself = false\nfilter = ")?;
    text.push_slice(target.name.as_bytes())?;
    push_options(text, target.options)?;
    text.push_slice(b"\n")
}

/// The jail of a filter, in four lines of a file.
fn jail_text(alloc: Global, target: Target<'_>) -> Result<Bytes, NoMemory>
    ensures { IfOk result (λ text. text ≡ jail_text (shown_target target.entry)) }
{
    let mut text = Bytes::new(alloc);
    push_jail(&mut text, target)?;
    Ok(text)
}

fn jail_file(alloc: Global, target: Target<'_>) -> Result<TreeFile, NoMemory>
    ensures { IfOk result (λ file. file ≡ jail_file (shown_target target.entry)) }
{
    Ok(TreeFile {
        path: Text::from_str(alloc, "jail.conf")?,
        content: jail_text(alloc, target)?,
    })
}

fn is_of_filters(file: &TreeFile) -> bool
    ensures { result ≡ is_of_filters file.now }
{
    file.path.as_str().starts_with("filter.d/")
}

/// The files of filters, and the jail of one of them.
#[tactic(auto, unfolding(crate::specs::Definitions::filter_tree))]
fn filter_tree(alloc: Global, target: Target<'_>, tree: &Tree) -> Result<Tree, NoMemory>
    ensures { IfOk result (λ own. own ≡ filter_tree (shown_target target.entry) tree.now) }
{
    let mut files = Seq::new(alloc);
    for file in tree.files.as_slice() {
        if is_of_filters(file) {
            files.push(file.copy()?)?;
        }
    }
    // A tree stands in byte order, and `jail.conf` behind all of `filter.d/`.
    files.push(jail_file(alloc, target)?)?;
    Ok(Tree { files })
}

/// The first jail of a configuration, or one without patterns where there is none.
#[tactic(auto, using(crate::proofs::DefinitionLemmas::first_at, crate::proofs::DefinitionLemmas::none_at))]
fn only_jail(alloc: Global, settings: &Settings) -> Result<JailDef, NoMemory>
    ensures { IfOk result (λ jail. jail ≡ first_of settings.now.defs.jails) }
{
    match settings.defs.jails.as_slice().first() {
        Some(jail) => jail.copy(),
        None => plain_jail(alloc, Seq::new(alloc)),
    }
}

/// How a date pattern of the words is read.
fn date_spec(alloc: Global, text: &str) -> Result<DateSpec, NoMemory>
    ensures { IfOk result (λ date. date ≡ date_spec text.now) }
{
    match text {
        "{^LN-BEG}" => return Ok(DateSpec::Anchored),
        "{NONE}" => return Ok(DateSpec::NoDate),
        "Epoch" => return Ok(DateSpec::Epoch),
        "ISO8601" => return Ok(DateSpec::Iso),
        _ => (),
    }
    if let Some(pattern) = text.strip_prefix("{^LN-BEG}") {
        return Ok(DateSpec::AnchoredPattern(Text::from_str(alloc, pattern)?));
    }
    Ok(DateSpec::Pattern(Text::from_str(alloc, text)?))
}

/// A date pattern of the words stands in place of another.
fn set_date(alloc: Global, given: Option<&str>, date: &mut DateSpec) -> Result<(), NoMemory>
    ensures { OnOk result (date.new ≡ date_or (option_copied given.entry) date.old) }
{
    let Some(text) = given else {
        return Ok(());
    };
    *date = date_spec(alloc, text)?;
    Ok(())
}

/// A pattern of the words stands in place of others.
fn set_lines(alloc: Global, given: Option<&str>, lines: &mut Seq<Text>) -> Result<(), NoMemory>
    ensures { OnOk result (lines.new ≡ lines_or (option_copied given.entry) lines.old) }
{
    let Some(text) = given else {
        return Ok(());
    };
    *lines = one_pattern(alloc, text)?;
    Ok(())
}

/// Patterns of the words stand in place of the jail's. Dates without a zone are those of the words' zone, and no address is left out.
fn set_words(alloc: Global, asked: &Asked<'_>, jail: &mut JailDef) -> Result<(), NoMemory>
    ensures words { OnOk result (jail.new ≡ with_words (shown asked.now) jail.old) }
    ensures near { IsNear asked.now.zone }
{
    jail.zone = asked.zone.seconds();
    jail.ignore = Seq::new(alloc);
    set_date(alloc, asked.date, &mut jail.date)?;
    set_lines(alloc, asked.ignore, &mut jail.ignore_lines)
}

/// A configuration that comes to nothing.
fn conf_fail(fail: ConfFail) -> ToolStatus
    ensures { IsConfFail fail result }
{
    match fail {
        Fail::Refused(error) => ToolStatus::ConfRefused(error),
        Fail::NoMemory => ToolStatus::NoMemory,
    }
}

/// The jail of a filter, by the files of its configuration.
fn filter_jail(alloc: Global, target: Target<'_>, tree: &Tree) -> Result<JailDef, ToolStatus>
    ensures jail { IfOk result (IsJailOf (shown_target target.entry) tree.now) }
    ensures few { IfOk result IsFew }
    ensures err { IfErr result (IsJailFail (shown_target target.entry) tree.now) }
{
    let own = filter_tree(alloc, target, tree)?;
    match conf(alloc, &own) {
        Ok(settings) => Ok(only_jail(alloc, &settings)?),
        Err(fail) => Err(conf_fail(fail)),
    }
}

/// The jail of a pattern, or of the filter that its path names.
fn base_jail<F: Files>(
    alloc: Global,
    asked: &Asked<'_>,
    files: &mut F,
) -> Result<JailDef, ToolStatus>
    ensures base { IfOk result (IsBase (F.stands files.old).shelf (shown asked.now).regex (target_for (shown asked.now))) }
    ensures few { IfOk result IsFew }
    ensures cause { IfErr result (HasTreeCause (target_for (shown asked.now)) (F.stands files.old) (F.stands files.new)) }
    ensures opened { IsOpened (F.stands files.old) (F.stands files.new) }
{
    let Some(target) = target_in(asked.dir, asked.regex) else {
        return Ok(pattern_jail(alloc, asked.regex)?);
    };
    match files.tree(target.dir) {
        TreeAnswer::Tree(tree) => filter_jail(alloc, target, &tree),
        TreeAnswer::TooLarge => Err(ToolStatus::TooLarge),
        TreeAnswer::Failed => Err(ToolStatus::FileFault),
        TreeAnswer::NoMemory => Err(ToolStatus::NoMemory),
    }
}

/// The jail that the words ask to test.
pub(crate) fn definition<F: Files>(
    alloc: Global,
    asked: &Asked<'_>,
    files: &mut F,
) -> Result<JailDef, ToolStatus>
    ensures defined { IfOk result (IsDefined (F.stands files.old).shelf (shown asked.now)) }
    ensures testable { IfOk result IsTestable }
    ensures cause { IfErr result (HasTreeCause (target_for (shown asked.now)) (F.stands files.old) (F.stands files.new)) }
    ensures opened { IsOpened (F.stands files.old) (F.stands files.new) }
{
    let mut jail = base_jail(alloc, asked, files)?;
    set_words(alloc, asked, &mut jail)?;
    Ok(jail)
}
