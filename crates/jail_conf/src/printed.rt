//! Refusals as they print, and what helps against them.
//!
//! A refusal prints as `Configuration refused: FILE [SECTION] NAME: KIND`, where a kind is its name, and behind a blank the number, name
//! or path that it carries. No text ends with a full stop.
ghost use Rattle.std.specs.Prelude.{◌≡◌, ◌++◌, IfOk, OnOk, codes};
ghost use Rattle.std.specs.Fmt.{decimal};
ghost use Rattle.jail_conf.specs.Helps.{ini_help, help_of};
ghost use Rattle.jail_conf.specs.Printed.{ini_name, kind_name, ini_carried, carried, refusal_text};

use crate::conf_error::{ConfError, ConfKind};
use f2b_base::{NoMemory, Text};
use ini_interp::IniError;
use std::alloc::Global;

fn ini_name(error: &IniError) -> &'static str
    ensures { result.now ≡ ini_name error.now }
{
    match error {
        IniError::NoSection(_) => "NoSection",
        IniError::NoDelimiter(_) => "NoDelimiter",
        IniError::Indent(_) => "Indent",
        IniError::NotUtf8(_) => "NotUtf8",
        IniError::NoMemory => "NoMemory",
    }
}

/// A blank and a number, behind others.
fn push_number(alloc: Global, text: &mut Text, number: u64) -> Result<(), NoMemory>
    ensures { OnOk result (text.new ≡ text.old ++ codes " " ++ decimal number) }
{
    let digits = format!(in alloc; " {number}")?;
    text.push_str(digits.as_str())
}

/// A blank and a name, behind others.
fn push_name(text: &mut Text, name: &str) -> Result<(), NoMemory>
    ensures { OnOk result (text.new ≡ text.old ++ codes " " ++ name.now) }
{
    text.push_str(" ")?;
    text.push_str(name)
}

fn push_ini_carried(alloc: Global, text: &mut Text, error: &IniError) -> Result<(), NoMemory>
    ensures { OnOk result (text.new ≡ text.old ++ ini_carried error.now) }
{
    match error {
        IniError::NoSection(line) | IniError::NoDelimiter(line) | IniError::Indent(line) => {
            push_number(alloc, text, *line)
        }
        IniError::NotUtf8(at) => push_number(alloc, text, *at),
        IniError::NoMemory => Ok(()),
    }
}

/// The number, name or path of a kind, where it carries one, behind its name.
fn push_carried(alloc: Global, text: &mut Text, kind: &ConfKind) -> Result<(), NoMemory>
    ensures { OnOk result (text.new ≡ text.old ++ carried kind.now) }
{
    match kind {
        ConfKind::Ini(error) => push_ini_carried(alloc, text, error),
        ConfKind::MissingInclude(name) | ConfKind::Missing(name) | ConfKind::TooDeep(name) => {
            push_name(text, name.as_str())
        }
        ConfKind::BadPercent(at) => push_number(alloc, text, *at),
        _ => Ok(()),
    }
}

fn ini_help(error: &IniError) -> &'static str
    ensures { result.now ≡ ini_help error.now }
{
    match error {
        IniError::NoSection(_) => "an item stands below the header of its section, as [DEFAULT]",
        IniError::NoDelimiter(_) =>
            "a line is [SECTION], NAME = VALUE or a comment, or continues a value with a blank in front",
        IniError::Indent(_) =>
            "a line with a blank in front continues an item that stands above it in its section",
        IniError::NotUtf8(_) => "a file of a configuration is UTF-8",
        IniError::NoMemory => "more memory is needed",
    }
}

impl ConfKind {
    /// The name of the kind, as it prints. A fault of a file has its own name.
    pub fn name(&self) -> &'static str
        ensures { result.now ≡ kind_name self.now }
    {
        match self {
            ConfKind::Ini(error) => ini_name(error),
            ConfKind::MissingInclude(_) => "MissingInclude",
            ConfKind::IncludeLoop => "IncludeLoop",
            ConfKind::Missing(_) => "Missing",
            ConfKind::TooDeep(_) => "TooDeep",
            ConfKind::BadPercent(_) => "BadPercent",
            ConfKind::BadName => "BadName",
            ConfKind::BadBool => "BadBool",
            ConfKind::BadOptions => "BadOptions",
            ConfKind::MissingFile => "MissingFile",
            ConfKind::BadGlob => "BadGlob",
            ConfKind::BadZone => "BadZone",
            ConfKind::BadDate => "BadDate",
            ConfKind::BadTag => "BadTag",
            ConfKind::NoHost => "NoHost",
            ConfKind::TwoHosts => "TwoHosts",
            ConfKind::BadAddress => "BadAddress",
            ConfKind::BadTime => "BadTime",
            ConfKind::BadNumber => "BadNumber",
            ConfKind::Unsupported => "Unsupported",
            ConfKind::DoubleAction => "DoubleAction",
            ConfKind::TooMany => "TooMany",
        }
    }

    /// What is allowed where a value was refused for this, in a sentence.
    pub fn help(&self) -> &'static str
        ensures { result.now ≡ help_of self.now }
    {
        match self {
            ConfKind::Ini(error) => ini_help(error),
            ConfKind::MissingInclude(_) =>
                "an include is a file of the configuration, named from the directory of the file that includes it, without .. and without / in front",
            ConfKind::IncludeLoop =>
                "no file includes itself, nor one that includes it: put what both need into a third file",
            ConfKind::Missing(_) =>
                "a reference names an item of its section or scope: set that item there",
            ConfKind::TooDeep(_) =>
                "references and tags stand in one another at most ten deep, and none comes to itself",
            ConfKind::BadPercent(_) =>
                "% begins %(NAME)s or %(SECTION/NAME)s, and is written %% where it means itself",
            ConfKind::BadName => "the name of a jail has 1 to 64 of A-Z a-z 0-9 _ . -",
            ConfKind::BadBool => "one of true, yes, on, 1, false, no, off and 0",
            ConfKind::BadOptions =>
                "NAME, or NAME[KEY=VALUE, KEY='VALUE'] with quotes around a value that has a comma, a bracket or a quote",
            ConfKind::MissingFile =>
                "a filter has a file filter.d/NAME.conf, and an action a file action.d/NAME.conf",
            ConfKind::BadGlob => "a path begins with /, and has * and ? behind its last / alone",
            ConfKind::BadZone => "Z, or UTC or GMT, alone or with +hhmm or -hhmm behind it",
            ConfKind::BadDate =>
                "Epoch, ISO8601, {NONE}, {^LN-BEG}, or a pattern with %d, one of %m and %b, and at most once each %Y or %y, %H, %M, %S, %z, %a, %f and %%",
            ConfKind::BadTag =>
                "write <HOST>, <ADDR>, <IP4> or <IP6> in place of <F-ID>, <CIDR> and <SUBNET>, the bare pattern in place of <F-MLFID>, no line with <SKIPLINES>, <F-NOFAIL> or another <F-MLF..>, and <F-CONTENT> with its end once, in prefregex alone and with no host there",
            ConfKind::NoHost =>
                "each line of failregex has one of <HOST>, <ADDR>, <IP4>, <IP6> and <DNS>, and not right behind (? or (?P",
            ConfKind::TwoHosts =>
                "a pattern has at most one of <HOST>, <ADDR>, <IP4>, <IP6> and <DNS>: write a line for each",
            ConfKind::BadAddress =>
                "addresses and masks, as 192.0.2.1 and 2001:db8::/32, divided by blanks, lines or commas; no names of hosts",
            ConfKind::BadTime =>
                "seconds, or terms as 1d 12h 30m, of at most 3153600000 seconds and within the bounds of the item",
            ConfKind::BadNumber => "decimal digits, within the bounds of the item",
            ConfKind::Unsupported =>
                "the value asks for what is not offered: leave the item out, or give it its default",
            ConfKind::DoubleAction =>
                "the actions of a jail have different names: give one of them the option actname",
            ConfKind::TooMany =>
                "at most 256 jails, 64 logs and 16 actions of a jail, 512 patterns in all, and 8192 bytes of a pattern",
        }
    }
}

impl ConfError {
    /// The refusal as it prints: `Configuration refused: FILE [SECTION] NAME: KIND`.
    pub fn text(&self, alloc: Global) -> Result<Text, NoMemory>
        ensures { IfOk result (λ text. text ≡ refusal_text self.now) }
    {
        let mut text = Text::from_str(alloc, "Configuration refused: ")?;
        text.push_str(self.file.as_str())?;
        text.push_str(" [")?;
        text.push_str(self.section.as_str())?;
        text.push_str("] ")?;
        text.push_str(self.name.as_str())?;
        text.push_str(": ")?;
        text.push_str(self.kind.name())?;
        push_carried(alloc, &mut text, &self.kind)?;
        Ok(text)
    }
}
