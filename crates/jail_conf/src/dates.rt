//! Items that say where the date of a line stands.
ghost use Rattle.jail_conf.specs.Dates.{pattern_fits};
ghost use Rattle.jail_conf.specs.Then.{Gives};

use crate::conf_error::ConfKind;
use crate::fail::Fail;
use crate::limits::MOST_BYTES;
use crate::reading::ReadsItem;
use date_words::is_date_pattern;
use f2b_base::{DateSpec, Text};
use std::alloc::Global;

/// That the text is a date pattern.
fn refuse_unless_pattern(pattern: &str) -> Result<(), Fail<ConfKind>>
    ensures { Gives (pattern_fits pattern.now) result }
{
    if !is_date_pattern(pattern) {
        return Err(Fail::Refused(ConfKind::BadDate));
    }
    if pattern.len() > MOST_BYTES {
        return Err(Fail::Refused(ConfKind::TooMany));
    }
    Ok(())
}

/// One of four words, or a date pattern, perhaps behind the anchor.
#[derive(Drop)]
pub(crate) struct Date;

impl ReadsItem<DateSpec> for Date {
    ghost use Rattle.jail_conf.specs.Dates.{date};

    ghost reading = { λ _. date };

    fn read(&self, alloc: Global, text: &str) -> Result<DateSpec, Fail<ConfKind>> {
        match text {
            "{^LN-BEG}" => return Ok(DateSpec::Anchored),
            "{NONE}" => return Ok(DateSpec::NoDate),
            "Epoch" => return Ok(DateSpec::Epoch),
            "ISO8601" => return Ok(DateSpec::Iso),
            _ => (),
        }
        if let Some(pattern) = text.strip_prefix("{^LN-BEG}") {
            refuse_unless_pattern(pattern)?;
            return Ok(DateSpec::AnchoredPattern(Text::from_str(alloc, pattern)?));
        }
        refuse_unless_pattern(text)?;
        Ok(DateSpec::Pattern(Text::from_str(alloc, text)?))
    }
}
