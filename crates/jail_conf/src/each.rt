//! One text of a list after another.
ghost use Rattle.jail_conf.specs.Then.{Gives, each};

use crate::conf_error::ConfKind;
use crate::fail::Fail;
use crate::reading::ReadsItem;
use f2b_base::{Seq, Text};
use std::alloc::Global;

/// What each of the texts is read as, or what is wrong with the first that is refused.
pub(crate) fn each<A: Drop, R: ReadsItem<A>>(
    alloc: Global,
    reading: &R,
    texts: &[Text],
) -> Result<Seq<A>, Fail<ConfKind>>
    ensures { Gives (each (R.reading reading.now) texts.now) result }
{
    let mut values = Seq::new(alloc);
    for text in texts {
        let value = reading.read(alloc, text.as_str())?;
        values.push(value)?;
    }
    Ok(values)
}
