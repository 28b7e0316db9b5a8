//! Whether the failures of a jail keep their lines: where one of its commands shows them.
ghost use Rattle.std.specs.Prelude.{◌≡◌, IfOk};
ghost use Rattle.f2b_base.specs.Limits.{kept_line_bytes};
ghost use Rattle.f2b_model.specs.Storable.{IsShortText};
ghost use Rattle.log_set.specs.Shown.{begins_with_tag, has_tag, kept_in, is_shown_by, shows_lines};

use f2b_base::{ActionDef, JailDef, NoMemory, Text, kept_line};
use std::alloc::Global;

/// The tag of a command that shows the lines that led to a ban.
const TAG: &[u8] = b"<matches>";

// Whether the tag stands at the beginning.
fn begins_with_tag(bytes: &[u8]) -> bool
    ensures { result ≡ begins_with_tag bytes.now }
{
    bytes.starts_with(TAG)
}

/// Whether a command has the tag.
fn has_tag(command: &str) -> bool
    ensures { result ≡ has_tag command.now }
{
    let bytes = command.as_bytes();
    for start in 0..bytes.len() {
        if begins_with_tag(&bytes[start..]) {
            return true;
        }
    }
    false
}

/// Whether a command of the action has the tag.
fn is_shown_by(action: &ActionDef) -> bool
    ensures { result ≡ is_shown_by action.now }
{
    has_tag(action.start.as_str())
        || (has_tag(action.stop.as_str())
            || (has_tag(action.ban.as_str())
                || (has_tag(action.unban.as_str()) || has_tag(action.check.as_str()))))
}

/// Whether a command of the jail shows lines.
pub(crate) fn shows_lines(definition: &JailDef) -> bool
    ensures { result ≡ shows_lines definition.now }
{
    definition
        .actions
        .as_slice()
        .iter()
        .any(|action| is_shown_by(action))
}

/// What a failure keeps of its line: its beginning, or nothing in a jail that shows no lines.
#[tactic(auto, using(crate::proofs::ShownLemmas::kept_is, crate::proofs::ShownLemmas::kept_short, crate::proofs::ShownLemmas::none_short))]
pub(crate) fn kept_in(alloc: Global, shows: bool, line: &str) -> Result<Text, NoMemory>
    ensures kept { IfOk result (λ kept. kept ≡ kept_in shows line.now) }
    ensures short { IfOk result (IsShortText kept_line_bytes) }
{
    if shows {
        Text::from_str(alloc, kept_line(line))
    } else {
        Ok(Text::new(alloc))
    }
}
