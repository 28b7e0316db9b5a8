//! Numbers in words.
ghost use Rattle.std.specs.Prelude.{◌≡◌, IfOk};
ghost use Rattle.run_law.specs.Words.{number_of};

use f2b_base::NoMemory;
use std::alloc::Global;

/// The number below 2^64 that this is the decimal text of, without leading zeros.
pub fn number(alloc: Global, text: &str) -> Result<Option<u64>, NoMemory>
    ensures { IfOk result (λ n. n ≡ number_of text.now) }
{
    let Ok(value) = text.parse::<u64>() else {
        return Ok(None);
    };
    // `parse` reads `+7` and `007` too.
    let canonical = format!(in alloc; "{value}")?;
    if canonical.as_str() == text {
        Ok(Some(value))
    } else {
        Ok(None)
    }
}
