//! The plans of a script by their numbers.
#![tactic(auto, using(std::proofs::lemmas::Option::gets))]

ghost use Rattle.std.specs.Prelude.{◌≡◌, option_copied, slice_get};

use crate::script::{ChildPlan, ClientPlan};

/// The plan of the command of that number, if there is one.
pub fn command_at(plans: &[ChildPlan], number: usize) -> Option<&ChildPlan>
    ensures { option_copied result ≡ slice_get plans.now number }
{
    if number < plans.len() {
        Some(&plans[number])
    } else {
        None
    }
}

/// The plan of the client of that number, if there is one.
pub fn client_at(plans: &[ClientPlan], number: usize) -> Option<&ClientPlan>
    ensures { option_copied result ≡ slice_get plans.now number }
{
    if number < plans.len() {
        Some(&plans[number])
    } else {
        None
    }
}
