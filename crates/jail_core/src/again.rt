//! A server that goes on from its view.
ghost use Rattle.std.specs.Prelude.{◌≡◌, IfOk};
ghost use Rattle.f2b_model.specs.Lists.{AllOf};
ghost use Rattle.f2b_model.specs.Sound.{IsSound};
ghost use Rattle.f2b_model.specs.Storable.{IsStorable, IsStorableInput};
ghost use Rattle.f2b_model.specs.StorableViews.{IsStorableView};
ghost use Rattle.f2b_model.specs.Views.{view_of};
ghost use Rattle.f2b_model.specs.Whole.{State, steps, steps_now};
ghost use Rattle.f2b_model.specs.Bounds.{IsTakenInput};

use crate::state::Core;
use f2b_base::{Input, NoMemory, View};
use std::alloc::Global;

/// The state after these inputs, taken one after the other.
fn core_after(core: Core, inputs: &[Input]) -> Result<Core, NoMemory>
    requires { AllOf IsTakenInput inputs.now }
    ensures core { IfOk result (λ after. after ≡ steps_now core inputs.now) }
    ensures storable { IsStorable core → AllOf IsStorableInput inputs.now → IfOk result IsStorable }
{
    let mut after = core;
    for input in inputs {
        let (next, _told) = after.take(input)?;
        after = next;
    }
    Ok(after)
}

/// The view after these inputs, as a server gives it that was begun on a view and took them: it is that of the model, which forgets
/// nothing, after the same inputs, whatever state the view is of.
pub fn view_after(alloc: Global, view: &View, inputs: &[Input]) -> Result<View, NoMemory>
    requires view { IsStorableView view.now }
    requires inputs { AllOf IsTakenInput inputs.now }
    ensures model { (s : State) → IsSound s → view_of s ≡ view.now → IfOk result (λ after. after ≡ view_of (steps s inputs.now)) }
    ensures storable { AllOf IsStorableInput inputs.now → IfOk result IsStorableView }
{
    let core = Core::of(alloc, view)?;
    let after = core_after(core, inputs)?;
    let kept = after.view()?;
    Ok(kept)
}
