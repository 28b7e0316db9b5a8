//! A core beside one that is made anew of its view.
ghost use Rattle.std.specs.Prelude.{IfOk};
ghost use Rattle.f2b_model.specs.StorableViews.{IsStorableView};

use crate::steps::play::{Scene, Takes, same, same_of, scene_of};
use f2b_base::{Input, NoMemory, View};
use jail_core::Core;
use std::alloc::Global;
use std::process::Abort;

/// What is made anew of its view.
pub(crate) trait Stored: Takes {
    /// Fails unless the last input told the same of another.
    fn tells_as(&self, rt: &impl Abort, other: &Self);

    fn view(&self) -> Result<View, NoMemory>
        ensures { Self.is_storable self.now → IfOk result IsStorableView };

    fn of(alloc: Global, view: &View) -> Result<Self, NoMemory>
        requires { IsStorableView view.now }
        ensures { IfOk result Self.is_storable };
}

impl Stored for Scene {
    fn tells_as(&self, rt: &impl Abort, other: &Scene) {
        same(rt, &"told", &self.told, &other.told);
    }

    fn view(&self) -> Result<View, NoMemory> {
        self.core.view()
    }

    fn of(alloc: Global, view: &View) -> Result<Scene, NoMemory> {
        let core = Core::of(alloc, view)?;
        Ok(scene_of(alloc, core))
    }
}

/// One that took all inputs, and one that is made anew of the view of the two at times.
#[derive(Drop)]
pub(crate) struct Pair<S> {
    pub first: S,
    pub again: S,
}

impl<S: Stored> Takes for Pair<S> {
    ghost is_storable = { λ pair. S.is_storable pair.again };

    /// Both take the input, and tell the same.
    fn taken(self, rt: &impl Abort, input: &Input) -> Result<Pair<S>, NoMemory> {
        let Pair { first, again } = self;
        let first = first.taken(rt, input)?;
        let again = again.taken(rt, input)?;
        first.tells_as(rt, &again);
        Ok(Pair { first, again })
    }
}

/// The view that both have.
pub(crate) fn view_of<S: Stored>(rt: &impl Abort, pair: &Pair<S>) -> Result<View, NoMemory>
    ensures { S.is_storable pair.now.again → IfOk result IsStorableView }
{
    let view = pair.again.view()?;
    same_of(rt, &"a view", pair.first.view(), &view)?;
    Ok(view)
}

/// One that is made of a view.
fn made_of<S: Stored>(alloc: Global, view: Result<View, NoMemory>) -> Result<S, NoMemory>
    requires { IfOk view IsStorableView }
    ensures { IfOk result S.is_storable }
{
    let view = view?;
    S::of(alloc, &view)
}

/// The pair, whose second one is made anew.
pub(crate) fn made_anew<S: Stored>(
    rt: &impl Abort,
    alloc: Global,
    pair: Pair<S>,
) -> Result<Pair<S>, NoMemory>
    requires { S.is_storable pair.again }
    ensures { IfOk result (λ pair. S.is_storable pair.again) }
{
    let again = made_of(alloc, view_of(rt, &pair))?;
    Ok(Pair {
        first: pair.first,
        again,
    })
}

/// One, and another that is made of its view.
pub(crate) fn pair_of<S: Stored>(alloc: Global, first: S) -> Result<Pair<S>, NoMemory>
    requires { S.is_storable first }
    ensures { IfOk result (λ pair. S.is_storable pair.again) }
{
    let again = made_of(alloc, first.view())?;
    Ok(Pair { first, again })
}
