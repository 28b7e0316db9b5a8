//! The laws of the model, each as the contract of a function that does nothing.
ghost use Rattle.f2b_model.specs.Laws.{FullLaw, JailsLaw, WholeLaw};

/// The jails' middle state is all that matters of them, whatever comes; what a step keeps, its bounds too, and what it tells the lanes.
pub fn jails_law()
    ensures { JailsLaw }
{}

/// When an address is full, in its three forms, which are one, and what may be forgotten.
pub fn full_law()
    ensures { FullLaw }
{}

/// The whole model: a view is all that matters of a state, over any number of runs, the jobs of lanes go in turn in each epoch, and starts
/// that fail come to an end.
pub fn whole_law()
    ensures { WholeLaw }
{}
