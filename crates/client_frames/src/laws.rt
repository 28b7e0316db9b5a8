//! The law of requests that are cut, as the contract of a function that does nothing.
ghost use Rattle.client_frames.specs.Laws.{CutLaw};

/// Requests that are sent one behind the other come as they were sent, into whatever pieces they are cut.
pub fn cut_law()
    ensures { CutLaw }
{}
