//! What the clients of a run are replied: what the model replies to each of their requests, in order.
//!
//! Which bytes are a request is `client_frames`', what a request is replied over a state is `client_replies`', and which call a run makes next is
//! its law's (`run_law`). From these it follows, for any run that obeys the law, that a client takes the frames of the answers to its requests, as far
//! as it takes bytes: one answer to each of the requests that all its bytes come to, in order, made over the state as the request came whole; and one
//! more where a frame is refused. However its bytes and those of the answers are cut, and whatever other clients ask meanwhile. A reload alone waits for
//! its answer while the configuration is read again for it, and that answer is what the tree and its patterns come to, which are the events that come
//! next. An answer is written only where all inputs are closed, so that no stop takes back what it tells. `replied_law` says so, once: no code is looked
//! at here. Nothing here knows what a request means, or how long a client may wait.
#![tactic(auto)]

ghost use Rattle.run_replies.specs.Replied.{RepliedLaw};

/// A run that obeys the law replies to each client what the model does, in order.
pub fn replied_law()
    ensures { RepliedLaw }
{}
