//! Saying a text, which ends a call.
ghost use Rattle.client_tool.specs.Ends.{Closes};

use crate::status::ClientStatus;
use f2b_world::{Said, Sink};

/// Says a text, and gives the status that the call ends with then.
pub(crate) fn say<K: Sink>(sink: &mut K, text: &str, status: ClientStatus) -> ClientStatus
    ensures { Closes text.now status (K.stands sink.old) (K.stands sink.new) result }
{
    match sink.say(text.as_bytes()) {
        Said::Done => status,
        Said::Failed => ClientStatus::SinkFault,
    }
}
