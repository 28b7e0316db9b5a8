//! The commands of a world in memory.

use crate::answers::{poll_answer, start_answer};
use crate::counts::counted;
use crate::events::start_event;
use crate::world::MemWorld;
use f2b_world::{Children, Event, PollAnswer, StartAnswer};

impl Children for MemWorld {
    fn child_start(&mut self, job: u64, text: &str) -> StartAnswer {
        let failing = self.stage.is_failing();
        let answer = start_answer(failing);
        let Ok(event) = start_event(self.alloc, job, text, answer) else {
            return StartAnswer::NoMemory;
        };
        let Ok(()) = self.stage.tell(event) else {
            return StartAnswer::NoMemory;
        };
        self.faults.children = counted(self.faults.children, failing);
        answer
    }

    fn child_poll(&mut self, job: u64) -> PollAnswer {
        let failing = self.stage.is_failing();
        let answer = poll_answer(failing, self.stage.polled(job));
        self.faults.children = counted(self.faults.children, failing);
        self.stage.tell_or_end(Event::ChildPoll { job, answer });
        answer
    }

    fn child_kill(&mut self, job: u64) {
        self.stage.tell_or_end(Event::ChildKill { job });
    }
}
