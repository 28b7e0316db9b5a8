//! The files of a world in memory.

use crate::answers::look_answer;
use crate::counts::counted;
use crate::events::{look_event, names_event};
use crate::names::names_answer;
use crate::world::MemWorld;
use f2b_world::{Directories, Logs, Look, NamesAnswer};

impl Logs for MemWorld {
    fn look(&mut self, path: &str, head: u32, from: u64, max: u32) -> Look {
        let failing = self.stage.is_failing();
        let content = self.stage.content(path);
        let Ok(answer) = look_answer(self.alloc, failing, content, head, from, max) else {
            return Look::NoMemory;
        };
        let Ok(event) = look_event(self.alloc, path, head, from, max, &answer) else {
            return Look::NoMemory;
        };
        let Ok(()) = self.stage.tell(event) else {
            return Look::NoMemory;
        };
        self.faults.logs = counted(self.faults.logs, failing);
        answer
    }
}

impl Directories for MemWorld {
    fn names(&mut self, dir: &str) -> NamesAnswer {
        let failing = self.stage.is_failing();
        let Ok(names) = self.stage.names(self.alloc, dir) else {
            return NamesAnswer::NoMemory;
        };
        let answer = names_answer(failing, names);
        let Ok(event) = names_event(self.alloc, dir, &answer) else {
            return NamesAnswer::NoMemory;
        };
        let Ok(()) = self.stage.tell(event) else {
            return NamesAnswer::NoMemory;
        };
        self.faults.logs = counted(self.faults.logs, failing);
        answer
    }
}
