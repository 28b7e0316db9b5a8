//! The configuration of a world in memory, and the place of its slots.

use crate::counts::counted;
use crate::events::{config_event, store_event};
use crate::world::MemWorld;
use f2b_base::TreeAnswer;
use f2b_world::{Configuration, Store, StoreAnswer};

impl Configuration for MemWorld {
    fn config(&mut self, root: &str) -> TreeAnswer {
        let failing = self.stage.is_failing();
        let Ok(answer) = self.stage.tree(self.alloc, failing) else {
            return TreeAnswer::NoMemory;
        };
        let Ok(event) = config_event(self.alloc, root, &answer) else {
            return TreeAnswer::NoMemory;
        };
        let Ok(()) = self.stage.tell(event) else {
            return TreeAnswer::NoMemory;
        };
        self.faults.configuration = counted(self.faults.configuration, failing);
        answer
    }
}

impl Store for MemWorld {
    fn store_at(&mut self, socket: &str) -> StoreAnswer {
        let Ok(event) = store_event(self.alloc, socket) else {
            return StoreAnswer::NoMemory;
        };
        let Ok(()) = self.stage.tell(event) else {
            return StoreAnswer::NoMemory;
        };
        StoreAnswer::Kept
    }
}
