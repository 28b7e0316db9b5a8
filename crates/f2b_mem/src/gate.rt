//! The clients of a world in memory.

use crate::answers::{accept_answer, listen_answer, receive_answer, write_answer};
use crate::counts::counted;
use crate::events::{listen_event, receive_event, send_event};
use crate::world::MemWorld;
use f2b_world::{Accept, Event, Gate, GateRead, GateWrite, Listen};

impl Gate for MemWorld {
    fn gate_listen(&mut self, path: &str) -> Listen {
        let failing = self.stage.is_failing();
        let answer = listen_answer(failing);
        self.faults.gate = counted(self.faults.gate, failing);
        self.stage.tell_made(listen_event(self.alloc, path, answer));
        answer
    }

    fn gate_accept(&mut self) -> Accept {
        let failing = self.stage.is_failing();
        let answer = accept_answer(failing, self.stage.waiting());
        self.faults.gate = counted(self.faults.gate, failing);
        self.stage.tell_or_end(Event::GateAccept { answer });
        answer
    }

    fn gate_read(&mut self, conn: u32, max: u32) -> GateRead {
        let failing = self.stage.is_failing();
        let Ok(answer) = receive_answer(self.alloc, failing, self.stage.piece(conn, max), max)
        else {
            return GateRead::NoMemory;
        };
        let Ok(event) = receive_event(conn, max, &answer) else {
            return GateRead::NoMemory;
        };
        let Ok(()) = self.stage.tell(event) else {
            return GateRead::NoMemory;
        };
        self.faults.gate = counted(self.faults.gate, failing);
        answer
    }

    fn gate_write(&mut self, conn: u32, bytes: &[u8]) -> GateWrite {
        let failing = self.stage.is_failing();
        let answer = write_answer(failing, bytes.len() as u32);
        self.faults.gate = counted(self.faults.gate, failing);
        self.stage
            .tell_made(send_event(self.alloc, conn, bytes, answer));
        answer
    }

    fn gate_close(&mut self, conn: u32) {
        self.stage.tell_or_end(Event::GateClose { conn });
    }
}
