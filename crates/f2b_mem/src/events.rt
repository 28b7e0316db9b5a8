//! Events, made of calls and their answers.
ghost use Rattle.std.specs.Prelude.{◌≡◌, Some, IfOk};
ghost use Rattle.f2b_world.specs.Told.{read_event as event_of_read, make_event as event_of_make, config_event as event_of_config, names_event as event_of_names, look_event as event_of_look, receive_event as event_of_receive};
ghost use Rattle.f2b_world.specs.declared.answer.StoreAnswer.TheVariants.{Kept};
ghost use Rattle.f2b_world.specs.declared.event.Event.TheVariants.{Say, DiskWrite, StoreAt, ChildStart, GateListen, GateWrite as WriteTo};

use f2b_base::{Bytes, NoMemory, Plain, Text, TreeAnswer};
use f2b_world::{
    Event, GateRead, GateWrite, Listen, Look, Made, MakeAnswer, NamesAnswer, Piece, Said,
    StartAnswer, StoreAnswer, Wrote,
};
use std::alloc::Global;

pub fn say_event(alloc: Global, bytes: &[u8], answer: Said) -> Result<Event, NoMemory>
    ensures { IfOk result (λ event. event ≡ Say bytes.now answer) }
{
    Ok(Event::Say {
        bytes: Bytes::from_slice(alloc, bytes)?,
        answer,
    })
}

pub fn read_event(slot: u8, at: u64, len: u64, answer: &Piece) -> Result<Event, NoMemory>
    ensures { IfOk result (λ event. Some event ≡ event_of_read slot at len answer.now) }
{
    let answer = match answer {
        Piece::Bytes(bytes) => Piece::Bytes(bytes.copy()?),
        Piece::Failed => Piece::Failed,
        Piece::NoMemory => return Err(NoMemory),
    };
    Ok(Event::DiskRead {
        slot,
        at,
        len,
        answer,
    })
}

pub fn write_event(
    alloc: Global,
    slot: u8,
    at: usize,
    bytes: &[u8],
    answer: Wrote,
) -> Result<Event, NoMemory>
    ensures { IfOk result (λ event. event ≡ DiskWrite slot at bytes.now answer) }
{
    Ok(Event::DiskWrite {
        slot,
        at: at as u64,
        bytes: Bytes::from_slice(alloc, bytes)?,
        answer,
    })
}

pub fn make_event(alloc: Global, text: &str, made: &Made) -> Result<Event, NoMemory>
    ensures { IfOk result (λ event. Some event ≡ event_of_make text.now made.now) }
{
    let answer = match made {
        Made::Built(_) => MakeAnswer::Built,
        Made::Syntax => MakeAnswer::Syntax,
        Made::TooBig => MakeAnswer::TooBig,
        Made::NoMemory => return Err(NoMemory),
    };
    Ok(Event::Make {
        text: Text::from_str(alloc, text)?,
        answer,
    })
}

pub fn config_event(alloc: Global, root: &str, answer: &TreeAnswer) -> Result<Event, NoMemory>
    ensures { IfOk result (λ event. Some event ≡ event_of_config root.now answer.now) }
{
    let root = Text::from_str(alloc, root)?;
    let answer = match answer {
        TreeAnswer::Tree(tree) => TreeAnswer::Tree(tree.copy()?),
        TreeAnswer::Failed => TreeAnswer::Failed,
        TreeAnswer::TooLarge => TreeAnswer::TooLarge,
        TreeAnswer::NoMemory => return Err(NoMemory),
    };
    Ok(Event::Config { root, answer })
}

pub fn store_event(alloc: Global, socket: &str) -> Result<Event, NoMemory>
    ensures { IfOk result (λ event. event ≡ StoreAt socket.now Kept) }
{
    Ok(Event::StoreAt {
        socket: Text::from_str(alloc, socket)?,
        answer: StoreAnswer::Kept,
    })
}

pub fn names_event(alloc: Global, dir: &str, answer: &NamesAnswer) -> Result<Event, NoMemory>
    ensures { IfOk result (λ event. Some event ≡ event_of_names dir.now answer.now) }
{
    let dir = Text::from_str(alloc, dir)?;
    let answer = match answer {
        NamesAnswer::Names(names) => NamesAnswer::Names(names.copy()?),
        NamesAnswer::Absent => NamesAnswer::Absent,
        NamesAnswer::Failed => NamesAnswer::Failed,
        NamesAnswer::NoMemory => return Err(NoMemory),
    };
    Ok(Event::Names { dir, answer })
}

pub fn look_event(
    alloc: Global,
    path: &str,
    head: u32,
    from: u64,
    max: u32,
    answer: &Look,
) -> Result<Event, NoMemory>
    ensures { IfOk result (λ event. Some event ≡ event_of_look path.now head from max answer.now) }
{
    let path = Text::from_str(alloc, path)?;
    let answer = match answer {
        Look::File(file) => Look::File(file.copy()?),
        Look::Absent => Look::Absent,
        Look::Failed => Look::Failed,
        Look::NoMemory => return Err(NoMemory),
    };
    Ok(Event::Look {
        path,
        head,
        from,
        max,
        answer,
    })
}

pub fn start_event(
    alloc: Global,
    job: u64,
    text: &str,
    answer: StartAnswer,
) -> Result<Event, NoMemory>
    ensures { IfOk result (λ event. event ≡ ChildStart job text.now answer) }
{
    Ok(Event::ChildStart {
        job,
        text: Text::from_str(alloc, text)?,
        answer,
    })
}

pub fn listen_event(alloc: Global, path: &str, answer: Listen) -> Result<Event, NoMemory>
    ensures { IfOk result (λ event. event ≡ GateListen path.now answer) }
{
    Ok(Event::GateListen {
        path: Text::from_str(alloc, path)?,
        answer,
    })
}

pub fn receive_event(conn: u32, max: u32, answer: &GateRead) -> Result<Event, NoMemory>
    ensures { IfOk result (λ event. Some event ≡ event_of_receive conn max answer.now) }
{
    let answer = match answer {
        GateRead::Bytes(bytes) => GateRead::Bytes(bytes.copy()?),
        GateRead::Quiet => GateRead::Quiet,
        GateRead::End => GateRead::End,
        GateRead::Failed => GateRead::Failed,
        GateRead::NoMemory => return Err(NoMemory),
    };
    Ok(Event::GateRead { conn, max, answer })
}

pub fn send_event(
    alloc: Global,
    conn: u32,
    bytes: &[u8],
    answer: GateWrite,
) -> Result<Event, NoMemory>
    ensures { IfOk result (λ event. event ≡ WriteTo conn bytes.now answer) }
{
    Ok(Event::GateWrite {
        conn,
        bytes: Bytes::from_slice(alloc, bytes)?,
        answer,
    })
}
