//! An input that is written, and a stop or a fault of the disk at each call.

use crate::bytes::{NEWER, OLD_VERSION, SHUT, TICK};
use crate::play::{NOTHING, Stored, Tear, after_stop, all_stored, disk};
use crate::writes::write;
use ban_journal::AppendError;
use f2b_mem::MemWorld;
use std::alloc::Global;
use std::process::Abort;
use std::test::Fail;

// What is stored, with the input behind it.
fn appended(stored: Stored) -> Stored {
    Stored {
        inputs: stored.inputs.saturating_add(1),
        secs: stored.secs.saturating_add(200),
        ..stored
    }
}

/// What was stored from so many calls on.
#[derive(Clone, Copy)]
struct Since {
    calls: u64,
    stored: Stored,
}

/// A journal to which the input is written.
struct Scene {
    name: &'static str,
    slot0: &'static [u8],
    slot1: &'static [u8],
    limit: u64,
    /// How many calls write the input. Writes and syncs take turns.
    calls: u64,
    before: Stored,
    /// The new view alone, from the call on that opens the fresh slot.
    view: Option<Since>,
    /// With the input, from the call on that opens its gate.
    after: Since,
}

const ONE_TICK: Stored = Stored {
    generation: 1,
    next_job: 0,
    inputs: 1,
    secs: 100,
};

const TWO_TICKS: Stored = Stored {
    generation: 1,
    next_job: 0,
    inputs: 2,
    secs: 300,
};

const NEWER_TICK: Stored = Stored {
    generation: 2,
    next_job: 0,
    inputs: 1,
    secs: 101,
};

/// The new view in generation 1.
const FIRST_VIEW: Stored = Stored {
    generation: 1,
    next_job: 9,
    inputs: 0,
    secs: 0,
};

/// The same and the input.
const FIRST_INPUT: Stored = Stored {
    generation: 1,
    next_job: 9,
    inputs: 1,
    secs: 200,
};

/// The new view in generation 2.
const SECOND_VIEW: Stored = Stored {
    generation: 2,
    next_job: 9,
    inputs: 0,
    secs: 0,
};

/// The same and the input.
const SECOND_INPUT: Stored = Stored {
    generation: 2,
    next_job: 9,
    inputs: 1,
    secs: 200,
};

/// The new view in generation 3.
const THIRD_VIEW: Stored = Stored {
    generation: 3,
    next_job: 9,
    inputs: 0,
    secs: 0,
};

/// The same and the input.
const THIRD_INPUT: Stored = Stored {
    generation: 3,
    next_job: 9,
    inputs: 1,
    secs: 200,
};

const SCENES: [Scene; 6] = [
    Scene {
        name: "an append, which fills the slot",
        slot0: &TICK,
        slot1: &[],
        limit: 31,
        calls: 4,
        before: ONE_TICK,
        view: None,
        after: Since {
            calls: 3,
            stored: TWO_TICKS,
        },
    },
    Scene {
        name: "the first input of all",
        slot0: &[],
        slot1: &[],
        limit: 27,
        calls: 10,
        before: NOTHING,
        view: Some(Since {
            calls: 5,
            stored: FIRST_VIEW,
        }),
        after: Since {
            calls: 9,
            stored: FIRST_INPUT,
        },
    },
    Scene {
        name: "a change into a slot that is not there",
        slot0: &TICK,
        slot1: &[],
        limit: 30,
        calls: 10,
        before: ONE_TICK,
        view: Some(Since {
            calls: 5,
            stored: SECOND_VIEW,
        }),
        after: Since {
            calls: 9,
            stored: SECOND_INPUT,
        },
    },
    Scene {
        name: "a change into the older slot",
        slot0: &TICK,
        slot1: &NEWER,
        limit: 27,
        calls: 10,
        before: NEWER_TICK,
        view: Some(Since {
            calls: 5,
            stored: THIRD_VIEW,
        }),
        after: Since {
            calls: 9,
            stored: THIRD_INPUT,
        },
    },
    Scene {
        name: "a change into a closed slot",
        slot0: &SHUT,
        slot1: &NEWER,
        limit: 27,
        calls: 8,
        before: NEWER_TICK,
        view: Some(Since {
            calls: 3,
            stored: THIRD_VIEW,
        }),
        after: Since {
            calls: 7,
            stored: THIRD_INPUT,
        },
    },
    Scene {
        name: "a change out of version 1, with room to spare",
        slot0: &OLD_VERSION,
        slot1: &[],
        limit: 1000,
        calls: 10,
        before: ONE_TICK,
        view: Some(Since {
            calls: 5,
            stored: SECOND_VIEW,
        }),
        after: Since {
            calls: 9,
            stored: SECOND_INPUT,
        },
    },
];

const TEARS: [Tear; 7] = [
    Tear {
        keep: 0,
        fill: 0,
        short: false,
    },
    Tear {
        keep: 0,
        fill: 255,
        short: false,
    },
    Tear {
        keep: 1,
        fill: 0,
        short: false,
    },
    Tear {
        keep: 1,
        fill: 255,
        short: false,
    },
    Tear {
        keep: u32::MAX,
        fill: 0,
        short: false,
    },
    Tear {
        keep: 0,
        fill: 255,
        short: true,
    },
    Tear {
        keep: u32::MAX,
        fill: 0,
        short: true,
    },
];

// What is stored once so many of the calls were done. An open gate that is not synced is lost where nothing is kept and all is 0.
fn wanted(scene: &Scene, calls: u64, tear: Tear) -> Stored {
    let done = calls.saturating_sub(u64::from(tear.keep == 0 && tear.fill == 0));
    if done >= scene.after.calls {
        return scene.after.stored;
    }
    match scene.view {
        Some(view) if done >= view.calls => view.stored,
        _ => scene.before,
    }
}

// The input is written to what a stop left, behind what is stored there or behind the new view.
fn goes_on(
    rt: &impl Abort,
    alloc: Global,
    scene: &Scene,
    world: &mut MemWorld,
    stored: Stored,
) -> Result<(), Fail> {
    let (_begin, written) = write(alloc, world, scene.limit)?;
    assert_eq!(rt; written, Ok(()), "{}, {stored:?}", scene.name);
    let is = all_stored(alloc, world);
    let turned = Stored {
        generation: stored.generation.saturating_add(1),
        ..FIRST_INPUT
    };
    assert!(rt;
        is == Ok(appended(stored)) || is == Ok(turned),
        "{}, {stored:?}",
        scene.name
    );
    Ok(())
}

// A stop behind the call at that place is opened again, where so many of the calls count as done.
fn is_stopped(
    rt: &impl Abort,
    alloc: Global,
    scene: &Scene,
    world: &MemWorld,
    at: u64,
    calls: u64,
) -> Result<(), Fail> {
    for &tear in &TEARS {
        let mut torn = after_stop(alloc, world, at, tear)?;
        let is = all_stored(alloc, &mut torn);
        let want = wanted(scene, calls, tear);
        assert_eq!(rt; is, Ok(want), "{}, {calls}, {tear:?}", scene.name);
        goes_on(rt, alloc, scene, &mut torn, want)?;
    }
    Ok(())
}

// The input is written, and each call of it may be the last.
fn each_stop(rt: &impl Abort, alloc: Global, scene: &Scene) -> Result<(), Fail> {
    let mut world = disk(alloc, scene.slot0, scene.slot1, &[])?;
    let (begin, written) = write(alloc, &mut world, scene.limit)?;
    assert_eq!(rt; written, Ok(()), "{}", scene.name);
    assert_eq!(rt;
        world.events().len() as u64,
        begin.saturating_add(scene.calls),
        "{}",
        scene.name
    );
    for calls in 0..=scene.calls {
        is_stopped(rt, alloc, scene, &world, begin.saturating_add(calls), calls)?;
    }
    Ok(())
}

fn each_scene(rt: &impl Abort, alloc: Global, scenes: &[Scene]) -> Result<(), Fail> {
    for scene in scenes {
        each_stop(rt, alloc, scene)?;
    }
    Ok(())
}

#[test]
fn a_stop_at_any_call_leaves_what_was_stored_or_that_and_the_input(
    rt: HostRuntime,
) -> Result<(), Fail> {
    each_scene(&rt, rt.alloc(), &SCENES)
}

// A call that writes the input fails, counted from 0. What was written and not synced may be there or not.
fn fails_at(
    rt: &impl Abort,
    alloc: Global,
    scene: &Scene,
    begin: u64,
    call: u64,
) -> Result<(), Fail> {
    let place = begin.saturating_add(call);
    let mut world = disk(alloc, scene.slot0, scene.slot1, &[place])?;
    let (_begin, written) = write(alloc, &mut world, scene.limit)?;
    assert_eq!(rt;
        written,
        Err(AppendError::DiskFault),
        "{}, {call}",
        scene.name
    );
    let at = place.saturating_add(1);
    assert_eq!(rt; world.events().len() as u64, at, "{}, {call}", scene.name);
    let done = if call % 2 == 0 {
        call.saturating_add(1)
    } else {
        call
    };
    is_stopped(rt, alloc, scene, &world, at, done)
}

fn each_fault(rt: &impl Abort, alloc: Global, scene: &Scene) -> Result<(), Fail> {
    let mut world = disk(alloc, scene.slot0, scene.slot1, &[])?;
    let (begin, _written) = write(alloc, &mut world, scene.limit)?;
    for call in 0..scene.calls {
        fails_at(rt, alloc, scene, begin, call)?;
    }
    Ok(())
}

fn each_scene_fails(rt: &impl Abort, alloc: Global, scenes: &[Scene]) -> Result<(), Fail> {
    for scene in scenes {
        each_fault(rt, alloc, scene)?;
    }
    Ok(())
}

#[test]
fn a_disk_that_fails_at_any_call_ends_the_input_and_keeps_what_was_stored(
    rt: HostRuntime,
) -> Result<(), Fail> {
    each_scene_fails(&rt, rt.alloc(), &SCENES)
}
