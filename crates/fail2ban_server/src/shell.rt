//! `sh -c TEXT` and nothing around it: how a command is started, and how it is ended.
//!
//! A command reads nothing, writes to the server's standard error alone, and has of the environment `PATH` and `LANG`.

use crate::fault::Fault;
use std::alloc::{AllocError, AllocGlobal};
use std::env::{self, Env, VarError};
use std::fs;
use std::process::{Child, Command, OpenProcess, Processes, Stdio};
use std::rt::{Files, Stderr};

const SHELL: &str = "/bin/sh";

/// Starts a command, which writes to `errors`, and nowhere without it. That there is no process to be had is no want of memory: the
/// command may be tried again.
pub(crate) fn start_shell<R: Processes + Env + AllocGlobal>(
    rt: &R,
    errors: Option<Stderr>,
    text: &str,
) -> Result<Child<R::Started>, Fault> {
    let mut command = shell_command(rt, text)?;
    if let Some(errors) = errors {
        let _ = command
            .stdout(Stdio::from(errors))
            .stderr(Stdio::from(errors));
    }
    command.spawn(rt).map_err(|_| Fault::Failed)
}

/// Ends a shell that was not waited for, with the processes whose parent it is. What went away from there goes on.
pub(crate) fn end_shell<R: Processes + Files + Env + AllocGlobal, P: OpenProcess + Drop>(
    rt: &R,
    shell: &mut Child<P>,
) {
    let number = shell.id();
    // While the shell is stopped it starts nothing more, and the numbers of its children become nobody else's.
    if let Ok(shell) = format!(in rt.alloc(); "{number}") {
        let _ = signal(rt, "STOP", shell.as_str());
    }
    if let Some(children) = children_of(rt, number) {
        let _ = signal(rt, "KILL", children.as_str());
    }
    let _ = shell.kill();
}

// The shell with a text, whose output goes nowhere.
fn shell_command<R: Env + AllocGlobal>(rt: &R, text: &str) -> Result<Command, AllocError> {
    let mut command = Command::new(rt.alloc(), SHELL)?;
    let _ = command.arg("-c")?.arg(text)?.env_clear();
    hand_on(rt, &mut command, "PATH")?;
    hand_on(rt, &mut command, "LANG")?;
    let _ = command
        .stdin(Stdio::null())
        .stdout(Stdio::null())
        .stderr(Stdio::null());
    Ok(command)
}

// Hands on a variable of the server's own environment. One that is not there, or is no text, is none.
fn hand_on<R: Env + AllocGlobal>(
    rt: &R,
    command: &mut Command,
    name: &str,
) -> Result<(), AllocError> {
    match env::var(rt, name) {
        Ok(value) => {
            let _ = command.env(name, value.as_str())?;
            Ok(())
        }
        Err(VarError::NotPresent | VarError::NotUnicode) => Ok(()),
        Err(VarError::OutOfMemory) => Err(AllocError),
    }
}

// The numbers of the processes whose parent is the shell, with blanks between them. None where there are none, or that cannot be told.
fn children_of<R: Files + AllocGlobal>(rt: &R, shell: u32) -> Option<String> {
    let path = format!(in rt.alloc(); "/proc/{shell}/task/{shell}/children").ok()?;
    let children = fs::read_to_string(rt, path.as_str()).ok()?;
    (!children.is_empty()).then_some(children)
}

// Sends a signal to processes by their numbers, as the shell's own `kill` does.
fn signal<R: Processes + Env + AllocGlobal>(
    rt: &R,
    name: &str,
    numbers: &str,
) -> Result<(), Fault> {
    let text = format!(in rt.alloc(); "kill -s {name} {numbers}")?;
    let _ = shell_command(rt, text.as_str())?.status(rt)?;
    Ok(())
}
