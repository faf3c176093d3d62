// The shell of the host. It tells nothing of what it ran.
ghost use Rattle.std.specs.Prelude.{◌≡◌, ◌∷◌, [], codes, pos, IfOk, None};
ghost use Rattle.std.specs.Option.{option_map};
ghost use Rattle.std.specs.Process.{command_args, command_dir, command_program, exit_code};

use dired_text::{Failed, Shell};
use std::alloc::{AllocError, Global};
use std::process::{Command, ExitStatus, Processes};

/// The shell `/bin/sh`, in the working directory, with the standard input and output of the program and its variables.
#[derive(Drop)]
pub struct HostShell<R: Processes + AllocGlobal + Drop> {
    rt: R,
    faults: u64,
}

impl<R: Processes + AllocGlobal + Drop> HostShell<R> {
    /// The shell of this runtime.
    pub fn new(rt: R) -> Self
        ensures { result.faults ≡ 0 }
    {
        HostShell { rt, faults: 0 }
    }
}

impl<R: Processes + AllocGlobal + Drop> Shell for HostShell<R> {
    ghost Tells = { ⊥ };

    ghost runs = { λ _. [] };

    ghost faults = { λ s. s.faults };

    ghost MayFail = { λ _ _. Unit {0} };

    fn run(&mut self, text: &str) -> Result<u8, Failed> {
        match run_text(&self.rt, self.rt.alloc(), text) {
            Some(number) => Ok(number),
            None => {
                self.faults = self.faults.saturating_add(1);
                Err(Failed)
            }
        }
    }
}

// Runs a text, and gives the number that it exits with. None where it can't be started, and where a signal ended it.
fn run_text<R: Processes>(rt: &R, alloc: Global, text: &str) -> Option<u8> {
    let mut command = shell_command(alloc, text).ok()?;
    let status = command.status(rt).ok()?;
    exit_number(&status)
}

// The shell with a text to run. It is named by its path, so that no `sh` of the tree or of the caller's PATH is run, and no text is
// taken for an option.
fn shell_command(alloc: Global, text: &str) -> Result<Command, AllocError>
    ensures program { IfOk result (λ c. command_program c ≡ codes "/bin/sh") }
    ensures args { IfOk result (λ c. command_args c ≡ codes "-c" ∷ codes "--" ∷ text.now ∷ []) }
    ensures dir { IfOk result (λ c. command_dir c ≡ None) }
{
    let mut command = Command::new(alloc, "/bin/sh")?;
    command.arg("-c")?.arg("--")?.arg(text)?;
    Ok(command)
}

// The number that a program exited with, or None where a signal ended it.
#[tactic(auto, using(crate::proofs::ExitLemmas::code_is_byte))]
fn exit_number(status: &ExitStatus) -> Option<u8>
    ensures { option_map pos result ≡ exit_code status.now }
{
    match status.code() {
        Some(code) => u8::try_from(code).ok(),
        None => None,
    }
}
