// The programs that are started, with their words. Each is looked for in the directories of the system alone, so that no program
// of the tree or of the caller's PATH is run, and has no standard input.
ghost use Rattle.std.specs.Prelude.{◌≡◌, ◌∷◌, [], codes, IfOk, Some, None};
ghost use Rattle.std.specs.Process.{command_args, command_dir, command_program, command_var};
ghost use Rattle.host_looks.specs.HostPaths.{IsSearchedInSystem};

use std::alloc::{AllocError, Global};
use std::process::{Command, Stdio};

// A program of the system.
fn command(alloc: Global, program: &str) -> Result<Command, AllocError>
    ensures program { IfOk result (λ c. command_program c ≡ program.now) }
    ensures args { IfOk result (λ c. command_args c ≡ []) }
    ensures search { IfOk result (λ c. IsSearchedInSystem c) }
    ensures dir { IfOk result (λ c. command_dir c ≡ None) }
{
    let mut command = Command::new(alloc, program)?;
    command.env("PATH", "/usr/bin:/bin")?;
    command.stdin(Stdio::null());
    Ok(command)
}

/// Writes the file system of the working directory (GNU coreutils, "sync").
pub fn sync_root(alloc: Global) -> Result<Command, AllocError>
    ensures program { IfOk result (λ c. command_program c ≡ codes "sync") }
    ensures args { IfOk result (λ c. command_args c ≡ codes "-f" ∷ codes "." ∷ []) }
    ensures search { IfOk result (λ c. IsSearchedInSystem c) }
    ensures dir { IfOk result (λ c. command_dir c ≡ None) }
{
    let mut command = command(alloc, "sync")?;
    command.arg("-f")?.arg(".")?;
    Ok(command)
}

/// Writes the file system of an entry of a directory.
pub fn sync_entry(alloc: Global, dir: &str, entry: &str) -> Result<Command, AllocError>
    ensures program { IfOk result (λ c. command_program c ≡ codes "sync") }
    ensures args { IfOk result (λ c. command_args c ≡ codes "-f" ∷ entry.now ∷ []) }
    ensures search { IfOk result (λ c. IsSearchedInSystem c) }
    ensures dir { IfOk result (λ c. command_dir c ≡ Some dir.now) }
{
    let mut command = command(alloc, "sync")?;
    command.arg("-f")?.arg(entry)?;
    command.current_dir(dir)?;
    Ok(command)
}

/// Writes all file systems of the host.
pub fn sync_host(alloc: Global) -> Result<Command, AllocError>
    ensures program { IfOk result (λ c. command_program c ≡ codes "sync") }
    ensures args { IfOk result (λ c. command_args c ≡ []) }
    ensures search { IfOk result (λ c. IsSearchedInSystem c) }
    ensures dir { IfOk result (λ c. command_dir c ≡ None) }
{
    command(alloc, "sync")
}

/// Tells the type of the file system of an entry of a directory (GNU coreutils, "stat").
pub fn system_type(alloc: Global, dir: &str, entry: &str) -> Result<Command, AllocError>
    ensures program { IfOk result (λ c. command_program c ≡ codes "stat") }
    ensures args { IfOk result (λ c. command_args c ≡ codes "-f" ∷ codes "--printf" ∷ codes "%T"
        ∷ entry.now ∷ []) }
    ensures search { IfOk result (λ c. IsSearchedInSystem c) }
    ensures dir { IfOk result (λ c. command_dir c ≡ Some dir.now) }
{
    let mut command = command(alloc, "stat")?;
    command.arg("-f")?.arg("--printf")?.arg("%T")?.arg(entry)?;
    command.current_dir(dir)?;
    command.stderr(Stdio::null());
    Ok(command)
}

/// Tells the owner and the group of an entry of a directory, each by number and by name, each of the four ended by a NUL.
pub fn owners(alloc: Global, dir: &str, entry: &str) -> Result<Command, AllocError>
    ensures program { IfOk result (λ c. command_program c ≡ codes "stat") }
    ensures args { IfOk result (λ c. command_args c ≡ codes "--printf"
        ∷ codes "%u\\0%U\\0%g\\0%G\\0" ∷ entry.now ∷ []) }
    ensures search { IfOk result (λ c. IsSearchedInSystem c) }
    ensures dir { IfOk result (λ c. command_dir c ≡ Some dir.now) }
{
    let mut command = command(alloc, "stat")?;
    command
        .arg("--printf")?
        .arg("%u\\0%U\\0%g\\0%G\\0")?
        .arg(entry)?;
    command.current_dir(dir)?;
    command.stderr(Stdio::null());
    Ok(command)
}
