// A whole script.
ghost use Rattle.std.specs.Prelude.{◌≡◌, List, ℕ};
ghost use Rattle.dired_text.specs.Answers.{IsOrMemory};
ghost use Rattle.omit_rules.specs.Values.{values_of};
ghost use Rattle.run_status.specs.declared.status.Status.TheVariants.{Memory as is_memory};
ghost use Rattle.tree_core.specs.Looks.{OnlyLooked};
ghost use Rattle.dired_session.specs.Desks.{seen};
ghost use Rattle.dired_session.specs.Ends.{IsScriptEnd, IsWritten, counts_behind, failed_look, tally};
ghost use Rattle.dired_session.specs.Scripts.{Runs, opened, script_read};

use crate::Session;
use dired_text::{Patterns, Shelf, Shell, Sink};
use omit_rules::{Rules, Settings};
use run_status::{Counted, Status};
use script_words::{Script, ScriptCause, ScriptFault};
use std::alloc::Global;
use tree_core::Tree;

/// The script that bytes write: UTF-8, where each newline ends a line. The last newline may be missing.
///
/// # Errors
/// `TooLarge` with `ScriptLines` where there are more than 100,000 lines, and else `BadScript` with `NotUtf8` at the first line
/// that isn't UTF-8; want of memory.
pub fn read_script(alloc: Global, bytes: &[u8]) -> Result<Script, Status>
    ensures { IsOrMemory is_memory (script_read bytes.now) result }
{
    match script_words::read_script(alloc, bytes) {
        Ok(script) => Ok(script),
        Err(ScriptFault::TooManyLines(number)) => Err(Status::TooLarge {
            what: Counted::ScriptLines,
            number,
        }),
        Err(ScriptFault::NotUtf8 { line }) => Err(Status::BadScript {
            line,
            cause: ScriptCause::NotUtf8,
        }),
        Err(ScriptFault::Memory) => Err(Status::Memory),
    }
}

/// Runs the commands of a script one after another, up to the first that isn't done, and answers `Done` or how that one ended.
pub fn run_script<T: Tree, H: Shelf, P: Patterns, S: Shell, W: Sink>(
    alloc: Global,
    tree: &mut T,
    shelf: &mut H,
    patterns: &mut P,
    shell: &mut S,
    sink: &mut W,
    now: i64,
    rules: Rules,
    settings: Settings,
    script: &Script,
) -> Status
    ensures runs { let o = seen (T.history tree.old) (T.fields tree.old) in
        (text : List ℕ) ×
        ((T.Tells → Runs o script.now (opened rules (values_of settings) o) result text)
        × (W.Tells → IsWritten result text (W.taken sink.old) (W.taken sink.new))) }
    ensures looked { T.Tells → OnlyLooked (failed_look result)
        (T.history tree.old) (T.history tree.new) (T.fields tree.old) (T.fields tree.new)
        (T.before_failed tree.old) (T.before_failed tree.new) }
    ensures unchanged { T.changes tree.new ≡ T.changes tree.old }
    ensures causes { tally (T.faults tree.new) (W.faults sink.new) ≡ counts_behind
        result (tally (T.faults tree.old) (W.faults sink.old)) }
    ensures ends { IsScriptEnd result }
    ensures unused { (shelf.new ≡ shelf.old) × (patterns.new ≡ patterns.old)
        × (shell.new ≡ shell.old) }
{
    let mut session = match Session::new(alloc, tree, rules, settings) {
        Ok(session) => session,
        Err(status) => return status,
    };
    let mut at = 1;
    while at <= script.lines() {
        match session.step(alloc, tree, shelf, patterns, shell, sink, now, script, at) {
            Ok(next) => at = next,
            Err(status) => return status,
        }
    }
    Status::Done
}
