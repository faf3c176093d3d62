// A look at one path.
ghost use Rattle.std.specs.Prelude.{◌≡◌, IfOk, IfErr, false};
ghost use Rattle.std.specs.FinMap.{get};
ghost use Rattle.std.specs.Option.{option_map};
ghost use Rattle.tree_core.specs.History.{current_tree};
ghost use Rattle.edit_looks.specs.declared.look.SeeEnd.TheVariants as end;
ghost use Rattle.edit_words.specs.Sight.{seen};
ghost use Rattle.tree_core.specs.Looks.{OnlyLooked, failed_in, faults_with};
ghost use Rattle.edit_words.specs.Found.{HasLawfulMode, IsLookAt};
ghost use Rattle.edit_looks.specs.Looks.{seen_by, failed_look, contradicts};

use dired_text::{Failed, Memory, Path};
use edit_words::Seen;
use std::alloc::Global;
use tree_core::{CallName, Kind, LookEnd, Meta, Tree};

/// Why a path wasn't seen.
#[derive(Clone, Copy, Debug, PartialEq, Eq)]
pub enum SeeEnd {
    /// This call of the tree failed.
    Failed(CallName),
    /// What was seen can't stand in one tree: two looks showed different kinds, so that it has changed between them, or no directory
    /// was seen at the root.
    Contradicts,
    /// An allocation was refused.
    Memory,
}

impl From<Memory> for SeeEnd {
    ghost from_gives = { λ _ e. e ≡ end.Memory };

    fn from(_error: Memory) -> SeeEnd {
        SeeEnd::Memory
    }
}

/// What stands at a path.
///
/// # Errors
/// `Contradicts` never where the tree tells what it contains.
pub fn look<T: Tree>(alloc: Global, tree: &mut T, path: &Path) -> Result<Option<Seen>, SeeEnd>
    ensures found { T.Tells → IfOk result (λ found. found ≡
        option_map seen (get (current_tree (T.history tree.old)) path.now)) }
    ensures lawful { IfOk result HasLawfulMode }
    ensures agrees { T.Tells → IfErr result (λ e. contradicts e ≡ false) }
    ensures looked { T.Tells → OnlyLooked (failed_in failed_look result)
        (T.history tree.old) (T.history tree.new) (T.fields tree.old) (T.fields tree.new)
        (T.before_failed tree.old) (T.before_failed tree.new) }
    ensures faults { T.faults tree.new ≡
        faults_with (failed_in failed_look result) (T.faults tree.old) }
    ensures unchanged { T.changes tree.new ≡ T.changes tree.old }
    ensures looks { IsLookAt (failed_in failed_look result) }
{
    let kind = match tree.kind(path) {
        Ok(kind) => kind,
        Err(Failed) => return Err(SeeEnd::Failed(CallName::Kind)),
    };
    let Some(kind) = kind else {
        return Ok(None);
    };
    let meta = match tree.meta(alloc, path) {
        Ok(meta) => meta,
        Err(LookEnd::Failed) => return Err(SeeEnd::Failed(CallName::Meta)),
        Err(LookEnd::Memory) => return Err(SeeEnd::Memory),
    };
    if meta.kind != kind {
        return Err(SeeEnd::Contradicts);
    }
    Ok(Some(seen_of(meta)))
}

// What these fields show.
fn seen_of(meta: Meta) -> Seen
    ensures { result ≡ seen_by meta.kind meta }
{
    match meta.kind {
        Kind::Dir => Seen::Dir { mode: meta.mode },
        Kind::Link => Seen::Link {
            target: meta.target,
        },
        Kind::File => Seen::File {
            number: meta.number,
            mode: meta.mode,
        },
    }
}
