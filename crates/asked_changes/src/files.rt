// Whether files stand at the paths of hard links.
ghost use Rattle.std.specs.Prelude.{◌≡◌, All, IfOk, IsTrue};
ghost use Rattle.tree_core.specs.FileTree.{IsFile};
ghost use Rattle.tree_core.specs.History.{current_tree};
ghost use Rattle.edit_words.specs.WellFormed.{IsFileFor, LinksHaveFiles};

use dired_text::{Failed, Path};
use tree_core::{Changes, Creation, Fresh, Kind, Tree};

/// Whether files stand at the paths of hard links that are to be made.
pub fn links_have_files<T: Tree>(tree: &mut T, changes: &Changes) -> Result<bool, Failed>
    ensures files { T.Tells → IfOk result (λ b. IsTrue b →
        LinksHaveFiles (IsFile (current_tree (T.history tree.old))) changes.now) }
    ensures looked { T.Tells → T.history tree.new ≡ T.history tree.old }
{
    match changes {
        Changes::Edits(_) | Changes::Removals(_) => Ok(true),
        Changes::Creations(creations) => all_have_files(tree, creations.as_slice()),
    }
}

fn all_have_files<T: Tree>(tree: &mut T, creations: &[Creation]) -> Result<bool, Failed>
    ensures files { T.Tells → IfOk result (λ b. IsTrue b →
        All (λ c. IsFileFor (IsFile (current_tree (T.history tree.old))) c.what) creations.now) }
    ensures looked { T.Tells → T.history tree.new ≡ T.history tree.old }
{
    for creation in creations {
        if !has_file(tree, &creation.what)? {
            return Ok(false);
        }
    }
    Ok(true)
}

fn has_file<T: Tree>(tree: &mut T, fresh: &Fresh) -> Result<bool, Failed>
    ensures file { T.Tells → IfOk result (λ b. IsTrue b →
        IsFileFor (IsFile (current_tree (T.history tree.old))) fresh.now) }
    ensures looked { T.Tells → T.history tree.new ≡ T.history tree.old }
{
    match fresh {
        Fresh::Link(_) | Fresh::File(..) => Ok(true),
        Fresh::Same(path) => is_file(tree, path),
    }
}

fn is_file<T: Tree>(tree: &mut T, path: &Path) -> Result<bool, Failed>
    ensures file { T.Tells → IfOk result (λ b. IsTrue b →
        IsFile (current_tree (T.history tree.old)) path.now) }
    ensures looked { T.Tells → T.history tree.new ≡ T.history tree.old }
{
    match tree.kind(path) {
        Ok(kind) => Ok(kind == Some(Kind::File)),
        Err(failed) => Err(failed),
    }
}
