// The moves of a plan.
ghost use Rattle.std.specs.Prelude.{◌≡◌, ◌≤◌, IfOk, IsPermutation, IsSorted, All, length};
ghost use Rattle.std.specs.List.{filter_map};
ghost use Rattle.edit_words.specs.WellFormed.{IsNoRoot, LinesRise, SourcesDiffer};
ghost use Rattle.plan_moves.specs.Moves.{Moves, fresh_spots};
ghost use Rattle.plan_moves.specs.Waiting.{waiting};
ghost use Rattle.commit_plan.specs.Boards.{deeper_cmp, source_of};
ghost use Rattle.commit_plan.specs.Stands.{max_rows};

use crate::board::Board;
use commit_steps::Step;
use dired_text::{Memory, Path};
use edit_words::Row;
use std::alloc::Global;
use std::cmp::Ordering;

/// The moves of these changes, one after the other: one that is ready, or where none is, the deepest at its source to a temporary name.
pub fn moves(alloc: Global, rows: Vec<Row>) -> Result<Vec<Step>, Memory>
    requires few { length rows.items ≤ max_rows }
    requires lines { LinesRise rows.items }
    requires sources { SourcesDiffer rows.items }
    requires rooted { All IsNoRoot rows.items }
    ensures { IfOk result (λ v. Moves 0 (fresh_spots 0 rows.items) (waiting rows.items) v.items) }
{
    let sources = deepest_first(alloc, &rows)?;
    let mut board = Board::new(alloc, rows)?;
    let mut steps = Vec::new(alloc);
    let mut number = 0;
    for source in &sources {
        board.carry_ready(alloc, &mut steps)?;
        if let Some(i) = board.source_at(source) {
            steps.push(board.put_away(alloc, i, number)?)?;
            number += 1;
        }
    }
    board.carry_ready(alloc, &mut steps)?;
    Ok(steps)
}

// The sources of the changes, those of most names first, and as many in the order of paths.
fn deepest_first(alloc: Global, rows: &[Row]) -> Result<Vec<Path>, Memory>
    ensures paths { IfOk result (λ v. IsPermutation (filter_map source_of rows.now) v.items) }
    ensures sorted { IfOk result (λ v. IsSorted deeper_cmp v.items) }
{
    let mut sources = sources_of(alloc, rows)?;
    deepen(&mut sources);
    Ok(sources)
}

fn sources_of(alloc: Global, rows: &[Row]) -> Result<Vec<Path>, Memory>
    ensures { IfOk result (λ v. v.items ≡ filter_map source_of rows.now) }
{
    let mut sources = Vec::new(alloc);
    for row in rows {
        if let Some(source) = &row.source {
            sources.push(source.copy()?)?;
        }
    }
    Ok(sources)
}

// Puts the deepest first.
fn deepen(paths: &mut Vec<Path>)
    ensures paths { IsPermutation paths.old.items paths.new.items }
    ensures sorted { IsSorted deeper_cmp paths.new.items }
{
    paths.sort_unstable_by(|a, b| deeper(a, b));
}

fn deeper(a: &Path, b: &Path) -> Ordering
    ensures { result ≡ deeper_cmp a.now b.now }
{
    let depths = b.names().len().cmp(&a.names().len());
    depths.then(a.cmp(b))
}
