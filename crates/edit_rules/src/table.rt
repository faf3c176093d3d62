// The changes, found by their paths.
ghost use Rattle.std.specs.Prelude.{◌≡◌, IfOk, OnOk, ◌||◌, ◌&&◌, ◌≢◌, [], Some, None, All, IsTrue, is_some, if◌then◌else◌};
ghost use Rattle.std.specs.Option.{option_or};
ghost use Rattle.std.specs.BTreeSet.{contains};
ghost use Rattle.dired_text.specs.Paths.{Names, path_cmp, parent};
ghost use Rattle.path_map.specs.Walks.{IsPathMap, value_at};
ghost use Rattle.edit_words.specs.Rows.{is_at, is_elsewhere as is_elsewhere_row, is_same_path, is_source, is_victim, is_removed, route_of, route_to, written as written_path};
ghost use Rattle.edit_rules.specs.Claims.{claimed_by};
ghost use Rattle.edit_rules.specs.Tables.{AreRoutes, AreWriters, AreMovers, AreNewPaths, AreRemoved, IsTable, is_moved_by};
ghost use Rattle.edit_words.specs.WellFormed.{IsNoRoot};

use crate::claims::PathClaims;
use dired_text::{Memory, Name, Path};
use edit_words::{Route, Row};
use path_map::PathMap;
use std::alloc::Global;
use std::collections::BTreeSet;

/// The changes, found by their paths.
#[derive(Drop)]
pub struct Table {
    pub rows: Vec<Row>,
    // what becomes of each source
    pub routes: PathMap<Route>,
    // the lines that write each path
    pub writers: PathClaims,
    // the lines that give each source a new path
    pub movers: PathClaims,
    // the new paths
    pub new_paths: BTreeSet<Path>,
    // the paths that are to be removed
    pub removed: BTreeSet<Path>,
}

/// The written path: the new path, or the source where there is none.
pub fn written(alloc: Global, row: &Row) -> Result<Path, Memory>
    ensures { IfOk result (λ p. p ≡ written_path row.now) }
{
    match (&row.to, &row.source) {
        (Some(path), _) | (None, Some(path)) => path.copy(),
        (None, None) => Ok(Path::root(alloc)),
    }
}

/// Whether the new path is outside the directory of the source, or the row is a creation.
pub fn is_elsewhere(row: &Row) -> bool
    ensures { result ≡ is_elsewhere_row row.now }
{
    match (&row.source, &row.to) {
        (_, None) => false,
        (None, Some(_)) => true,
        (Some(source), Some(to)) => !is_in_same_dir(source, to),
    }
}

// The names of a path without its last one.
fn dir_names(path: &Path) -> &[Name]
    ensures { result.now ≡ parent path.now }
{
    match path.names() {
        [] => &[],
        [dir @ .., _] => dir,
    }
}

// Whether two paths are in the same directory.
fn is_in_same_dir(a: &Path, b: &Path) -> bool
    ensures { result ≡ is_same_path (parent a.now) (parent b.now) }
{
    dir_names(a).cmp(dir_names(b)).is_eq()
}

// What a source becomes by its new path.
fn route(source: &Path, to: &Option<Path>) -> Result<Route, Memory>
    requires { to.now ≢ Some [] }
    ensures { IfOk result (λ t. t ≡ route_to source.now to.now) }
{
    let Some(to) = to else {
        return Ok(Route::Stays);
    };
    match to.names() {
        [.., name] if is_in_same_dir(source, to) => Ok(Route::Named(name.copy()?)),
        _ => Ok(Route::Sent(to.copy()?)),
    }
}

// What becomes of each source.
fn routes_of(alloc: Global, rows: &[Row]) -> Result<PathMap<Route>, Memory>
    requires { All IsNoRoot rows.now }
    ensures { IfOk result (λ m. AreRoutes m rows.now) }
{
    let mut routes = PathMap::new(alloc)?;
    for row in rows {
        note_route(&mut routes, row)?;
    }
    Ok(routes)
}

// Notes what becomes of a row's source, if nothing has been noted of it.
fn note_route(routes: &mut PathMap<Route>, row: &Row) -> Result<(), Memory>
    requires not_root { IsNoRoot row.now }
    requires map { IsPathMap routes.old }
    ensures map { OnOk result (IsPathMap routes.new) }
    ensures noted { OnOk result ((p : Names) → value_at routes.new p ≡
        option_or (value_at routes.old p) (if is_at p row.now.source
        then Some (route_to p row.now.to) else None)) }
{
    if let Some(source) = &row.source {
        if routes.get(source).is_none() {
            routes.set(source, route(source, &row.to)?)?;
        }
    }
    Ok(())
}

// The lines that write each path.
fn writers_of(alloc: Global, rows: &[Row]) -> Result<PathClaims, Memory>
    ensures { IfOk result (λ claims. AreWriters claims.claims rows.now) }
{
    let mut writers = PathClaims::new(alloc)?;
    for row in rows {
        writers.note(&written(alloc, row)?, row.line)?;
    }
    Ok(writers)
}

// The lines that give each source a new path.
fn movers_of(alloc: Global, rows: &[Row]) -> Result<PathClaims, Memory>
    ensures { IfOk result (λ claims. AreMovers claims.claims rows.now) }
{
    let mut movers = PathClaims::new(alloc)?;
    for row in rows {
        note_mover(&mut movers, row)?;
    }
    Ok(movers)
}

// Notes the line of a row that gives its source a new path.
fn note_mover(movers: &mut PathClaims, row: &Row) -> Result<(), Memory>
    requires { IsPathMap movers.old.claims }
    ensures map { OnOk result (IsPathMap movers.new.claims) }
    ensures noted { OnOk result ((p : Names) → value_at movers.new.claims p ≡
        (if is_moved_by p row.now.source row.now.to
        then Some (claimed_by row.now.line row.now.line (value_at movers.old.claims p))
        else value_at movers.old.claims p)) }
{
    if let (Some(source), Some(_)) = (&row.source, &row.to) {
        movers.note(source, row.line)?;
    }
    Ok(())
}

// The new paths.
fn new_paths_of(alloc: Global, rows: &[Row]) -> Result<BTreeSet<Path>, Memory>
    ensures { IfOk result (λ s. AreNewPaths s rows.now) }
{
    let mut new_paths = BTreeSet::new(alloc);
    for row in rows {
        note_path(&mut new_paths, &row.to, true)?;
    }
    Ok(new_paths)
}

// The paths that are to be removed.
fn removed_of(alloc: Global, rows: &[Row]) -> Result<BTreeSet<Path>, Memory>
    ensures { IfOk result (λ s. AreRemoved s rows.now) }
{
    let mut removed = BTreeSet::new(alloc);
    for row in rows {
        note_path(&mut removed, &row.source, row.removes)?;
    }
    Ok(removed)
}

// Notes a path, if there is one and it is asked for.
fn note_path(paths: &mut BTreeSet<Path>, path: &Option<Path>, asked: bool) -> Result<(), Memory>
    ensures { OnOk result ((p : Names) → contains path_cmp paths.new p ≡
        (contains path_cmp paths.old p || asked && is_at p path.now)) }
{
    match path {
        Some(path) if asked => add_path(paths, path),
        _ => Ok(()),
    }
}

/// Puts a path into a set.
pub fn add_path(paths: &mut BTreeSet<Path>, path: &Path) -> Result<(), Memory>
    ensures { OnOk result ((p : Names) → contains path_cmp paths.new p ≡
        (contains path_cmp paths.old p || is_same_path p path.now)) }
{
    paths.insert(path.copy()?)?;
    Ok(())
}

impl Table {
    /// The table of these rows.
    pub fn new(alloc: Global, rows: Vec<Row>) -> Result<Self, Memory>
        requires { All IsNoRoot rows.items }
        ensures rows { IfOk result (λ t. t.rows.items ≡ rows.items) }
        ensures table { IfOk result IsTable }
    {
        Ok(Table {
            routes: routes_of(alloc, &rows)?,
            writers: writers_of(alloc, &rows)?,
            movers: movers_of(alloc, &rows)?,
            new_paths: new_paths_of(alloc, &rows)?,
            removed: removed_of(alloc, &rows)?,
            rows,
        })
    }

    /// Whether the path is the source of a change.
    pub fn is_source(&self, path: &Path) -> bool
        requires { IsTable self.now }
        ensures { result ≡ is_source self.now.rows.items path.now }
    {
        self.routes.get(path).is_some()
    }

    /// Whether the path is the new path of a change and the source of none, so that what stands there is replaced.
    pub fn is_victim(&self, path: &Path) -> bool
        requires { IsTable self.now }
        ensures { result ≡ is_victim self.now.rows.items path.now }
    {
        self.new_paths.contains(path) && !self.is_source(path)
    }

    /// Whether the path is to be removed.
    pub fn is_removed(&self, path: &Path) -> bool
        requires { IsTable self.now }
        ensures { result ≡ is_removed self.now.rows.items path.now }
    {
        self.removed.contains(path)
    }
}
