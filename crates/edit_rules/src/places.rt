// Where changes take a path.
ghost use Rattle.std.specs.Prelude.{◌≡◌, ◌<◌, IfOk, length};
ghost use Rattle.std.specs.Option.{option_map, unwrap_or};
ghost use Rattle.edit_words.specs.Place.{place as place_of, routed as routed_of};
ghost use Rattle.edit_words.specs.Rows.{route_of};
ghost use Rattle.edit_rules.specs.Standing.{IsBegun};
ghost use Rattle.edit_rules.specs.Tables.{IsTable};
ghost use Rattle.edit_words.specs.declared.row.Route.TheVariants as routes;

use crate::table::Table;
use dired_text::{Memory, Name, Path};
use edit_words::Route;
use std::alloc::Global;

/// The names of the new place of a path, from the root down.
pub fn place(alloc: Global, table: &Table, path: &Path) -> Result<Vec<Name>, Memory>
    requires { IsTable table.now }
    ensures { IfOk result (λ names. names.items ≡
        place_of (route_of table.now.rows.items) path.now) }
{
    let routes = table.routes.along(alloc, path)?;
    let last = last_sent(&routes);
    let (start, mut to) = begin(alloc, last, routes[last])?;
    for at in start..path.names().len() {
        let name = &path.names()[at];
        let route = routes[at + 1];
        to = routed(alloc, route, to, name)?;
    }
    Ok(to)
}

// The last of these paths, each with a name more, that is sent to a path: what becomes of those above it doesn't matter.
fn last_sent(routes: &[Option<&Route>]) -> usize
    requires { 0 < length routes.now }
    ensures { result < length routes.now }
{
    let mut last = 0;
    for at in 0..routes.len() {
        if is_sent(routes[at]) {
            last = at;
        }
    }
    last
}

// Whether a path is sent to another one.
fn is_sent(route: Option<&Route>) -> bool {
    match route {
        Some(Route::Sent(_)) => true,
        _ => false,
    }
}

// How many names have their place already, and what it is, where a path of so many names is sent somewhere.
fn begin(alloc: Global, len: usize, route: Option<&Route>) -> Result<(usize, Vec<Name>), Memory>
    ensures { IfOk result
        (λ begun. IsBegun len (option_map (λ t. t.now) route.entry) begun.0 begun.1.items) }
{
    match route {
        Some(Route::Sent(path)) if len > 0 => Ok((len, copy_names(alloc, path.names())?)),
        _ => Ok((0, Vec::new(alloc))),
    }
}

// Where a name of a directory goes that itself went to a path.
fn routed(
    alloc: Global,
    route: Option<&Route>,
    to: Vec<Name>,
    name: &Name,
) -> Result<Vec<Name>, Memory>
    ensures { IfOk result (λ names. names.items ≡
        routed_of
        (unwrap_or (option_map (λ t. t.now) route.entry) routes.Stays) to.items name.now) }
{
    let name = match route {
        None | Some(Route::Stays) => name,
        Some(Route::Named(other)) => other,
        Some(Route::Sent(path)) => return copy_names(alloc, path.names()),
    };
    let mut to = to;
    to.push(name.copy()?)?;
    Ok(to)
}

// Copies names.
fn copy_names(alloc: Global, names: &[Name]) -> Result<Vec<Name>, Memory>
    ensures { IfOk result (λ v. v.items ≡ names.now) }
{
    let mut all = Vec::with_capacity(alloc, names.len())?;
    for name in names {
        all.push(name.copy()?)?;
    }
    Ok(all)
}
