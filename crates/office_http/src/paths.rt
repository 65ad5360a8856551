//! The paths of the office: their routes, and what each names.
ghost use Rattle.std.specs.Prelude.{◌≡◌, ◌==◌, IfOk, true, false, MatchOption};
ghost use Rattle.std.specs.List.{list_any};
ghost use Rattle.office_http.specs.Paths.{RouteList, is_path, office_routes, path_segment, route_at, with_route};

use matchit::Router;
use std::alloc::{AllocError, Global};
use std::marker::Model;

/// What a path names.
#[derive(Clone, Copy, Drop)]
pub(crate) enum Route {
    /// The acts that are handed in.
    Acts,
    /// The resumption of the run that is open.
    Resume,
    /// A record.
    Record,
    /// The content of a record.
    Content,
    /// The records that are due on a day.
    Due,
    /// The records that are overdue on a day, by a count of days to confirm.
    Overdue,
    /// The certificate of a run.
    Certificate,
}

/// The routes with one more.
#[tactic(auto, using(crate::proofs::RouteLemmas::route_inserted))]
fn with_route(
    mut router: Router<Route>,
    path: &str,
    route: Route,
) -> Result<Router<Route>, AllocError>
    ensures { IfOk result (λ longer. longer ≡ with_route path.now route router) }
{
    match router.insert(path, route) {
        Ok(()) => Ok(router),
        Err(_) => Err(AllocError),
    }
}

/// The routes of all paths that there are.
#[tactic(auto, unfolding(crate::specs::Paths::office_routes))]
fn office_router(alloc: Global) -> Result<Router<Route>, AllocError>
    ensures { IfOk result (λ router. router ≡ office_routes) }
{
    let router = with_route(Router::new(alloc), "/acts", Route::Acts)?;
    let router = with_route(router, "/run/resume", Route::Resume)?;
    let router = with_route(router, "/records/{n}", Route::Record)?;
    let router = with_route(router, "/records/{n}/content", Route::Content)?;
    let router = with_route(router, "/due/{day}", Route::Due)?;
    let router = with_route(router, "/overdue/{day}/{count}", Route::Overdue)?;
    with_route(router, "/certificates/{n}", Route::Certificate)
}

/// The paths that the office answers, and what each names. They are made once; to look a path up
/// takes no memory.
#[derive(Drop)]
pub struct Routes {
    router: Router<Route>,
}

impl Model for Routes {
    ghost Value = { RouteList };

    ghost view = { λ routes. routes.router };

    ghost invariant = { λ routes. routes.router ≡ office_routes };
}

impl Routes {
    /// Makes the routes of all paths. `AllocError` comes where memory is refused for one of them.
    pub fn new(alloc: Global) -> Result<Routes, AllocError>
        ensures { IfOk result (λ routes. routes ≡ office_routes) }
    {
        let router = office_router(alloc)?;
        Ok(Routes { router })
    }

    /// What a path names.
    pub(crate) fn route_at(&self, path: &str) -> Option<Route>
        ensures { result ≡ route_at path.now }
    {
        match self.router.at(path) {
            Ok(found) => Some(*found.value),
            Err(_) => None,
        }
    }
}

/// Whether the target has a query.
fn has_query(target: &[u8]) -> bool
    ensures { result ≡ list_any (λ byte. byte == 63) target.now }
{
    target.iter().any(|byte| *byte == b'?')
}

/// The target as a path; `None` where it has a query or is not UTF-8.
pub(crate) fn path_of(target: &[u8]) -> Option<&str>
    ensures { MatchOption result (is_path target.now ≡ false)
        (λ path. (is_path target.now ≡ true) × (path.now ≡ target.now)) }
{
    if has_query(target) {
        None
    } else {
        str::from_utf8(target).ok()
    }
}

/// The segment of a path at that place: the second reports which record, day or certificate is
/// meant, and the third of `/overdue/{day}/{count}` how many days.
pub(crate) fn path_segment(path: &str, place: usize) -> &str
    ensures { result.now ≡ path_segment place path.now }
{
    path.split('/').nth(place).unwrap_or("")
}
