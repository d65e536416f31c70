// The router of the seven routes.
ghost use Rattle.std.specs.Prelude.{◌≡◌, IfOk, option_map};
ghost use Rattle.matchit.specs.Seek.{first};
ghost use Rattle.cite_http.specs.Routes.{route_of, segments};
ghost use Rattle.cite_http.specs.RouterRows.{route_rows};

use crate::route::Route;
use matchit::{InsertError, Router};
use std::alloc::Global;

/// The router of the seven routes. No two of them conflict, so it errs where memory is wanting alone.
pub fn make_router(alloc: Global) -> Result<Router<Route>, InsertError>
    ensures { IfOk result (λ router. router ≡ route_rows) }
{
    let mut router = Router::new(alloc);
    router.insert("/state", Route::State)?;
    router.insert("/id/{prefix}/{suffix}", Route::Page)?;
    router.insert("/id/{prefix}/{suffix}/data", Route::Bytes)?;
    router.insert("/id/{prefix}/{suffix}/meta", Route::Metadata)?;
    router.insert("/batch/{schema}/{curator}/{number}", Route::Batch)?;
    router.insert("/cite", Route::Cite)?;
    router.insert("/migrate/{schema}", Route::Migrate)?;
    Ok(router)
}

/// The route of a path, exactly by the table. The cost is that of the path.
pub fn find_route(router: &Router<Route>, path: &str) -> Option<Route>
    requires { router.now ≡ route_rows }
    ensures { result ≡ route_of (segments path.now) }
{
    look_up(router, path)
}

fn look_up(router: &Router<Route>, path: &str) -> Option<Route>
    ensures { result ≡ option_map (λ row. row.value) (first router.now path.now) }
{
    match router.at(path) {
        Ok(found) => Some(*found.value),
        Err(_) => None,
    }
}
