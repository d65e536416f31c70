// What a message asks for, but for its body. It takes no memory.
ghost use Rattle.std.specs.Prelude.{◌≡◌, ℕ, List, ◌==◌, ◌||◌, if◌then◌else◌, bytes_eq, Some};
ghost use Rattle.cite_http.specs.Parts.{parts};
ghost use Rattle.cite_http.specs.Routes.{path_of as spec_path_of};
ghost use Rattle.cite_http.specs.Asks.{asked, routed, ask_at, migrate_of, batch_of, count_of as spec_count_of, segment_at, name_of};
ghost use Rattle.cite_http.specs.Plans.{ask_of, text_of};
ghost use Rattle.cite_http.specs.RouterRows.{route_rows};

use crate::fields::read_length;
use crate::route::Route;
use crate::router::find_route;
use crate::segments::parameters_of;
use crate::status::Status;
use batches::curator_ok;
use matchit::Router;

/// The two segments of a name.
#[derive(Clone, Copy, Drop)]
pub struct Name<'a> {
    pub prefix: &'a [u8],
    pub suffix: &'a [u8],
}

/// What a message asks for, by its method and its target.
#[derive(Clone, Copy, Drop)]
pub enum Plan<'a> {
    State,
    Page(Name<'a>),
    Bytes(Name<'a>),
    Metadata(Name<'a>),
    Batch {
        schema: u32,
        curator: &'a [u8],
        number: u32,
    },
    Cite,
    Migrate(u32),
    Bad(Status),
}

// The target up to the first `?` or `#`.
fn path_of(target: &str) -> &str
    ensures { result.now ≡ spec_path_of target.now }
{
    let bytes = target.as_bytes();
    for i in 0..bytes.len() {
        if bytes[i] == b'?' || bytes[i] == b'#' {
            return &target[..i];
        }
    }
    target
}

// The number that a count spells.
fn count_of(text: &[u8]) -> Option<u32>
    ensures { result ≡ spec_count_of text.now }
{
    if text.len() > 10 {
        return None;
    }
    let n = read_length(text)?;
    if text[0] != b'0' && n < 4294967296 {
        Some(n as u32)
    } else {
        None
    }
}

fn is(method: &[u8], word: &str) -> bool
    ensures { result ≡ bytes_eq method.now word.now }
{
    method == word.as_bytes()
}

fn migration<'a>(schema: &[u8]) -> Plan<'a>
    ensures { (body : List ℕ) → ask_of result body ≡ migrate_of (spec_count_of schema.now) body }
{
    match count_of(schema) {
        Some(schema) => Plan::Migrate(schema),
        None => Plan::Bad(Status::BadTarget),
    }
}

fn batch<'a>(schema: &[u8], curator: &'a [u8], number: &[u8]) -> Plan<'a>
    ensures { (body : List ℕ) → ask_of result body ≡ batch_of (spec_count_of schema.now) curator.now (spec_count_of number.now) body }
{
    match (count_of(schema), count_of(number)) {
        (Some(schema), Some(number)) => {
            if curator_ok(curator) {
                Plan::Batch {
                    schema,
                    curator,
                    number,
                }
            } else {
                Plan::Bad(Status::BadTarget)
            }
        }
        _ => Plan::Bad(Status::BadTarget),
    }
}

fn name_in(path: &[u8]) -> Name
    ensures { text_of result ≡ name_of (parts 47 path.now) }
{
    let found = parameters_of(path);
    Name {
        prefix: found.first,
        suffix: found.second,
    }
}

// What a route asks for, by the path behind its first slash.
fn plan_at<'a>(route: Route, path: &'a [u8]) -> Plan<'a>
    ensures { (body : List ℕ) → ask_of result body ≡ ask_at route (parts 47 path.now) body }
{
    match route {
        Route::State => Plan::State,
        Route::Page => Plan::Page(name_in(path)),
        Route::Bytes => Plan::Bytes(name_in(path)),
        Route::Metadata => Plan::Metadata(name_in(path)),
        Route::Batch => {
            let found = parameters_of(path);
            batch(found.first, found.second, found.third)
        }
        Route::Cite => Plan::Cite,
        Route::Migrate => migration(parameters_of(path).first),
    }
}

// The same, if the method is the one that serves the route.
fn served<'a>(method: &[u8], route: Route, path: &'a [u8]) -> Plan<'a>
    ensures { (body : List ℕ) → ask_of result body ≡ routed (Some route) method.now (parts 47 path.now) body }
{
    let get = route.is_read();
    let wanted = if get { "GET" } else { "POST" };
    if is(method, wanted) {
        plan_at(route, path)
    } else {
        Plan::Bad(Status::OtherMethod { get })
    }
}

/// What a message asks for, but for its body: the first that applies of a target without a slash in front, a path of no
/// route, another method than the route's, and a count or a curator of another form. The cost is that of the target.
#[tactic(auto, unfolding(crate::specs::Asks::asked))]
pub fn make_plan<'a>(router: &Router<Route>, method: &[u8], target: &'a str) -> Plan<'a>
    requires { router.now ≡ route_rows }
    ensures { (body : List ℕ) → ask_of result body ≡ asked method.now target.now body }
{
    let path = path_of(target);
    match path.as_bytes() {
        [b'/', rest @ ..] => match find_route(router, path) {
            Some(route) => served(method, route, rest),
            None => Plan::Bad(Status::NoRoute),
        },
        _ => Plan::Bad(Status::BadTarget),
    }
}
