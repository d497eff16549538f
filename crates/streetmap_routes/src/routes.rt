//! The eight paths (OGC 17-069, section 7).
ghost use Rattle.std.specs.Prelude.{◌≡◌, ◌==◌, [], IfOk, OnOk, IsUtf8, MatchOption, option_map};
ghost use Rattle.std.specs.Prelude.{slice_get, string_bytes};
ghost use Rattle.percent_encoding.specs.Percent.{percent_decode as percent_decode_of};
ghost use Rattle.std.specs.List.{slice_split};
ghost use Rattle.streetmap_routes.specs.Routes.{the_rows, put};
ghost use Rattle.streetmap_routes.specs.Operations as spec;
ghost use Rattle.streetmap_routes.specs.OperationView.{resource_value};

use matchit::{InsertError, Router};
use percent_encoding::{DecodeError, percent_decode};
use std::alloc::{AllocError, Global};

/// A path with places for names.
#[derive(Clone, Copy, PartialEq, Eq, Drop)]
pub enum Route {
    Landing,
    Api,
    Conformance,
    Collections,
    Collection,
    Items,
    Item,
    Batches,
}

/// A resource, with the names in its path.
#[derive(Drop)]
pub enum Resource {
    Landing,
    Api,
    Conformance,
    Collections,
    Collection { name: String },
    Items { name: String },
    Item { name: String, id: String },
    Batches,
}

/// Adds a route.
fn add(router: &mut Router<Route>, text: &str, route: Route) -> Result<(), InsertError>
    ensures { OnOk result (router.new ≡ put text.now route router.old) }
{
    router.insert(text, route)
}

/// Adds the routes of the eight paths to a router with none.
fn add_routes(router: &mut Router<Route>) -> Result<(), InsertError>
    requires { router.old ≡ [] }
    ensures { OnOk result (router.new ≡ the_rows) }
{
    add(router, "/", Route::Landing)?;
    add(router, "/api", Route::Api)?;
    add(router, "/conformance", Route::Conformance)?;
    add(router, "/collections", Route::Collections)?;
    add(router, "/collections/{collectionId}", Route::Collection)?;
    add(router, "/collections/{collectionId}/items", Route::Items)?;
    add(
        router,
        "/collections/{collectionId}/items/{featureId}",
        Route::Item,
    )?;
    add(router, "/batches", Route::Batches)?;
    Ok(())
}

/// The router of the eight paths.
pub(crate) fn make_router(alloc: Global) -> Result<Router<Route>, InsertError>
    ensures { IfOk result (λ r. r ≡ the_rows) }
{
    let mut router = Router::new(alloc);
    add_routes(&mut router)?;
    Ok(router)
}

/// The route of a path.
#[tactic(auto, unfolding(crate::specs::Operations::route_of))]
fn route_of(router: &Router<Route>, path: &str) -> Option<Route>
    requires { router.now ≡ the_rows }
    ensures { result ≡ spec.route_of path.now }
{
    match router.at(path) {
        Ok(found) => Some(*found.value),
        Err(_) => None,
    }
}

/// What a path has at this place between its slashes, if it has that many.
fn find_segment(place: usize, path: &[u8]) -> Option<&[u8]>
    ensures { option_map (λ part. part.now) result ≡
        slice_get (slice_split (λ b. b == 47) path.now) place }
{
    path.split(|byte| *byte == b'/').nth(place)
}

/// The same; nothing if it has not.
fn segment(place: usize, path: &[u8]) -> &[u8]
    ensures { result.now ≡ spec.segment place path.now }
{
    match find_segment(place, path) {
        Some(part) => part,
        None => b"",
    }
}

/// Bytes without their percent escapes, or `None` if they are not text.
fn decode(alloc: Global, bytes: &[u8]) -> Result<Option<String>, AllocError>
    ensures { IfOk result (λ found. MatchOption found (IsUtf8 (percent_decode_of bytes.now)
        → ⊥)
        (λ text. string_bytes text ≡ percent_decode_of bytes.now)) }
{
    match percent_decode(bytes).decode_utf8(alloc) {
        Ok(text) => Ok(Some(text.into_owned(alloc)?)),
        Err(DecodeError::OutOfMemory) => Err(AllocError),
        Err(_) => Ok(None),
    }
}

/// What a path has at this place, percent-decoded; `None` if that is not text.
fn decoded(alloc: Global, place: usize, path: &str) -> Result<Option<String>, AllocError>
    ensures { IfOk result (λ found. option_map string_bytes found
        ≡ spec.decoded place path.now) }
{
    let found = decode(alloc, segment(place, path.as_bytes()))?;
    Ok(found)
}

/// The resource of one feature.
fn find_item(alloc: Global, path: &str) -> Result<Option<Resource>, AllocError>
    ensures { IfOk result (λ found. option_map resource_value found ≡
        spec.resource_by path.now Route.Item) }
{
    let Some(name) = decoded(alloc, 2, path)? else {
        return Ok(None);
    };
    match decoded(alloc, 4, path)? {
        Some(id) => Ok(Some(Resource::Item { name, id })),
        None => Ok(None),
    }
}

/// The resource of a route, with the names that the path has.
fn resource_by(alloc: Global, path: &str, route: Route) -> Result<Option<Resource>, AllocError>
    ensures { IfOk result (λ found. option_map resource_value found ≡
        spec.resource_by path.now route) }
{
    match route {
        Route::Landing => Ok(Some(Resource::Landing)),
        Route::Api => Ok(Some(Resource::Api)),
        Route::Conformance => Ok(Some(Resource::Conformance)),
        Route::Collections => Ok(Some(Resource::Collections)),
        Route::Collection => match decoded(alloc, 2, path)? {
            Some(name) => Ok(Some(Resource::Collection { name })),
            None => Ok(None),
        },
        Route::Items => match decoded(alloc, 2, path)? {
            Some(name) => Ok(Some(Resource::Items { name })),
            None => Ok(None),
        },
        Route::Item => find_item(alloc, path),
        Route::Batches => Ok(Some(Resource::Batches)),
    }
}

/// The resource of a path.
#[tactic(auto, unfolding(crate::specs::Operations::resource_at))]
pub(crate) fn find_resource(
    alloc: Global,
    router: &Router<Route>,
    path: &str,
) -> Result<Option<Resource>, AllocError>
    requires { router.now ≡ the_rows }
    ensures { IfOk result (λ found. option_map resource_value found
        ≡ spec.resource_at path.now) }
{
    match route_of(router, path) {
        Some(route) => resource_by(alloc, path, route),
        None => Ok(None),
    }
}
