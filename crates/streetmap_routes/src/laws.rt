//! Laws of the router.
ghost use Rattle.streetmap_routes.specs.Paths.{EachFindsItsRoute};

/// Each of the eight paths finds its own route, whatever names are in it.
pub fn each_path_finds_its_route()
    ensures { EachFindsItsRoute }
{}
