//! Copies of geometries.
ghost use Rattle.std.specs.Prelude.{◌≡◌, option_map, IfOk};
ghost use Rattle.streetmap_grid.specs.Views.{positions_value, line_value};
ghost use Rattle.streetmap_grid.specs.Views.{lines_value, ring_value, rings_value, polygon_value};
ghost use Rattle.streetmap_grid.specs.Views.{polygons_value, items_of, simple_value, simples_value};
ghost use Rattle.streetmap_grid.specs.Views.{geometry_value};

use std::alloc::{AllocError, Global};
use streetmap_grid::{Geometry, Line, NonEmpty, Polygon, Position, Ring, SimpleGeometry};

fn copy_positions(alloc: Global, positions: &[Position]) -> Result<Vec<Position>, AllocError>
    ensures { IfOk result (λ v. positions_value v.items ≡ positions_value positions.now) }
{
    positions.to_vec(alloc)
}

fn copy_some_positions(
    alloc: Global,
    positions: &NonEmpty<Position>,
) -> Result<NonEmpty<Position>, AllocError>
    ensures { IfOk result (λ v. positions_value (items_of v)
        ≡ positions_value (items_of positions.now)) }
{
    let copies = copy_positions(alloc, positions.items())?;
    Ok(NonEmpty::new(copies))
}

fn copy_line(alloc: Global, line: &Line) -> Result<Line, AllocError>
    ensures { IfOk result (λ l. line_value l ≡ line_value line.now) }
{
    let positions = copy_positions(alloc, line.positions())?;
    match Line::new(positions) {
        Ok(line) => Ok(line),
        Err(_) => unreachable!(),
    }
}

fn copy_lines(alloc: Global, lines: &[Line]) -> Result<Vec<Line>, AllocError>
    ensures { IfOk result (λ v. lines_value v.items ≡ lines_value lines.now) }
{
    let mut copies = Vec::with_capacity(alloc, lines.len())?;
    for line in lines {
        copies.push(copy_line(alloc, line)?)?;
    }
    Ok(copies)
}

fn copy_some_lines(alloc: Global, lines: &NonEmpty<Line>) -> Result<NonEmpty<Line>, AllocError>
    ensures { IfOk result (λ v. lines_value (items_of v) ≡ lines_value (items_of lines.now)) }
{
    let copies = copy_lines(alloc, lines.items())?;
    Ok(NonEmpty::new(copies))
}

fn copy_ring(alloc: Global, ring: &Ring) -> Result<Ring, AllocError>
    ensures { IfOk result (λ r. ring_value r ≡ ring_value ring.now) }
{
    let positions = copy_positions(alloc, ring.positions())?;
    match Ring::new(positions) {
        Ok(ring) => Ok(ring),
        Err(_) => unreachable!(),
    }
}

fn copy_rings(alloc: Global, rings: &[Ring]) -> Result<Vec<Ring>, AllocError>
    ensures { IfOk result (λ v. rings_value v.items ≡ rings_value rings.now) }
{
    let mut copies = Vec::with_capacity(alloc, rings.len())?;
    for ring in rings {
        copies.push(copy_ring(alloc, ring)?)?;
    }
    Ok(copies)
}

fn copy_polygon(alloc: Global, polygon: &Polygon) -> Result<Polygon, AllocError>
    ensures { IfOk result (λ p. polygon_value p ≡ polygon_value polygon.now) }
{
    let rings = copy_rings(alloc, polygon.rings())?;
    Ok(Polygon::new(rings))
}

fn copy_polygons(alloc: Global, polygons: &[Polygon]) -> Result<Vec<Polygon>, AllocError>
    ensures { IfOk result (λ v. polygons_value v.items ≡ polygons_value polygons.now) }
{
    let mut copies = Vec::with_capacity(alloc, polygons.len())?;
    for polygon in polygons {
        copies.push(copy_polygon(alloc, polygon)?)?;
    }
    Ok(copies)
}

fn copy_some_polygons(
    alloc: Global,
    polygons: &NonEmpty<Polygon>,
) -> Result<NonEmpty<Polygon>, AllocError>
    ensures { IfOk result (λ v. polygons_value (items_of v)
        ≡ polygons_value (items_of polygons.now)) }
{
    let copies = copy_polygons(alloc, polygons.items())?;
    Ok(NonEmpty::new(copies))
}

fn copy_simple(alloc: Global, geometry: &SimpleGeometry) -> Result<SimpleGeometry, AllocError>
    ensures { IfOk result (λ s. simple_value s ≡ simple_value geometry.now) }
{
    match geometry {
        SimpleGeometry::Point(position) => Ok(SimpleGeometry::Point(*position)),
        SimpleGeometry::MultiPoint(positions) => Ok(SimpleGeometry::MultiPoint(copy_some_positions(
            alloc, positions,
        )?)),
        SimpleGeometry::LineString(line) => Ok(SimpleGeometry::LineString(copy_line(alloc, line)?)),
        SimpleGeometry::MultiLineString(lines) => Ok(SimpleGeometry::MultiLineString(
            copy_some_lines(alloc, lines)?,
        )),
        SimpleGeometry::Polygon(polygon) => Ok(SimpleGeometry::Polygon(copy_polygon(
            alloc, polygon,
        )?)),
        SimpleGeometry::MultiPolygon(polygons) => Ok(SimpleGeometry::MultiPolygon(
            copy_some_polygons(alloc, polygons)?,
        )),
    }
}

fn copy_simples(
    alloc: Global,
    geometries: &[SimpleGeometry],
) -> Result<Vec<SimpleGeometry>, AllocError>
    ensures { IfOk result (λ v. simples_value v.items ≡ simples_value geometries.now) }
{
    let mut copies = Vec::with_capacity(alloc, geometries.len())?;
    for geometry in geometries {
        copies.push(copy_simple(alloc, geometry)?)?;
    }
    Ok(copies)
}

fn copy_some_simples(
    alloc: Global,
    geometries: &NonEmpty<SimpleGeometry>,
) -> Result<NonEmpty<SimpleGeometry>, AllocError>
    ensures { IfOk result (λ v. simples_value (items_of v)
        ≡ simples_value (items_of geometries.now)) }
{
    let copies = copy_simples(alloc, geometries.items())?;
    Ok(NonEmpty::new(copies))
}

fn copy_geometry(alloc: Global, geometry: &Geometry) -> Result<Geometry, AllocError>
    ensures { IfOk result (λ g. geometry_value g ≡ geometry_value geometry.now) }
{
    match geometry {
        Geometry::Simple(simple) => Ok(Geometry::Simple(copy_simple(alloc, simple)?)),
        Geometry::Collection(members) => Ok(Geometry::Collection(copy_some_simples(
            alloc, members,
        )?)),
    }
}

/// An equal geometry, or none.
pub(crate) fn copy_geometry_member(
    alloc: Global,
    geometry: &Option<Geometry>,
) -> Result<Option<Geometry>, AllocError>
    ensures { IfOk result (λ o. option_map geometry_value o
        ≡ option_map geometry_value geometry.now) }
{
    match geometry {
        Some(geometry) => Ok(Some(copy_geometry(alloc, geometry)?)),
        None => Ok(None),
    }
}
