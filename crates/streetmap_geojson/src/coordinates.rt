//! Positions, lines, rings and polygons of JSON arrays (RFC 7946, sections 3.1.1 to 3.1.7).
ghost use Rattle.std.specs.Prelude.{◌≡◌, ◌≤◌, IfOk, length, map};
ghost use Rattle.serde_json.specs.View.{view};
ghost use Rattle.streetmap_grid.specs.Range.{IsCoordinate};
ghost use Rattle.streetmap_grid.specs.Views.{position_value, positions_value, line_value};
ghost use Rattle.streetmap_grid.specs.Views.{lines_value, ring_value, rings_value, polygon_value};
ghost use Rattle.streetmap_grid.specs.Views.{polygons_value, items_of};
ghost use Rattle.streetmap_geojson.specs.Fault.{Gives};
ghost use Rattle.streetmap_geojson.specs.declared.fault.Fault.TheVariants.{BadPosition};
ghost use Rattle.streetmap_geojson.specs.declared.fault.Fault.TheVariants.{BadGeometry};
ghost use Rattle.streetmap_geojson.specs.ParsedGeometries.{ends_of, some_rings, coordinate};
ghost use Rattle.streetmap_geojson.specs.ParsedGeometries.{position_of};
ghost use Rattle.streetmap_geojson.specs.ParsedGeometries.{elements_of, position, positions, line};
ghost use Rattle.streetmap_geojson.specs.ParsedGeometries.{lines};
ghost use Rattle.streetmap_geojson.specs.ParsedGeometries.{ring, rings, polygon, polygons, inside};
ghost use Rattle.streetmap_geojson.specs.ParsedGeometries.{max_positions};

use crate::fault::{Fault, JsonFault};
use serde_json::Value;
use std::alloc::Global;
use streetmap_grid::{GridFault, Line, NonEmpty, Polygon, Position, Ring};

const MAX_POSITIONS: usize = 100_000;

#[tactic(auto, unfolding(crate::specs::ParsedGeometries::coordinate))]
fn read_coordinate(value: &Value) -> Result<i64, JsonFault>
    ensures reads { Gives (λ x. x) result (coordinate (view value.now)) }
    ensures in_range { IfOk result (λ x. IsCoordinate x) }
{
    let Some(number) = value.as_number() else {
        return Err(JsonFault::Fault(Fault::BadPosition));
    };
    match number.as_i128() {
        None => Err(JsonFault::Fault(Fault::Fraction)),
        Some(n) => {
            if -1_000_000_000 <= n && n <= 1_000_000_000 {
                Ok(n as i64)
            } else {
                Err(JsonFault::Fault(Fault::OutOfGrid))
            }
        }
    }
}

// Two or three coordinates, from left to right.
fn read_numbers(elements: &[Value]) -> Result<Position, JsonFault>
    ensures { Gives position_value result (position_of (map view elements.now)) }
{
    match elements {
        [x, y] => {
            let x = read_coordinate(x)?;
            let y = read_coordinate(y)?;
            Ok(Position { x, y, z: None })
        }
        [x, y, z] => {
            let x = read_coordinate(x)?;
            let y = read_coordinate(y)?;
            let z = read_coordinate(z)?;
            Ok(Position { x, y, z: Some(z) })
        }
        _ => Err(JsonFault::Fault(Fault::BadPosition)),
    }
}

/// The position of the elements of an array. `seen` counts the positions of the feature.
#[tactic(auto, unfolding(crate::specs::ParsedGeometries::position))]
pub(crate) fn read_position(elements: &[Value], seen: &mut usize) -> Result<Position, JsonFault>
    requires { seen.old ≤ max_positions }
    ensures reads { Gives (λ p. (position_value p, seen.new)) result
        (position (map view elements.now) seen.old) }
    ensures counted { seen.new ≤ max_positions }
{
    if *seen >= MAX_POSITIONS {
        return Err(JsonFault::Fault(Fault::TooManyPositions));
    }
    *seen += 1;
    read_numbers(elements)
}

/// The elements of an array, or a fault.
pub(crate) fn elements(value: &Value, fault: Fault) -> Result<&[Value], JsonFault>
    ensures { Gives (λ v. map view v.now) result (elements_of fault (view value.now)) }
{
    match value.as_array() {
        Some(items) => Ok(items),
        None => Err(JsonFault::Fault(fault)),
    }
}

#[tactic(auto, unfolding(crate::specs::ParsedGeometries::inside))]
fn read_position_in(value: &Value, seen: &mut usize) -> Result<Position, JsonFault>
    requires { seen.old ≤ max_positions }
    ensures reads { Gives (λ p. (position_value p, seen.new)) result
        (inside BadPosition position (view value.now) seen.old) }
    ensures counted { seen.new ≤ max_positions }
{
    let numbers = elements(value, Fault::BadPosition)?;
    read_position(numbers, seen)
}

// Positions from left to right.
fn read_positions(
    alloc: Global,
    values: &[Value],
    seen: &mut usize,
) -> Result<Vec<Position>, JsonFault>
    requires { seen.old ≤ max_positions }
    ensures reads { Gives (λ v. (positions_value v.items, seen.new)) result
        (positions (map view values.now) seen.old) }
    ensures counted { seen.new ≤ max_positions }
{
    let mut read = Vec::with_capacity(alloc, values.len())?;
    for value in values {
        read.push(read_position_in(value, seen)?)?;
    }
    Ok(read)
}

/// Positions of an array that is not empty.
pub(crate) fn read_some_positions(
    alloc: Global,
    values: &[Value],
    seen: &mut usize,
) -> Result<NonEmpty<Position>, JsonFault>
    requires room { seen.old ≤ max_positions }
    requires some { 1 ≤ length values.now }
    ensures reads { Gives (λ v. (positions_value (items_of v), seen.new)) result
        (positions (map view values.now) seen.old) }
    ensures counted { seen.new ≤ max_positions }
{
    let positions = read_positions(alloc, values, seen)?;
    Ok(NonEmpty::new(positions))
}

/// The line of an array's elements.
#[tactic(auto, unfolding(crate::specs::ParsedGeometries::line))]
pub(crate) fn read_line(
    alloc: Global,
    values: &[Value],
    seen: &mut usize,
) -> Result<Line, JsonFault>
    requires { seen.old ≤ max_positions }
    ensures reads { Gives (λ l. (line_value l, seen.new)) result
        (line (map view values.now) seen.old) }
    ensures counted { seen.new ≤ max_positions }
{
    let positions = read_positions(alloc, values, seen)?;
    match Line::new(positions) {
        Ok(line) => Ok(line),
        Err(_) => Err(JsonFault::Fault(Fault::ShortLine)),
    }
}

#[tactic(auto, unfolding(crate::specs::ParsedGeometries::inside))]
fn read_line_in(alloc: Global, value: &Value, seen: &mut usize) -> Result<Line, JsonFault>
    requires { seen.old ≤ max_positions }
    ensures reads { Gives (λ l. (line_value l, seen.new)) result
        (inside BadGeometry line (view value.now) seen.old) }
    ensures counted { seen.new ≤ max_positions }
{
    let values = elements(value, Fault::BadGeometry)?;
    read_line(alloc, values, seen)
}

fn read_lines(alloc: Global, values: &[Value], seen: &mut usize) -> Result<Vec<Line>, JsonFault>
    requires { seen.old ≤ max_positions }
    ensures reads { Gives (λ v. (lines_value v.items, seen.new)) result
        (lines (map view values.now) seen.old) }
    ensures counted { seen.new ≤ max_positions }
{
    let mut read = Vec::with_capacity(alloc, values.len())?;
    for value in values {
        read.push(read_line_in(alloc, value, seen)?)?;
    }
    Ok(read)
}

/// Lines of an array that is not empty.
pub(crate) fn read_some_lines(
    alloc: Global,
    values: &[Value],
    seen: &mut usize,
) -> Result<NonEmpty<Line>, JsonFault>
    requires room { seen.old ≤ max_positions }
    requires some { 1 ≤ length values.now }
    ensures reads { Gives (λ v. (lines_value (items_of v), seen.new)) result
        (lines (map view values.now) seen.old) }
    ensures counted { seen.new ≤ max_positions }
{
    let lines = read_lines(alloc, values, seen)?;
    Ok(NonEmpty::new(lines))
}

// The ring of positions.
fn ring_of(positions: Vec<Position>) -> Result<Ring, JsonFault>
    ensures { Gives ring_value result (ends_of (positions_value positions.items)) }
{
    match Ring::new(positions) {
        Ok(ring) => Ok(ring),
        Err(GridFault::ShortRing) => Err(JsonFault::Fault(Fault::ShortRing)),
        Err(_) => Err(JsonFault::Fault(Fault::OpenRing)),
    }
}

#[tactic(auto, unfolding(crate::specs::ParsedGeometries::ring))]
fn read_ring(alloc: Global, values: &[Value], seen: &mut usize) -> Result<Ring, JsonFault>
    requires { seen.old ≤ max_positions }
    ensures reads { Gives (λ r. (ring_value r, seen.new)) result
        (ring (map view values.now) seen.old) }
    ensures counted { seen.new ≤ max_positions }
{
    let positions = read_positions(alloc, values, seen)?;
    ring_of(positions)
}

#[tactic(auto, unfolding(crate::specs::ParsedGeometries::inside))]
fn read_ring_in(alloc: Global, value: &Value, seen: &mut usize) -> Result<Ring, JsonFault>
    requires { seen.old ≤ max_positions }
    ensures reads { Gives (λ r. (ring_value r, seen.new)) result
        (inside BadGeometry ring (view value.now) seen.old) }
    ensures counted { seen.new ≤ max_positions }
{
    let values = elements(value, Fault::BadGeometry)?;
    read_ring(alloc, values, seen)
}

fn read_rings(alloc: Global, values: &[Value], seen: &mut usize) -> Result<Vec<Ring>, JsonFault>
    requires { seen.old ≤ max_positions }
    ensures reads { Gives (λ v. (rings_value v.items, seen.new)) result
        (rings (map view values.now) seen.old) }
    ensures counted { seen.new ≤ max_positions }
{
    let mut read = Vec::with_capacity(alloc, values.len())?;
    for value in values {
        read.push(read_ring_in(alloc, value, seen)?)?;
    }
    Ok(read)
}

// The polygon of rings, each in its direction.
fn polygon_of(rings: Vec<Ring>) -> Result<Polygon, JsonFault>
    ensures { Gives polygon_value result (some_rings (rings_value rings.items)) }
{
    if rings.is_empty() {
        return Err(JsonFault::Fault(Fault::BadGeometry));
    }
    Ok(Polygon::new(rings).oriented())
}

/// The polygon of an array's elements.
#[tactic(auto, unfolding(crate::specs::ParsedGeometries::polygon))]
pub(crate) fn read_polygon(
    alloc: Global,
    values: &[Value],
    seen: &mut usize,
) -> Result<Polygon, JsonFault>
    requires { seen.old ≤ max_positions }
    ensures reads { Gives (λ p. (polygon_value p, seen.new)) result
        (polygon (map view values.now) seen.old) }
    ensures counted { seen.new ≤ max_positions }
{
    let rings = read_rings(alloc, values, seen)?;
    polygon_of(rings)
}

#[tactic(auto, unfolding(crate::specs::ParsedGeometries::inside))]
fn read_polygon_in(alloc: Global, value: &Value, seen: &mut usize) -> Result<Polygon, JsonFault>
    requires { seen.old ≤ max_positions }
    ensures reads { Gives (λ p. (polygon_value p, seen.new)) result
        (inside BadGeometry polygon (view value.now) seen.old) }
    ensures counted { seen.new ≤ max_positions }
{
    let values = elements(value, Fault::BadGeometry)?;
    read_polygon(alloc, values, seen)
}

fn read_polygons(
    alloc: Global,
    values: &[Value],
    seen: &mut usize,
) -> Result<Vec<Polygon>, JsonFault>
    requires { seen.old ≤ max_positions }
    ensures reads { Gives (λ v. (polygons_value v.items, seen.new)) result
        (polygons (map view values.now) seen.old) }
    ensures counted { seen.new ≤ max_positions }
{
    let mut read = Vec::with_capacity(alloc, values.len())?;
    for value in values {
        read.push(read_polygon_in(alloc, value, seen)?)?;
    }
    Ok(read)
}

/// Polygons of an array that is not empty.
pub(crate) fn read_some_polygons(
    alloc: Global,
    values: &[Value],
    seen: &mut usize,
) -> Result<NonEmpty<Polygon>, JsonFault>
    requires room { seen.old ≤ max_positions }
    requires some { 1 ≤ length values.now }
    ensures reads { Gives (λ v. (polygons_value (items_of v), seen.new)) result
        (polygons (map view values.now) seen.old) }
    ensures counted { seen.new ≤ max_positions }
{
    let polygons = read_polygons(alloc, values, seen)?;
    Ok(NonEmpty::new(polygons))
}
