//! A feature.
ghost use Rattle.std.specs.Prelude.{◌≡◌, option_map};
ghost use Rattle.serde_json.specs.View.{view};
ghost use Rattle.streetmap_grid.specs.Views.{geometry_value, box_value};
ghost use Rattle.streetmap_grid.specs.Extent.{extent_of};
ghost use Rattle.streetmap_moment.specs.Views.{interval_value};

use crate::copy::copy_geometry_member;
use crate::id::Id;
use crate::times::read_time;
use serde_json::Value;
use std::alloc::{AllocError, Global};
use std::marker::Model;
use streetmap_grid::{Geometry, GridBox};
use streetmap_moment::{Interval, TimeFault};

/// A feature (RFC 7946, section 3.2): an id, a geometry or none, properties, which are an object or
/// null, and a time, if it has one.
///
/// Each holds at most 64 levels of nesting and 100,000 positions; its numbers are whole, and its
/// polygons have their exterior ring counterclockwise and their holes clockwise. Clauses see it
/// as a `FeatureValue`.
#[derive(Drop)]
pub struct Feature {
    pub(crate) id: Id,
    pub(crate) geometry: Option<Geometry>,
    pub(crate) properties: Value,
    pub(crate) time: Option<Interval>,
}

impl Model for Feature {
    ghost use Rattle.std.specs.Prelude.{option_map};
    ghost use Rattle.serde_json.specs.View.{view as json};
    ghost use Rattle.streetmap_grid.specs.Views.{geometry_value};
    ghost use Rattle.streetmap_moment.specs.Views.{interval_value};
    ghost use Rattle.streetmap_geojson.specs.FeatureValue.{FeatureValue};
    ghost use Rattle.streetmap_geojson.specs.FeatureInvariant.{KeepsRules};
    ghost use Rattle.streetmap_geojson.specs.Stored.{coded_feature};

    ghost Value = { FeatureValue };

    ghost coded = { coded_feature };

    ghost view = { λ f. record { id = f.id; geometry = option_map geometry_value f.geometry; properties = json f.properties; time = option_map interval_value f.time } };

    ghost invariant = { λ f. KeepsRules (record { id = f.id; geometry = option_map geometry_value f.geometry; properties = json f.properties; time = option_map interval_value f.time }) };
}

impl Feature {
    ghost use Rattle.streetmap_geojson.specs.FeatureValue.{retimed};
    ghost use Rattle.streetmap_geojson.specs.FeatureInvariant.{IsFeature};
    ghost use Rattle.streetmap_geojson.specs.Times.{time_of, timed};
    ghost use Rattle.std.specs.Prelude.{Ok, Err, IfOk, IfErr, OnErr};

    /// An equal feature.
    pub fn copy(&self, alloc: Global) -> Result<Feature, AllocError>
        ensures { IfOk result (λ f. f ≡ self.now) }
    {
        let id = self.id.copy()?;
        let geometry = copy_geometry_member(alloc, &self.geometry)?;
        let properties = self.properties.clone()?;
        Ok(Feature {
            id,
            geometry,
            properties,
            time: self.time,
        })
    }

    /// The feature with this time.
    pub fn with_time(self, time: Option<Interval>) -> Feature
        ensures { result ≡ retimed self (option_map interval_value time) }
    {
        Feature {
            id: self.id,
            geometry: self.geometry,
            properties: self.properties,
            time,
        }
    }

    /// What is true of every feature.
    pub fn facts(&self)
        ensures { IsFeature self.now }
    {
        let _ = &self.time;
        let _ = self.id.as_str();
    }

    /// The id, 1 to 128 bytes.
    pub fn id(&self) -> &str
        ensures { result.now ≡ self.now.id }
    {
        self.id.as_str()
    }

    /// The properties, an object or null.
    pub fn properties(&self) -> &Value
        ensures { view result.now ≡ self.now.properties }
    {
        &self.properties
    }

    /// The geometry, or none.
    pub fn geometry(&self) -> Option<&Geometry>
        ensures { option_map (λ g. geometry_value g.now) result ≡ self.now.geometry }
    {
        self.geometry.as_ref()
    }

    /// The time, if the feature has one.
    pub fn time(&self) -> Option<Interval>
        ensures { option_map interval_value result ≡ self.now.time }
    {
        self.time
    }

    /// The extent of the geometry, in millimetres; none without a geometry.
    pub fn extent(&self) -> Option<GridBox>
        ensures { option_map box_value result ≡ option_map extent_of self.now.geometry }
    {
        match &self.geometry {
            Some(geometry) => Some(geometry.extent()),
            None => None,
        }
    }

    /// What the property of that name says of the time; none without a name. Refused if the
    /// property is neither absent nor null nor a readable text.
    pub fn time_under(&self, time_property: Option<&str>) -> Result<Option<Interval>, TimeFault>
        ensures reported { IfOk result (λ t.
            time_of (option_map (λ s. s.now) time_property.entry) self.now.properties
            ≡ Ok (option_map interval_value t)) }
        ensures refused { IfErr result (λ e.
            time_of (option_map (λ s. s.now) time_property.entry) self.now.properties ≡ Err e) }
    {
        read_time(&self.properties, time_property)
    }

    /// Sets the time to what the property of that name says, or to none without a name. Refused if
    /// the property is neither absent nor null nor a readable text; the feature is then unchanged.
    pub fn timed(&mut self, time_property: Option<&str>) -> Result<(), TimeFault>
        ensures set { IfOk result (λ _.
            timed (option_map (λ s. s.now) time_property.entry) self.old
            ≡ Ok self.new) }
        ensures refused { IfErr result (λ e.
            timed (option_map (λ s. s.now) time_property.entry) self.old ≡ Err e) }
        ensures unchanged { OnErr result (self.new ≡ self.old) }
    {
        match read_time(&self.properties, time_property) {
            Ok(time) => {
                self.time = time;
                Ok(())
            }
            Err(fault) => Err(fault),
        }
    }
}
