//! Features as their texts.
ghost use Rattle.std.specs.Prelude.{◌≡◌, Ok, Err, IfErr, IfOk, option_map, string_bytes};
ghost use Rattle.serde_json.specs.Written.{compact_text};
ghost use Rattle.streetmap_grid.specs.Views.{box_value};
ghost use Rattle.streetmap_grid.specs.Extent.{extent_of};
ghost use Rattle.streetmap_moment.specs.Views.{interval_value};
ghost use Rattle.streetmap_geojson.specs.FeatureInvariant.{IsFeature};
ghost use Rattle.streetmap_geojson.specs.FeatureValue.{untimed};
ghost use Rattle.streetmap_geojson.specs.Times.{time_of};
ghost use Rattle.streetmap_feature_text.specs.Written.{feature_data};

use crate::feature_json::push_feature;
use crate::packed::read_text;
use crate::packed_interval::PackedInterval;
use serde_json::Value;
use std::alloc::{AllocError, Global};
use std::marker::Model;
use streetmap_geojson::{Feature, JsonFault};
use streetmap_grid::GridBox;
use streetmap_moment::{Interval, TimeFault};

/// The room that the text of a feature begins with, in bytes.
const TEXT_ROOM: usize = 256;

/// What is kept of a feature: its compact text, its id, its extent and its time, and the feature
/// itself if one of its properties may be a time.
#[derive(Drop)]
struct Written {
    text: String,
    id: String,
    extent: Option<GridBox>,
    time: PackedInterval,
    feature: Option<Feature>,
}

/// A feature as its compact text, which is made once and may be written often. Its properties are
/// kept only in the text, unless one of them may be a time: so most features take a third of the
/// memory of a [`Feature`], and the times of the others are found without reading them again. It is
/// kept at an address, which is passed on. Clauses see it as a `FeatureValue`.
#[derive(Drop)]
pub struct WrittenFeature {
    kept: Box<Written>,
}

impl Model for WrittenFeature {
    ghost use Rattle.std.specs.Prelude.{option_map, string_bytes};
    ghost use Rattle.streetmap_grid.specs.Views.{box_value};
    ghost use Rattle.streetmap_geojson.specs.FeatureValue.{FeatureValue};
    ghost use Rattle.streetmap_geojson.specs.FeatureView.{feature_value};
    ghost use Rattle.streetmap_geojson.specs.Stored.{coded_feature};
    ghost use Rattle.streetmap_feature_text.specs.Packed.{unpacked};
    ghost use Rattle.streetmap_feature_text.specs.PackedIntervalView.{packed_interval_value};
    ghost use Rattle.streetmap_feature_text.specs.WrittenFeatures.{IsWritten};

    ghost Value = { FeatureValue };

    ghost coded = { coded_feature };

    ghost view = { λ w. unpacked (string_bytes w.kept.value.text)
        (packed_interval_value w.kept.value.time) };

    ghost invariant = { λ w. IsWritten (string_bytes w.kept.value.text)
        (string_bytes w.kept.value.id) (option_map box_value w.kept.value.extent)
        (packed_interval_value w.kept.value.time)
        (option_map feature_value w.kept.value.feature) };
}

/// Whether a value may be read as a time: a text that begins with a digit, or with the dots of an
/// open start.
fn may_be_time(value: &Value) -> bool {
    match value.as_str() {
        Some(text) => match text.as_bytes() {
            [first, ..] => first.is_ascii_digit() || *first == b'.',
            [] => false,
        },
        None => false,
    }
}

/// Whether one of the properties of a feature may be read as a time.
fn may_have_time(feature: &Feature) -> bool {
    let Some(properties) = feature.properties().as_object() else {
        return false;
    };
    for (_name, property) in properties.iter() {
        if may_be_time(property) {
            return true;
        }
    }
    false
}

/// The compact text of a feature.
pub(crate) fn text_of(alloc: Global, feature: &Feature) -> Result<String, AllocError>
    ensures { IfOk result (λ text. string_bytes text ≡ compact_text (feature_data feature.now)) }
{
    let mut text = String::with_capacity(alloc, TEXT_ROOM)?;
    push_feature(alloc, &mut text, feature)?;
    Ok(text)
}

impl WrittenFeature {
    /// A feature, with its text.
    ///
    /// # Errors
    ///
    /// `AllocError` if memory runs out.
    pub fn new(alloc: Global, feature: Feature) -> Result<WrittenFeature, AllocError>
        ensures { IfOk result (λ w. w ≡ feature) }
    {
        feature.facts();
        let kept = Written {
            text: text_of(alloc, &feature)?,
            id: String::from_str(alloc, feature.id())?,
            extent: feature.extent(),
            time: PackedInterval::new(feature.time()),
            feature: may_have_time(&feature).then_some(feature),
        };
        let kept = Box::new(alloc, kept)?;
        Ok(WrittenFeature { kept })
    }

    /// The id, 1 to 128 bytes.
    pub fn id(&self) -> &str
        ensures { result.now ≡ self.now.id }
    {
        self.kept.id.as_str()
    }

    /// The extent of the geometry, in millimetres; none without a geometry.
    pub fn extent(&self) -> Option<GridBox>
        ensures { option_map box_value result ≡ option_map extent_of self.now.geometry }
    {
        self.kept.extent
    }

    /// What is true of every feature.
    pub fn facts(&self)
        ensures { IsFeature self.now }
    {
        let _ = &self.kept.time;
    }

    /// The compact text of the feature, without its time.
    pub fn text(&self) -> &str
        ensures { result.now ≡ compact_text (feature_data self.now) }
    {
        self.kept.text.as_str()
    }

    /// The feature, read from its text, without its time.
    fn read(&self, alloc: Global) -> Result<Feature, AllocError>
        ensures { IfOk result (λ f. f ≡ untimed self.now) }
    {
        match read_text(alloc, self.kept.text.as_bytes()) {
            Ok(feature) => Ok(feature),
            Err(JsonFault::Memory) => Err(AllocError),
            Err(JsonFault::Fault(_)) => unreachable!(),
        }
    }

    /// What the property of that name says of the time, as [`Feature::time_under`] returns it; none
    /// without a name. A feature whose properties are only in its text is read for it.
    ///
    /// # Errors
    ///
    /// `AllocError` if memory runs out; the caller may try again.
    pub fn time_under(
        &self,
        alloc: Global,
        property: Option<&str>,
    ) -> Result<Result<Option<Interval>, TimeFault>, AllocError>
        ensures reported { IfOk result (λ reported. IfOk reported (λ t.
            time_of (option_map (λ s. s.now) property.entry) self.now.properties
            ≡ Ok (option_map interval_value t))) }
        ensures refused { IfOk result (λ reported. IfErr reported (λ e.
            time_of (option_map (λ s. s.now) property.entry) self.now.properties ≡ Err e)) }
    {
        match &self.kept.feature {
            Some(feature) => Ok(feature.time_under(property)),
            None if property.is_none() => Ok(Ok(None)),
            None => Ok(self.read(alloc)?.time_under(property)),
        }
    }
}
