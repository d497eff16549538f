//! Features that are kept as their texts.
ghost use Rattle.std.specs.Prelude.{◌≡◌, ◌↔◌, IfOk, IfSome, IsTrue, option_map, string_bytes};
ghost use Rattle.serde_json.specs.Written.{compact_text};
ghost use Rattle.streetmap_grid.specs.Views.{box_value};
ghost use Rattle.streetmap_grid.specs.Extent.{extent_of};
ghost use Rattle.streetmap_moment.specs.Views.{interval_value};
ghost use Rattle.streetmap_geojson.specs.Fault.{Gives};
ghost use Rattle.streetmap_geojson.specs.FeatureValue.{FeatureValue, retimed};
ghost use Rattle.streetmap_geojson.specs.FeatureView.{feature_value};
ghost use Rattle.streetmap_geojson.specs.FeatureInvariant.{IsFeature};
ghost use Rattle.streetmap_feature_text.specs.Written.{feature_data};
ghost use Rattle.streetmap_feature_text.specs.Packed.{feature_in_text, IsPartOf, IsFoundIn};

use crate::packed_interval::PackedInterval;
use crate::written_feature::{WrittenFeature, text_of};
use bytes::Bytes;
use json::Scratch;
use memchr::memmem;
use std::alloc::{AllocError, Global};
use std::marker::Model;
use streetmap_feature_reader::read_feature_text;
use streetmap_geojson::{Feature, JsonFault};
use streetmap_grid::GridBox;
use streetmap_moment::Interval;

/// A part of a text, from one place up to another.
#[derive(Clone, Copy)]
struct Part {
    start: u32,
    end: u32,
}

/// What is kept of a feature: its compact text, its extent and its time, and the place of its id in
/// the text, if it is unescaped there.
#[derive(Drop)]
struct Packing {
    text: Bytes,
    extent: Option<GridBox>,
    time: PackedInterval,
    id: Option<Part>,
}

/// A feature that is kept as its compact text, with its extent and its time beside it: it takes a
/// fraction of the memory of a [`Feature`], and none of its own for the text if that is a part of a
/// shared one. Clauses see it as a `FeatureValue`.
#[derive(Drop)]
pub struct PackedFeature {
    kept: Box<Packing>,
}

impl Model for PackedFeature {
    ghost use Rattle.std.specs.Prelude.{option_map};
    ghost use Rattle.streetmap_grid.specs.Views.{box_value};
    ghost use Rattle.streetmap_geojson.specs.FeatureValue.{FeatureValue};
    ghost use Rattle.streetmap_feature_text.specs.Packed.{unpacked, IsPacked};
    ghost use Rattle.streetmap_feature_text.specs.PackedIntervalView.{packed_interval_value};
    ghost use Rattle.streetmap_geojson.specs.Stored.{coded_feature};

    ghost Value = { FeatureValue };

    ghost coded = { coded_feature };

    ghost view = { λ p. unpacked p.kept.value.text (packed_interval_value p.kept.value.time) };

    ghost invariant = { λ p. IsPacked p.kept.value.text (option_map box_value p.kept.value.extent)
        p.kept.value.id };
}

/// The bytes before an id in a feature's text.
const BEFORE_THE_ID: &[u8] = b"\"id\":\"";

/// The place of the id in a feature's text, if it is unescaped there.
fn id_in(text: &[u8], id: &[u8]) -> Option<Part>
    ensures { IfSome result (λ part. IsPartOf part text.now id.now) }
{
    let start = memmem::find(text, BEFORE_THE_ID)?.checked_add(BEFORE_THE_ID.len())?;
    let end = start.checked_add(id.len())?;
    if end <= text.len() && &text[start..end] == id {
        Some(Part {
            start: u32::try_from(start).ok()?,
            end: u32::try_from(end).ok()?,
        })
    } else {
        None
    }
}

/// The feature of a JSON text, without a time.
pub(crate) fn read_text(alloc: Global, text: &[u8]) -> Result<Feature, JsonFault>
    ensures { Gives feature_value result (feature_in_text text.now) }
{
    read_feature_text(alloc, &mut Scratch::new(alloc), text, None)
}

impl PackedFeature {
    /// Packs a feature whose compact text this is, as [`crate::push_feature`] writes it, with this
    /// time.
    pub fn new(
        alloc: Global,
        text: Bytes,
        feature: &WrittenFeature,
        time: Option<Interval>,
    ) -> Result<PackedFeature, AllocError>
        requires { text ≡ compact_text (feature_data feature.now) }
        ensures { IfOk result (λ p. p ≡ retimed feature.now (option_map interval_value time)) }
    {
        feature.facts();
        let id = id_in(text.as_slice(), feature.id().as_bytes());
        let kept = Packing {
            text,
            extent: feature.extent(),
            time: PackedInterval::new(time),
            id,
        };
        let kept = Box::new(alloc, kept)?;
        Ok(PackedFeature { kept })
    }

    /// Packs a feature, whose compact text is written for it.
    ///
    /// # Errors
    ///
    /// `AllocError` if memory runs out.
    pub fn of(alloc: Global, feature: &Feature) -> Result<PackedFeature, AllocError>
        ensures { IfOk result (λ p. p ≡ feature.now) }
    {
        feature.facts();
        let text = text_of(alloc, feature)?;
        PackedFeature::from_text(alloc, &text, feature.id(), feature.extent(), feature.time())
    }

    /// The feature of a compact text, of which these were found: its id, the extent of its
    /// geometry, in millimetres, and its time.
    ///
    /// # Errors
    ///
    /// `AllocError` if memory runs out.
    pub fn from_text(
        alloc: Global,
        text: &str,
        id: &str,
        extent: Option<GridBox>,
        time: Option<Interval>,
    ) -> Result<PackedFeature, AllocError>
        requires { (f : FeatureValue) × IsFoundIn text.now id.now (option_map box_value extent)
            (option_map interval_value time) f }
        ensures { IfOk result (λ p. (f : FeatureValue) → IsFoundIn text.now id.now
            (option_map box_value extent) (option_map interval_value time) f → p ≡ f) }
    {
        let text = Bytes::copy_from_slice(alloc, text.as_bytes())?;
        let id = id_in(text.as_slice(), id.as_bytes());
        let kept = Packing {
            text,
            extent,
            time: PackedInterval::new(time),
            id,
        };
        let kept = Box::new(alloc, kept)?;
        Ok(PackedFeature { kept })
    }

    /// An equal feature, which shares the memory of the text.
    ///
    /// # Errors
    ///
    /// `AllocError` if memory runs out.
    pub fn copy(&self, alloc: Global) -> Result<PackedFeature, AllocError>
        ensures { IfOk result (λ p. p ≡ self.now) }
    {
        let kept = Packing {
            text: self.kept.text.clone()?,
            extent: self.kept.extent,
            time: self.kept.time,
            id: self.kept.id,
        };
        let kept = Box::new(alloc, kept)?;
        Ok(PackedFeature { kept })
    }

    /// What is true of every feature.
    pub fn facts(&self)
        ensures { IsFeature self.now }
    {
        let _ = &self.kept.time;
    }

    /// The compact text of the feature, without its time.
    pub fn text(&self) -> &str
        ensures { result.now ≡ compact_text (feature_data self.now) }
    {
        match simdutf8::basic::from_utf8(self.kept.text.as_slice()) {
            Ok(text) => text,
            Err(_) => unreachable!(),
        }
    }

    /// The extent of the geometry, in millimetres; none without a geometry.
    pub fn extent(&self) -> Option<GridBox>
        ensures { option_map box_value result ≡ option_map extent_of self.now.geometry }
    {
        self.kept.extent
    }

    /// The time, if the feature has one.
    pub fn time(&self) -> Option<Interval>
        ensures { option_map interval_value result ≡ self.now.time }
    {
        self.kept.time.time()
    }

    /// The bytes of the id, if the text has exactly these bytes. None if it does not, since one of
    /// them is written as an escape: then the caller must read the feature.
    pub fn unescaped_id(&self) -> Option<&[u8]>
        ensures { IfSome result (λ id. id.now ≡ self.now.id) }
    {
        match self.kept.id {
            Some(part) => Some(&self.kept.text.as_slice()[part.start as usize..part.end as usize]),
            None => None,
        }
    }

    /// The id, 1 to 128 bytes.
    ///
    /// # Errors
    ///
    /// `AllocError` if memory runs out.
    pub fn id(&self, alloc: Global) -> Result<String, AllocError>
        ensures { IfOk result (λ id. string_bytes id ≡ self.now.id) }
    {
        self.facts();
        match self.unescaped_id() {
            Some(id) => match std::str::from_utf8(id) {
                Ok(id) => String::from_str(alloc, id),
                Err(_) => unreachable!(),
            },
            None => String::from_str(alloc, self.unpack(alloc)?.id()),
        }
    }

    /// Whether the feature has this id.
    ///
    /// # Errors
    ///
    /// `AllocError` if memory runs out.
    pub fn is_named(&self, alloc: Global, id: &str) -> Result<bool, AllocError>
        ensures { IfOk result (λ named. IsTrue named ↔ (id.now ≡ self.now.id)) }
    {
        match self.unescaped_id() {
            Some(own) => Ok(own == id.as_bytes()),
            None => Ok(self.unpack(alloc)?.id() == id),
        }
    }

    /// The feature, read from its text.
    ///
    /// # Errors
    ///
    /// `AllocError` if memory runs out; the caller may try again.
    pub fn unpack(&self, alloc: Global) -> Result<Feature, AllocError>
        ensures { IfOk result (λ f. f ≡ self.now) }
    {
        match read_text(alloc, self.kept.text.as_slice()) {
            Ok(feature) => Ok(feature.with_time(self.kept.time.time())),
            Err(JsonFault::Memory) => Err(AllocError),
            Err(JsonFault::Fault(_)) => unreachable!(),
        }
    }
}
