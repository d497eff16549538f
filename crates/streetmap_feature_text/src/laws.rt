//! Laws of the definitions.
ghost use Rattle.std.specs.Prelude.{◌≡◌, ℕ, List, All, Option, None, Some, Ok, map};
ghost use Rattle.serde_json.specs.Data.{Data};
ghost use Rattle.serde_json.specs.Read.{read};
ghost use Rattle.serde_json.specs.Written.{compact_text};
ghost use Rattle.streetmap_geojson.specs.FeatureValue.{FeatureValue, untimed};
ghost use Rattle.streetmap_geojson.specs.FeatureMeaning.{ReadsAs};
ghost use Rattle.streetmap_geojson.specs.Collection.{AreFeatures};
ghost use Rattle.streetmap_geojson.specs.JsonText.{json_of};
ghost use Rattle.streetmap_geojson.specs.FeatureInvariant.{IsFeature};
ghost use Rattle.streetmap_feature_text.specs.Written.{feature_data, collection_data};

/// A value reads as at most one feature under a time property, and what is written for a feature
/// reads as that feature without its time.
pub fn reads_once()
    ensures once { (time_property : Option (List ℕ)) (d : Data) (f g : FeatureValue)
        → ReadsAs time_property d f → ReadsAs time_property d g → f ≡ g }
    ensures again { (f : FeatureValue) → IsFeature f
        → ReadsAs None (feature_data f) (untimed f) }
{}

/// The compact text of what is written for a feature is read as that value: by the JSON reader,
/// and by `read_json`.
pub fn feature_text_reads_again()
    ensures value { (f : FeatureValue) → IsFeature f
        → read (compact_text (feature_data f)) ≡ Some (feature_data f) }
    ensures json { (f : FeatureValue) → IsFeature f
        → json_of (compact_text (feature_data f)) ≡ Ok (feature_data f) }
{}

/// What is written for a list of features reads as these features without their times, and its
/// compact text is read as its value.
pub fn collection_reads_again()
    ensures again { (fs : List FeatureValue) → All IsFeature fs
        → AreFeatures None (collection_data fs) (map untimed fs) }
    ensures json { (fs : List FeatureValue) → All IsFeature fs
        → json_of (compact_text (collection_data fs)) ≡ Ok (collection_data fs) }
{}
