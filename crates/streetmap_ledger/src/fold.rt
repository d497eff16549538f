//! A page, built feature by feature.
ghost use Rattle.std.specs.Prelude.{◌≡◌, ◌≤◌, ◌<◌, ◌||◌, ◌&&◌, nat_lt, IfOk, IsTrue, length};
ghost use Rattle.std.specs.Prelude.{string_bytes};
ghost use Rattle.std.specs.Option.{option_map, ForSome};
ghost use Rattle.streetmap_geojson.specs.Id.{is_id};
ghost use Rattle.streetmap_ledger.specs.Pages.{last_id};

use crate::Page;
use crate::selection::{comes_after, comes_after_unread, is_candidate, selects, selects_unread};
use std::alloc::{AllocError, Global};
use streetmap_feature_text::PackedFeature;
use streetmap_query::Query;

/// The page of the features taken so far. It holds at most the query's `limit` of them.
#[derive(Drop)]
pub struct PageFold<'a> {
    alloc: Global,
    query: &'a Query,
    features: Vec<PackedFeature>,
    matched: u64,
    more: bool,
    examined: u64,
    ghost few: { length features.items ≤ query.now.limit },
}

impl<'a> PageFold<'a> {
    ghost use Rattle.std.specs.Prelude.{List, [], ◌∷◌, ◌++◌, ◌+◌, ◌↔◌, OnOk, OnErr, IfSome, IsTrue};
    ghost use Rattle.std.specs.Prelude.{true, false, if◌then◌else◌};
    ghost use Rattle.streetmap_geojson.specs.FeatureValue.{FeatureValue};
    ghost use Rattle.streetmap_geojson.specs.FeatureInvariant.{IsFeature};
    ghost use Rattle.streetmap_query.specs.QueryValue.{QueryValue};
    ghost use Rattle.streetmap_query.specs.Views.{query_value};
    ghost use Rattle.streetmap_ledger.specs.Pages.{page_of, saturated, selects as selects_of};
    ghost use Rattle.streetmap_ledger.specs.Pages.{comes_after as comes_after_of};
    ghost use Rattle.streetmap_ledger.specs.Pages.{is_candidate as is_candidate_of};
    ghost use Rattle.streetmap_ledger.specs.PageView.{page_value};
    ghost use Rattle.streetmap_ledger.specs.Folds.{IsFoldOf, HoldsCandidates, IsFull, AreHidden};

    /// Holds the page of no features.
    pub fn new(alloc: Global, query: &'a Query) -> Self
        ensures { IsFoldOf (query_value query.now) result [] }
    {
        PageFold {
            alloc,
            query,
            features: Vec::new(alloc),
            matched: 0,
            more: false,
            examined: 0,
        }
    }

    /// Counts one more feature.
    fn count(&mut self, is_selected: bool)
        ensures matched { self.new.matched ≡ (if is_selected then saturated (self.old.matched + 1)
            else self.old.matched) }
        ensures examined { self.new.examined ≡ saturated (self.old.examined + 1) }
        ensures shown { (self.new.query ≡ self.old.query)
            × (self.new.features ≡ self.old.features)
            × (self.new.more ≡ self.old.more) }
    {
        if is_selected {
            self.matched = self.matched.saturating_add(1);
        }
        self.examined = self.examined.saturating_add(1);
    }

    /// Takes the next feature, and keeps it if the page shows it. If memory runs out for that, it
    /// is not counted.
    pub fn take(&mut self, feature: PackedFeature) -> Result<(), AllocError>
        ensures ok { (q : QueryValue) (fs : List FeatureValue) → IsFoldOf q self.old fs
            → OnOk result (IsFoldOf q self.new (fs ++ feature ∷ [])) }
        ensures err { (q : QueryValue) (fs : List FeatureValue) → IsFoldOf q self.old fs
            → OnErr result (IsFoldOf q self.new fs) }
    {
        if self.pass_hidden(&feature)? {
            return Ok(());
        }
        self.show(feature)
    }

    /// Counts the next feature if the page does not show it, and returns whether it did.
    fn pass_hidden(&mut self, feature: &PackedFeature) -> Result<bool, AllocError>
        ensures passed { IfOk result (λ hidden. IsTrue hidden → (q : QueryValue)
            (fs : List FeatureValue) → IsFoldOf q self.old fs
            → IsFoldOf q self.new (fs ++ feature.now ∷ [])) }
        ensures unchanged { IfOk result (λ hidden. hidden ≡ false → self.new ≡ self.old) }
        ensures failed { OnErr result (self.new ≡ self.old) }
        ensures selected { IfOk result (λ hidden. hidden ≡ false
            → selects_of (query_value self.old.query.now) feature.now ≡ true) }
        ensures following { IfOk result (λ hidden. hidden ≡ false
            → comes_after_of (query_value self.old.query.now).after feature.now ≡ true) }
        ensures room { IfOk result (λ hidden. hidden ≡ false
            → length self.old.features.items < self.old.query.now.limit) }
    {
        if !selects(self.alloc, self.query, feature)? {
            self.skip_unselected();
            return Ok(true);
        }
        let following = comes_after(self.alloc, self.query, feature)?;
        if following && !self.is_full() {
            return Ok(false);
        }
        self.count_hidden(following);
        Ok(true)
    }

    /// Shows the next feature.
    fn show(&mut self, feature: PackedFeature) -> Result<(), AllocError>
        requires { length self.old.features.items < self.old.query.now.limit }
        ensures ok { (q : QueryValue) (fs : List FeatureValue) → IsFoldOf q self.old fs
            → selects_of q feature ≡ true → comes_after_of q.after feature ≡ true
            → OnOk result (IsFoldOf q self.new (fs ++ feature ∷ [])) }
        ensures err { (q : QueryValue) (fs : List FeatureValue) → IsFoldOf q self.old fs
            → OnErr result (IsFoldOf q self.new fs) }
    {
        self.features.push(feature)?;
        self.count(true);
        Ok(())
    }

    /// Whether the page shows as many features as the query's limit.
    pub fn is_full(&self) -> bool
        ensures { IsTrue result ↔ IsFull self.now }
    {
        self.features.len() >= self.query.limit as usize
    }

    /// Counts the next feature, which is selected and not shown: either it comes after the query's
    /// id (`following`), and the page is full, or it does not come after that id.
    pub fn count_hidden(&mut self, following: bool)
        ensures { (q : QueryValue) (fs : List FeatureValue) (f : FeatureValue)
            → IsFoldOf q self.old fs → selects_of q f ≡ true → comes_after_of q.after f ≡ following
            → (IsTrue following → IsFull self.old) → IsFoldOf q self.new (fs ++ f ∷ []) }
    {
        if following {
            self.more = true;
        }
        self.count(true);
    }

    /// Counts `count` more selected features.
    fn add(&mut self, count: u64)
        ensures matched { self.new.matched ≡ saturated (self.old.matched + count) }
        ensures examined { self.new.examined ≡ saturated (self.old.examined + count) }
        ensures query { self.new.query ≡ self.old.query }
        ensures features { self.new.features ≡ self.old.features }
        ensures more { self.new.more ≡ self.old.more }
    {
        self.matched = self.matched.saturating_add(count);
        self.examined = self.examined.saturating_add(count);
    }

    /// Counts the next `count` features, which are selected and not shown: either all come after
    /// the query's id (`following`), and the page is full, or none comes after that id.
    pub fn count_all_hidden(&mut self, count: u64, following: bool)
        ensures { (q : QueryValue) (fs gs : List FeatureValue) → IsFoldOf q self.old fs →
            AreHidden q following gs → length gs ≡ count → (IsTrue following → IsFull self.old) →
            IsFoldOf q self.new (fs ++ gs) }
    {
        self.more = more_after(self.more, following, count);
        self.add(count);
    }

    /// Counts the next feature, which is not selected.
    pub(crate) fn skip_unselected(&mut self)
        ensures { (q : QueryValue) (fs : List FeatureValue) (f : FeatureValue)
            → IsFoldOf q self.old fs → selects_of q f ≡ false
            → IsFoldOf q self.new (fs ++ f ∷ []) }
    {
        self.count(false);
    }

    /// Counts the next candidate if its extent, its time and its id say that the page does not show
    /// it, and returns whether it did.
    fn pass_candidate(&mut self, feature: &PackedFeature) -> bool
        ensures passed { IsTrue result → (q : QueryValue) (fs : List FeatureValue)
            → IsFoldOf q self.old fs → IsFoldOf q self.new (fs ++ feature.now ∷ []) }
        ensures unchanged { result ≡ false → self.new ≡ self.old }
    {
        match selects_unread(self.query, feature) {
            Some(false) => {
                self.skip_unselected();
                true
            }
            Some(true) => match comes_after_unread(self.query, feature) {
                Some(following) if !following || self.is_full() => {
                    self.count_hidden(following);
                    true
                }
                _ => false,
            },
            None => false,
        }
    }

    /// Takes the next feature, if it is a candidate of the query: a copy of it is kept if the page
    /// shows it. If memory runs out for that, it is not counted.
    pub fn examine(&mut self, feature: &PackedFeature) -> Result<(), AllocError>
        ensures { (q : QueryValue) (fs : List FeatureValue) → HoldsCandidates q self.old fs
            → OnOk result (HoldsCandidates q self.new (fs ++ feature.now ∷ [])) }
    {
        feature.facts();
        if !is_candidate(self.query, feature) || self.pass_candidate(feature) {
            return Ok(());
        }
        self.take(feature.copy(self.alloc)?)
    }

    /// The page of the features taken.
    pub fn end(self, alloc: Global) -> Result<Page, AllocError>
        ensures { (q : QueryValue) (fs : List FeatureValue) → IsFoldOf q self.entry fs
            → IfOk result (λ page. page_value page ≡ page_of q (length fs) fs) }
    {
        let next = if self.more {
            last_of(alloc, &self.features)?
        } else {
            None
        };
        let PageFold {
            alloc: _,
            query: _,
            features,
            matched,
            more: _,
            examined,
        } = self;
        Ok(Page {
            features,
            matched,
            next,
            examined,
        })
    }
}

/// Whether more features follow what a page shows, once `count` more hidden ones were met.
fn more_after(more: bool, following: bool, count: u64) -> bool
    ensures { result ≡ (more || (following && nat_lt 0 count)) }
{
    more || (following && count > 0)
}

/// The id of the last feature.
fn last_of(alloc: Global, features: &[PackedFeature]) -> Result<Option<String>, AllocError>
    ensures value { IfOk result (λ id. option_map string_bytes id ≡ last_id features.now) }
    ensures named { IfOk result (λ id. ForSome id (λ text. IsTrue (is_id (string_bytes text)))) }
{
    match features.last() {
        Some(feature) => {
            feature.facts();
            Ok(Some(feature.id(alloc)?))
        }
        None => Ok(None),
    }
}
