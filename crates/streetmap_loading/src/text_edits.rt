//! Edits of the features of a text, one per line.
ghost use Rattle.std.specs.Prelude.{◌≡◌, Option};
ghost use Rattle.streetmap_loading.specs.Texts.{without_mark, without_separator, text_on};
ghost use Rattle.streetmap_loading.specs.Texts.{without_return};
ghost use Rattle.streetmap_loading.specs.Texts.{is_skipped, items_left, skips_left};
ghost use Rattle.streetmap_loading.specs.TextView.{rules_value, Steps, StepSkips, and_left};

use crate::feature_line::read_edit;
use crate::listener::Listener;
use crate::load_fault::LoadFault;
use crate::rules::FeatureRules;
use crate::source::{Edits, PlacedEdit};
use crate::text_fault::TextFault;
use json::Scratch;
use std::alloc::Global;
use std::io::BufRead;
use streetmap_text_lines::{Found, LineFault, read_line};

/// The most bytes of a line, its line feed not counted.
pub const MAX_LINE: usize = 8_388_608;

/// The result of a read of a line.
#[derive(Drop)]
pub(crate) enum Step {
    /// The line had no text, or a feature that is skipped.
    Past,
    /// The line had a feature.
    Edit(PlacedEdit),
    /// The text ended before it.
    End,
}

/// The edits of the features of a text, after the opening of their collection, if any. The text
/// has one feature per line: a record separator before it, a carriage return after it, empty lines
/// and a byte order mark before the first are skipped.
#[derive(Drop)]
pub struct TextEdits<R: BufRead + Drop, L: Listener + Drop> {
    pub alloc: Global,
    pub reader: R,
    pub listener: L,
    /// The line that was read last. Its memory is reused for each line.
    pub line: Vec<u8>,
    /// The memory for a line's tokens. It is reused for each line.
    pub scratch: Scratch,
    pub rules: FeatureRules,
    pub opening: Option<PlacedEdit>,
    /// How many features were found.
    pub features: u64,
    /// How many of them were skipped.
    pub skipped: u64,
    /// In about how many bytes.
    pub bytes: u64,
}

/// A line without the byte order mark in front of it.
fn drop_mark(line: &[u8]) -> &[u8]
    ensures { result.now ≡ without_mark line.entry.now }
{
    match line.strip_prefix([239, 187, 191].as_slice()) {
        Some(rest) => rest,
        None => line,
    }
}

/// A line without the record separator in front of it.
fn drop_separator(line: &[u8]) -> &[u8]
    ensures { result.now ≡ without_separator line.entry.now }
{
    match line {
        [30, ..] => &line[1..],
        _ => line,
    }
}

/// A line that is only a carriage return, without it; any other line as it is.
fn drop_return(line: &[u8]) -> &[u8]
    ensures { result.now ≡ without_return line.entry.now }
{
    match line {
        [13] => &line[1..],
        _ => line,
    }
}

/// The text of the feature with that place, on its line.
fn text_on(place: u64, line: &[u8]) -> &[u8]
    ensures { result.now ≡ text_on place line.entry.now }
{
    if place == 1 {
        drop_return(drop_separator(drop_mark(line)))
    } else {
        drop_return(drop_separator(line))
    }
}

impl FeatureRules {
    /// Whether the fault is one of a feature, and is skipped.
    fn skips(&self, fault: TextFault) -> bool
        ensures { result ≡ is_skipped (rules_value self.now) fault }
    {
        match fault {
            TextFault::NotASequence | TextFault::LineTooLong(_) => false,
            TextFault::TooManyDigits(_) | TextFault::BadFeature(_, _) | TextFault::TooLarge(_) => {
                self.skip.is_some()
            }
        }
    }
}

impl<R: BufRead + Drop, L: Listener + Drop> TextEdits<R, L> {
    /// Reads one line.
    fn step(&mut self) -> Result<Step, LoadFault>
        ensures steps { Steps
            (items_left (rules_value self.old.rules) self.old.features
            (R.remaining self.old.reader))
            (items_left (rules_value self.old.rules) self.new.features
            (R.remaining self.new.reader))
            result }
        ensures skips { StepSkips
            (skips_left (rules_value self.old.rules) self.old.skipped self.old.features
            (R.remaining self.old.reader))
            (skips_left (rules_value self.old.rules) self.new.skipped self.new.features
            (R.remaining self.new.reader))
            self.new.skipped result }
        ensures rules { self.new.rules ≡ self.old.rules }
        ensures opening { self.new.opening ≡ self.old.opening }
    {
        let Some(place) = self.features.checked_add(1) else {
            return Err(LoadFault::ReadFailed);
        };
        match read_line(&mut self.reader, &mut self.line, MAX_LINE) {
            Ok(Found::Line) => {}
            Ok(Found::End) => return Ok(Step::End),
            Err(LineFault::LineTooLong) => {
                return Err(LoadFault::AtFault(TextFault::LineTooLong(place)));
            }
            Err(LineFault::ReadFailed) => return Err(LoadFault::ReadFailed),
            Err(LineFault::Memory) => return Err(LoadFault::Memory),
        }
        self.bytes = self
            .bytes
            .saturating_add(self.line.len() as u64)
            .saturating_add(1);
        let text = text_on(place, &self.line);
        if text.is_empty() {
            return Ok(Step::Past);
        }
        self.features = place;
        self.listener.reached(place, self.bytes);
        match read_edit(self.alloc, &mut self.scratch, &self.rules, place, text) {
            Ok(placed) => Ok(Step::Edit(placed)),
            Err(LoadFault::AtFault(fault)) => {
                if self.rules.skips(fault) {
                    let Some(skipped) = self.skipped.checked_add(1) else {
                        return Err(LoadFault::ReadFailed);
                    };
                    self.skipped = skipped;
                    self.listener.passed_over(fault);
                    Ok(Step::Past)
                } else {
                    Err(LoadFault::AtFault(fault))
                }
            }
            Err(fault) => Err(fault),
        }
    }
}

impl<R: BufRead + Drop, L: Listener + Drop> Edits for TextEdits<R, L> {
    ghost left = { λ edits. and_left edits.opening
        (items_left (rules_value edits.rules) edits.features (R.remaining edits.reader)) };

    ghost has_skipped = { λ edits. edits.skipped };

    ghost skips = { λ edits. skips_left (rules_value edits.rules) edits.skipped edits.features
        (R.remaining edits.reader) };

    fn skipped(&self) -> u64 {
        self.skipped
    }

    fn next_edit(&mut self) -> Result<Option<PlacedEdit>, LoadFault> {
        if let Some(opening) = self.opening.take() {
            return Ok(Some(opening));
        }
        for _turn in 0..u64::MAX {
            match self.step()? {
                Step::Past => {}
                Step::Edit(placed) => return Ok(Some(placed)),
                Step::End => return Ok(None),
            }
        }
        Err(LoadFault::ReadFailed)
    }
}
