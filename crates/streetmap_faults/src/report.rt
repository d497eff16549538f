//! What is said of a fault: by its row of the table, and by where it is.
ghost use Rattle.std.specs.Prelude.{◌≡◌};
ghost use Rattle.streetmap_faults.specs.Reports.{report_value, plain, at_place, on_line, at_port};
ghost use Rattle.streetmap_faults.specs.Reports.{refusal_sentence};
ghost use Rattle.streetmap_faults.specs.Reports.{feature_sentence, refused, bad_feature};
ghost use Rattle.streetmap_faults.specs.Reports.{of_keeper, of_import, of_export, of_text};
ghost use Rattle.streetmap_faults.specs.Reports.{of_load, of_batch, of_line, of_follow};

use crate::table;
use crate::table::Row;
use streetmap_batch::BatchFault;
use streetmap_exchange::{ExportFault, ImportFault};
use streetmap_geojson::Fault as FeatureFault;
use streetmap_ledger::{Fault as KeeperFault, Refusal};
use streetmap_loading::{LoadFault, TextFault};
use streetmap_replay::FollowFault;
use streetmap_text_lines::LineFault;

/// What is said of a fault.
#[derive(Clone, Copy)]
pub struct Report {
    /// The name that is printed after `streetmap: `.
    pub name: &'static str,
    /// The exit status: 1 refused, 2 usage, 3 a device, damage, a socket, a failed read or write,
    /// 4 out of memory.
    pub status: u8,
    /// The sentence for people; of a fault of a port what follows its number.
    pub sentence: &'static str,
    /// The line of batches at fault, counted from 1, or the serial of a batch at fault.
    pub line: Option<u64>,
    /// The place of the feature or the edit at fault, counted from 1.
    pub place: Option<u64>,
    /// The name of what is wrong with that feature, if it cannot be read.
    pub cause: Option<&'static str>,
    /// The port at which nothing listens.
    pub port: Option<u16>,
}

/// What a row says.
pub(crate) fn of_row(row: Row) -> Report
    ensures { report_value result ≡ plain row.entry.0.now row.entry.1 row.entry.2.now }
{
    Report {
        name: row.0,
        status: row.1,
        sentence: row.2,
        line: None,
        place: None,
        cause: None,
        port: None,
    }
}

/// The same of the feature or the edit at a place.
fn at_place(report: Report, place: Option<u64>) -> Report
    ensures { report_value result ≡ at_place (report_value report) place }
{
    Report { place, ..report }
}

/// The same of the line or the batch with a number.
pub(crate) fn on_line(report: Report, line: Option<u64>) -> Report
    ensures { report_value result ≡ on_line (report_value report) line }
{
    Report { line, ..report }
}

/// The same of a port.
pub(crate) fn at_port(report: Report, port: u16) -> Report
    ensures { report_value result ≡ at_port (report_value report) port }
{
    Report {
        port: Some(port),
        ..report
    }
}

/// On a batch that the state refuses.
#[tactic(auto, unfolding(crate::specs::Reports::refusal_sentence))]
fn on_refusal(why: Refusal) -> &'static str
    ensures { result.now ≡ refusal_sentence why }
{
    match why {
        Refusal::NoCollection => table::NO_COLLECTION,
        Refusal::CollectionExists => table::COLLECTION_EXISTS,
        Refusal::FeatureExists => table::FEATURE_EXISTS,
        Refusal::NoFeature => table::NO_FEATURE,
        Refusal::BadTime => table::BAD_TIME,
        Refusal::KeyUsed => table::KEY_USED,
        Refusal::Full => table::FULL,
    }
}

/// On what is wrong with a feature.
#[tactic(auto, unfolding(crate::specs::Reports::feature_sentence))]
fn on_feature(fault: FeatureFault) -> &'static str
    ensures { result.now ≡ feature_sentence fault }
{
    match fault {
        FeatureFault::NotJson => table::FEATURE_NOT_JSON,
        FeatureFault::WrongType => table::FEATURE_WRONG_TYPE,
        FeatureFault::BadId => table::BAD_ID,
        FeatureFault::BadGeometry => table::BAD_GEOMETRY,
        FeatureFault::BadPosition => table::BAD_POSITION,
        FeatureFault::Fraction => table::FRACTION,
        FeatureFault::NestedCollection => table::NESTED_COLLECTION,
        FeatureFault::BadProperties => table::BAD_PROPERTIES,
        FeatureFault::TooDeep => table::TOO_DEEP,
        FeatureFault::TooManyPositions => table::TOO_MANY_POSITIONS,
        FeatureFault::OutOfGrid => table::OUT_OF_GRID,
        FeatureFault::ShortLine => table::SHORT_LINE,
        FeatureFault::ShortRing => table::SHORT_RING,
        FeatureFault::OpenRing => table::OPEN_RING,
        FeatureFault::BadTime => table::BAD_TIME,
        FeatureFault::EmptyInterval => table::EMPTY_INTERVAL,
    }
}

/// A batch that the state refuses, by the feature or the edit at a place.
fn refused(why: Refusal, place: Option<u64>) -> Report
    ensures { report_value result ≡ refused why place }
{
    Report {
        name: why.code(),
        status: 1,
        sentence: on_refusal(why),
        line: None,
        place,
        cause: None,
        port: None,
    }
}

/// The feature at a place cannot be read.
fn bad_feature(place: u64, cause: &'static str, sentence: &'static str) -> Report
    ensures { report_value result ≡ bad_feature place cause.entry.now sentence.entry.now }
{
    Report {
        name: table::BAD_FEATURE,
        status: 1,
        sentence,
        line: None,
        place: Some(place),
        cause: Some(cause),
        port: None,
    }
}

/// A keeper does not answer.
#[tactic(auto, unfolding(crate::specs::Reports::of_keeper))]
fn of_keeper(fault: KeeperFault) -> Report
    ensures { report_value result ≡ of_keeper fault }
{
    match fault {
        KeeperFault::Memory => of_row(table::MEMORY),
        KeeperFault::Device => of_row(table::DEVICE),
        KeeperFault::Damaged => of_row(table::DAMAGED),
        KeeperFault::Reopen => of_row(table::REOPEN),
    }
}

/// A text is not imported.
#[tactic(auto, unfolding(crate::specs::Reports::of_import))]
pub(crate) fn of_import(fault: ImportFault) -> Report
    ensures { report_value result ≡ of_import fault }
{
    match fault {
        ImportFault::BadKey => of_row(table::BAD_KEY),
        ImportFault::BadBatch => of_row(table::BAD_COLLECTION),
        ImportFault::TextTooLarge => of_row(table::TEXT_TOO_LARGE),
        ImportFault::NotJson => of_row(table::NOT_JSON),
        ImportFault::WrongType => of_row(table::WRONG_TYPE),
        ImportFault::BadFeature { place, cause } => {
            bad_feature(place, cause.code(), on_feature(cause))
        }
        ImportFault::TooManyEdits => of_row(table::TOO_MANY_FEATURES),
        ImportFault::Refused(why, place) => refused(why, place),
        ImportFault::Stopped(fault) => of_keeper(fault),
        ImportFault::Memory => of_row(table::MEMORY),
    }
}

/// A collection, or the lines of kept batches, are not written to their end.
#[tactic(auto, unfolding(crate::specs::Reports::of_export))]
pub(crate) fn of_export(fault: ExportFault) -> Report
    ensures { report_value result ≡ of_export fault }
{
    match fault {
        ExportFault::NoCollection => of_row(table::EXPORT_OF_NONE),
        ExportFault::Stopped(fault) => of_keeper(fault),
        ExportFault::WriteFailed | ExportFault::FlushFailed => of_row(table::WRITE_FAILED),
    }
}

/// A text of features is at fault.
#[tactic(auto, unfolding(crate::specs::Reports::of_text))]
fn of_text(fault: TextFault) -> Report
    ensures { report_value result ≡ of_text fault }
{
    match fault {
        TextFault::NotASequence => of_row(table::NOT_A_SEQUENCE),
        TextFault::LineTooLong(place) => at_place(of_row(table::LINE_TOO_LONG), Some(place)),
        TextFault::TooManyDigits(place) => {
            bad_feature(place, table::TOO_MANY_DIGITS.0, table::TOO_MANY_DIGITS.1)
        }
        TextFault::BadFeature(place, cause) => bad_feature(place, cause.code(), on_feature(cause)),
        TextFault::TooLarge(place) => at_place(of_row(table::TOO_LARGE), Some(place)),
    }
}

/// A load does not begin, or ends before its text does.
#[tactic(auto, unfolding(crate::specs::Reports::of_load))]
pub(crate) fn of_load(fault: LoadFault) -> Report
    ensures { report_value result ≡ of_load fault }
{
    match fault {
        LoadFault::BadKey => of_row(table::BAD_LOAD_KEY),
        LoadFault::BadCount => of_row(table::BAD_COUNT),
        LoadFault::BadBatch => of_row(table::BAD_OPENING),
        LoadFault::AtFault(fault) => of_text(fault),
        LoadFault::ReadFailed => of_row(table::READ_FAILED),
        LoadFault::Memory => of_row(table::MEMORY),
        LoadFault::Refused(why, place) => refused(why, place),
        LoadFault::Stopped(fault) => of_keeper(fault),
        LoadFault::WriteFailed => of_row(table::WRITE_FAILED),
    }
}

/// A line is not a batch.
#[tactic(auto, unfolding(crate::specs::Reports::of_batch))]
fn of_batch(fault: BatchFault) -> Report
    ensures { report_value result ≡ of_batch fault }
{
    match fault {
        BatchFault::BadBatch { place } => at_place(of_row(table::BAD_BATCH), place),
        BatchFault::BadKey => of_row(table::BAD_KEY),
        BatchFault::TooManyEdits => of_row(table::TOO_MANY_EDITS),
        BatchFault::BadFeature { place, cause } => {
            bad_feature(place, cause.code(), on_feature(cause))
        }
        BatchFault::Memory => of_row(table::MEMORY),
    }
}

/// The line of batches with a number is not followed, or its reply is not reported.
#[tactic(auto, unfolding(crate::specs::Reports::of_line))]
fn of_line(line: Option<u64>, fault: FollowFault) -> Report
    ensures { report_value result ≡ of_line line fault }
{
    match fault {
        FollowFault::Unread(fault) => on_line(of_batch(fault), line),
        FollowFault::NotNext => on_line(of_row(table::NOT_THE_NEXT), line),
        FollowFault::Refused(why, place) => on_line(refused(why, place), line),
        FollowFault::Stopped(fault) => on_line(of_keeper(fault), line),
        FollowFault::CutLine => on_line(of_row(table::CUT_LINE), line),
        FollowFault::NotRead(LineFault::LineTooLong) => {
            on_line(of_row(table::LONG_BATCH_LINE), line)
        }
        FollowFault::NotRead(LineFault::ReadFailed) => of_row(table::READ_FAILED),
        FollowFault::NotRead(LineFault::Memory) => of_row(table::MEMORY),
        FollowFault::NotReported => of_row(table::WRITE_FAILED),
    }
}

/// Lines of batches are not followed to their end: the number of the line at fault comes after that
/// of those that were followed.
pub(crate) fn of_follow(count: u64, fault: FollowFault) -> Report
    ensures { report_value result ≡ of_follow count fault }
{
    if count < u64::MAX {
        of_line(Some(count + 1), fault)
    } else {
        of_line(None, fault)
    }
}
