//! The table of what is said of each fault: its name, the exit status, and a sentence for people on
//! what is wrong and what to do. FILE, TEXT and J are those of the manual page.
//!
//! The exit status is 1 if something is refused, 2 for usage, 3 for a device, damage, a socket, a
//! failed read or write, and 4 if memory ran out. The names of refusals and of what is wrong with a
//! feature are those of the crates below; of these the table has the sentences.

/// The name of a fault, its exit status, and its sentence.
pub type Row = (&'static str, u8, &'static str);

// ---- the command line and the file

pub const USAGE: Row = ("usage", 2, "A word of the command line is not UTF-8.");

pub const BAD_BASE: Row = (
    "bad_base",
    1,
    "A base is an http or https address with the path / and nothing after it.",
);

pub const EXISTS: Row = ("exists", 1, "FILE is there already.");

pub const NO_FILE: Row = (
    "no_file",
    1,
    "FILE is not there: streetmap create FILE makes it.",
);

pub const NOT_OURS: Row = ("not_ours", 1, "FILE is no database of streetmap.");

pub const NEW_FORMAT: Row = (
    "new_format",
    1,
    "FILE has a format above 2: a newer streetmap wrote it.",
);

pub const TAKEN: Row = (
    "taken",
    1,
    "A table, an index or a view of FILE has one of the names of streetmap.",
);

pub const NO_TEXT: Row = ("no_text", 1, "TEXT is not there.");

pub const SAME_FILE: Row = ("same_file", 1, "TEXT or J is FILE, or the log beside it.");

pub const NO_JOURNAL: Row = (
    "no_journal",
    1,
    "J cannot be opened or made: look at its folder, its owner and its rights.",
);

pub const BAD_TOKEN: Row = (
    "bad_token",
    1,
    "T cannot be read, or its first line is no token of 16 to 128 visible ASCII characters.",
);

pub const JOURNAL_AHEAD: Row = (
    "journal_ahead",
    1,
    "J has serials that FILE lacks: it is another file's, or FILE is an older copy.",
);

pub const NOT_ITS_JOURNAL: Row = (
    "not_its_journal",
    1,
    "J is no journal, or another file's: name a new one.",
);

pub const NOT_REPLAYED: Row = (
    "not_replayed",
    1,
    "The kept batches do not give what FILE shows: go on with a copy of it.",
);

pub const IN_USE: Row = ("device", 3, "FILE is in use by another program.");

pub const NO_FOLDER: Row = ("device", 3, "The folder of FILE is not there.");

pub const NO_RIGHT: Row = (
    "device",
    3,
    "FILE or its folder may not be read and written: look at their owner and rights.",
);

pub const DAMAGED_DATABASE: Row = (
    "device",
    3,
    "FILE is a damaged database: go on with a copy of it.",
);

pub const NOT_OPENED: Row = ("device", 3, "FILE cannot be opened, read or locked.");

// ---- streams, and connections

pub const READ_FAILED: Row = ("read_failed", 3, "Standard input or TEXT cannot be read.");

pub const WRITE_FAILED: Row = ("write_failed", 3, "Standard output cannot be written.");

pub const NET: Row = ("net", 3, "No connection can be accepted.");

pub const PORT_TAKEN: Row = ("net", 3, " is taken: another program listens there.");

pub const NO_RIGHT_TO_PORT: Row = ("net", 3, " may not be listened at: take one above 1023.");

pub const NOT_BOUND: Row = ("net", 3, " cannot be listened at.");

pub const SHUT: Row = (
    "shut",
    3,
    "FILE failed while it was served: its fault has its line above.",
);

// ---- keepers

pub const MEMORY: Row = (
    "memory",
    4,
    "Memory ran out: do it again when there is more.",
);

pub const DEVICE: Row = (
    "device",
    3,
    "FILE cannot be read or written any more: look at its disk, then start again.",
);

pub const DAMAGED: Row = (
    "damaged",
    3,
    "FILE holds what streetmap does not write: go on with a copy that check takes.",
);

pub const REOPEN: Row = ("reopen", 3, "FILE was shut after a fault: start again.");

// ---- keys, and texts of features

pub const BAD_KEY: Row = (
    "bad_key",
    1,
    "A key has 1 to 64 letters, digits, '.', '_', '-' and ':'.",
);

pub const BAD_LOAD_KEY: Row = (
    "bad_key",
    1,
    "The key of a load has 1 to 44 letters, digits, '.', '_', '-' and ':'.",
);

pub const BAD_COUNT: Row = ("bad_count", 1, "A batch has 1 to 10000 features.");

pub const BAD_COLLECTION: Row = (
    "bad_batch",
    1,
    "A collection's id has 1 to 64 letters, digits, '.', '_' and '-'.",
);

pub const BAD_OPENING: Row = (
    "bad_batch",
    1,
    "A collection's id has letters, digits, '.', '_' and '-'; a title has at most 256 bytes.",
);

pub const TEXT_TOO_LARGE: Row = (
    "text_too_large",
    1,
    "TEXT has more than 8388608 bytes: streetmap load takes any number of features.",
);

pub const NOT_JSON: Row = ("not_json", 1, "TEXT is no JSON.");

pub const WRONG_TYPE: Row = (
    "wrong_type",
    1,
    "TEXT is no FeatureCollection: streetmap load takes features, one a line.",
);

pub const TOO_MANY_FEATURES: Row = (
    "too_many_edits",
    1,
    "TEXT has more than 10000 features: streetmap load takes any number.",
);

pub const EXPORT_OF_NONE: Row = ("no_collection", 1, "FILE has no collection with this id.");

pub const PASSED_OVER: Row = (
    "passed_over",
    1,
    "Features at fault were passed over: each has its line above.",
);

pub const NOT_A_SEQUENCE: Row = (
    "not_a_sequence",
    1,
    "No feature a line: write them by ogr2ogr -f GeoJSONSeq or jq -c '.features[]'.",
);

pub const LINE_TOO_LONG: Row = ("line_too_long", 1, "A line has more than 8388608 bytes.");

pub const TOO_LARGE: Row = (
    "too_large",
    1,
    "The edit of a feature has more than 8388480 bytes.",
);

/// The name of each fault that is of a feature. The sentence is of what is wrong with it.
pub const BAD_FEATURE: &str = "bad_feature";

/// What is wrong with a feature whose coordinates have too many digits, and the sentence on it.
pub const TOO_MANY_DIGITS: (&str, &str) = (
    "too_many_digits",
    "A coordinate has more digits than are read.",
);

// ---- lines of batches

pub const BAD_BATCH: Row = ("bad_batch", 1, "The line is no batch, or the edit is none.");

pub const TOO_MANY_EDITS: Row = ("too_many_edits", 1, "A batch has at most 10000 edits.");

pub const NOT_THE_NEXT: Row = (
    "not_the_next",
    1,
    "The serial of the line is not the next one: lines before it are missing.",
);

pub const CUT_LINE: Row = (
    "cut_line",
    1,
    "The last line has no line feed: TEXT is cut off.",
);

pub const LONG_BATCH_LINE: Row = ("line_too_long", 1, "A line has more than 16777216 bytes.");

// ---- batches that the state refuses

pub const NO_COLLECTION: &str =
    "FILE has no such collection: streetmap load with --open makes one.";

pub const COLLECTION_EXISTS: &str = "FILE has this collection already: leave --open out.";

pub const FEATURE_EXISTS: &str = "A feature with this id is there already: --replace replaces it.";

pub const NO_FEATURE: &str = "No feature with this id is there.";

pub const BAD_TIME: &str = "The time property holds no time.";

pub const KEY_USED: &str =
    "The key was used for another batch: take another key, or send the same text again.";

pub const FULL: &str = "FILE takes no further batch.";

// ---- what is wrong with a feature

pub const FEATURE_NOT_JSON: &str = "The feature is no JSON.";

pub const FEATURE_WRONG_TYPE: &str = "The type of a feature is Feature.";

pub const BAD_ID: &str = "An id is a whole number, or 1 to 128 bytes without control characters.";

pub const BAD_GEOMETRY: &str = "The geometry is none of GeoJSON.";

pub const BAD_POSITION: &str = "A position is two or three numbers.";

pub const FRACTION: &str =
    "A number is not whole: see --scale, --round and --fractions of streetmap load.";

pub const NESTED_COLLECTION: &str = "A GeometryCollection holds another.";

pub const BAD_PROPERTIES: &str = "Properties are an object or null.";

pub const TOO_DEEP: &str = "A feature has at most 64 levels.";

pub const TOO_MANY_POSITIONS: &str = "A feature has at most 100000 positions.";

pub const OUT_OF_GRID: &str =
    "Coordinates are at most 1000000000 from 0: see --shift and --scale of streetmap load.";

pub const SHORT_LINE: &str = "A line has two positions or more.";

pub const SHORT_RING: &str = "A ring has four positions or more.";

pub const OPEN_RING: &str = "A ring ends where it begins.";

pub const EMPTY_INTERVAL: &str = "An interval starts before it ends.";
