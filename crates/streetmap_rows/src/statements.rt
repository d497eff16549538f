//! The texts of statements that several modules run.

/// The title and the time property of a collection.
pub const SELECT_COLLECTION: &str = "SELECT title, time FROM streetmap_collections WHERE id = ?1";

/// The id, the title and the time property of each collection, in byte order of ids.
pub const SELECT_COLLECTIONS: &str =
    "SELECT id, title, time FROM streetmap_collections ORDER BY id";

/// Makes the table of the format.
pub const CREATE_META: &str =
    "CREATE TABLE streetmap_meta (name TEXT PRIMARY KEY, value INTEGER NOT NULL) STRICT";

/// Makes the table of the features.
pub const CREATE_FEATURES: &str =
    "CREATE TABLE streetmap_features (collection TEXT NOT NULL REFERENCES streetmap_collections(id), id TEXT NOT NULL, body TEXT NOT NULL, x0 INTEGER, y0 INTEGER, x1 INTEGER, y1 INTEGER, s0 INTEGER, s1 INTEGER, PRIMARY KEY (collection, id)) STRICT";
