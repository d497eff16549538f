//! What help says of the program, its commands and their arguments, and what is said of arguments
//! that are not a command.

pub(crate) const PROGRAM: &str =
    "A server for features of streets, changed by batches that apply whole or not at all";

pub(crate) const LINES: &str = "Answers the lines of standard input, over features in memory";

pub(crate) const CREATE: &str = "Makes an empty file";

pub(crate) const NEW_FILE: &str = "The file to make";

pub(crate) const PIPE: &str = "Serves one stream of requests on standard input and output";

pub(crate) const FILE: &str = "The file that holds the features";

pub(crate) const BASE: &str = "What the links in answers begin with";

pub(crate) const EXPLAIN: &str = "Says in a sentence what is wrong, as on a terminal";

pub(crate) const SERVE: &str = "Serves the features of a file over HTTP";

pub(crate) const PORT: &str = "The port of 127.0.0.1 to listen on, 1 to 65535";

pub(crate) const COUNT: &str = "Ends after this number of connections";

pub(crate) const CLIENTS: &str = "Serves this number of clients at once, 1 to 1024";

pub(crate) const LOG: &str = "Writes a line on standard error for each answer";

pub(crate) const WARM: &str = "Learns the index of each collection before it listens";

pub(crate) const CONDITIONAL: &str = "Gives answers tags, and takes conditions on them";

pub(crate) const CHANGES: &str = "Answers /changes with the accepted batches";

pub(crate) const STATUS: &str = "Answers /status, and shows the serial of the state";

pub(crate) const FENCED: &str = "Refuses each batch (not with --follower)";

pub(crate) const FOLLOWER: &str =
    "Takes batches only with the token in the first line of this file";

pub(crate) const JOURNAL: &str = "Writes each accepted batch to this file before its answer";

pub(crate) const JOURNAL_AFTER: &str = "Begins an empty journal after this serial";

pub(crate) const JOURNAL_SYNC: &str = "Synchronises the journal before each answer";

pub(crate) const IMPORT: &str = "Puts the features of a text into a collection, as one batch";

pub(crate) const IMPORT_TEXT: &str = "A GeoJSON FeatureCollection";

pub(crate) const IMPORT_KEY: &str = "The key of the batch";

pub(crate) const INTO: &str = "The collection that the features are put into";

pub(crate) const REPLACE: &str = "Replaces features that have the same id";

pub(crate) const PROGRESS: &str = "Says on standard error how far it is";

pub(crate) const EXPORT: &str = "Writes a collection on standard output";

pub(crate) const FROM: &str = "The collection to write";

pub(crate) const CHECK: &str = "Says whether a file is sound, and counts what it holds";

pub(crate) const REPLAY: &str = "Applies the accepted batches again, and compares the result";

pub(crate) const LOAD: &str =
    "Puts the features of a text, one a line, into a collection by batches";

pub(crate) const LOAD_TEXT: &str =
    "GeoJSON features, one a line: standard input if it is - or left out";

pub(crate) const LOAD_KEY: &str = "The key K of the batches K.1, K.2 and so on";

pub(crate) const EACH: &str = "The most features of a batch, 1 to 10000 [default: 1000]";

pub(crate) const OPEN: &str = "Opens the collection with the first batch";

pub(crate) const TITLE: &str = "The title of the collection that is opened";

pub(crate) const TIME: &str = "The time property of the collection that is opened";

pub(crate) const SCALE: &str = "The millimetres in one unit of the map [default: 1]";

pub(crate) const SHIFT: &str = "The position X,Y of the map that is 0,0 in the grid [default: 0,0]";

pub(crate) const ROUND: &str = "Rounds coordinates to whole millimetres";

pub(crate) const FRACTIONS: &str = "If it is \"text\", keeps numbers that are not whole as texts";

pub(crate) const SKIP: &str = "Passes over features that are at fault, and lists them";

pub(crate) const ONLY_CHECK: &str = "Only reads the features, and lists those that are at fault";

pub(crate) const PRINT: &str = "Prints the batches in place of applying them";

pub(crate) const BATCHES: &str = "Prints the accepted batches, a line each";

pub(crate) const AFTER: &str = "Prints only the batches after this serial";

pub(crate) const APPLY: &str = "Applies the lines of a text as batches, in order";

pub(crate) const APPLY_TEXT: &str = "Batches, one a line: standard input if it is - or left out";

pub(crate) const SPLIT_SHIFT: &str =
    "A shift that begins with a minus is one word with its option, as --shift=-5,-6";

pub(crate) const NO_TOPIC: &str = "After help comes the name of one command, or nothing";

pub(crate) const NO_COMMAND: &str = "No command is named";

pub(crate) const WRONG_SERIAL: &str = "A serial is a number from 0 to 4294967295";

pub(crate) const WRONG_CONNECTIONS: &str =
    "A port is a number from 1 to 65535, a count from 1 to 4294967295, clients from 1 to 1024";

pub(crate) const NO_JOURNAL: &str = "The options of a journal go with --journal";

pub(crate) const FENCED_FOLLOWER: &str = "A server is fenced or a follower, not both";

pub(crate) const WRONG_EACH: &str = "A batch has 1 to 10000 features";

pub(crate) const WRONG_FRACTIONS: &str = "The value of --fractions is text";

pub(crate) const CHECK_AND_PRINT: &str = "What is only checked is not printed";

pub(crate) const NO_OPENING: &str = "A title and a time go with --open";

pub(crate) const WRONG_NUMBERS: &str =
    "Numbers of a scale are above 0; a shift is two numbers with a comma between, as --shift=-5,-6";
