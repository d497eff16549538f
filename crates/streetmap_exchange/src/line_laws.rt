//! A law of the definitions.
ghost use Rattle.streetmap_exchange.specs.LineLaws.{LinesAreOfTheJournal};

/// The lines of the batches after serial N are the lines of the state's journal after the first N.
pub fn lines_are_of_the_journal()
    ensures { LinesAreOfTheJournal }
{}
