//! Laws of the definitions, for the crates above.
ghost use Rattle.streetmap_query.specs.Laws.{BoxTextsAreRead, QueryTextsAreRead};

/// A text is read as a box exactly if it is spelled as one that means it: four numbers with commas
/// between them, in range and in order.
pub fn box_texts_are_read()
    ensures { BoxTextsAreRead }
{}

/// The text of a query is read as that query.
pub fn query_texts_are_read()
    ensures { QueryTextsAreRead }
{}
