//! Laws of the definitions.
ghost use Rattle.streetmap_exchange.specs.Laws.{ImportOfExport};

/// What is exported of a collection, imported under any key into a collection without features that
/// has the same time property, gives it the same features under the same ids, if it is accepted.
pub fn import_of_export()
    ensures { ImportOfExport }
{}
