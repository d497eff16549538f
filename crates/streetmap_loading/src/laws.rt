//! Laws of loading.
ghost use Rattle.streetmap_loading.specs.LoadLaws.{LoadedAgain, GoesOnAgain};

/// If batches that were acknowledged are sent again in order, they are acknowledged again, and the
/// state stays.
pub fn loaded_again()
    ensures { LoadedAgain }
{}

/// A load that ended after some batches and is done again gives the state of a load that did not
/// end early.
pub fn goes_on_again()
    ensures { GoesOnAgain }
{}
