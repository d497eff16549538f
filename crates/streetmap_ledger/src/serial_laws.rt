//! Laws of the definitions.
ghost use Rattle.streetmap_ledger.specs.SerialLaws.{KeptBySerial, NoSerialIsLeftOut};

/// What a well-formed state keeps under a key is what it keeps with its serial, and vice versa.
pub fn kept_by_serial()
    ensures { KeptBySerial }
{}

/// The batches that a well-formed state keeps have the serials from 1 to their number, one each.
pub fn no_serial_is_left_out()
    ensures { NoSerialIsLeftOut }
{}
