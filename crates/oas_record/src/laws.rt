//! Laws of records and their bytes.
ghost use Rattle.oas_record.specs.Laws.{OneRecord, RecordOrFault, OneFault, NoneBegins};

/// What the bytes of a record keep: they hold at most one record at a place, which ends at one place, or no record for one
/// cause, and no record begins another. It holds of all bytes, and costs nothing.
pub fn record_laws()
    ensures one_record { OneRecord }
    ensures record_or_fault { RecordOrFault }
    ensures one_fault { OneFault }
    ensures none_begins { NoneBegins }
{}
