//! Laws of the definitions, for crates that read files.

ghost use Rattle.gds_record.specs.Runs.{RecordsExist, RecordsUnique};

/// Each file has one list of records, up to the first end of library or to where no record is.
/// There is nothing to run.
pub fn records_law()
    ensures exist { RecordsExist }
    ensures unique { RecordsUnique }
{}
