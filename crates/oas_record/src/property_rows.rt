//! The fields of properties.

ghost use Rattle.std.specs.Prelude.{false, ◌≡◌, ◌⊎◌, ◌≤◌, length, IfOk, IfErr};
ghost use Rattle.oas_record.specs.Parts.{IsOf, NotOf};

use crate::faults::RecordBad;
use crate::info::info_at;
use crate::optional::name_where;
use crate::property_values::{count_where, values_at};
use crate::records::OasRecord;

// The rest of a record with id 28, PROPERTY, after its id.
pub(crate) fn property(bytes: &[u8], at: usize) -> Result<(OasRecord<'_>, usize), RecordBad>
    requires { at ≤ length bytes.now }
    ensures ok { IfOk result (λ r. IsOf 28 false bytes.now at r.0 r.1) }
    ensures bad { IfErr result (λ bad. NotOf 28 false bytes.now at bad) }
    ensures within { IfOk result (λ r. r.1 ≤ length bytes.now) }
{
    let info = info_at(bytes, at, 256)?;
    let (name, second) = name_where(bytes, at + 1, info, 2, 1)?;
    let (count, third) = count_where(bytes, second, info)?;
    let (values, next) = values_at(bytes, third, info, count)?;
    let record = OasRecord::Property {
        info,
        name,
        count,
        values,
    };
    Ok((record, next))
}
