//! A delta of a list.

ghost use Rattle.std.specs.Prelude.{◌≡◌, ◌⊎◌, ◌<◌, ◌≤◌, ◌^◌, length, IfOk, IfErr};
ghost use Rattle.oas_record.specs.Lists.{HasDelta, NoDelta};

use crate::delta_form::DeltaForm;
use crate::faults::RecordBad;
use crate::lexical::signed_at;
use half_grid::Point;
use oas_lex::{delta_g, delta2, delta3};

// The delta of this form at `at`, and the offset after it.
pub(crate) fn delta_at(
    bytes: &[u8],
    at: usize,
    form: DeltaForm,
) -> Result<(Point, usize), RecordBad>
    requires { at ≤ length bytes.now }
    ensures ok { IfOk result (λ r. HasDelta form bytes.now at r.0 r.1) }
    ensures bad { IfErr result (λ bad. NoDelta form bytes.now at bad) }
    ensures within { IfOk result (λ r. r.1 ≤ length bytes.now) }
{
    match form {
        DeltaForm::AlongX => {
            let (x, next) = signed_at(bytes, at)?;
            Ok((Point { x, y: 0 }, next))
        }
        DeltaForm::AlongY => {
            let (y, next) = signed_at(bytes, at)?;
            Ok((Point { x: 0, y }, next))
        }
        DeltaForm::TwoDelta => Ok(delta2(bytes, at)?),
        DeltaForm::ThreeDelta => Ok(delta3(bytes, at)?),
        DeltaForm::GDelta => Ok(delta_g(bytes, at)?),
    }
}
