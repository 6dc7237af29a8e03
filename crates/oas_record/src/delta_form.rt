//! How the deltas of a point list are spelled.
ghost use Rattle.std.specs.Prelude.{◌≡◌};
ghost use Rattle.oas_record.specs.Lists.{delta_form, turned};

/// How a stored delta of a list is spelled.
#[derive(Clone, Copy, Debug, PartialEq, Eq)]
pub(crate) enum DeltaForm {
    /// A signed number along x, and the next one along y.
    AlongX,
    /// A signed number along y, and the next one along x.
    AlongY,
    /// A 2-delta.
    TwoDelta,
    /// A 3-delta.
    ThreeDelta,
    /// A g-delta.
    GDelta,
}

impl DeltaForm {
    // The form of the next delta.
    pub(crate) fn turned(self) -> DeltaForm
        ensures { result ≡ turned self }
    {
        match self {
            DeltaForm::AlongX => DeltaForm::AlongY,
            DeltaForm::AlongY => DeltaForm::AlongX,
            other => other,
        }
    }
}

/// The form of the deltas of a point list of this kind.
pub(crate) fn delta_form(kind: u8) -> Option<DeltaForm>
    ensures { result ≡ delta_form kind }
{
    match kind {
        0 => Some(DeltaForm::AlongX),
        1 => Some(DeltaForm::AlongY),
        2 => Some(DeltaForm::TwoDelta),
        3 => Some(DeltaForm::ThreeDelta),
        4..=5 => Some(DeltaForm::GDelta),
        _ => None,
    }
}
