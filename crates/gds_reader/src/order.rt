//! The order of records: what may follow at each place of a file.
ghost use Rattle.std.specs.Prelude.{◌≡◌};
ghost use Rattle.gds_reader.specs.Steps.{next_place, next_library_place, begun_place, classed_place, body_place};
ghost use Rattle.gds_reader.specs.Steps.{plex_place, flags_place, typed_place, placed_place, angle_place};
ghost use Rattle.gds_reader.specs.Steps.{magnified_place, transformed_place, xy_place, end_extension_place};
ghost use Rattle.gds_reader.specs.Steps.{begin_extension_place, width_place, path_type_place, property_place};
ghost use Rattle.gds_reader.specs.Steps.{property_value_place, text_place};

use gds_record::Kind;

/// An element whose records have a fixed order: all but texts.
#[derive(Clone, Copy, Debug, PartialEq, Eq)]
pub(crate) enum Form {
    Boundary,
    Path,
    Sref,
    Aref,
    Node,
    Box,
}

/// A place between two records of a file.
#[derive(Clone, Copy, Debug, PartialEq, Eq)]
pub(crate) enum Place {
    /// Before HEADER.
    Header,
    /// Before BGNLIB.
    BgnLib,
    /// Before LIBNAME or a record that may precede it.
    LibName,
    /// Before UNITS or a record that may precede it.
    Units,
    /// Between structures.
    Structures,
    /// Before STRNAME.
    StrName,
    /// Behind STRNAME.
    StrClass,
    /// Between elements.
    Elements,
    /// Behind ENDLIB.
    End,
    /// Behind the first record of an element.
    Begun(Form),
    /// Behind its ELFLAGS.
    Flagged(Form),
    /// Behind its PLEX.
    Plexed(Form),
    /// Behind its LAYER.
    Layered(Form),
    /// Behind the DATATYPE of a path.
    PathType,
    /// Behind its PATHTYPE.
    Width,
    /// Behind its WIDTH.
    BgnExtn,
    /// Behind its BGNEXTN.
    EndExtn,
    /// Behind the SNAME of a reference.
    Named(Form),
    /// Behind its STRANS.
    Transformed(Form),
    /// Behind its MAG.
    Magnified(Form),
    /// Behind its ANGLE.
    Angled(Form),
    /// Among the records of a text.
    Text,
    /// Before XY.
    Xy,
    /// Behind XY.
    Properties,
    /// Before PROPVALUE.
    PropValue,
}

fn after_library(place: Place, kind: Kind) -> Option<Place>
    ensures { result ≡ next_library_place place kind }
{
    match place {
        Place::Header => match kind {
            Kind::Header => Some(Place::BgnLib),
            _ => None,
        },
        Place::BgnLib => match kind {
            Kind::BgnLib => Some(Place::LibName),
            _ => None,
        },
        Place::LibName => match kind {
            Kind::LibDirSize | Kind::SrfName | Kind::LibSecur => Some(Place::LibName),
            Kind::LibName => Some(Place::Units),
            _ => None,
        },
        Place::Units => match kind {
            Kind::RefLibs | Kind::Fonts | Kind::AttrTable | Kind::Generations | Kind::Format =>
                Some(Place::Units),
            Kind::Units => Some(Place::Structures),
            _ => None,
        },
        Place::Structures => match kind {
            Kind::BgnStr => Some(Place::StrName),
            Kind::EndLib => Some(Place::End),
            _ => None,
        },
        Place::StrName => match kind {
            Kind::StrName => Some(Place::StrClass),
            _ => None,
        },
        _ => None,
    }
}

// An element begins, or the structure ends.
#[inline(always)]
fn begin(kind: Kind) -> Option<Place>
    ensures { result ≡ begun_place kind }
{
    match kind {
        Kind::Boundary => Some(Place::Begun(Form::Boundary)),
        Kind::Path => Some(Place::Begun(Form::Path)),
        Kind::Sref => Some(Place::Begun(Form::Sref)),
        Kind::Aref => Some(Place::Begun(Form::Aref)),
        Kind::Node => Some(Place::Begun(Form::Node)),
        Kind::Box => Some(Place::Begun(Form::Box)),
        Kind::Text => Some(Place::Text),
        Kind::EndStr => Some(Place::Structures),
        _ => None,
    }
}

#[inline(always)]
fn after_name(kind: Kind) -> Option<Place>
    ensures { result ≡ classed_place kind }
{
    match kind {
        Kind::StrClass => Some(Place::Elements),
        _ => begin(kind),
    }
}

#[inline(always)]
fn after_plex(form: Form, kind: Kind) -> Option<Place>
    ensures { result ≡ body_place form kind }
{
    match form {
        Form::Boundary | Form::Path | Form::Node | Form::Box => match kind {
            Kind::Layer => Some(Place::Layered(form)),
            _ => None,
        },
        Form::Sref | Form::Aref => match kind {
            Kind::Sname => Some(Place::Named(form)),
            _ => None,
        },
    }
}

#[inline(always)]
fn after_flags(form: Form, kind: Kind) -> Option<Place>
    ensures { result ≡ plex_place form kind }
{
    match kind {
        Kind::Plex => Some(Place::Plexed(form)),
        _ => after_plex(form, kind),
    }
}

#[inline(always)]
fn after_begin(form: Form, kind: Kind) -> Option<Place>
    ensures { result ≡ flags_place form kind }
{
    match kind {
        Kind::ElFlags => Some(Place::Flagged(form)),
        _ => after_flags(form, kind),
    }
}

#[inline(always)]
fn after_layer(form: Form, kind: Kind) -> Option<Place>
    ensures { result ≡ typed_place form kind }
{
    match (form, kind) {
        (Form::Boundary, Kind::DataType) => Some(Place::Xy),
        (Form::Path, Kind::DataType) => Some(Place::PathType),
        (Form::Node, Kind::NodeType) => Some(Place::Xy),
        (Form::Box, Kind::BoxType) => Some(Place::Xy),
        _ => None,
    }
}

// Behind the transformation of a reference.
fn after_angle(form: Form, kind: Kind) -> Option<Place>
    ensures { result ≡ placed_place form kind }
{
    match (form, kind) {
        (Form::Sref, Kind::Xy) => Some(Place::Properties),
        (Form::Aref, Kind::ColRow) => Some(Place::Xy),
        _ => None,
    }
}

fn after_mag(form: Form, kind: Kind) -> Option<Place>
    ensures { result ≡ angle_place form kind }
{
    match kind {
        Kind::Angle => Some(Place::Angled(form)),
        _ => after_angle(form, kind),
    }
}

fn after_strans(form: Form, kind: Kind) -> Option<Place>
    ensures { result ≡ magnified_place form kind }
{
    match kind {
        Kind::Mag => Some(Place::Magnified(form)),
        _ => after_mag(form, kind),
    }
}

fn after_target(form: Form, kind: Kind) -> Option<Place>
    ensures { result ≡ transformed_place form kind }
{
    match kind {
        Kind::Strans => Some(Place::Transformed(form)),
        _ => after_angle(form, kind),
    }
}

#[inline(always)]
fn before_xy(kind: Kind) -> Option<Place>
    ensures { result ≡ xy_place kind }
{
    match kind {
        Kind::Xy => Some(Place::Properties),
        _ => None,
    }
}

fn after_bgn_extn(kind: Kind) -> Option<Place>
    ensures { result ≡ end_extension_place kind }
{
    match kind {
        Kind::EndExtn => Some(Place::Xy),
        _ => before_xy(kind),
    }
}

fn after_width(kind: Kind) -> Option<Place>
    ensures { result ≡ begin_extension_place kind }
{
    match kind {
        Kind::BgnExtn => Some(Place::EndExtn),
        _ => after_bgn_extn(kind),
    }
}

fn after_path_type(kind: Kind) -> Option<Place>
    ensures { result ≡ width_place kind }
{
    match kind {
        Kind::Width => Some(Place::BgnExtn),
        _ => after_width(kind),
    }
}

fn after_path_layer(kind: Kind) -> Option<Place>
    ensures { result ≡ path_type_place kind }
{
    match kind {
        Kind::PathType => Some(Place::Width),
        _ => after_path_type(kind),
    }
}

#[inline(always)]
fn after_xy(kind: Kind) -> Option<Place>
    ensures { result ≡ property_place kind }
{
    match kind {
        Kind::PropAttr => Some(Place::PropValue),
        Kind::EndEl => Some(Place::Elements),
        _ => None,
    }
}

fn after_attribute(kind: Kind) -> Option<Place>
    ensures { result ≡ property_value_place kind }
{
    match kind {
        Kind::PropValue => Some(Place::Properties),
        _ => None,
    }
}

fn in_text(kind: Kind) -> Option<Place>
    ensures { result ≡ text_place kind }
{
    match kind {
        Kind::ElFlags
        | Kind::Plex
        | Kind::Layer
        | Kind::TextType
        | Kind::Presentation
        | Kind::PathType
        | Kind::Width
        | Kind::Strans
        | Kind::Mag
        | Kind::Angle
        | Kind::Xy
        | Kind::String => Some(Place::Text),
        _ => after_xy(kind),
    }
}

impl Place {
    /// The place after a record of this kind, or none where it may not come here.
    #[inline(always)]
    pub(crate) fn after(self, kind: Kind) -> Option<Place>
        ensures { result ≡ next_place self kind }
    {
        match self {
            Place::StrClass => after_name(kind),
            Place::Elements => begin(kind),
            Place::Begun(form) => after_begin(form, kind),
            Place::Flagged(form) => after_flags(form, kind),
            Place::Plexed(form) => after_plex(form, kind),
            Place::Layered(form) => after_layer(form, kind),
            Place::Named(form) => after_target(form, kind),
            Place::Transformed(form) => after_strans(form, kind),
            Place::Magnified(form) => after_mag(form, kind),
            Place::Angled(form) => after_angle(form, kind),
            Place::PathType => after_path_layer(kind),
            Place::Width => after_path_type(kind),
            Place::BgnExtn => after_width(kind),
            Place::EndExtn => after_bgn_extn(kind),
            Place::Text => in_text(kind),
            Place::Xy => before_xy(kind),
            Place::Properties => after_xy(kind),
            Place::PropValue => after_attribute(kind),
            Place::Header
            | Place::BgnLib
            | Place::LibName
            | Place::Units
            | Place::Structures
            | Place::StrName
            | Place::End => after_library(self, kind),
        }
    }
}
