//! The kinds of records, their heads and the lengths of their contents (GDSII Stream Format Manual
//! 6.0, record description).

ghost use Rattle.std.specs.Prelude.{◌≡◌, ◌↔◌, IsTrue, Some};
ghost use Rattle.gds_record.specs.Heads.{head_of, kind_with_head, element_kind_with_head, content_of, IsLengthAllowed};

/// What a record holds, one variant for each record type of GDSII Stream Format Manual 6.0.
#[derive(Clone, Copy, Debug, PartialEq, Eq)]
pub enum Kind {
    /// HEADER: the version of the stream format.
    Header,
    /// BGNLIB: a library begins: when it was changed and read.
    BgnLib,
    /// LIBNAME: the library's name.
    LibName,
    /// UNITS: the database unit, in user units and then in metres.
    Units,
    /// ENDLIB: the library ends.
    EndLib,
    /// BGNSTR: a structure begins: when it was made and changed.
    BgnStr,
    /// STRNAME: the structure's name.
    StrName,
    /// ENDSTR: the structure ends.
    EndStr,
    /// BOUNDARY: a filled polygon begins.
    Boundary,
    /// PATH: a path begins.
    Path,
    /// SREF: a reference to a structure begins.
    Sref,
    /// AREF: an array of references to a structure begins.
    Aref,
    /// TEXT: a text begins.
    Text,
    /// LAYER: the layer of an element.
    Layer,
    /// DATATYPE: the datatype of a boundary or a path.
    DataType,
    /// WIDTH: the width of a path or of a text's lines.
    Width,
    /// XY: the points of an element.
    Xy,
    /// ENDEL: the element ends.
    EndEl,
    /// SNAME: the name of the structure that a reference places.
    Sname,
    /// COLROW: the columns and rows of an array.
    ColRow,
    /// NODE: an electrical net's node begins.
    Node,
    /// TEXTTYPE: the texttype of a text.
    TextType,
    /// PRESENTATION: the font and the place of a text.
    Presentation,
    /// STRING: the characters of a text.
    String,
    /// STRANS: reflection, and whether magnification and angle are absolute.
    Strans,
    /// MAG: the magnification of a reference or a text.
    Mag,
    /// ANGLE: the angle of a reference or a text, in degrees counterclockwise.
    Angle,
    /// REFLIBS: the names of reference libraries.
    RefLibs,
    /// FONTS: the names of the font files.
    Fonts,
    /// PATHTYPE: the ends of a path.
    PathType,
    /// GENERATIONS: how many copies of deleted structures are kept.
    Generations,
    /// ATTRTABLE: the name of the attribute definition file.
    AttrTable,
    /// ELFLAGS: whether an element is a template or external.
    ElFlags,
    /// NODETYPE: the nodetype of a node.
    NodeType,
    /// PROPATTR: the number of a property.
    PropAttr,
    /// PROPVALUE: the value of a property.
    PropValue,
    /// BOX: a box begins.
    Box,
    /// BOXTYPE: the boxtype of a box.
    BoxType,
    /// PLEX: the number of the plex that an element belongs to.
    Plex,
    /// BGNEXTN: how far a path goes on before its first point.
    BgnExtn,
    /// ENDEXTN: how far a path goes on beyond its last point.
    EndExtn,
    /// STRCLASS: the class of a structure.
    StrClass,
    /// FORMAT: whether the file is an archive or filtered.
    Format,
    /// LIBDIRSIZE: the number of pages in the library directory.
    LibDirSize,
    /// SRFNAME: the name of the sticks rules file.
    SrfName,
    /// LIBSECUR: the access control list.
    LibSecur,
}

/// How long the content of a record may be.
#[derive(Clone, Copy, Debug, PartialEq, Eq)]
pub enum ContentLength {
    /// This many bytes.
    Exactly(usize),
    /// Any even number of bytes.
    AnyEven,
    /// One or more points of eight bytes each.
    Points,
}

/// The kind of the records that have this head: the record type in the high byte, the data type in
/// the low one. The rows are the records of a library and a structure outside elements.
#[tactic(auto, unfolding(crate::specs::Heads::kind_with_head, crate::specs::Heads::element_kind_with_head))]
#[inline(always)]
pub(crate) fn kind_of(head: u16) -> Option<Kind>
    ensures { result ≡ kind_with_head head }
{
    match head {
        0x0002 => Some(Kind::Header),
        0x0102 => Some(Kind::BgnLib),
        0x0206 => Some(Kind::LibName),
        0x0305 => Some(Kind::Units),
        0x0400 => Some(Kind::EndLib),
        0x0502 => Some(Kind::BgnStr),
        0x0606 => Some(Kind::StrName),
        0x0700 => Some(Kind::EndStr),
        0x1F06 => Some(Kind::RefLibs),
        0x2006 => Some(Kind::Fonts),
        0x2202 => Some(Kind::Generations),
        0x2306 => Some(Kind::AttrTable),
        0x3401 => Some(Kind::StrClass),
        0x3602 => Some(Kind::Format),
        0x3902 => Some(Kind::LibDirSize),
        0x3A06 => Some(Kind::SrfName),
        0x3B02 => Some(Kind::LibSecur),
        _ => element_kind_of(head),
    }
}

/// The kind of the records of an element that have this head.
#[tactic(auto, unfolding(crate::specs::Heads::element_kind_with_head))]
#[inline(always)]
fn element_kind_of(head: u16) -> Option<Kind>
    ensures { result ≡ element_kind_with_head head }
{
    match head {
        0x0800 => Some(Kind::Boundary),
        0x0900 => Some(Kind::Path),
        0x0A00 => Some(Kind::Sref),
        0x0B00 => Some(Kind::Aref),
        0x0C00 => Some(Kind::Text),
        0x0D02 => Some(Kind::Layer),
        0x0E02 => Some(Kind::DataType),
        0x0F03 => Some(Kind::Width),
        0x1003 => Some(Kind::Xy),
        0x1100 => Some(Kind::EndEl),
        0x1206 => Some(Kind::Sname),
        0x1302 => Some(Kind::ColRow),
        0x1500 => Some(Kind::Node),
        0x1602 => Some(Kind::TextType),
        0x1701 => Some(Kind::Presentation),
        0x1906 => Some(Kind::String),
        0x1A01 => Some(Kind::Strans),
        0x1B05 => Some(Kind::Mag),
        0x1C05 => Some(Kind::Angle),
        0x2102 => Some(Kind::PathType),
        0x2601 => Some(Kind::ElFlags),
        0x2A02 => Some(Kind::NodeType),
        0x2B02 => Some(Kind::PropAttr),
        0x2C06 => Some(Kind::PropValue),
        0x2D00 => Some(Kind::Box),
        0x2E02 => Some(Kind::BoxType),
        0x2F03 => Some(Kind::Plex),
        0x3003 => Some(Kind::BgnExtn),
        0x3103 => Some(Kind::EndExtn),
        _ => None,
    }
}

/// The head of the records of this kind. The rows are as in `kind_of`.
#[tactic(auto, unfolding(crate::specs::Heads::element_kind_with_head))]
#[inline(always)]
pub(crate) fn head_code(kind: Kind) -> u16
    ensures { result ≡ head_of kind }
{
    match kind {
        Kind::Header => 0x0002,
        Kind::BgnLib => 0x0102,
        Kind::LibName => 0x0206,
        Kind::Units => 0x0305,
        Kind::EndLib => 0x0400,
        Kind::BgnStr => 0x0502,
        Kind::StrName => 0x0606,
        Kind::EndStr => 0x0700,
        Kind::RefLibs => 0x1F06,
        Kind::Fonts => 0x2006,
        Kind::Generations => 0x2202,
        Kind::AttrTable => 0x2306,
        Kind::StrClass => 0x3401,
        Kind::Format => 0x3602,
        Kind::LibDirSize => 0x3902,
        Kind::SrfName => 0x3A06,
        Kind::LibSecur => 0x3B02,
        _ => element_head_code(kind),
    }
}

/// The head of the records of this kind, which is one of an element.
#[tactic(auto, unfolding(crate::specs::Heads::element_kind_with_head))]
#[inline(always)]
fn element_head_code(kind: Kind) -> u16
    requires { element_kind_with_head (head_of kind) ≡ Some kind }
    ensures { result ≡ head_of kind }
{
    match kind {
        Kind::Boundary => 0x0800,
        Kind::Path => 0x0900,
        Kind::Sref => 0x0A00,
        Kind::Aref => 0x0B00,
        Kind::Text => 0x0C00,
        Kind::Layer => 0x0D02,
        Kind::DataType => 0x0E02,
        Kind::Width => 0x0F03,
        Kind::Xy => 0x1003,
        Kind::EndEl => 0x1100,
        Kind::Sname => 0x1206,
        Kind::ColRow => 0x1302,
        Kind::Node => 0x1500,
        Kind::TextType => 0x1602,
        Kind::Presentation => 0x1701,
        Kind::String => 0x1906,
        Kind::Strans => 0x1A01,
        Kind::Mag => 0x1B05,
        Kind::Angle => 0x1C05,
        Kind::PathType => 0x2102,
        Kind::ElFlags => 0x2601,
        Kind::NodeType => 0x2A02,
        Kind::PropAttr => 0x2B02,
        Kind::PropValue => 0x2C06,
        Kind::Box => 0x2D00,
        Kind::BoxType => 0x2E02,
        Kind::Plex => 0x2F03,
        Kind::BgnExtn => 0x3003,
        Kind::EndExtn => 0x3103,
        _ => unreachable!(),
    }
}

/// How long the content of a record of this kind may be.
#[inline(always)]
pub(crate) fn content_length(kind: Kind) -> ContentLength
    ensures { result ≡ content_of kind }
{
    match kind {
        Kind::EndLib
        | Kind::EndStr
        | Kind::Boundary
        | Kind::Path
        | Kind::Sref
        | Kind::Aref
        | Kind::Text
        | Kind::EndEl
        | Kind::Node
        | Kind::Box => ContentLength::Exactly(0),
        Kind::Header
        | Kind::Layer
        | Kind::DataType
        | Kind::TextType
        | Kind::Presentation
        | Kind::Strans
        | Kind::PathType
        | Kind::Generations
        | Kind::ElFlags
        | Kind::NodeType
        | Kind::PropAttr
        | Kind::BoxType
        | Kind::StrClass
        | Kind::Format
        | Kind::LibDirSize => ContentLength::Exactly(2),
        Kind::Width | Kind::ColRow | Kind::Plex | Kind::BgnExtn | Kind::EndExtn =>
            ContentLength::Exactly(4),
        Kind::Mag | Kind::Angle => ContentLength::Exactly(8),
        Kind::Units => ContentLength::Exactly(16),
        Kind::BgnLib | Kind::BgnStr => ContentLength::Exactly(24),
        Kind::LibName
        | Kind::StrName
        | Kind::Sname
        | Kind::String
        | Kind::RefLibs
        | Kind::Fonts
        | Kind::AttrTable
        | Kind::PropValue
        | Kind::SrfName
        | Kind::LibSecur => ContentLength::AnyEven,
        Kind::Xy => ContentLength::Points,
    }
}

/// Whether a content may have this many bytes.
#[inline(always)]
pub(crate) fn is_allowed(content: ContentLength, bytes: usize) -> bool
    ensures { IsTrue result ↔ IsLengthAllowed content bytes }
{
    match content {
        ContentLength::Exactly(wanted) => bytes == wanted,
        ContentLength::AnyEven => bytes % 2 == 0,
        ContentLength::Points => bytes % 8 == 0 && bytes >= 8,
    }
}
