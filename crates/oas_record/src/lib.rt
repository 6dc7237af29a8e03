//! Records of an OASIS file (SEMI P39, version 1.0): the record at an offset with its written and its absent fields, or
//! the first byte that breaks.
#![tactic(auto)]

mod delta_form;
mod deltas;
mod extensions;
mod faults;
mod fields;
mod file_fields;
mod file_rows;
mod info;
mod items;
mod laws;
mod lexical;
mod lists;
mod name_rows;
mod optional;
mod path_rows;
mod placement_rows;
mod plain;
mod property_rows;
mod property_values;
mod reading;
mod records;
mod repetition;
mod repetition_readers;
mod segments;
mod shape_form;
mod shape_rows;
mod shapes;
mod taking;
mod values;

pub use faults::RecordBad;
pub use fields::{Called, Deltas, Interval};
pub use items::{Moves, Numbers};
pub use laws::record_laws;
pub use plain::{PlainRectangle, plain_rectangle_at};
pub use reading::record_at;
pub use records::{NameKind, OasRecord, Turn};
pub use repetition::Rep;
pub use shapes::{ShapeHead, ShapeKind, TrapezoidDeltas};
pub use taking::Lists;
