//! The values of the fields of records that come one after another.
ghost use Rattle.std.specs.Prelude.{◌≡◌, ◌^◌, true};
ghost use Rattle.oas_fields.specs.Values.{IsPlaceWithin, ArePlacesWithin};

use crate::{Fields, Place};
use oas_record::{Called, OasRecord, PlainRectangle, Rep, ShapeHead, ShapeKind};
use std::process::Abort;
use std::rt::HostRuntime;

const MOST: i128 = 1 << 100;

fn is_near(place: Place) -> bool
    ensures { result ≡ true → IsPlaceWithin (2 ^ 100) place }
{
    if place.x < -MOST || MOST < place.x {
        return false;
    }
    -MOST <= place.y && place.y <= MOST
}

fn are_near(fields: &Fields<'_>) -> bool
    ensures { result ≡ true → ArePlacesWithin (2 ^ 100) fields.now }
{
    if !is_near(fields.placement) {
        return false;
    }
    if !is_near(fields.geometry) {
        return false;
    }
    is_near(fields.text)
}

fn take<'f>(rt: &impl Abort, fields: &mut Fields<'f>, current: OasRecord<'f>) {
    assert!(rt; are_near(fields));
    fields.take(current);
}

fn has_a_row(fields: &Fields<'_>) -> bool {
    match &fields.repetition {
        Some(repetition) => matches!(repetition.written(), Rep::Row { dim: 2, .. }),
        None => false,
    }
}

// A square on layer 3.
fn square(width: Option<u64>, x: Option<i64>, repetition: Option<Rep<'_>>) -> OasRecord<'_> {
    OasRecord::Shape {
        head: ShapeHead {
            info: 0x80,
            layer: Some(3),
            datatype: None,
            x,
            y: None,
            repetition,
        },
        kind: ShapeKind::Rectangle {
            width,
            height: None,
        },
    }
}

#[test]
fn values_last_to_the_end_of_a_cell(rt: HostRuntime) {
    let mut fields = Fields::new();
    take(&rt, &mut fields, OasRecord::Cell(Called::Number(0)));
    let row = Rep::Row { dim: 2, space: 9 };
    take(&rt, &mut fields, square(Some(7), Some(5), Some(row)));
    take(&rt, &mut fields, OasRecord::Mode { is_relative: true });
    take(&rt, &mut fields, square(None, Some(6), Some(Rep::Same)));
    assert_eq!(rt; fields.layer, Some(3));
    assert_eq!(rt; fields.datatype, None);
    assert_eq!(rt; fields.height, Some(7));
    assert_eq!(rt; fields.geometry.x, 11);
    assert!(rt; has_a_row(&fields));
    take(&rt, &mut fields, OasRecord::Cell(Called::Number(1)));
    assert_eq!(rt; fields.layer, None);
    assert_eq!(rt; fields.geometry.x, 0);
    assert!(rt; !fields.is_relative);
}

#[test]
fn takes_a_plain_rectangle(rt: HostRuntime) {
    let mut fields = Fields::new();
    let row = Rep::Row { dim: 2, space: 9 };
    take(&rt, &mut fields, square(Some(7), Some(5), Some(row)));
    take(&rt, &mut fields, OasRecord::Mode { is_relative: true });
    let plain = PlainRectangle {
        info: 0x80,
        layer: None,
        datatype: Some(4),
        width: Some(8),
        height: None,
        x: Some(6),
        y: None,
    };
    assert!(rt; are_near(&fields));
    fields.take_rectangle(&plain);
    assert_eq!(rt; fields.layer, Some(3));
    assert_eq!(rt; fields.datatype, Some(4));
    assert_eq!(rt; fields.width, Some(8));
    assert_eq!(rt; fields.height, Some(8));
    assert_eq!(rt; fields.geometry, Place { x: 11, y: 0 });
    assert!(rt; has_a_row(&fields));
}
