//! Texts that were worked out by hand.
use crate::HeardDepot;
use crate::note::Note;
use depot::{MemDepot, say_whole};
use std::test::Fail;

#[test]
fn numbers_and_lengths(rt: HostRuntime) -> Result<(), Fail> {
    let mut note = Note::new(rt.alloc());
    note.put_number(1_208_114)?;
    note.put(" ")?;
    note.put_number(999)?;
    note.put(" ")?;
    note.put_length(-1_200, 1_000)?;
    note.put(" ")?;
    note.put_length(1_234_567, 2_000)?;
    note.put(" ")?;
    note.put_ratio(2, 3)?;
    let text = note.into_text();
    assert_eq!(rt;
        text.as_slice(),
        b"1,208,114 999 -1.200 617.2835 0.666666".as_slice()
    );
    Ok(())
}

#[test]
fn shots_of_outputs(rt: HostRuntime) -> Result<(), Fail> {
    let mut depot = HeardDepot::new(MemDepot::new(rt.alloc()));
    for _line in 0..8 {
        say_whole(&mut depot, b"kept 1\n")?;
    }
    say_whole(
        &mut depot,
        b"output a.oas shots 10 triangles 0\noutput shots sho",
    )?;
    say_whole(
        &mut depot,
        b"ts 0 triangles 0\noutput shots shots 0 triangles 0\n",
    )?;
    assert_eq!(rt; depot.shots(), [10u64, 0, 0].as_slice());
    Ok(())
}
