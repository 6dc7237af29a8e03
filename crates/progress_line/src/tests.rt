//! Lines that were worked out by hand, the pace, and a depot in memory that is shown.
use crate::file::FileLine;
use crate::ledger::Ledger;
use crate::pace::Pace;
use crate::{Screen, ShownDepot};
use depot::{Depot, Phase, Progress, SureDepot, make_file, read_all, say_whole};
use std::io::sink;
use std::test::Fail;

#[test]
fn a_file_of_known_size(rt: HostRuntime) {
    let mut file = FileLine::new(Phase::Reading, "block.gds", Some(34_000_000));
    file.advance(Phase::Reading, 12_345_678);
    assert_eq!(rt;
        file.line(9).bytes(),
        b"reading block.gds: 0:09, 12.3 of 34.0 MB".as_slice()
    );
    assert_eq!(rt;
        file.line(75).bytes(),
        b"reading block.gds: 1:15, 2:11 left, 12.3 of 34.0 MB".as_slice()
    );
    file.judge();
    assert_eq!(rt;
        file.line(0).bytes(),
        b"judging block.gds: 0:00, 12.3 MB".as_slice()
    );
}

#[test]
fn a_long_name_with_a_control_character(rt: HostRuntime) {
    let mut file = FileLine::new(
        Phase::Writing,
        "0123456789012\x1b[2J34567890123456.oas",
        None,
    );
    file.advance(Phase::Writing, 150_000);
    let line = file.line(3);
    let shown = b"writing ..?[2J34567890123456.oas: 0:03, 150000 bytes";
    assert_eq!(rt; line.bytes(), shown.as_slice());
}

#[test]
fn rows_of_an_output(rt: HostRuntime) {
    let mut file = FileLine::new(Phase::Writing, "metal.oas", None);
    file.note(Progress::up_to(Phase::Covering, -100, 3900, 900, 1200));
    file.advance(Phase::Writing, 1_500_000);
    assert_eq!(rt;
        file.line(20).bytes(),
        b"writing metal.oas: 1000 of 4000 rows, 0:20, 1:00 left, 1200 shots, 1.5 MB".as_slice()
    );
}

#[test]
fn at_most_nine_in_a_second(rt: HostRuntime) {
    let mut pace = Pace::new();
    for _ in 0..8 {
        assert!(rt; pace.is_due(0));
    }
    assert!(rt; !pace.is_due(0));
    assert!(rt; pace.is_due(1));
    assert!(rt; !pace.is_due(1));
}

#[test]
fn a_shown_depot_answers_as_the_other(rt: HostRuntime) -> Result<(), Fail> {
    let alloc = rt.alloc();
    let mut inside = SureDepot::new(alloc);
    inside.add("in", b"abc")?;
    let mut depot = ShownDepot::new(inside, Some(Screen::new(rt, sink(), 79, alloc)));
    let bytes = read_all(alloc, &mut depot, "in", 10)?;
    assert_eq!(rt; bytes.as_slice(), b"abc".as_slice());
    make_file(&mut depot, "out", &bytes)?;
    depot.note(Progress::up_to(Phase::Covering, 0, 1, 0, 0));
    say_whole(&mut depot, b"done\n")?;
    depot.wipe();
    Ok(())
}

#[test]
fn two_shots_are_summed(rt: HostRuntime) -> Result<(), Fail> {
    let mut ledger = Ledger::new(rt.alloc(), 100);
    ledger.start(Phase::Writing, "metal.oas", 103);
    ledger.take(b"%SEMI-OASIS\r\n\x01\x031.0\x00\xd0\x0f\0\0\0\0\0\0\0\0\0\0\0\0\0\x0e\x05SHOTS");
    // 100 wide, 40 high, from (0, 0); then 64 wide below and 32 above, 16 high, from (-1, 64), both its sides slanted.
    ledger.take(
        b"\x14\x7b\x01\x00\x64\x28\x00\x00\x17\x7b\x01\x00\x40\x10\x20\x21\x03\x80\x01\x02\xfc\x01",
    );
    ledger.end(110);
    let file = ledger.files().first().ok_or("no file")?;
    let line = file.line().ok_or("no shot file")?;
    let told = b"metal.oas: 2 shots, 0.001 um2, least width 0.016 um, least height 0.008 um, \
        0 thinner than a tenth of the median, 7 s";
    assert_eq!(rt; line.bytes(), told.as_slice());
    assert_eq!(rt;
        ledger.line(112, Some(20480)).bytes(),
        b"reading 0 s, in all 12 s, 20 MB of memory at most".as_slice()
    );
    Ok(())
}
