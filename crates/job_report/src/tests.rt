//! Lines and a report, by their texts.
use crate::{deck_line, gds_line, oas_line, say_pieces, say_report, tree_line};
use cell_tree::TreeBad;
use deck_text::{DeckBad, Output, Text};
use depot::MemDepot;
use gds_reader::GdsBad;
use geo_stream::List;
use job_input::Format;
use layout_model::{Counts, Name, Pair};
use oas_fields::Variable;
use oas_reader::OasBad;
use oas_record::RecordBad;
use shot_writer::Sums;
use std::alloc::Global;
use std::test::Fail;

fn name(alloc: Global, text: &[u8]) -> Result<Name, Fail> {
    Ok(Name::new(alloc, text).ok().ok_or("no name")?)
}

#[test]
fn lines_of_refusals(rt: HostRuntime) -> Result<(), Fail> {
    let alloc = rt.alloc();
    let mut names = List::new(alloc);
    names.push(name(alloc, b"P")?)?;
    names.push(name(alloc, b"Q")?)?;
    let mut depot = MemDepot::new(alloc);
    say_pieces(&mut depot, &deck_line(&DeckBad::Line(4, 7)))?;
    say_pieces(&mut depot, &deck_line(&DeckBad::Range(4, -1)))?;
    say_pieces(&mut depot, &gds_line(&GdsBad::Unit(0x3944_B82F_A09B_5A54)))?;
    say_pieces(&mut depot, &gds_line(&GdsBad::Twice(60, 88)))?;
    say_pieces(&mut depot, &tree_line(b"T", &TreeBad::NoTop))?;
    say_pieces(&mut depot, &tree_line(b"T", &TreeBad::Cycle(names)))?;
    say_pieces(&mut depot, &[])?;
    let lines = b"deck refused: line 4 column 7\ndeck refused: line 4 out of range -1\n\
        layout refused: gdsii unit 3944b82fa09b5a54\nlayout refused: gdsii name at 88 repeats 60\n\
        layout refused: no cell T\nlayout refused: cycle P Q\n";
    assert_eq!(rt; depot.said(), lines.as_slice());
    Ok(())
}

#[test]
fn lines_of_oasis_files(rt: HostRuntime) -> Result<(), Fail> {
    let mut depot = MemDepot::new(rt.alloc());
    say_pieces(&mut depot, &oas_line(&OasBad::Magic))?;
    say_pieces(
        &mut depot,
        &oas_line(&OasBad::Lexical(39, RecordBad::Packed)),
    )?;
    say_pieces(
        &mut depot,
        &oas_line(&OasBad::Undefined(39, Variable::Layer)),
    )?;
    say_pieces(&mut depot, &oas_line(&OasBad::Value(13, 9)))?;
    say_pieces(&mut depot, &oas_line(&OasBad::Names(34, 47)))?;
    say_pieces(&mut depot, &oas_line(&OasBad::Unit(13)))?;
    let lines = b"layout refused: oasis magic\nlayout refused: oasis record at 39 packed\n\
        layout refused: oasis undefined at 39 layer\nlayout refused: oasis value at 13 rule 9\n\
        layout refused: oasis names at 34 and 47\nlayout refused: oasis unit at 13\n";
    assert_eq!(rt; depot.said(), lines.as_slice());
    Ok(())
}

#[test]
fn a_report(rt: HostRuntime) -> Result<(), Fail> {
    let alloc = rt.alloc();
    let outputs = [Output {
        name: 0,
        file: Text::new(alloc, "out.oas")?,
        pair: Pair {
            layer: 1,
            datatype: 0,
        },
    }];
    let counts = Counts {
        kept: 1,
        other: 2,
        texts: 3,
        nodes: 4,
        boxes: 5,
        properties: 6,
    };
    let sums = [Sums {
        shots: 1,
        triangles: 800,
    }];
    let mut depot = MemDepot::new(alloc);
    say_report(
        &mut depot,
        Format::Oasis,
        9,
        &counts,
        "output",
        &outputs,
        &sums,
    )?;
    let text = b"format oasis\ncells 9\nkept 1\nother 2\ntexts 3\nnodes 4\nboxes 5\nproperties 6\n\
        output out.oas shots 1 triangles 800\n";
    assert_eq!(rt; depot.said(), text.as_slice());
    Ok(())
}
