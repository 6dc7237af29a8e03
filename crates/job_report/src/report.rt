//! The report of a command that was done.
ghost use Rattle.std.specs.Prelude.{◌≡◌, ◌++◌, length, flat_map};
ghost use Rattle.std.specs.List.{zip};
ghost use Rattle.depot.specs.Counting.{CountsWrites};
ghost use Rattle.depot.specs.Doing.{Puts, Says};
ghost use Rattle.job_report.specs.Pieces.{spelled};
ghost use Rattle.job_report.specs.Report.{format_name, layout_lines, output_line, report};

use crate::pieces::Piece;
use crate::saying::put_pieces;
use deck_text::Output;
use depot::{Buffer, Depot, DepotBad, flush};
use job_input::Format;
use layout_model::Counts;
use shot_writer::Sums;

fn format_name(format: Format) -> &'static str
    ensures { result.now ≡ format_name format }
{
    match format {
        Format::Gdsii => "gdsii",
        Format::Oasis => "oasis",
    }
}

// What is said of a layout, as pieces.
#[tactic(auto, unfolding(crate::specs::Report::layout_lines))]
fn layout_pieces(format: Format, cells: usize, counts: &Counts) -> [Piece<'static>; 17]
    ensures { spelled result ≡ layout_lines format cells counts.now }
{
    [
        Piece::Text(b"format "),
        Piece::Text(format_name(format).as_bytes()),
        Piece::Text(b"\ncells "),
        Piece::Count(cells as u128),
        Piece::Text(b"\nkept "),
        Piece::Count(u128::from(counts.kept)),
        Piece::Text(b"\nother "),
        Piece::Count(u128::from(counts.other)),
        Piece::Text(b"\ntexts "),
        Piece::Count(u128::from(counts.texts)),
        Piece::Text(b"\nnodes "),
        Piece::Count(u128::from(counts.nodes)),
        Piece::Text(b"\nboxes "),
        Piece::Count(u128::from(counts.boxes)),
        Piece::Text(b"\nproperties "),
        Piece::Count(u128::from(counts.properties)),
        Piece::Text(b"\n"),
    ]
}

// The line of an output, as pieces.
#[tactic(auto, unfolding(crate::specs::Report::output_line))]
fn output_pieces<'a>(word: &'a str, output: &'a Output, sums: &Sums) -> [Piece<'a>; 8]
    ensures { spelled result ≡ output_line word.now (output.now, sums.now) }
{
    [
        Piece::Text(word.as_bytes()),
        Piece::Text(b" "),
        Piece::Text(output.file.as_str().as_bytes()),
        Piece::Text(b" shots "),
        Piece::Count(sums.shots),
        Piece::Text(b" triangles "),
        Piece::Count(sums.triangles),
        Piece::Text(b"\n"),
    ]
}

// Puts the lines of the outputs.
fn put_outputs<D: Depot>(
    depot: &mut D,
    buffer: &mut Buffer,
    word: &str,
    outputs: &[Output],
    sums: &[Sums],
) -> Result<(), DepotBad>
    requires { length outputs.now ≡ length sums.now }
    ensures content { Puts D.tells (D.content depot.old) (D.content depot.new)
        (buffer.old ++ flat_map (output_line word.now) (zip outputs.now sums.now)) buffer.new result }
    ensures counts { CountsWrites (D.counts depot.old) (D.counts depot.new) result }
{
    for k in 0..outputs.len() {
        put_pieces(depot, buffer, &output_pieces(word, &outputs[k], &sums[k]))?;
    }
    Ok(())
}

/// Prints the report: the layout's format, the number of its cells, its counts, and for each output a line of the word,
/// its file and its sums. After a refusal a prefix of it was printed. It takes time linear in the text, and no memory.
pub fn say_report<D: Depot>(
    depot: &mut D,
    format: Format,
    cells: usize,
    counts: &Counts,
    word: &str,
    outputs: &[Output],
    sums: &[Sums],
) -> Result<(), DepotBad>
    requires { length outputs.now ≡ length sums.now }
    ensures content { Says D.tells (D.content depot.old) (D.content depot.new)
        (report format cells counts.now word.now outputs.now sums.now) result }
    ensures counts { CountsWrites (D.counts depot.old) (D.counts depot.new) result }
{
    let mut buffer = Buffer::new();
    put_pieces(depot, &mut buffer, &layout_pieces(format, cells, counts))?;
    put_outputs(depot, &mut buffer, word, outputs, sums)?;
    flush(depot, &mut buffer)
}
