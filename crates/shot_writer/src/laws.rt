//! What the calls of a writer make together.
ghost use Rattle.shot_writer.specs.WritingLaw.{WritingLaw};

/// A start, the putting of any lists and a finish, with no other call of the depot between them, leave the text of a
/// shot file with the shots of all lists in order.
pub fn writing_law()
    ensures { WritingLaw }
{}
