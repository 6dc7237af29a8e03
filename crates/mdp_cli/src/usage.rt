//! What the program tells on standard error of how it is used. No contract speaks of standard error.

/// The number of the answer to words that are no command.
const REFUSED_WORDS: u8 = 1;

const USAGE: &str = "nettletide 1.0.0 writes the shot files of a chip layout for mask writers.

    nettletide fracture LAYOUT DECK        writes the deck's shot files, and prints a report
    nettletide check LAYOUT DECK           judges the deck's shot files, whoever made them, by the layout
    nettletide shots FILE                  lists a shot file
    nettletide pack FILE OUT               writes a shot file with repetitions
    nettletide unpack FILE OUT             writes a packed shot file without
    nettletide split SIZE FILE OUT         writes a shot file for each stripe of fields, SIZE from 16 half units
    nettletide density SIZE LAYOUT DECK    counts triangles of the deck's areas in windows, SIZE from 64 half units
    nettletide generate N FILE             writes a GDSII layout for tests and measurements, N from 1 to 1,000

LAYOUT is a GDSII or an OASIS file, and DECK a text that says which layers are taken and what is made of them.
DECK.md has every line of a deck and every refusal with what to do about it: it is in docs/ of the sources, and in
share/doc/nettletide/ where the program was installed. FORMATS.md beside it has the formats.";

/// Prints on standard error how the program is used, where that number says that the words are no command. A refusal is
/// passed over.
pub(crate) fn tell_usage(rt: &impl Eprint, code: u8) {
    if code == REFUSED_WORDS {
        let _told = rt.eprintln(USAGE);
    }
}
