//! Why words are no command.
use crate::note::Note;
use geo_stream::NoMemory;

const COMMANDS: &str =
    "the commands are fracture, check, shots, pack, unpack, split, density and generate";

// The words that come after a command.
fn form_of(command: &str) -> Option<&'static str> {
    match command.as_bytes() {
        b"fracture" | b"check" => Some("LAYOUT DECK"),
        b"shots" => Some("FILE"),
        b"pack" | b"unpack" => Some("FILE OUT"),
        b"split" => Some("SIZE FILE OUT"),
        b"density" => Some("SIZE LAYOUT DECK"),
        b"generate" => Some("N FILE"),
        _ => None,
    }
}

// How many words come after a command.
fn count_of(command: &str) -> usize {
    match command.as_bytes() {
        b"shots" => 1,
        b"split" | b"density" => 3,
        _ => 2,
    }
}

// What the words of a command that has as many as it should still lack.
fn lack_of(command: &str) -> &'static str {
    match command.as_bytes() {
        b"split" =>
            "SIZE is a number from 16 to 16,777,216, and FILE isn't OUT, a point and a number",
        b"density" => "SIZE is a number from 64 to 16,777,216",
        b"generate" => "N is a number from 1 to 1,000",
        _ => "FILE and OUT are one name, and one can't be read and written at once",
    }
}

// Tells why the words after a command aren't those that it takes.
fn tell_form(note: &mut Note, words: &[String], command: &str, form: &str) -> Result<(), NoMemory> {
    note.put("    ")?;
    note.put(command)?;
    note.put(" ")?;
    note.put(form)?;
    let given = words.len().saturating_sub(1);
    if given == count_of(command) {
        note.put(": ")?;
        note.put(lack_of(command))?;
        return note.put("\n");
    }
    note.put(": words wanted after the command: ")?;
    note.put_number(count_of(command) as u128)?;
    note.put(", given: ")?;
    note.put_number(given as u128)?;
    note.put("\n")
}

/// Tells why the words are no command.
pub(crate) fn tell_words(note: &mut Note, words: &[String]) -> Result<(), NoMemory> {
    let Some(command) = words.first() else {
        note.put("    there are no words: ")?;
        note.put(COMMANDS)?;
        return note.put("\n");
    };
    match form_of(command.as_str()) {
        Some(form) => tell_form(note, words, command.as_str(), form),
        None => {
            note.put("    there is no command '")?;
            note.put(command.as_str())?;
            note.put("': ")?;
            note.put(COMMANDS)?;
            note.put("\n")
        }
    }
}
