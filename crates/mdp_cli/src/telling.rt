//! What the program tells on standard error of a command that has ended. No contract speaks of standard error.
use crate::regular::RegularDepot;
use depot::FileDepot;
use explain::{Ended, HeardDepot, WITHOUT_WORDS, explain};
use mdp_job::Status;
use std::io::Write;

// Whether the words ask for the usage alone, which is shown for all words that are no command.
fn ask_for_usage(words: &[String]) -> bool {
    let [word] = words else {
        return false;
    };
    let word = word.as_str();
    word == "help" || word == "--help" || word == "-h" || word == "--version"
}

// Names the parts of files that were in the way of new ones.
fn tell_leftovers(rt: HostRuntime, names: &[String]) {
    for name in names {
        let _first = rt.eprint("nettletide: ");
        let _name = rt.eprint(name.as_str());
        let _rest = rt.eprintln(": a run that was stopped left it, or another run is writing it");
    }
}

/// Prints on standard error what was refused and why, or the warnings of a run that went well. Files are read again through
/// a depot of its own. A refusal is passed over.
pub(crate) fn tell_end(
    rt: HostRuntime,
    words: &Option<Vec<String>>,
    answer: &Option<Status>,
    heard: &HeardDepot<FileDepot<HostRuntime>>,
) {
    let (Some(words), Some(status)) = (words, answer) else {
        let _told = rt.eprint(WITHOUT_WORDS);
        return;
    };
    if ask_for_usage(words.as_slice()) {
        return;
    }
    tell_leftovers(rt, heard.depot().leftovers());
    let ended = Ended {
        words: words.as_slice(),
        status,
        fault: heard.depot().fault(),
        shots: heard.shots(),
    };
    let mut depot = RegularDepot::new(rt);
    let Some(text) = explain(rt.alloc(), &ended, &mut depot) else {
        return;
    };
    let mut to = rt.stderr();
    let _told = to.write_all(text.as_slice());
}
