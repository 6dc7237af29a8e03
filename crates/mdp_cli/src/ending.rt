//! How a command ended, and the number with which the program ends.
ghost use Rattle.std.specs.Prelude.{◌≡◌, IsNone, IsSome, IfSome};
ghost use Rattle.job_words.specs.Texts.{texts};
ghost use Rattle.job_report.specs.Codes.{code_of};
ghost use Rattle.mdp_job.specs.Runs.{run_of};
ghost use Rattle.mdp_cli.specs.Ends.{IsEnd};

use depot::Depot;
use mdp_job::{Status, run};
use std::alloc::Global;

/// The number where there are no words.
pub(crate) const NO_WORDS: u8 = 8;

/// Does what the words say, and answers how it ended. There is no answer where there are no words.
pub(crate) fn answer_to<D: Depot>(
    alloc: Global,
    words: &Option<Vec<String>>,
    depot: &mut D,
) -> Option<Status>
    ensures no_words { IsNone words.now → IsNone result }
    ensures answered { IsSome words.now → IsSome result }
    ensures end { IfSome words.now (λ w. IfSome result (λ answer. IsEnd D.tells
        (run_of (D.content depot.old) (D.content depot.new) (D.counts depot.old) (D.counts depot.new))
        (texts w.items) (code_of answer))) }
{
    match words {
        Some(words) => Some(run(alloc, words, depot)),
        None => None,
    }
}

/// The number with which the program ends: that of the answer, or `NO_WORDS`.
pub(crate) fn exit_code(answer: &Option<Status>) -> u8
    ensures no_words { IsNone answer.now → result ≡ NO_WORDS }
    ensures answer { IfSome answer.now (λ status. result ≡ code_of status) }
{
    match answer {
        Some(status) => status.code(),
        None => NO_WORDS,
    }
}
