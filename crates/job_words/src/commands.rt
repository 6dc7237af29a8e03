//! The command that the words are.

ghost use Rattle.std.specs.Prelude.{◌≡◌, ◌∷◌, [], List, ℕ, ◌↔◌, IsTrue, IfSome, IfNone};
ghost use Rattle.job_words.specs.Texts.{texts};
ghost use Rattle.job_words.specs.Words.{IsStripeName, IsFracture, IsCheck, IsShots, IsPack, IsUnpack, IsSplit, IsDensity, IsGenerate};
ghost use Rattle.job_words.specs.Lines.{file_word};

use crate::numbers::{is_stripe_ending, number_within};

// The word after the command, where there are two words and the first is this command.
fn one_after<'a>(words: &'a [String], command: &str) -> Option<&'a str>
    ensures some { IfSome result (λ a. texts words.now ≡ command.now ∷ a.now ∷ []) }
    ensures none { IfNone result ((a : List ℕ) → texts words.now ≡ command.now ∷ a ∷ [] → ⊥) }
{
    if words.len() != 2 {
        return None;
    }
    if words[0].as_str() != command {
        return None;
    }
    Some(words[1].as_str())
}

// The words after the command, where there are three words and the first is this command.
fn two_after<'a>(words: &'a [String], command: &str) -> Option<(&'a str, &'a str)>
    ensures some { IfSome result (λ found. texts words.now ≡ command.now ∷ found.0.now ∷ found.1.now ∷ []) }
    ensures none { IfNone result ((a b : List ℕ) → texts words.now ≡ command.now ∷ a ∷ b ∷ [] → ⊥) }
{
    if words.len() != 3 {
        return None;
    }
    if words[0].as_str() != command {
        return None;
    }
    Some((words[1].as_str(), words[2].as_str()))
}

// The words after the command, where there are four words and the first is this command.
fn three_after<'a>(words: &'a [String], command: &str) -> Option<(&'a str, &'a str, &'a str)>
    ensures some { IfSome result (λ found. texts words.now
        ≡ command.now ∷ found.0.now ∷ found.1.now ∷ found.2.now ∷ []) }
    ensures none { IfNone result ((a b c : List ℕ) → texts words.now ≡ command.now ∷ a ∷ b ∷ c ∷ [] → ⊥) }
{
    if words.len() != 4 {
        return None;
    }
    if words[0].as_str() != command {
        return None;
    }
    Some((words[1].as_str(), words[2].as_str(), words[3].as_str()))
}

/// The names of layout and deck, where the words are `fracture LAYOUT DECK`.
pub fn fracture_names(words: &[String]) -> Option<(&str, &str)>
    ensures some { IfSome result (λ names. IsFracture (texts words.now) names.0.now names.1.now) }
    ensures none { IfNone result ((layout deck : List ℕ) → IsFracture (texts words.now) layout deck → ⊥) }
{
    two_after(words, "fracture")
}

/// The names of layout and deck, where the words are `check LAYOUT DECK`.
pub fn check_names(words: &[String]) -> Option<(&str, &str)>
    ensures some { IfSome result (λ names. IsCheck (texts words.now) names.0.now names.1.now) }
    ensures none { IfNone result ((layout deck : List ℕ) → IsCheck (texts words.now) layout deck → ⊥) }
{
    two_after(words, "check")
}

/// The name of the shot file, where the words are `shots FILE`.
pub fn shots_name(words: &[String]) -> Option<&str>
    ensures some { IfSome result (λ file. IsShots (texts words.now) file.now) }
    ensures none { IfNone result ((file : List ℕ) → IsShots (texts words.now) file → ⊥) }
{
    one_after(words, "shots")
}

/// The names of the shot file and of the packed one, where the words are `pack FILE OUT` and the two differ.
pub fn pack_names(words: &[String]) -> Option<(&str, &str)>
    ensures some { IfSome result (λ names. IsPack (texts words.now) names.0.now names.1.now) }
    ensures none { IfNone result ((file out : List ℕ) → IsPack (texts words.now) file out → ⊥) }
{
    let Some((file, out)) = two_after(words, "pack") else {
        return None;
    };
    if file == out {
        return None;
    }
    Some((file, out))
}

/// The names of the packed shot file and of the plain one, where the words are `unpack FILE OUT` and the two differ.
pub fn unpack_names(words: &[String]) -> Option<(&str, &str)>
    ensures some { IfSome result (λ names. IsUnpack (texts words.now) names.0.now names.1.now) }
    ensures none { IfNone result ((file out : List ℕ) → IsUnpack (texts words.now) file out → ⊥) }
{
    let Some((file, out)) = two_after(words, "unpack") else {
        return None;
    };
    if file == out {
        return None;
    }
    Some((file, out))
}

// Whether the name is the other one, a point and a whole number.
fn is_stripe_name(name: &str, out: &str) -> bool
    ensures { IsTrue result ↔ IsStripeName out.now name.now }
{
    match name.as_bytes().strip_prefix(out.as_bytes()) {
        Some(ending) => is_stripe_ending(ending),
        None => false,
    }
}

/// The size of fields, the name of the shot file and that from which those of the stripes' files are made, where the words
/// are `split SIZE FILE OUT` and FILE isn't named as the file of a stripe.
pub fn split_words(words: &[String]) -> Option<(u32, &str, &str)>
    ensures some { IfSome result (λ named. IsSplit (texts words.now) named.0 named.1.now named.2.now) }
    ensures none { IfNone result ((size : ℕ) (file out : List ℕ) → IsSplit (texts words.now) size file out → ⊥) }
{
    let Some((digits, file, out)) = three_after(words, "split") else {
        return None;
    };
    let Some(size) = number_within(digits.as_bytes(), 16, 16_777_216) else {
        return None;
    };
    if is_stripe_name(file, out) {
        return None;
    }
    Some((size, file, out))
}

/// The size of windows and the names of layout and deck, where the words are `density SIZE LAYOUT DECK`.
pub fn density_words(words: &[String]) -> Option<(u32, &str, &str)>
    ensures some { IfSome result (λ named. IsDensity (texts words.now) named.0 named.1.now named.2.now) }
    ensures none { IfNone result ((size : ℕ) (layout deck : List ℕ)
        → IsDensity (texts words.now) size layout deck → ⊥) }
{
    let Some((digits, layout, deck)) = three_after(words, "density") else {
        return None;
    };
    let Some(size) = number_within(digits.as_bytes(), 64, 16_777_216) else {
        return None;
    };
    Some((size, layout, deck))
}

/// The number and the name of the layout, where the words are `generate N FILE`.
pub fn generate_words(words: &[String]) -> Option<(u16, &str)>
    ensures some { IfSome result (λ named. IsGenerate (texts words.now) named.0 named.1.now) }
    ensures none { IfNone result ((n : ℕ) (file : List ℕ) → IsGenerate (texts words.now) n file → ⊥) }
{
    let Some((digits, file)) = two_after(words, "generate") else {
        return None;
    };
    let Some(n) = number_within(digits.as_bytes(), 1, 1000) else {
        return None;
    };
    Some((n as u16, file))
}

/// The word that the line of a refused shot file names, and no text where there is none.
pub fn file_word(words: &[String]) -> &str
    ensures { result.now ≡ file_word (texts words.now) }
{
    match words {
        [_, _, file, _, ..] => file.as_str(),
        [_, file, ..] => file.as_str(),
        _ => "",
    }
}
