//! Words that are a command, and words that almost are one.
use crate::{density_words, file_word, generate_words, pack_names, split_words, unpack_names};
use geo_stream::NoMemory;
use std::alloc::Global;
use std::test::Fail;

fn words(alloc: Global, parts: &[&str]) -> Result<Vec<String>, NoMemory> {
    let mut words = Vec::new(alloc);
    for part in parts {
        words.push(String::from_str(alloc, part)?)?;
    }
    Ok(words)
}

#[test]
fn two_names(rt: HostRuntime) -> Result<(), Fail> {
    let alloc = rt.alloc();
    assert!(rt; pack_names(&words(alloc, &["pack", "a", "b"])?) == Some(("a", "b")));
    assert!(rt; pack_names(&words(alloc, &["pack", "a", "a"])?).is_none());
    assert!(rt; unpack_names(&words(alloc, &["unpack", "a", ""])?) == Some(("a", "")));
    assert!(rt; file_word(&words(alloc, &["unpack", "a", ""])?) == "a");
    Ok(())
}

#[test]
fn numbers(rt: HostRuntime) -> Result<(), Fail> {
    let alloc = rt.alloc();
    assert!(rt; generate_words(&words(alloc, &["generate", "1", "f"])?) == Some((1, "f")));
    assert!(rt; generate_words(&words(alloc, &["generate", "0", "f"])?).is_none());
    assert!(rt; generate_words(&words(alloc, &["generate", "0001000", "f"])?) == Some((1000, "f")));
    assert!(rt; generate_words(&words(alloc, &["generate", "1001", "f"])?).is_none());
    assert!(rt; generate_words(&words(alloc, &["generate", "+1", "f"])?).is_none());
    assert!(rt; generate_words(&words(alloc, &["generate", "", "f"])?).is_none());
    Ok(())
}

#[test]
fn a_number_and_two_names(rt: HostRuntime) -> Result<(), Fail> {
    let alloc = rt.alloc();
    let split = words(alloc, &["split", "16", "f", "s"])?;
    assert!(rt; split_words(&split) == Some((16, "f", "s")));
    assert!(rt; file_word(&split) == "f");
    assert!(rt; split_words(&words(alloc, &["split", "16777217", "f", "s"])?).is_none());
    let density = words(alloc, &["density", "64", "l", "d"])?;
    assert!(rt; density_words(&density) == Some((64, "l", "d")));
    assert!(rt; density_words(&words(alloc, &["density", "63", "l", "d"])?).is_none());
    Ok(())
}

#[test]
fn a_stripe_onto_its_file(rt: HostRuntime) -> Result<(), Fail> {
    let alloc = rt.alloc();
    assert!(rt; split_words(&words(alloc, &["split", "16", "s.0", "s"])?).is_none());
    assert!(rt; split_words(&words(alloc, &["split", "16", "s.-007", "s"])?).is_none());
    assert!(rt; split_words(&words(alloc, &["split", "16", "s.", "s"])?).is_some());
    assert!(rt; split_words(&words(alloc, &["split", "16", "s.-", "s"])?).is_some());
    assert!(rt; split_words(&words(alloc, &["split", "16", "s.1x", "s"])?).is_some());
    assert!(rt; split_words(&words(alloc, &["split", "16", "s", "s"])?).is_some());
    Ok(())
}
