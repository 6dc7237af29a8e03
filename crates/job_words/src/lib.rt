//! The words of the program: which command they are, and the names and numbers in them. It is a crate of its own since
//! two crates read words by it: `mdp_job` does what they say, and `explain` tells a person what came of it.
#![tactic(auto)]

mod commands;
mod numbers;
#[cfg(test)]
mod tests;

pub use commands::{
    check_names, density_words, file_word, fracture_names, generate_words, pack_names, shots_name,
    split_words, unpack_names,
};
