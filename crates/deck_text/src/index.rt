//! The definitions and outputs so far, found by their names and files.
ghost use Rattle.std.specs.Prelude.{◌≡◌, ◌<◌, ◌+◌, ℕ, List as Items, [], ◌∷◌, ◌++◌, None, Some, OnOk, option_map, find};
ghost use Rattle.std.specs.Map.{update};
ghost use Rattle.std.specs.Str.{bytes_eq};
ghost use Rattle.deck_text.specs.Statements.{Said as ASaid};
ghost use Rattle.deck_text.specs.Rules.{any_before, count_before, is_definition, is_output, defines, goes_to, is_defined};
ghost use Rattle.deck_text.specs.Decks.{names_of, number_of};
ghost use Rattle.deck_text.specs.Indexes.{defined, defined_in, file_in, IsIndexOf, HasRoom, HasNewName};
ghost use Rattle.deck_text.specs.SaidViews.{said_view};
ghost use Rattle.deck_text.specs.Views.{statement_view};

use crate::said::Said;
use crate::statement::Statement;
use geo_stream::NoMemory;
use std::alloc::Global;
use std::collections::BTreeMap;

/// A definition.
#[derive(Clone, Copy, Debug)]
pub(crate) struct Defined {
    /// Its line, counted from 1.
    pub line: usize,
    /// How many definitions are before it.
    pub number: usize,
}

/// The definitions and outputs of some statements, found by their names and files.
#[derive(Drop)]
pub(crate) struct Index<'a> {
    names: BTreeMap<&'a str, Defined>,
    files: BTreeMap<&'a str, usize>,
    definitions: usize,
    outputs: usize,
}

impl<'a> Index<'a> {
    /// That of no statements.
    pub(crate) fn new(alloc: Global) -> Index<'a>
        ensures { IsIndexOf [] result }
    {
        Index {
            names: BTreeMap::new(alloc),
            files: BTreeMap::new(alloc),
            definitions: 0,
            outputs: 0,
        }
    }

    // The first definition of the name.
    fn defined(&self, name: &str) -> Option<Defined>
        ensures { result ≡ defined_in self.now name.now }
    {
        self.names.get(name).copied()
    }

    /// The line of the first statement that defines the name.
    pub(crate) fn line_of(&self, name: &str) -> Option<usize>
        ensures { (saids : Items ASaid) → IsIndexOf saids self.now
            → result ≡ option_map (λ m. m.line) (find (λ m. defines name.now m.says) saids) }
    {
        match self.defined(name) {
            Some(defined) => Some(defined.line),
            None => None,
        }
    }

    /// Whether the name is defined.
    pub(crate) fn has(&self, name: &str) -> bool
        ensures { (saids : Items ASaid) → IsIndexOf saids self.now → result ≡ is_defined saids name.now }
    {
        self.defined(name).is_some()
    }

    /// How many definitions are before that of the name.
    pub(crate) fn number_of(&self, name: &str) -> usize
        ensures { (saids : Items ASaid) → IsIndexOf saids self.now → result ≡ number_of (names_of saids) name.now }
    {
        match self.defined(name) {
            Some(defined) => defined.number,
            None => self.definitions,
        }
    }

    /// Whether an output goes to the file.
    pub(crate) fn is_taken(&self, file: &str) -> bool
        ensures { (saids : Items ASaid) → IsIndexOf saids self.now → result ≡ any_before (goes_to file.now) saids }
    {
        self.files.contains_key(file)
    }

    /// How many definitions there are.
    pub(crate) fn definitions(&self) -> usize
        ensures value { result ≡ self.now.definitions }
        ensures counts { (saids : Items ASaid) → IsIndexOf saids self.now → result ≡ count_before is_definition saids }
    {
        self.definitions
    }

    /// How many outputs there are.
    pub(crate) fn outputs(&self) -> usize
        ensures value { result ≡ self.now.outputs }
        ensures counts { (saids : Items ASaid) → IsIndexOf saids self.now → result ≡ count_before is_output saids }
    {
        self.outputs
    }

    // Adds a definition.
    fn define(&mut self, name: &'a str, line: usize) -> Result<(), NoMemory>
        requires { self.old.definitions < 256 }
        ensures names { OnOk result ((other : Items ℕ) → defined_in self.new other
            ≡ update bytes_eq (defined_in self.old) name.now (Some (defined line self.old.definitions)) other) }
        ensures files { OnOk result (self.new.files ≡ self.old.files) }
        ensures definitions { OnOk result (self.new.definitions ≡ self.old.definitions + 1) }
        ensures outputs { OnOk result (self.new.outputs ≡ self.old.outputs) }
    {
        let number = self.definitions;
        match self.names.insert(name, Defined { line, number }) {
            Ok(_) => {}
            Err(_) => return Err(NoMemory),
        }
        self.definitions += 1;
        Ok(())
    }

    // Adds an output.
    fn write(&mut self, file: &'a str) -> Result<(), NoMemory>
        requires { self.old.outputs < 64 }
        ensures files { OnOk result ((other : Items ℕ) → file_in self.new other
            ≡ update bytes_eq (file_in self.old) file.now (Some self.old.outputs) other) }
        ensures names { OnOk result (self.new.names ≡ self.old.names) }
        ensures definitions { OnOk result (self.new.definitions ≡ self.old.definitions) }
        ensures outputs { OnOk result (self.new.outputs ≡ self.old.outputs + 1) }
    {
        match self.files.insert(file, self.outputs) {
            Ok(_) => {}
            Err(_) => return Err(NoMemory),
        }
        self.outputs += 1;
        Ok(())
    }

    /// Adds a statement after the others.
    pub(crate) fn put(&mut self, said: Said<'a>) -> Result<(), NoMemory>
        requires room { HasRoom self.old (statement_view said.says) }
        requires new { HasNewName self.old (statement_view said.says) }
        ensures { (saids : Items ASaid) → IsIndexOf saids self.old → OnOk result (IsIndexOf (saids ++ said_view said.entry ∷ []) self.new) }
    {
        match said.says {
            Statement::Set(_) => Ok(()),
            Statement::Define(name, _) => self.define(name, said.line),
            Statement::Write(writing) => self.write(writing.file),
        }
    }
}
