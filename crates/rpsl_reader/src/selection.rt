//! What a reader is asked for.
ghost use Rattle.std.specs.Prelude.{◌≡◌, ◌∷◌, ◌++◌, [], true, false, map, IfOk, OnOk, OnErr};
ghost use Rattle.std.specs.Prelude.{IsTrue, List, Some, None, if◌then◌else◌, ℕ};
ghost use Rattle.std.specs.Char.{to_ascii_lowercase};
ghost use Rattle.std.specs.Option.{option_copied};
ghost use Rattle.geo_terms.specs.PlaceForm.{same_text};
ghost use Rattle.rpsl_reader.specs.Attributes.{is_name};
ghost use Rattle.rpsl_reader.specs.Selections.{is_among, wants_class, wants_name};

use crate::attribute::lower_name;
use geo_addr::{Memory, Text};
use std::alloc::Global;
use std::marker::Model;

/// Which objects a reader hands out: all as they are, or those of some classes, each with its first
/// attribute and those of some names. Notes are always handed out.
#[derive(Debug, Drop)]
pub struct Selection {
    everything: bool,
    classes: Vec<Text>,
    names: Vec<Text>,
    // Whether a wanted name begins with a byte.
    begins: [bool; 256],
}

impl Model for Selection {
    ghost use Rattle.rpsl_reader.specs.Selections.{HasFirsts, Wanted};

    ghost Value = { Wanted };

    ghost view = { λ s. record {
      everything = s.everything;
      classes = s.classes.items;
      names = s.names.items;
    } };

    ghost invariant = { λ s. HasFirsts s.begins s.names.items };
}

impl Selection {
    /// Everything; it takes no memory.
    pub fn everything(alloc: Global) -> Selection
        ensures { result ≡ record { everything = true; classes = []; names = [] } }
    {
        Selection {
            everything: true,
            classes: Vec::new(alloc),
            names: Vec::new(alloc),
            begins: [false; 256],
        }
    }

    /// No object so far; it takes no memory.
    pub fn new(alloc: Global) -> Selection
        ensures { result ≡ record { everything = false; classes = []; names = [] } }
    {
        Selection {
            everything: false,
            classes: Vec::new(alloc),
            names: Vec::new(alloc),
            begins: [false; 256],
        }
    }

    /// Adds the objects of a class, whose name is given in lower case.
    pub fn add_class(&mut self, name: Text) -> Result<(), Memory>
        ensures added { OnOk result
            (self.new ≡ record self.old { classes = self.old.classes ++ name ∷ [] }) }
        ensures err { OnErr result (self.new ≡ self.old) }
    {
        self.classes.push(name).map_err(Memory::from)
    }

    /// Adds the attributes of a name, which is given in lower case.
    pub fn add_name(&mut self, name: Text) -> Result<(), Memory>
        ensures added { OnOk result
            (self.new ≡ record self.old { names = self.old.names ++ name ∷ [] }) }
        ensures err { OnErr result (self.new ≡ self.old) }
    {
        let first = name.as_str().as_bytes().first().copied();
        self.names.push(name)?;
        if let Some(first) = first {
            self.begins[usize::from(first)] = true;
        }
        Ok(())
    }

    /// The name of a class in lower case, where its objects are wanted.
    pub(crate) fn class_name(&self, alloc: Global, name: &[u8]) -> Result<Option<Text>, Memory>
        requires { IsTrue (is_name name.now) }
        ensures { IfOk result
            (λ found. found ≡ (if wants_class self.now (map to_ascii_lowercase name.now)
            then Some (map to_ascii_lowercase name.now) else None)) }
    {
        if self.everything {
            return Ok(Some(lower_name(alloc, name)?));
        }
        copy_of(find(self.classes.as_slice(), name))
    }

    /// The name of an attribute in lower case, where it is wanted.
    pub(crate) fn attribute_name(&self, alloc: Global, name: &[u8]) -> Result<Option<Text>, Memory>
        requires { IsTrue (is_name name.now) }
        ensures { IfOk result
            (λ found. found ≡ (if wants_name self.now (map to_ascii_lowercase name.now)
            then Some (map to_ascii_lowercase name.now) else None)) }
    {
        if self.everything {
            return Ok(Some(lower_name(alloc, name)?));
        }
        if !self.may_want(name) {
            return Ok(None);
        }
        copy_of(find(self.names.as_slice(), name))
    }

    /// Whether no wanted name begins with a letter.
    pub(crate) fn lacks(&self, first: u8) -> bool
        ensures { result ≡ true → (rest : List ℕ) → wants_name self.now (first ∷ rest) ≡ false }
    {
        !self.everything && !self.begins[usize::from(first)]
    }

    // Whether a wanted name begins with the letter that a name begins with.
    fn may_want(&self, name: &[u8]) -> bool
        ensures { result ≡ false
            → is_among (map to_ascii_lowercase name.now) self.now.names ≡ false }
    {
        match name {
            [first, ..] => self.begins[usize::from(first.to_ascii_lowercase())],
            [] => true,
        }
    }
}

// A copy of a text, if there is one.
fn copy_of(text: Option<&Text>) -> Result<Option<Text>, Memory>
    ensures { IfOk result (λ copy. copy ≡ option_copied text.entry) }
{
    match text {
        Some(text) => Ok(Some(text.copied()?)),
        None => Ok(None),
    }
}

// The text that is a name in lower case.
fn find<'a>(texts: &'a [Text], name: &[u8]) -> Option<&'a Text>
    ensures { option_copied result ≡ (if is_among (map to_ascii_lowercase name.now) texts.now
        then Some (map to_ascii_lowercase name.now) else None) }
{
    let mut left = texts;
    while let [text, rest @ ..] = left {
        if is_lower(name, text.as_str().as_bytes()) {
            return Some(text);
        }
        left = rest;
    }
    None
}

// Whether a text is a name in lower case.
#[tactic(auto, using(crate::proofs::Names::unlike_lower))]
fn is_lower(name: &[u8], text: &[u8]) -> bool
    ensures { result ≡ same_text (map to_ascii_lowercase name.now) text.now }
{
    if name.len() != text.len() {
        return false;
    }
    let mut left = name;
    let mut right = text;
    while let [a, name @ ..] = left {
        let [b, text @ ..] = right else {
            return false;
        };
        if a.to_ascii_lowercase() != *b {
            return false;
        }
        left = name;
        right = text;
    }
    right.is_empty()
}
