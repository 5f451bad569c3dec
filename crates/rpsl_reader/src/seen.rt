//! What a piece says, as it stands in its text.
ghost use Rattle.std.specs.Prelude.{◌≡◌, ◌<◌, ◌∷◌, ◌++◌, [], IfOk, OnOk, length};
ghost use Rattle.std.specs.Prelude.{slice_index_or};
ghost use Rattle.rpsl_reader.specs.Attributes.{joined};
ghost use Rattle.rpsl_reader.specs.declared.item.Item.{Item};
ghost use Rattle.rpsl_reader.specs.declared.item.Item.TheVariants.{Passed, Whole};

use crate::item::{Attribute, Item, Object};
use geo_addr::{Bytes, List, Memory, Text};
use geo_terms::Rule;
use std::alloc::Global;
use std::marker::Model;

/// What the lines of an attribute say: where it stands in the text, or joined from several lines.
#[derive(Debug, Drop)]
pub struct Said<'a> {
    there: &'a [u8],
    // Empty where it stands there.
    joined: Vec<u8>,
}

impl<'a> Model for Said<'a> {
    ghost use Rattle.std.specs.Prelude.{ℕ, List};
    ghost use Rattle.rpsl_reader.specs.Sights.{said_in};

    ghost Value = { List ℕ };

    ghost view = { λ s. said_in s.there.now s.joined.items };
}

impl<'a> Said<'a> {
    /// What stands in a text; it takes no memory.
    pub fn of(alloc: Global, there: &'a [u8]) -> Said<'a>
        ensures { result ≡ there.entry.now }
    {
        Said {
            there,
            joined: Vec::new(alloc),
        }
    }

    /// The bytes as a slice.
    pub fn as_slice(&self) -> &[u8]
        ensures { result.now ≡ self.now }
    {
        if self.joined.is_empty() {
            self.there
        } else {
            self.joined.as_slice()
        }
    }

    /// Adds what is said on one more line.
    pub(crate) fn join(&mut self, said: &[u8]) -> Result<(), Memory>
        ensures { OnOk result (self.new ≡ joined self.old said.now) }
    {
        if said.is_empty() {
            return Ok(());
        }
        if self.joined.is_empty() {
            self.joined.extend_from_slice(self.there)?;
        }
        if !self.joined.is_empty() {
            self.joined.push(b' ')?;
        }
        self.joined.extend_from_slice(said).map_err(Memory::from)
    }
}

/// An attribute of an object, of which the text holds what it says.
#[derive(Debug, Drop)]
pub struct AttributeSight<'a> {
    /// In lower case.
    pub name: Text,
    pub value: Said<'a>,
    /// The line that it begins on.
    pub line: u64,
}

impl<'a> Model for AttributeSight<'a> {
    ghost use Rattle.rpsl_reader.specs.declared.item.Attribute.{Attribute};

    ghost Value = { Attribute };

    ghost view = { λ p. record { name = p.name; value = p.value; line = p.line } };
}

/// An item as it stands in a text: an object, which has no rule, or a note, which has no parts.
#[derive(Debug, Drop)]
pub struct Sight<'s, 'a: 's> {
    pub line: u64,
    pub parts: &'s [AttributeSight<'a>],
    pub rule: Option<Rule>,
}

impl<'s, 'a: 's> Model for Sight<'s, 'a> {
    ghost use Rattle.rpsl_reader.specs.declared.item.Item.{Item};
    ghost use Rattle.rpsl_reader.specs.Sights.{item_of};

    ghost Value = { Item };

    ghost view = { λ s. item_of s.line s.parts.now s.rule };
}

/// The same beside others, whose parts stand in one list.
#[derive(Clone, Copy, Debug, Drop)]
pub(crate) struct SightRow {
    pub line: u64,
    pub from: usize,
    pub count: usize,
    pub rule: Option<Rule>,
}

/// The items of a piece, as they stand in its text.
#[derive(Debug, Drop)]
pub struct Sights<'a> {
    rows: Vec<SightRow>,
    parts: Vec<AttributeSight<'a>>,
    // The attributes of the object that is being read.
    pub(crate) begun: Vec<AttributeSight<'a>>,
}

impl<'a> Model for Sights<'a> {
    ghost use Rattle.rpsl_reader.specs.Sights.{HasRows, Sightings, items_in};

    ghost Value = { Sightings };

    ghost view = { λ s. record {
      items = items_in s.rows.items s.parts.items;
      begun = s.begun.items;
    } };

    ghost invariant = { λ s. HasRows s.rows.items s.parts.items };
}

impl<'a> Sights<'a> {
    /// Nothing yet; it takes no memory.
    pub(crate) fn new(alloc: Global) -> Sights<'a>
        ensures { result ≡ record { items = []; begun = [] } }
    {
        Sights {
            rows: Vec::new(alloc),
            parts: Vec::new(alloc),
            begun: Vec::new(alloc),
        }
    }

    /// How many items there are.
    pub fn len(&self) -> usize
        ensures { result ≡ length self.now.items }
    {
        self.rows.len()
    }

    /// The item at an index.
    pub fn at(&self, index: usize) -> Sight<'_, 'a>
        requires { index < length self.now.items }
        ensures { (d : Item) → result ≡ slice_index_or self.now.items index d }
    {
        let row = self.rows[index];
        let (_, parts) = self.parts.as_slice().split_at(row.from);
        let (parts, _) = parts.split_at(row.count);
        let line = row.line;
        let rule = row.rule;
        Sight { line, parts, rule }
    }

    /// Adds a note on a line.
    pub(crate) fn pass(&mut self, line: u64, rule: Rule) -> Result<(), Memory>
        ensures { OnOk result (self.new.items ≡ self.old.items ++ Passed line rule ∷ []) }
    {
        let row = SightRow {
            line,
            from: 0,
            count: 0,
            rule: Some(rule),
        };
        self.rows.push(row).map_err(Memory::from)
    }

    /// Adds the object of the attributes that were begun.
    pub(crate) fn close(&mut self, line: u64) -> Result<(), Memory>
        ensures { OnOk result (self.new.items ≡ self.old.items ++ Whole (record {
          line = line;
          parts = self.old.begun;
        }) ∷ []) }
    {
        let from = self.parts.len();
        let count = self.begun.len();
        self.parts.append(&mut self.begun)?;
        let rule = None;
        self.rows.push(SightRow {
            line,
            from,
            count,
            rule,
        })?;
        Ok(())
    }

    /// Copies of the items.
    pub(crate) fn items(&self, alloc: Global) -> Result<Vec<Item>, Memory>
        ensures { IfOk result (λ items. items.items ≡ self.now.items) }
    {
        let mut items = Vec::with_capacity(alloc, self.len())?;
        for index in 0..self.len() {
            items.push(copy_of(alloc, self.at(index))?)?;
        }
        Ok(items)
    }
}

// A copy of an item.
fn copy_of(alloc: Global, sight: Sight) -> Result<Item, Memory>
    ensures { IfOk result (λ item. item ≡ sight.entry) }
{
    let line = sight.line;
    match sight.rule {
        Some(rule) => Ok(Item::Passed { line, rule }),
        None => {
            let parts = List::of(copies(alloc, sight.parts)?);
            Ok(Item::Whole(Object { line, parts }))
        }
    }
}

// Copies of attributes.
fn copies(alloc: Global, parts: &[AttributeSight]) -> Result<Vec<Attribute>, Memory>
    ensures { IfOk result (λ copies. copies.items ≡ parts.now) }
{
    let mut copies = Vec::with_capacity(alloc, parts.len())?;
    let mut left = parts;
    while let [part, rest @ ..] = left {
        let name = part.name.copied()?;
        let value = Bytes::of(alloc, part.value.as_slice())?;
        let line = part.line;
        copies.push(Attribute { name, value, line })?;
        left = rest;
    }
    Ok(copies)
}

/// Attributes that are held elsewhere.
pub fn parts_of<'a>(
    alloc: Global,
    attributes: &'a [Attribute],
) -> Result<Vec<AttributeSight<'a>>, Memory>
    ensures { IfOk result (λ parts. parts.items ≡ attributes.entry.now) }
{
    let mut parts = Vec::with_capacity(alloc, attributes.len())?;
    let mut left = attributes;
    while let [attribute, rest @ ..] = left {
        let name = attribute.name.copied()?;
        let value = Said::of(alloc, attribute.value.as_slice());
        let line = attribute.line;
        parts.push(AttributeSight { name, value, line })?;
        left = rest;
    }
    Ok(parts)
}
