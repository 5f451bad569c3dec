//! The object and the notes that the lines of a group say.
ghost use Rattle.std.specs.Prelude.{◌≡◌, ◌∷◌, ◌++◌, [], false, IfOk, OnOk, filter};
ghost use Rattle.std.specs.List.{list_any};
ghost use Rattle.rpsl_reader.specs.Attributes.{HasSides, attribute, attributes, continued};
ghost use Rattle.rpsl_reader.specs.Attributes.{is_stray, said_of};
ghost use Rattle.rpsl_reader.specs.Objects.{items, strays};
ghost use Rattle.rpsl_reader.specs.Selections.{wanted, wants_name};
ghost use Rattle.rpsl_reader.specs.declared.item.Item.TheVariants.{Passed, Whole};

use crate::attribute::{Sides, is_stray, push_attributes, push_named, sides_of};
use crate::line::GroupLine;
use crate::seen::{AttributeSight, Sights};
use crate::selection::Selection;
use geo_addr::{Memory, Text};
use geo_terms::Rule;
use std::alloc::Global;

/// Adds the object and the notes that lines say, as far as they are wanted.
pub(crate) fn push_items<'a>(
    alloc: Global,
    selection: &Selection,
    lines: &[GroupLine<'a>],
    found: &mut Sights<'a>,
) -> Result<(), Memory>
    ensures { OnOk result
        (found.new.items ≡ found.old.items ++ wanted selection.now (items lines.now)) }
{
    let mut left = lines;
    while let [line, rest @ ..] = left {
        if let Some(sides) = sides_of(line.text) {
            return push_first(alloc, selection, line, sides, rest, found);
        }
        push_stray(line, found)?;
        left = rest;
    }
    Ok(())
}

// Adds the object that begins with a line, where it is wanted, and the notes on later lines.
fn push_first<'a>(
    alloc: Global,
    selection: &Selection,
    line: &GroupLine<'a>,
    sides: Sides<'a>,
    lines: &[GroupLine<'a>],
    found: &mut Sights<'a>,
) -> Result<(), Memory>
    requires { HasSides line.now.1 sides.name.now sides.value.now }
    ensures { OnOk result
        (found.new.items ≡ found.old.items ++ (wanted selection.now (Whole (record {
          line = line.now.0;
          parts = attribute line.now lines.now ∷ attributes lines.now;
        }) ∷ []) ++ strays lines.now)) }
{
    if push_object(alloc, selection, line, sides, lines, found)? {
        return push_strays(lines, found);
    }
    Ok(())
}

// Adds the same object alone, and says whether a line behind its first one may be stray.
fn push_object<'a>(
    alloc: Global,
    selection: &Selection,
    line: &GroupLine<'a>,
    sides: Sides<'a>,
    lines: &[GroupLine<'a>],
    found: &mut Sights<'a>,
) -> Result<bool, Memory>
    requires { HasSides line.now.1 sides.name.now sides.value.now }
    ensures found { OnOk result
        (found.new.items ≡ found.old.items ++ wanted selection.now (Whole (record {
          line = line.now.0;
          parts = attribute line.now lines.now ∷ attributes lines.now;
        }) ∷ [])) }
    ensures strays { IfOk result (λ may. may ≡ false → strays lines.now ≡ []) }
{
    let Some(name) = selection.class_name(alloc, sides.name)? else {
        return Ok(true);
    };
    let strays = begin_object(
        alloc,
        selection,
        name,
        line,
        sides.value,
        lines,
        &mut found.begun,
    )?;
    found.close(line.number)?;
    Ok(strays)
}

// The wanted attributes of an object of a class, and whether a line behind its first one is stray.
fn begin_object<'a>(
    alloc: Global,
    selection: &Selection,
    name: Text,
    line: &GroupLine<'a>,
    first: &'a [u8],
    lines: &[GroupLine<'a>],
    parts: &mut Vec<AttributeSight<'a>>,
) -> Result<bool, Memory>
    ensures parts { OnOk result (parts.new.items ≡ record {
      name = name;
      value = continued (said_of first.entry.now) lines.now;
      line = line.now.0;
    } ∷ filter (λ a. wants_name selection.now a.name) (attributes lines.now)) }
    ensures strays { IfOk result (λ strays. strays ≡ list_any (λ l. is_stray l.1) lines.now) }
{
    parts.clear();
    push_named(alloc, name, line, first, lines, parts)?;
    push_attributes(alloc, selection, lines, parts)
}

// Adds a note on each line that is neither an attribute nor a continuation.
fn push_strays(lines: &[GroupLine], found: &mut Sights) -> Result<(), Memory>
    ensures { OnOk result (found.new.items ≡ found.old.items ++ strays lines.now) }
{
    let mut left = lines;
    while let [line, rest @ ..] = left {
        if is_stray(line.text) {
            push_stray(line, found)?;
        }
        left = rest;
    }
    Ok(())
}

// Adds the note on such a line.
fn push_stray(line: &GroupLine, found: &mut Sights) -> Result<(), Memory>
    ensures { OnOk result (found.new.items ≡ found.old.items ++ Passed line.now.0 Rule.P02 ∷ []) }
{
    found.pass(line.number, Rule::P02)
}
