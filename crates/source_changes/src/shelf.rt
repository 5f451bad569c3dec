//! Named things of one kind in the order of their names.
ghost use Rattle.std.specs.Prelude.{◌≡◌, ◌<◌, ◌≤◌, ℕ, List, drop, find, length, take};
ghost use Rattle.std.specs.Prelude.{IfOk, IsTrue, Ok, OnOk, OnErr};
ghost use Rattle.std.specs.Prelude.{None, Some, option_and_then, remove, slice_get, slice_set};
ghost use Rattle.std.specs.Arc.{arc_value};
ghost use Rattle.std.specs.List.Sorted.{IsBinarySearchResult, IsSearchInRange};
ghost use Rattle.std.specs.Option.{option_copied};
ghost use Rattle.geo_terms.specs.PlaceForm.{same_text};
ghost use Rattle.geo_terms.specs.Precedence.{text_cmp};
ghost use Rattle.geo_terms.specs.SlotOrder.{AreInOrder, placed, removed};
ghost use Rattle.source_changes.specs.Placing.{AreApart, HaveTurned, IsPutOver, all_placed};

use geo_addr::Memory;
use geo_terms::{Dump, Stats};
use std::mem;
use std::sync::Arc;

/// What is found by its name among others of its kind.
pub trait Named {
    ghost name: { Self → List ℕ };

    fn name(&self) -> &str
        ensures { result.now ≡ name self.now };
}

impl Named for Dump {
    ghost name = { λ d. d.slot };

    fn name(&self) -> &str {
        self.slot.as_str()
    }
}

impl Named for Stats {
    ghost name = { λ t. t.slot };

    fn name(&self) -> &str {
        self.slot.as_str()
    }
}

impl<T: Named + Drop> Named for Arc<T> {
    ghost name = { λ a. T.name (arc_value a) };

    fn name(&self) -> &str {
        (**self).name()
    }
}

// Where the thing of a name stands.
fn position<T: Named>(shelf: &[T], name: &str) -> Option<usize>
    requires { AreInOrder T.name shelf.now }
    ensures { option_and_then (slice_get shelf.now) result
        ≡ find (λ t. same_text (T.name t) name.now) shelf.now }
{
    match search(shelf, name) {
        Ok(index) => Some(index),
        Err(_) => None,
    }
}

// Where the thing of a name stands. It is looked for first where the last one was found.
fn position_near<T: Named>(shelf: &[T], name: &str, near: &mut usize) -> Option<usize>
    requires { AreInOrder T.name shelf.now }
    ensures { option_and_then (slice_get shelf.now) result
        ≡ find (λ t. same_text (T.name t) name.now) shelf.now }
{
    if is_at(shelf, *near, name) {
        return Some(*near);
    }
    let found = position(shelf, name)?;
    *near = found;
    Some(found)
}

/// The thing of a name, by halving.
pub fn get<'a, T: Named>(shelf: &'a [T], name: &str) -> Option<&'a T>
    requires { AreInOrder T.name shelf.now }
    ensures { option_copied result ≡ find (λ t. same_text (T.name t) name.now) shelf.entry.now }
{
    shelf.get(position(shelf, name)?)
}

/// The thing of a name. It is looked for first where the last one was found, which spares a halving
/// where many are of one name.
pub fn get_near<'a, T: Named>(shelf: &'a [T], name: &str, near: &mut usize) -> Option<&'a T>
    requires { AreInOrder T.name shelf.now }
    ensures { option_copied result ≡ find (λ t. same_text (T.name t) name.now) shelf.entry.now }
{
    shelf.get(position_near(shelf, name, near)?)
}

/// Puts a thing among the others, in place of the one of its name, which is handed back.
///
/// After `Memory` it is dropped.
pub fn put<T: Named + Drop>(shelf: &mut Vec<T>, thing: T) -> Result<Option<T>, Memory>
    requires { AreInOrder T.name shelf.old.items }
    ensures new { OnOk result (shelf.new.items ≡ placed T.name thing shelf.old.items) }
    ensures order { AreInOrder T.name shelf.new.items }
    ensures old { IfOk result
        (λ old. old ≡ find (λ t. same_text (T.name t) (T.name thing)) shelf.old.items) }
    ensures err { OnErr result (shelf.new.items ≡ shelf.old.items) }
{
    match search(shelf.as_slice(), thing.name()) {
        Ok(index) => {
            let old = replace_at(shelf, index, thing);
            Ok(Some(old))
        }
        Err(index) => {
            shelf.insert(index, thing)?;
            Ok(None)
        }
    }
}

/// Puts things among the others, each in place of the one of its name. Those behind where one
/// belongs move once for all of them.
///
/// After `Memory` they are dropped.
pub fn put_all<T: Named + Drop>(shelf: &mut Vec<T>, things: Vec<T>) -> Result<(), Memory>
    requires shelf { AreInOrder T.name shelf.old.items }
    requires things { AreInOrder T.name things.items }
    ensures new { OnOk result (shelf.new.items ≡ all_placed T.name things.items shelf.old.items) }
    ensures order { AreInOrder T.name shelf.new.items }
    ensures err { OnErr result (shelf.new.items ≡ shelf.old.items) }
{
    let count = shelf.len();
    let mut things = things;
    shelf.append(&mut things)?;
    put_over(shelf, count);
    put_between(shelf, count);
    Ok(())
}

/// Takes the thing of a name out, and hands it back. It takes no memory.
pub fn take<T: Named + Drop>(shelf: &mut Vec<T>, name: &str) -> Option<T>
    requires { AreInOrder T.name shelf.old.items }
    ensures new { shelf.new.items ≡ removed T.name name.now shelf.old.items }
    ensures order { AreInOrder T.name shelf.new.items }
    ensures old { result ≡ find (λ t. same_text (T.name t) name.now) shelf.old.items }
    ensures absent { result ≡ None → shelf.new.items ≡ shelf.old.items }
{
    match search(shelf.as_slice(), name) {
        Ok(index) => {
            let old = take_at(shelf, index);
            Some(old)
        }
        Err(_) => None,
    }
}

// Puts those behind so many things over the ones of their names among these. The others stay
// behind.
fn put_over<T: Named + Drop>(shelf: &mut Vec<T>, count: usize)
    requires count { count ≤ length shelf.old.items }
    requires shelf { AreInOrder T.name (take count shelf.old.items) }
    requires things { AreInOrder T.name (drop count shelf.old.items) }
    ensures { IsPutOver T.name count shelf.old.items shelf.new.items }
{
    let mut at = shelf.len();
    while count < at {
        at -= 1;
        if let Ok(index) = search(&shelf[..count], shelf[at].name()) {
            let thing = take_at(shelf, at);
            replace_at(shelf, index, thing);
        }
    }
}

// Puts those behind so many things between these, the last one first. Those that are still to be
// put stand behind the things that they are put between.
fn put_between<T: Named + Drop>(shelf: &mut Vec<T>, count: usize)
    requires count { count ≤ length shelf.old.items }
    requires shelf { AreInOrder T.name (take count shelf.old.items) }
    requires things { AreInOrder T.name (drop count shelf.old.items) }
    requires apart { AreApart T.name (take count shelf.old.items) (drop count shelf.old.items) }
    ensures { shelf.new.items
        ≡ all_placed T.name (drop count shelf.old.items) (take count shelf.old.items) }
{
    let mut count = count;
    let mut end = shelf.len();
    while count < end {
        match search(&shelf[..count], shelf[end - 1].name()) {
            Ok(_) => unreachable!(),
            Err(index) => {
                turn(shelf, index, count, end);
                end -= count - index + 1;
                count = index;
            }
        }
    }
}

// Lets what stands from `first` and from `middle` on change places.
fn turn<T>(shelf: &mut Vec<T>, first: usize, middle: usize, end: usize)
    requires first { first ≤ middle }
    requires middle { middle ≤ end }
    requires end { end ≤ length shelf.old.items }
    ensures { HaveTurned shelf.old.items shelf.new.items first middle end }
{
    shelf[first..end].rotate_right(end - middle);
}

fn replace_at<T: Drop>(shelf: &mut Vec<T>, index: usize, thing: T) -> T
    requires { index < length shelf.old.items }
    ensures new { shelf.new.items ≡ slice_set shelf.old.items index thing }
    ensures old { slice_get shelf.old.items index ≡ Some result }
{
    mem::replace(&mut shelf[index], thing)
}

fn take_at<T: Drop>(shelf: &mut Vec<T>, index: usize) -> T
    requires { index < length shelf.old.items }
    ensures new { shelf.new.items ≡ remove shelf.old.items index }
    ensures old { slice_get shelf.old.items index ≡ Some result }
{
    shelf.remove(index)
}

// Whether the thing of a name stands at an index.
fn is_at<T: Named>(shelf: &[T], at: usize, name: &str) -> bool
    ensures within { IsTrue result → at < length shelf.now }
    ensures found { IsTrue result
        → IsBinarySearchResult (λ t. text_cmp (T.name t) name.now) shelf.now (Ok at) }
{
    match shelf.get(at) {
        Some(thing) => thing.name().cmp(name).is_eq(),
        None => false,
    }
}

// Where the thing of a name stands, or where one is to be put.
fn search<T: Named>(shelf: &[T], name: &str) -> Result<usize, usize>
    ensures within { IsSearchInRange result (length shelf.now) }
    ensures found { IsBinarySearchResult (λ t. text_cmp (T.name t) name.now) shelf.now result }
{
    shelf.binary_search_by(|thing| thing.name().cmp(name))
}
