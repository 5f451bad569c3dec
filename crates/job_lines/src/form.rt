//! The form that a line of a job fits.
ghost use Rattle.std.specs.Prelude.{◌≡◌, ◌⊎◌, IfErr, IfOk, None, OnErr, Some};
ghost use Rattle.job_lines.specs.Faults.{IsSo};
ghost use Rattle.job_lines.specs.Forms.{epoch_form, epoch_line, form_by, form_of};
ghost use Rattle.job_lines.specs.Forms.{pieces_form, pieces_line, type_form, type_line};
ghost use Rattle.job_lines.specs.Words.{words};

use crate::act::Act;
use crate::acts::act_by;
use crate::line_fault::LineFault;
use crate::names::type_fault;
use crate::numbers::begins_plain;
use crate::operands::{only, text_of};
use crate::word_fault::{Shape, WordFault};
use crate::words::next_word;
use geo_addr::{Text, decimal};
use std::alloc::Global;

/// The most pieces that a job may ask for.
pub(crate) const MOST_PIECES: u128 = 64;

/// What a line of a job that is not passed over says.
#[derive(Debug, Drop)]
pub(crate) enum Form {
    Epoch(u64),
    TypeName(Text),
    Pieces(u32),
    Do(Act),
}

/// The form that a line fits: its first word says which.
pub(crate) fn read_form(alloc: Global, line: &[u8]) -> Result<Form, LineFault>
    ensures ok { IfOk result (λ form. form_of (words line.now) ≡ Some form) }
    ensures err { IfErr result (λ why. (why ≡ LineFault.Memory)
        ⊎ (form_of (words line.now) ≡ None)) }
{
    match next_word(line) {
        Some((word, rest)) => form_by(alloc, word, rest),
        None => Err(LineFault::Nothing),
    }
}

#[tactic(auto, unfolding(crate::specs::Forms::form_by))]
fn form_by(alloc: Global, word: &[u8], rest: &[u8]) -> Result<Form, LineFault>
    ensures ok { IfOk result (λ form. form_by word.now (words rest.now) ≡ Some form) }
    ensures err { IfErr result (λ why. (why ≡ LineFault.Memory)
        ⊎ (form_by word.now (words rest.now) ≡ None)) }
{
    if word == b"epoch".as_slice() {
        return epoch_line(rest);
    }
    if word == b"type".as_slice() {
        return type_line(alloc, rest);
    }
    if word == b"pieces".as_slice() {
        return pieces_line(rest);
    }
    let act = act_by(alloc, word, rest)?;
    Ok(Form::Do(act))
}

fn epoch_line(rest: &[u8]) -> Result<Form, LineFault>
    ensures ok { IfOk result (λ form. epoch_line (words rest.now) ≡ Some form) }
    ensures err { OnErr result (epoch_line (words rest.now) ≡ None) }
{
    let digits = only(rest, 1)?;
    match epoch_form(digits) {
        Ok(form) => Ok(form),
        Err(fault) => Err(LineFault::Word {
            at: 1,
            shape: Shape::Epoch,
            fault,
        }),
    }
}

fn type_line(alloc: Global, rest: &[u8]) -> Result<Form, LineFault>
    ensures ok { IfOk result (λ form. type_line (words rest.now) ≡ Some form) }
    ensures err { IfErr result (λ why. (why ≡ LineFault.Memory)
        ⊎ (type_line (words rest.now) ≡ None)) }
{
    let name = only(rest, 1)?;
    type_form(alloc, name)
}

fn pieces_line(rest: &[u8]) -> Result<Form, LineFault>
    ensures ok { IfOk result (λ form. pieces_line (words rest.now) ≡ Some form) }
    ensures err { OnErr result (pieces_line (words rest.now) ≡ None) }
{
    let digits = only(rest, 1)?;
    match pieces_form(digits) {
        Ok(form) => Ok(form),
        Err(fault) => Err(LineFault::Word {
            at: 1,
            shape: Shape::Pieces,
            fault,
        }),
    }
}

fn epoch_form(digits: &[u8]) -> Result<Form, WordFault>
    ensures ok { IfOk result (λ form. epoch_form digits.now ≡ Some form) }
    ensures err { OnErr result (epoch_form digits.now ≡ None) }
    ensures so { IfErr result (λ fault. IsSo fault digits.now) }
{
    match decimal(digits, 1, 20) {
        Some(number) => {
            if number >= 1 << 64 {
                return Err(WordFault::EpochLarge);
            }
            Ok(Form::Epoch(number as u64))
        }
        None => Err(WordFault::EpochDigits),
    }
}

#[tactic(auto, using(crate::proofs::TextLemmas::words_are_texts))]
fn type_form(alloc: Global, name: &[u8]) -> Result<Form, LineFault>
    ensures ok { IfOk result (λ form. type_form name.now ≡ Some form) }
    ensures err { IfErr result (λ why. (why ≡ LineFault.Memory) ⊎ (type_form name.now ≡ None)) }
{
    match type_fault(name) {
        Some(fault) => Err(LineFault::Word {
            at: 1,
            shape: Shape::TypeName,
            fault,
        }),
        None => Ok(Form::TypeName(text_of(alloc, name)?)),
    }
}

fn pieces_form(digits: &[u8]) -> Result<Form, WordFault>
    ensures ok { IfOk result (λ form. pieces_form digits.now ≡ Some form) }
    ensures err { OnErr result (pieces_form digits.now ≡ None) }
    ensures so { IfErr result (λ fault. IsSo fault digits.now) }
{
    if !begins_plain(digits) {
        return Err(WordFault::Pieces);
    }
    match decimal(digits, 1, 2) {
        Some(number) => {
            if number < 1 || number > MOST_PIECES {
                return Err(WordFault::Pieces);
            }
            Ok(Form::Pieces(number as u32))
        }
        None => Err(WordFault::Pieces),
    }
}
