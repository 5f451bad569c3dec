//! The command that the words of the command line are.
ghost use Rattle.std.specs.Prelude.{◌≡◌, ◌≤◌, IfErr, IfOk, IfSome, None, Ok, OnErr, OnOk, Some};
ghost use Rattle.std.specs.Prelude.{false, is_ok, map, string_bytes, true};
ghost use Rattle.geo_addr.specs.AddressTexts.{address_in};
ghost use Rattle.geo_addr.specs.Prefixes.{block_in};
ghost use Rattle.job_lines.specs.Commands.{build_of, census_of, check_of, command_of};
ghost use Rattle.job_lines.specs.Commands.{explain_of, gen_of, is_plain, lines_in, lookup_of};
ghost use Rattle.job_lines.specs.Commands.{publish_of, with_one, with_three, with_two};
ghost use Rattle.job_lines.specs.Faults.{IsSaid};
ghost use Rattle.job_lines.specs.Names.{is_name};
ghost use Rattle.job_lines.specs.SpokenWords.{HasFewLines, IsRead, spoken_by};

use crate::line_fault::LineFault;
use crate::names::name_fault;
use crate::numbers::begins_plain;
use crate::word_fault::{Shape, WordFault};
use geo_addr::{Addr, Block, decimal, parse_addr, parse_block};

/// A command, as the words spoke it.
#[derive(Clone, Copy, Debug)]
pub enum Spoken<'a> {
    /// `build JOB`: does the job in this file.
    Build(&'a str),
    /// `lookup FILE ADDR`: prints what this file says of this address.
    Lookup(&'a str, Addr),
    /// `explain JOB ADDR`: prints why this address has its record by the job in this file.
    Explain(&'a str, Addr),
    /// `gen N FILE`: writes the files of the generated job of so many lines under this name.
    Gen(u32, &'a str),
    /// `publish JOB BLOCK FILE`: writes the shortest feed of this block under the last name.
    Publish(&'a str, Block, &'a str),
    /// `check JOB URL`: prints what becomes of each line of a feed.
    /// The URL is a word as it was given, and may be none.
    Check(&'a str, &'a str),
    /// `census JOB`: prints how many addresses each country has.
    Census(&'a str),
}

/// The command that the words behind the program's name are, if they are one. Of `check` it is left
/// open whether its last word is the https URL of a feed.
pub fn command_in(words: &[String]) -> Option<Spoken<'_>>
    ensures command { spoken_by result ≡ command_of (map string_bytes words.now) }
    ensures few { HasFewLines result }
{
    match command_or_reason(words) {
        Ok(spoken) => Some(spoken),
        Err(_) => None,
    }
}

/// The command that words are, as `command_in` has it, or why they are none.
pub fn command_or_reason(words: &[String]) -> Result<Spoken<'_>, LineFault>
    ensures { IsRead result (command_of (map string_bytes words.now)) }
{
    match words {
        [word, a] => with_one(word.as_str(), a.as_str()),
        [word, a, b] => with_two(word.as_str(), a.as_str(), b.as_str()),
        [word, a, b, c] => with_three(word.as_str(), a.as_str(), b.as_str(), c.as_str()),
        [word, ..] => Err(count_fault(word.as_str(), words.len())),
        [] => Err(LineFault::Nothing),
    }
}

#[tactic(auto, unfolding(crate::specs::Commands::with_one))]
fn with_one<'a>(word: &str, a: &'a str) -> Result<Spoken<'a>, LineFault>
    ensures { IsRead result (with_one word.now a.now) }
{
    if word == "build" {
        return build_of(a);
    }
    if word == "census" {
        return census_of(a);
    }
    Err(count_fault(word, 2))
}

#[tactic(auto, unfolding(crate::specs::Commands::with_two))]
fn with_two<'a>(word: &str, a: &'a str, b: &'a str) -> Result<Spoken<'a>, LineFault>
    ensures { IsRead result (with_two word.now a.now b.now) }
{
    if word == "lookup" {
        return lookup_of(a, b);
    }
    if word == "explain" {
        return explain_of(a, b);
    }
    if word == "gen" {
        return gen_of(a, b);
    }
    if word == "check" {
        return check_of(a, b);
    }
    Err(count_fault(word, 3))
}

#[tactic(auto, unfolding(crate::specs::Commands::with_three))]
fn with_three<'a>(word: &str, a: &'a str, b: &'a str, c: &'a str) -> Result<Spoken<'a>, LineFault>
    ensures { IsRead result (with_three word.now a.now b.now c.now) }
{
    if word == "publish" {
        return publish_of(a, b, c);
    }
    Err(count_fault(word, 4))
}

// Why so many words are no command, whatever they are: the first is none, or takes another number.
fn count_fault(word: &str, count: usize) -> LineFault {
    let wanted: u8 = match word {
        "build" | "census" => 2,
        "lookup" | "explain" | "gen" | "check" => 3,
        "publish" => 4,
        _ => return LineFault::Unknown,
    };
    match u8::try_from(count) {
        Ok(count) if count < wanted => LineFault::Few { at: count },
        _ => LineFault::Many { at: wanted },
    }
}

fn build_of<'a>(job: &'a str) -> Result<Spoken<'a>, LineFault>
    ensures { IsRead result (build_of job.now) }
{
    file_name(job, 1)?;
    Ok(Spoken::Build(job))
}

fn census_of<'a>(job: &'a str) -> Result<Spoken<'a>, LineFault>
    ensures { IsRead result (census_of job.now) }
{
    file_name(job, 1)?;
    Ok(Spoken::Census(job))
}

fn lookup_of<'a>(file: &'a str, address: &str) -> Result<Spoken<'a>, LineFault>
    ensures { IsRead result (lookup_of file.now address.now) }
{
    file_name(file, 1)?;
    let at = address_at(address, 2)?;
    Ok(Spoken::Lookup(file, at))
}

fn explain_of<'a>(job: &'a str, address: &str) -> Result<Spoken<'a>, LineFault>
    ensures { IsRead result (explain_of job.now address.now) }
{
    file_name(job, 1)?;
    let at = address_at(address, 2)?;
    Ok(Spoken::Explain(job, at))
}

fn gen_of<'a>(lines: &str, file: &'a str) -> Result<Spoken<'a>, LineFault>
    ensures { IsRead result (gen_of lines.now file.now) }
{
    let lines = lines_at(lines, 1)?;
    file_name(file, 2)?;
    Ok(Spoken::Gen(lines, file))
}

fn check_of<'a>(job: &'a str, url: &'a str) -> Result<Spoken<'a>, LineFault>
    ensures { IsRead result (check_of job.now url.now) }
{
    file_name(job, 1)?;
    Ok(Spoken::Check(job, url))
}

fn publish_of<'a>(job: &'a str, block: &str, file: &'a str) -> Result<Spoken<'a>, LineFault>
    ensures { IsRead result (publish_of job.now block.now file.now) }
{
    file_name(job, 1)?;
    let block = block_at(block, 2)?;
    file_name(file, 3)?;
    Ok(Spoken::Publish(job, block, file))
}

// The name of a file as the word of this number.
fn file_name(word: &str, at: u8) -> Result<(), LineFault>
    ensures ok { OnOk result (is_name word.now ≡ true) }
    ensures err { OnErr result (is_name word.now ≡ false) }
    ensures so { IfErr result (λ why. IsSaid why word.now) }
{
    match name_fault(word.as_bytes()) {
        Some(fault) => Err(LineFault::Word {
            at,
            shape: Shape::File,
            fault,
        }),
        None => Ok(()),
    }
}

fn address_at(word: &str, at: u8) -> Result<Addr, LineFault>
    ensures ok { IfOk result (λ address. address_in word.now ≡ Ok address) }
    ensures err { OnErr result (is_ok (address_in word.now) ≡ false) }
    ensures so { IfErr result (λ why. IsSaid why word.now) }
{
    match parse_addr(word.as_bytes()) {
        Ok(address) => Ok(address),
        Err(fault) => Err(LineFault::Word {
            at,
            shape: Shape::Address,
            fault: WordFault::Address(fault),
        }),
    }
}

// A block that has a feed.
fn block_at(word: &str, at: u8) -> Result<Block, LineFault>
    ensures ok { IfOk result (λ block. block_in word.now ≡ Ok block) }
    ensures plain { IfOk result (λ block. is_plain block ≡ true) }
    ensures err { OnErr result (IfOk (block_in word.now) (λ block. is_plain block ≡ false)) }
    ensures so { IfErr result (λ why. IsSaid why word.now) }
{
    let fault = match parse_block(word.as_bytes()) {
        Ok(block) => {
            if is_plain(block) {
                return Ok(block);
            }
            WordFault::LowBlock
        }
        Err(fault) => WordFault::Block(fault),
    };
    Err(LineFault::Word {
        at,
        shape: Shape::Block,
        fault,
    })
}

// The number from 1 to a million that digits without leading zeros write.
fn lines_at(word: &str, at: u8) -> Result<u32, LineFault>
    ensures ok { IfOk result (λ n. lines_in word.now ≡ Some n) }
    ensures few { IfOk result (λ n. n ≤ 1000000) }
    ensures err { OnErr result (lines_in word.now ≡ None) }
    ensures so { IfErr result (λ why. IsSaid why word.now) }
{
    match lines_in(word.as_bytes()) {
        Some(number) => Ok(number),
        None => Err(LineFault::Word {
            at,
            shape: Shape::Count,
            fault: WordFault::Count,
        }),
    }
}

fn lines_in(digits: &[u8]) -> Option<u32>
    ensures number { result ≡ lines_in digits.now }
    ensures few { IfSome result (λ n. n ≤ 1000000) }
{
    if !begins_plain(digits) {
        return None;
    }
    let number = decimal(digits, 1, 7)?;
    if number < 1 || number > 1_000_000 {
        return None;
    }
    Some(number as u32)
}

/// Whether a block lies in the IPv4 space, or does not reach into it.
fn is_plain(block: Block) -> bool
    ensures { result ≡ is_plain block }
{
    block.len >= 96 || block.first >= 1 << 32
}
