//! A dump, read in pieces.
ghost use Rattle.std.specs.Prelude.{◌≡◌, ◌≢◌, ◌+◌, ◌<◌, ◌≤◌, ◌^◌, ◌∷◌, ◌++◌, [], All, length, fold};
ghost use Rattle.std.specs.Prelude.{IfOk, OnOk, OnErr, if◌then◌else◌};
ghost use Rattle.rpsl_reader.specs.Changes.{IsChange, IsCounted, accepted, lines_in, open_group};
ghost use Rattle.rpsl_reader.specs.Reading.{after, given, grown, last, most, start};
ghost use Rattle.rpsl_reader.specs.Selections.{wanted};

use crate::gathered::Gathered;
use crate::item::Item;
use crate::line::HeldLine;
use crate::pending::hold;
use crate::progress::Progress;
use crate::read::read_lines;
use crate::seen::Sights;
use crate::selection::Selection;
use geo_addr::{Memory, cut_at};
use std::alloc::Global;
use std::marker::Model;

/// Reads the objects of a dump from its text in pieces, however it is cut.
///
/// Contracts see how many bytes it was fed, and the state that the
/// definition of reading gives them.
#[derive(Debug, Drop)]
pub struct Reader {
    alloc: Global,
    fed: u64,
    // The lines that have ended.
    lines: u64,
    // The line that has not, as far as its kind needs.
    pending: Vec<u8>,
    // The first line of the open group, where it is too long, and else its bytes and its lines.
    first: Option<u64>,
    bytes: usize,
    group: Vec<HeldLine>,
}

impl Model for Reader {
    ghost use Rattle.rpsl_reader.specs.Changes.{IsReader, group_of};
    ghost use Rattle.rpsl_reader.specs.Reading.{Fed};

    ghost Value = { Fed };

    ghost view = { λ r. record {
      fed = r.fed;
      state = record {
        lines = r.lines;
        pending = r.pending.items;
        group = group_of r.first r.group.items;
      };
    } };

    ghost invariant = { λ r. IsReader r.fed r.lines r.pending.items r.first r.bytes r.group.items };
}

impl Reader {
    /// A reader before the first byte; it takes no memory.
    pub fn new(alloc: Global) -> Reader
        ensures { result ≡ record { fed = 0; state = start } }
    {
        Reader {
            alloc,
            fed: 0,
            lines: 0,
            pending: Vec::new(alloc),
            first: None,
            bytes: 0,
            group: Vec::new(alloc),
        }
    }

    /// How many bytes it was fed.
    pub fn fed(&self) -> u64
        ensures { result ≡ self.now.fed }
    {
        self.fed
    }

    /// Reads one more piece of the text, and adds to `out` the items of the groups that end in it.
    pub fn feed(&mut self, piece: &[u8], out: &mut Vec<Item>) -> Result<(), Memory>
        requires { self.old.fed + length piece.now < 2 ^ 63 }
        ensures fed { OnOk result (self.new.fed ≡ self.old.fed + length piece.now) }
        ensures state { OnOk result (self.new.state ≡ after self.old.state piece.now) }
        ensures items { OnOk result
            (out.new.items ≡ out.old.items ++ given self.old.state piece.now) }
        ensures err { OnErr result (self.new ≡ self.old) }
        ensures err_items { OnErr result (out.new.items ≡ out.old.items) }
    {
        let selection = Selection::everything(self.alloc);
        let read = self.read(piece, &selection);
        drop(selection);
        let mut progress = read?;
        let before = out.len();
        progress.give(out)?;
        match self.accept(progress) {
            Ok(()) => Ok(()),
            Err(memory) => {
                out.truncate(before);
                Err(memory)
            }
        }
    }

    /// Ends the text, and adds to `out` the items of the group that the end ends.
    pub fn finish(self, out: &mut Vec<Item>) -> Result<(), Memory>
        ensures items { OnOk result (out.new.items ≡ out.old.items ++ last self.state) }
        ensures err_items { OnErr result (out.new.items ≡ out.old.items) }
    {
        let selection = Selection::everything(self.alloc);
        let ended = self.read_end(&selection);
        drop(selection);
        drop(self);
        let mut found = ended?;
        out.append(&mut found)?;
        Ok(())
    }

    /// What one more piece gives, of what is wanted. The reader goes on
    /// as before until it accepts it.
    pub fn read<'a>(&self, piece: &'a [u8], selection: &Selection) -> Result<Progress<'a>, Memory>
        requires { self.now.fed + length piece.now < 2 ^ 63 }
        ensures change { IfOk result (λ progress. IsChange self.now progress) }
        ensures fed { IfOk result
            (λ progress. (accepted self.now progress).fed ≡ self.now.fed + length piece.now) }
        ensures state { IfOk result
            (λ progress. (accepted self.now progress).state ≡ after self.now.state piece.now) }
        ensures items { IfOk result
            (λ progress. progress.found ≡ wanted selection.now (given self.now.state piece.now)) }
    {
        let mut line = Vec::new(self.alloc);
        let (progress, seen) = self.see(piece, selection, &mut line)?;
        let found = seen.items(self.alloc)?;
        Ok(progress.with(found))
    }

    /// The same, as it stands in the piece, in this reader and in `line`, whose bytes before do not
    /// matter.
    pub fn see<'b, 'a: 'b>(
        &'b self,
        piece: &'a [u8],
        selection: &Selection,
        line: &'b mut Vec<u8>,
    ) -> Result<(Progress<'a>, Sights<'b>), Memory>
        requires { self.now.fed + length piece.now < 2 ^ 63 }
        ensures change { IfOk result (λ both. IsChange self.entry.now both.0) }
        ensures fed { IfOk result (λ both. (accepted self.entry.now both.0).fed
            ≡ self.entry.now.fed + length piece.entry.now) }
        ensures state { IfOk result (λ both. (accepted self.entry.now both.0).state
            ≡ after self.entry.now.state piece.entry.now) }
        ensures items { IfOk result (λ both. both.1.items
            ≡ wanted selection.now (given self.entry.now.state piece.entry.now)) }
    {
        let fed = self.fed + piece.len() as u64;
        let (head, after) = cut_at(piece, b'\n');
        match after {
            None => Ok((self.part(fed, piece), Sights::new(self.alloc))),
            Some(rest) => self.ended(selection, fed, head, rest, line),
        }
    }

    // What a piece without a line feed changes.
    fn part<'a>(&self, fed: u64, piece: &'a [u8]) -> Progress<'a>
        requires counted { self.now.fed ≤ fed }
        requires fits { fed < 2 ^ 63 }
        requires free { All (λ b. b ≢ 10) piece.now }
        ensures change { IsChange self.now result }
        ensures after { accepted self.now result
            ≡ record { fed = fed; state = after self.now.state piece.now } }
        ensures items { result.found ≡ [] }
    {
        Progress {
            fed,
            lines: self.lines,
            ended: false,
            tail: piece,
            keeps: true,
            first: self.first,
            bytes: self.bytes,
            more: Vec::new(self.alloc),
            found: Vec::new(self.alloc),
        }
    }

    // What a piece gives and changes whose first line feed stands behind `head`.
    fn ended<'b, 'a: 'b>(
        &'b self,
        selection: &Selection,
        fed: u64,
        head: &[u8],
        rest: &'a [u8],
        line: &'b mut Vec<u8>,
    ) -> Result<(Progress<'a>, Sights<'b>), Memory>
        requires counted { self.now.fed + length head.now + length rest.now + 1 ≡ fed }
        requires fits { fed < 2 ^ 63 }
        requires free { All (λ b. b ≢ 10) head.now }
        ensures change { IfOk result (λ both. IsChange self.entry.now both.0) }
        ensures after { IfOk result (λ both. accepted self.entry.now both.0 ≡ record {
          fed = fed;
          state = after self.entry.now.state (head.now ++ 10 ∷ rest.entry.now);
        }) }
        ensures items { IfOk result (λ both. both.1.items
            ≡ wanted selection.now (given self.entry.now.state (head.now ++ 10 ∷ rest.entry.now))) }
    {
        self.first_line(head, line)?;
        let mut gathered = self.gathered();
        let mut found = Sights::new(self.alloc);
        let ended = read_lines(
            selection,
            self.lines(),
            &mut gathered,
            line.as_slice(),
            rest,
            &mut found,
        )?;
        let none = Vec::new(self.alloc);
        let progress = gathered.progress(fed, ended, none)?;
        Ok((progress, found))
    }

    // The line that has not ended, with more of it.
    fn first_line(&self, head: &[u8], line: &mut Vec<u8>) -> Result<(), Memory>
        ensures { OnOk result
            (line.new.items ≡ fold grown self.now.state.pending head.now) }
    {
        line.clear();
        line.extend_from_slice(self.pending.as_slice())?;
        hold(line, head)
    }

    // The open group, before the next piece.
    fn gathered(&self) -> Gathered<'_>
        ensures held { result.held ≡ lines_in self.now.state.group }
        ensures group { open_group result ≡ self.now.state.group }
    {
        let held = self.group.as_slice();
        Gathered::of(self.alloc, held, self.first, self.bytes)
    }

    // How many lines have ended.
    fn lines(&self) -> u64
        ensures lines { result ≡ self.now.state.lines }
        ensures counts { IsCounted self.now.fed self.now.state.lines }
    {
        self.lines
    }

    /// Goes on behind a piece that this reader read just before.
    pub fn accept(&mut self, progress: Progress) -> Result<(), Memory>
        requires { IsChange self.old progress }
        ensures ok { OnOk result (self.new ≡ accepted self.old progress.entry) }
        ensures err { OnErr result (self.new ≡ self.old) }
    {
        let Progress {
            fed,
            lines,
            ended,
            tail,
            keeps,
            first,
            bytes,
            more,
            found: _,
        } = progress;
        let alloc = self.alloc;
        go_on(
            alloc,
            &mut self.pending,
            &mut self.group,
            ended,
            tail,
            keeps,
            more,
        )?;
        self.fed = fed;
        self.lines = lines;
        self.first = first;
        self.bytes = bytes;
        Ok(())
    }

    /// What the end of the text gives, of what is wanted.
    pub fn read_end(&self, selection: &Selection) -> Result<Vec<Item>, Memory>
        ensures { IfOk result (λ found. found.items ≡ wanted selection.now (last self.now.state)) }
    {
        let seen = self.see_end(selection)?;
        seen.items(self.alloc)
    }

    /// The same, as it stands in this reader.
    pub fn see_end(&self, selection: &Selection) -> Result<Sights<'_>, Memory>
        ensures { IfOk result
            (λ seen. seen.items ≡ wanted selection.now (last self.entry.now.state)) }
    {
        let mut gathered = self.gathered();
        let mut found = Sights::new(self.alloc);
        let _ended = read_lines(
            selection,
            self.lines(),
            &mut gathered,
            self.pending.as_slice(),
            b"\n".as_slice(),
            &mut found,
        )?;
        Ok(found)
    }
}

// Goes on with the line that has not ended, and with the lines of the open group.
fn go_on(
    alloc: Global,
    pending: &mut Vec<u8>,
    group: &mut Vec<HeldLine>,
    ended: bool,
    tail: &[u8],
    keeps: bool,
    more: Vec<HeldLine>,
) -> Result<(), Memory>
    requires { length pending.old.items ≤ most + 1 }
    ensures pending { OnOk result
        (pending.new.items ≡ fold grown (if ended then [] else pending.old.items) tail.now) }
    ensures group { OnOk result (group.new.items ≡ (if ended
        then (if keeps then group.old.items else []) ++ more.items else group.old.items)) }
    ensures bounded { length pending.new.items ≤ most + 1 }
    ensures err_pending { OnErr result (pending.new.items ≡ pending.old.items) }
    ensures err_group { OnErr result (group.new.items ≡ group.old.items) }
{
    if !ended {
        return hold(pending, tail);
    }
    let mut line = Vec::new(alloc);
    hold(&mut line, tail)?;
    keep(group, keeps, more)?;
    *pending = line;
    Ok(())
}

// The lines of the open group after a piece: those from before, where it keeps them,
// and those of the piece.
fn keep(group: &mut Vec<HeldLine>, keeps: bool, more: Vec<HeldLine>) -> Result<(), Memory>
    ensures ok { OnOk result
        (group.new.items ≡ (if keeps then group.old.items else []) ++ more.items) }
    ensures err { OnErr result (group.new.items ≡ group.old.items) }
{
    let mut more = more;
    if keeps {
        group.append(&mut more)?;
    } else {
        *group = more;
    }
    Ok(())
}
