//! The calls that mark a session and go back to a mark.

use crate::fault::BackFault;
use crate::grounds::listed;
use crate::marks::{find_mark, make_mark, put_mark};
use crate::session::Session;
use geo_addr::Memory;

impl Session {
    ghost use Rattle.std.specs.Prelude.{◌≡◌, ◌↔◌, None, OnOk, OnErr, Err};
    ghost use Rattle.source_changes.specs.Changes.{named};
    ghost use Rattle.update_session.specs.Calls.{HasGoneBack, HasMarked};
    ghost use Rattle.update_session.specs.declared.fault.BackFault.{BackFault};

    /// Marks the sources in force, to go back to them, and with them what the next emit rests on. A
    /// mark of the same name is replaced.
    ///
    /// The sources are shared, so a mark costs their number, and that of the touched grounds where
    /// these changed since the last mark.
    pub fn mark(&mut self, name: &str) -> Result<(), Memory>
        ensures ok { OnOk result (HasMarked name.now self.old self.new) }
        ensures err { OnErr result (self.new ≡ self.old) }
    {
        let grounds = listed(self.alloc, &self.noted, &self.touched)?;
        let touched = grounds.share()?;
        let mark = make_mark(self.alloc, name, &self.sources, self.root, touched)?;
        put_mark(&mut self.marks, mark)?;
        self.noted = Some(grounds);
        Ok(())
    }

    /// Goes back to a mark, which stays: its sources are in force again, and the next emit rests on
    /// what an emit would have rested on then. Nodes and places stay as they are.
    pub fn back(&mut self, name: &str) -> Result<(), BackFault>
        ensures ok { OnOk result (HasGoneBack name.now self.old self.new) }
        ensures absent { result ≡ Err BackFault.NotThere
            ↔ (named (λ m. m.name) name.now self.old.marks ≡ None) }
        ensures err { OnErr result (self.new ≡ self.old) }
    {
        let Some(mark) = find_mark(self.marks.as_slice(), name) else {
            return Err(BackFault::NotThere);
        };
        let root = mark.root;
        let touched = mark.touched.list().copied(self.alloc)?;
        let noted = mark.touched.share()?;
        let sources = mark.sources.snapshot()?;
        self.sources = sources;
        self.root = root;
        self.touched = touched;
        self.noted = Some(noted);
        Ok(())
    }
}
