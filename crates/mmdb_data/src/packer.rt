//! Data sections in which no part stands twice where a pointer is shorter.

ghost use Rattle.std.specs.Prelude.{◌≡◌, ◌++◌, ℕ, List, length, All, OnOk, OnErr, IfOk, Ok};
ghost use Rattle.mmdb_data.specs.ValueTree.{ValueTree, CanBeSpelled, CanBePacked, IsWithinLimits};
ghost use Rattle.mmdb_data.specs.ValueTree.{map as map_tree};
ghost use Rattle.mmdb_data.specs.Member.{member_list};
ghost use Rattle.mmdb_data.specs.ValueTree.{IsTyped};
ghost use Rattle.mmdb_data.specs.Reading.{reads};
ghost use Rattle.mmdb_data.specs.View.{value_tree};
ghost use Rattle.mmdb_data.specs.Packing.{nothing_packed, in_full, all_in_full};

use crate::member::Member;
use crate::packing::append_top;
use crate::packing_members::{append_map, spell_map};
use crate::section::Section;
use crate::value::Value;
use geo_addr::Memory;
use std::alloc::Global;
use std::marker::Model;

/// A data section to which values are appended one after another.
///
/// A value that is put stands in full. Each key and each part of it that stands in full already is
/// a pointer to where it first does, if that takes fewer bytes (MaxMind DB 2.0, "Output Data
/// Section").
#[derive(Debug, Drop)]
pub struct Packer {
    section: Section,
    /// The map that is put. It is reused, so that most maps take no memory for it.
    spelled: Vec<u8>,
}

impl Model for Packer {
    ghost use Rattle.mmdb_data.specs.Packing.{Packed};
    ghost use Rattle.mmdb_data.specs.Section.{packed_of};

    ghost Value = { Packed };

    ghost view = { λ p. packed_of p.section };
}

impl Packer {
    /// A section without values.
    pub fn new(alloc: Global) -> Packer
        ensures { result ≡ nothing_packed }
    {
        Packer {
            section: Section::new(alloc),
            spelled: Vec::new(alloc),
        }
    }

    /// Appends the value, and answers the offset at which it stands.
    ///
    /// If memory runs out, the section is as it was.
    pub fn put(&mut self, value: &Value) -> Result<u64, Memory>
        requires { CanBeSpelled (value_tree value.now) }
        ensures packed { OnOk result (self.new ≡ in_full (value_tree value.now) self.old) }
        ensures at { IfOk result (λ at. at ≡ length self.old.bytes) }
        ensures typed { OnOk result (IsTyped (value_tree value.now)) }

        // Reading there gives the value, whatever is appended later.
        ensures read { IfOk result (λ at. (before : List ValueTree) (later : List ℕ)
            → All CanBePacked before
            → self.old ≡ all_in_full before nothing_packed → IsWithinLimits (value_tree value.now)
            → reads (self.new.bytes ++ later) at ≡ Ok (value_tree value.now)) }
        ensures refused { OnErr result (self.new ≡ self.old) }
    {
        let (len, count) = (self.section.bytes.len(), self.section.full.len());
        match append_top(&mut self.section, value) {
            Ok(()) => Ok(len as u64),
            Err(refused) => {
                self.section.bytes.truncate(len);
                self.section.full.truncate(count);
                Err(refused)
            }
        }
    }

    /// Appends the map of these members, and answers the offset at which it stands.
    ///
    /// If memory runs out, the section is as it was.
    pub fn put_map(&mut self, members: &[Member<'_>]) -> Result<u64, Memory>
        requires { CanBeSpelled (map_tree (member_list members.now)) }
        ensures packed { OnOk result
            (self.new ≡ in_full (map_tree (member_list members.now)) self.old) }
        ensures at { IfOk result (λ at. at ≡ length self.old.bytes) }
        ensures refused { OnErr result (self.new ≡ self.old) }
    {
        self.spelled.clear();
        spell_map(&mut self.spelled, members)?;
        let (len, notes) = (self.section.bytes.len(), self.section.full.len());
        match append_map(&mut self.section, &self.spelled, members) {
            Ok(()) => Ok(len as u64),
            Err(refused) => {
                self.section.bytes.truncate(len);
                self.section.full.truncate(notes);
                Err(refused)
            }
        }
    }

    /// The section of the values so far.
    pub fn bytes(&self) -> &[u8]
        ensures { result.now ≡ self.now.bytes }
    {
        self.section.bytes.as_slice()
    }
}
