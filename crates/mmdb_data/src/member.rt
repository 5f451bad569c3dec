//! Members of a map that borrow their texts.

ghost use Rattle.std.specs.Prelude.{◌≡◌, ◌+◌, ◌≤◌, ◌<◌, ◌^◌, ◌++◌, OnOk, length, take, drop};
ghost use Rattle.mmdb_data.specs.ValueTree.{most, IsNarrow};
ghost use Rattle.mmdb_data.specs.Spelling.{sized, spelling};
ghost use Rattle.mmdb_data.specs.Member.{nested, member_value, around_head, HasNarrowKey};

use crate::kind::Kind;
use crate::writing::{head_len, put_head, put_sized, text_len};
use geo_addr::Memory;

/// What a value stands in alone: a map, where this is its key, or a list.
#[derive(Clone, Copy, Debug)]
pub enum Around<'a> {
    Map(&'a str),
    List,
}

/// A member of a map: its key, and its value, a text with all that stands around it, the outermost
/// first.
#[derive(Clone, Copy, Debug)]
pub struct Member<'a> {
    pub key: &'a str,
    pub around: &'a [Around<'a>],
    pub text: &'a str,
}

/// Appends the text with all that stands around it.
pub(crate) fn put_nested(out: &mut Vec<u8>, around: &[Around<'_>], text: &str) -> Result<(), Memory>
    requires { IsNarrow (nested around.now text.now) }
    ensures { OnOk result
        (out.new.items ≡ out.old.items ++ spelling (nested around.now text.now)) }
{
    let [outer, rest @ ..] = around else {
        return put_sized(out, Kind::Text, text.as_bytes());
    };
    put_around(out, outer)?;
    put_nested(out, rest, text)
}

/// Appends what stands before the value.
fn put_around(out: &mut Vec<u8>, outer: &Around<'_>) -> Result<(), Memory>
    requires { HasNarrowKey outer.now }
    ensures { OnOk result (out.new.items ≡ out.old.items ++ around_head outer.now) }
{
    match outer {
        Around::Map(key) => {
            put_head(out, Kind::Map, 1)?;
            put_sized(out, Kind::Text, key.as_bytes())
        }
        Around::List => put_head(out, Kind::List, 1),
    }
}

/// The spelling of the member's value, behind that of its key, and what stands behind it.
pub(crate) fn value_in<'a>(spelled: &'a [u8], member: &Member<'_>) -> (&'a [u8], &'a [u8])
    requires key { length member.now.key.now ≤ most }
    requires narrow { IsNarrow (member_value member.now) }
    requires within { length (sized 2 member.now.key.now)
        + length (spelling (member_value member.now)) ≤ length spelled.now }
    ensures value { result.0.now ≡ take (length (spelling (member_value member.now)))
        (drop (length (sized 2 member.now.key.now)) spelled.now) }
    ensures behind { result.1.now ≡ drop (length (spelling (member_value member.now)))
        (drop (length (sized 2 member.now.key.now)) spelled.now) }
{
    let value = &spelled[text_len(member.key)..];
    value.split_at(nested_len(member.around, member.text))
}

/// How many bytes the text takes with all that stands around it.
#[tactic(auto, using(crate::proofs::Nested::len_wrapped))]
fn nested_len(around: &[Around<'_>], text: &str) -> usize
    requires narrow { IsNarrow (nested around.now text.now) }
    requires fits { length (spelling (nested around.now text.now)) < 2 ^ 63 }
    ensures { result ≡ length (spelling (nested around.now text.now)) }
{
    let [outer, rest @ ..] = around else {
        return text_len(text);
    };
    around_len(outer) + nested_len(rest, text)
}

/// How many bytes stand before the value.
pub(crate) fn around_len(outer: &Around<'_>) -> usize
    requires { HasNarrowKey outer.now }
    ensures { result ≡ length (around_head outer.now) }
{
    match outer {
        Around::Map(key) => head_len(Kind::Map, 1) + text_len(key),
        Around::List => head_len(Kind::List, 1),
    }
}
