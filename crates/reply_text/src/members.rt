//! JSON objects, with a gap for the number of entries.

ghost use Rattle.std.specs.Prelude.{◌≡◌, ◌++◌, [], ◌∷◌, flat_map, OnOk, IfOk};
ghost use Rattle.reply_text.specs.Members as spec;
ghost use Rattle.reply_text.specs.Members.{member_text, members_text, behind_comma, body_text, object_text};

use itoa::Buffer;
use ld_terms::List;
use repl_json::{Body, push_quoted};
use std::alloc::{AllocError, Global};
use std::marker::Model;

/// A member of an object: a key, in which nothing needs an escape, and the JSON text of its value.
#[derive(Debug, Drop)]
pub struct Member {
    key: &'static str,
    value: Vec<u8>,
}

impl Model for Member {
    ghost use Rattle.reply_text.specs.Member as spec;

    ghost Value = { spec.Member };

    ghost view = { λ m. record { key = m.key.now; value = m.value.items } };
}

impl Member {
    /// A member with this JSON text as its value. Takes no memory.
    pub fn new(key: &'static str, value: Vec<u8>) -> Member
        ensures { result ≡ record { key = key.now; value = value.items } }
    {
        Member { key, value }
    }

    /// A member whose value is a number. Fails for want of memory alone.
    pub fn number(alloc: Global, key: &'static str, n: u64) -> Result<Member, AllocError>
        ensures { IfOk result (λ m. m ≡ spec.number key.now n) }
    {
        let mut buffer = Buffer::new();
        let value = Vec::from_slice(alloc, buffer.format(n).as_bytes())?;
        Ok(Member { key, value })
    }

    /// A member whose value is a text. Fails for want of memory alone.
    pub fn string(alloc: Global, key: &'static str, text: &[u8]) -> Result<Member, AllocError>
        ensures { IfOk result (λ m. m ≡ spec.string key.now text.now) }
    {
        let mut value = Vec::new(alloc);
        push_quoted(&mut value, text)?;
        Ok(Member { key, value })
    }
}

/// The members of a reply but `seq`: those before it in the order of the keys' bytes, of which there is one at least, and those
/// behind it.
#[derive(Debug, Drop)]
pub struct Members {
    pub before: List<Member>,
    pub after: List<Member>,
}

/// Adds a member.
fn push_member(out: &mut Vec<u8>, member: &Member) -> Result<(), AllocError>
    ensures { OnOk result (out.new.items ≡ out.old.items ++ member_text member.now) }
{
    out.push(b'"')?;
    out.extend_from_slice(member.key.as_bytes())?;
    out.extend_from_slice(b"\":")?;
    out.extend_from_slice(&member.value)
}

/// Adds members, each behind a comma.
#[tactic(auto, using(repl_json::proofs::PartLemmas::flat_map_more))]
fn push_behind_commas(out: &mut Vec<u8>, members: &[Member]) -> Result<(), AllocError>
    ensures { OnOk result (out.new.items ≡ out.old.items ++ flat_map behind_comma members.now) }
{
    for member in members {
        out.push(b',')?;
        push_member(out, member)?;
    }
    Ok(())
}

/// Adds members with a comma between them.
fn push_members(out: &mut Vec<u8>, members: &[Member]) -> Result<(), AllocError>
    ensures { OnOk result (out.new.items ≡ out.old.items ++ members_text members.now) }
{
    match members {
        [] => Ok(()),
        [first, rest @ ..] => {
            push_member(out, first)?;
            push_behind_commas(out, rest)
        }
    }
}

impl Members {
    /// The members, none of which stands behind `seq`. Takes no memory but for the empty list.
    pub fn before(alloc: Global, before: Vec<Member>) -> Members
        ensures { result ≡ record { before = before.items; after = [] } }
    {
        Members {
            before: List::of(before),
            after: List::of(Vec::new(alloc)),
        }
    }

    /// The reply, with a gap for the value of `seq`. Fails for want of memory alone.
    pub fn to_body(&self, alloc: Global) -> Result<Body, AllocError>
        ensures { IfOk result (λ b. b ≡ body_text self.now) }
    {
        let mut first = Vec::new(alloc);
        first.push(b'{')?;
        push_members(&mut first, self.before.as_slice())?;
        first.extend_from_slice(b",\"seq\":")?;
        let mut second = Vec::new(alloc);
        push_behind_commas(&mut second, self.after.as_slice())?;
        second.push(b'}')?;
        Ok(Body {
            first: List::of(first),
            second: List::of(second),
            third: List::of(Vec::new(alloc)),
            id_first: false,
        })
    }

    /// The object without `seq`. Fails for want of memory alone.
    pub fn to_object(&self, alloc: Global) -> Result<Vec<u8>, AllocError>
        ensures { IfOk result (λ v. v.items ≡ object_text self.now) }
    {
        let mut out = Vec::new(alloc);
        out.push(b'{')?;
        push_members(&mut out, self.before.as_slice())?;
        if self.before.as_slice().is_empty() {
            push_members(&mut out, self.after.as_slice())?;
        } else {
            push_behind_commas(&mut out, self.after.as_slice())?;
        }
        out.push(b'}')?;
        Ok(out)
    }
}
