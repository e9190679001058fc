//! The bytes of a reply, into a sink.

ghost use Rattle.std.specs.Prelude.{◌≡◌, None, OnOk, OnErr, is_some};
ghost use Rattle.std.specs.List.{flat_map};
ghost use Rattle.std.specs.Io.KnownBytes.{Appends};
ghost use Rattle.pan_io.specs.Faults.{HasCause};
ghost use Rattle.pan_io.specs.Put.{AppendsPrefix};
ghost use Rattle.repl_json.specs.Reply.{text, body_text, text_around, counted_text, stat_text};
ghost use Rattle.repl_json.specs.Parts.{part_bytes};

use crate::reply::{Body, Line};
use itoa::Buffer;
use pan_io::{Failed, Sink, put_all};

/// A part of a reply.
#[derive(Clone, Copy)]
pub enum Part<'a> {
    Text(&'a [u8]),
    Number(u64),
}

fn put_part<K: Sink>(sink: &mut K, part: &Part<'_>) -> Result<(), Failed>
    ensures ok { OnOk result (Appends (K.taken sink.old) (K.taken sink.new) (part_bytes part.now)) }
    ensures failed { OnErr result (AppendsPrefix (K.taken sink.old) (K.taken sink.new) (part_bytes part.now)) }
    ensures tells { is_some (K.taken sink.new) ≡ is_some (K.taken sink.old) }
    ensures cause { HasCause (K.faults sink.old) (K.faults sink.new) result }
{
    match part {
        Part::Text(bytes) => put_all(sink, bytes),
        Part::Number(n) => {
            let mut buffer = Buffer::new();
            put_all(sink, buffer.format(*n).as_bytes())
        }
    }
}

fn put_parts<K: Sink>(sink: &mut K, parts: &[Part<'_>]) -> Result<(), Failed>
    ensures ok { OnOk result (Appends (K.taken sink.old) (K.taken sink.new) (flat_map part_bytes parts.now)) }
    ensures failed { OnErr result (AppendsPrefix (K.taken sink.old) (K.taken sink.new) (flat_map part_bytes parts.now)) }
    ensures tells { is_some (K.taken sink.new) ≡ is_some (K.taken sink.old) }
    ensures cause { HasCause (K.faults sink.old) (K.faults sink.new) result }
{
    for part in parts {
        put_part(sink, part)?;
    }
    Ok(())
}

/// Writes a reply's bytes and one line end. It takes no memory.
///
/// # Errors
/// `Failed` only where the sink's count of faults rose; the sink has then taken a front of the reply.
#[tactic(auto, unfolding(crate::specs::Reply::text))]
pub fn finish_line<K: Sink>(line: &Line, sink: &mut K) -> Result<(), Failed>
    ensures ok { OnOk result (Appends (K.taken sink.old) (K.taken sink.new) (text line.now)) }
    ensures failed { OnErr result (AppendsPrefix (K.taken sink.old) (K.taken sink.new) (text line.now)) }
    ensures tells { is_some (K.taken sink.new) ≡ is_some (K.taken sink.old) }
    ensures cause { HasCause (K.faults sink.old) (K.faults sink.new) result }
{
    match line {
        Line::Given { body, seq, id } => put_body(sink, body, *seq, *id),
        Line::Ahead { length, seq } => {
            put_counted(sink, b"{\"error\":\"ahead\",\"length\":", *length, *seq)
        }
        Line::UnknownEnv { id, seq } => {
            put_counted(sink, b"{\"error\":\"unknownEnv\",\"id\":", *id, *seq)
        }
        Line::UnknownState { id, seq } => {
            put_counted(sink, b"{\"error\":\"unknownState\",\"id\":", *id, *seq)
        }
        Line::Deleted { id, seq } => put_counted(sink, b"{\"deleted\":", *id, *seq),
        Line::Reset { deleted, seq } => put_counted(sink, b"{\"deleted\":", *deleted, *seq),
        Line::Stat {
            envs,
            live,
            seq,
            states,
        } => put_stat(sink, *envs, *live, *seq, *states),
        Line::Memory { seq } => put_parts(
            sink,
            &[
                Part::Text(b"{\"error\":\"memory\",\"seq\":"),
                Part::Number(*seq),
                Part::Text(b"}\n"),
            ],
        ),
    }
}

/// A front, a number, and the number of entries.
fn put_counted<K: Sink>(sink: &mut K, front: &[u8], number: u64, seq: u64) -> Result<(), Failed>
    ensures ok { OnOk result (Appends (K.taken sink.old) (K.taken sink.new) (counted_text front.now number seq)) }
    ensures failed { OnErr result (AppendsPrefix (K.taken sink.old) (K.taken sink.new) (counted_text front.now number seq)) }
    ensures tells { is_some (K.taken sink.new) ≡ is_some (K.taken sink.old) }
    ensures cause { HasCause (K.faults sink.old) (K.faults sink.new) result }
{
    let parts = [
        Part::Text(front),
        Part::Number(number),
        Part::Text(b",\"seq\":"),
        Part::Number(seq),
        Part::Text(b"}\n"),
    ];
    put_parts(sink, &parts)
}

/// The counts of a tree.
fn put_stat<K: Sink>(
    sink: &mut K,
    envs: u64,
    live: u64,
    seq: u64,
    states: u64,
) -> Result<(), Failed>
    ensures ok { OnOk result (Appends (K.taken sink.old) (K.taken sink.new) (stat_text envs live seq states)) }
    ensures failed { OnErr result (AppendsPrefix (K.taken sink.old) (K.taken sink.new) (stat_text envs live seq states)) }
    ensures tells { is_some (K.taken sink.new) ≡ is_some (K.taken sink.old) }
    ensures cause { HasCause (K.faults sink.old) (K.faults sink.new) result }
{
    let parts = [
        Part::Text(b"{\"envs\":"),
        Part::Number(envs),
        Part::Text(b",\"live\":"),
        Part::Number(live),
        Part::Text(b",\"seq\":"),
        Part::Number(seq),
        Part::Text(b",\"states\":"),
        Part::Number(states),
        Part::Text(b"}\n"),
    ];
    put_parts(sink, &parts)
}

/// The pieces of a body, with its numbers between them.
fn put_body<K: Sink>(sink: &mut K, body: &Body, seq: u64, id: Option<u64>) -> Result<(), Failed>
    ensures ok { OnOk result (Appends (K.taken sink.old) (K.taken sink.new) (body_text body.now seq id)) }
    ensures failed { OnErr result (AppendsPrefix (K.taken sink.old) (K.taken sink.new) (body_text body.now seq id)) }
    ensures tells { is_some (K.taken sink.new) ≡ is_some (K.taken sink.old) }
    ensures cause { HasCause (K.faults sink.old) (K.faults sink.new) result }
{
    match id {
        None => put_around_one(sink, body, seq),
        Some(id) if body.id_first => put_around_two(sink, body, id, seq),
        Some(id) => put_around_two(sink, body, seq, id),
    }
}

/// The pieces with one number.
fn put_around_one<K: Sink>(sink: &mut K, body: &Body, number: u64) -> Result<(), Failed>
    ensures ok { OnOk result (Appends (K.taken sink.old) (K.taken sink.new) (body_text body.now number None)) }
    ensures failed { OnErr result (AppendsPrefix (K.taken sink.old) (K.taken sink.new) (body_text body.now number None)) }
    ensures tells { is_some (K.taken sink.new) ≡ is_some (K.taken sink.old) }
    ensures cause { HasCause (K.faults sink.old) (K.faults sink.new) result }
{
    let second = body.second.as_slice();
    let parts = [
        Part::Text(body.first.as_slice()),
        Part::Number(number),
        Part::Text(second),
        Part::Text(body.third.as_slice()),
        Part::Text(b"\n"),
    ];
    put_parts(sink, &parts)
}

/// The pieces with two numbers.
fn put_around_two<K: Sink>(sink: &mut K, body: &Body, one: u64, two: u64) -> Result<(), Failed>
    ensures ok { OnOk result (Appends (K.taken sink.old) (K.taken sink.new) (text_around body.now one two)) }
    ensures failed { OnErr result (AppendsPrefix (K.taken sink.old) (K.taken sink.new) (text_around body.now one two)) }
    ensures tells { is_some (K.taken sink.new) ≡ is_some (K.taken sink.old) }
    ensures cause { HasCause (K.faults sink.old) (K.faults sink.new) result }
{
    let parts = [
        Part::Text(body.first.as_slice()),
        Part::Number(one),
        Part::Text(body.second.as_slice()),
        Part::Number(two),
        Part::Text(body.third.as_slice()),
        Part::Text(b"\n"),
    ];
    put_parts(sink, &parts)
}
