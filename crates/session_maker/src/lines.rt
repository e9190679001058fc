//! The lines of a round.
ghost use Rattle.std.specs.Prelude.{◌≡◌, ◌++◌, ◌+◌, ◌<◌, ◌^◌, codes, decimal, OnOk};
ghost use Rattle.session_maker.specs.Session.{repeated, start_line, move_line, hypothesis, intro_lines, tries_line, print_line, delete_line, round_text};

use crate::generator::{arrow_count, chosen_hypothesis};
use itoa::Buffer;
use std::alloc::AllocError;

/// Appends a number in decimal digits.
fn push_number(text: &mut Vec<u8>, number: u64) -> Result<(), AllocError>
    ensures { OnOk result (text.new.items ≡ text.old.items ++ decimal number) }
{
    let mut buffer = Buffer::new();
    text.extend_from_slice(buffer.format(number).as_bytes())
}

/// Appends a text, a number in decimal digits, and a text.
fn push_with_number(
    text: &mut Vec<u8>,
    before: &[u8],
    number: u64,
    after: &[u8],
) -> Result<(), AllocError>
    ensures { OnOk result (text.new.items ≡ text.old.items ++ (before.now ++ decimal number ++ after.now)) }
{
    text.extend_from_slice(before)?;
    push_number(text, number)?;
    text.extend_from_slice(after)?;
    Ok(())
}

/// Appends so many arrows, each with its target.
fn push_arrows(text: &mut Vec<u8>, count: u64) -> Result<(), AllocError>
    ensures { OnOk result (text.new.items ≡ text.old.items ++ repeated (codes " -> A") count) }
{
    for _ in 0..count {
        text.extend_from_slice(b" -> A")?;
    }
    Ok(())
}

/// Appends the line that starts the goal, with so many arrows after the first one.
fn push_start(text: &mut Vec<u8>, arrows: u64) -> Result<(), AllocError>
    ensures { OnOk result (text.new.items ≡ text.old.items ++ start_line arrows) }
{
    text.extend_from_slice(b"goal.start {\"expr\":\"(A : *) -> A")?;
    push_arrows(text, arrows)?;
    text.extend_from_slice(b"\"}\n")?;
    Ok(())
}

/// Appends the move `intro A` on a state.
fn push_intro_type(text: &mut Vec<u8>, state: u64) -> Result<(), AllocError>
    ensures { OnOk result (text.new.items ≡ text.old.items ++ move_line state (codes "intro A")) }
{
    push_with_number(
        text,
        b"goal.move {\"stateId\":",
        state,
        b",\"move\":\"intro A\"}\n",
    )?;
    Ok(())
}

/// Appends the move `intro xI` on a state, with the index for I.
fn push_intro(text: &mut Vec<u8>, state: u64, index: u64) -> Result<(), AllocError>
    ensures { OnOk result (text.new.items ≡ text.old.items ++ move_line state (codes "intro " ++ hypothesis index)) }
{
    push_with_number(
        text,
        b"goal.move {\"stateId\":",
        state,
        b",\"move\":\"intro x",
    )?;
    push_with_number(text, b"", index, b"\"}\n")?;
    Ok(())
}

/// Appends the moves `intro x1` to `intro xN`, the first on the state after `start`.
fn push_intros(text: &mut Vec<u8>, start: u64, count: u64) -> Result<(), AllocError>
    requires { start + count < 2 ^ 64 }
    ensures { OnOk result (text.new.items ≡ text.old.items ++ intro_lines start count) }
{
    for done in 0..count {
        push_intro(text, start + done + 1, done + 1)?;
    }
    Ok(())
}

/// Appends the two tries on a state, the second with the hypothesis of that index.
fn push_tries(text: &mut Vec<u8>, state: u64, index: u64) -> Result<(), AllocError>
    ensures { OnOk result (text.new.items ≡ text.old.items ++ tries_line state index) }
{
    push_with_number(
        text,
        b"goal.tries {\"stateId\":",
        state,
        b",\"tries\":[{\"move\":\"assumption\"},{\"move\":\"exact x",
    )?;
    push_with_number(text, b"", index, b"\"}]}\n")?;
    Ok(())
}

/// Appends the line that prints a state.
fn push_print(text: &mut Vec<u8>, state: u64) -> Result<(), AllocError>
    ensures { OnOk result (text.new.items ≡ text.old.items ++ print_line state) }
{
    push_with_number(text, b"goal.print {\"stateId\":", state, b"}\n")?;
    Ok(())
}

/// Appends the line that deletes a state.
fn push_delete(text: &mut Vec<u8>, state: u64) -> Result<(), AllocError>
    ensures { OnOk result (text.new.items ≡ text.old.items ++ delete_line state) }
{
    push_with_number(text, b"goal.delete {\"stateId\":", state, b"}\n")?;
    Ok(())
}

/// Appends the lines of the round of the number `drawn`, whose first line makes the state `start`.
pub fn push_round(text: &mut Vec<u8>, start: u64, drawn: u64) -> Result<(), AllocError>
    requires { start < 2 ^ 63 }
    ensures { OnOk result (text.new.items ≡ text.old.items ++ round_text start drawn) }
{
    let arrows = arrow_count(drawn);
    let chosen = chosen_hypothesis(drawn);
    push_start(text, arrows)?;
    push_intro_type(text, start)?;
    push_intros(text, start, arrows)?;
    push_tries(text, start + arrows + 1, chosen)?;
    push_print(text, start + arrows + 3)?;
    push_delete(text, start)?;
    Ok(())
}
