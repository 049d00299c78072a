//! Lessons.
ghost use Rattle.std.specs.Prelude.{◌≡◌, ◌++◌, ℕ, List, IfOk, OnOk, flat_map, length, map};
ghost use Rattle.std.specs.List.{AllByRecursion};
ghost use Rattle.peers_msg.specs.Framing.{IsFrame};
ghost use Rattle.peers_msg.specs.Spelling.{spelled, stream_of};
ghost use Rattle.peers_msg.specs.declared.message.Message.{Message};
ghost use Rattle.node_text.specs.Lessons.{joined, line_of, printed, sums_of};

use crate::bytes::push_hexadecimal;
use crate::numbers::{push_spaced, push_word_and_number};
use peers_msg::split_message;
use std::alloc::{AllocError, Global};

/// Returns the text of a lesson: a line with each message in hexadecimal, a line with the number of bytes, and one with the
/// prices.
pub fn printed_lesson(alloc: Global, bytes: &[u8], prices: &[u64]) -> Result<Vec<u8>, AllocError>
    ensures frames { IfOk result (λ text. (frames : List (List ℕ)) → AllByRecursion IsFrame frames → bytes.now ≡ joined frames → text.items ≡ printed frames prices.now) }
    ensures messages { IfOk result (λ text. (messages : List Message) → bytes.now ≡ stream_of messages → text.items ≡ printed (map spelled messages) prices.now) }
{
    let mut text = Vec::new(alloc);
    push_messages(&mut text, bytes)?;
    push_sums(&mut text, bytes.len(), prices)?;
    Ok(text)
}

/// Appends a line for each message, and one for the bytes after the last message if there are any.
fn push_messages(text: &mut Vec<u8>, bytes: &[u8]) -> Result<(), AllocError>
    ensures { OnOk result ((frames : List (List ℕ)) → AllByRecursion IsFrame frames → bytes.now ≡ joined frames →
        text.new.items ≡ text.old.items ++ flat_map line_of frames) }
{
    let mut rest = bytes;
    while let Some((message, after)) = split_message(rest) {
        push_line(text, message)?;
        rest = after;
    }
    if !rest.is_empty() {
        push_line(text, rest)?;
    }
    Ok(())
}

/// Appends the line of a message.
fn push_line(text: &mut Vec<u8>, message: &[u8]) -> Result<(), AllocError>
    ensures { OnOk result (text.new.items ≡ text.old.items ++ line_of message.now) }
{
    push_hexadecimal(text, message)?;
    text.push(b'\n')?;
    Ok(())
}

/// Appends the line with the number of bytes, `count`, and the line with the prices.
fn push_sums(text: &mut Vec<u8>, count: usize, prices: &[u64]) -> Result<(), AllocError>
    ensures { OnOk result (text.new.items ≡ text.old.items ++ sums_of count prices.now) }
{
    push_word_and_number(text, "bytes ", count as u64)?;
    text.extend_from_slice(b"\nprices")?;
    for price in prices {
        push_spaced(text, *price)?;
    }
    text.push(b'\n')?;
    Ok(())
}
