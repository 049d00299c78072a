//! Acknowledgements.
ghost use Rattle.std.specs.Prelude.{◌≡◌, ◌++◌, OnOk, flat_map};
ghost use Rattle.node_text.specs.Acks.{ack_line, ack_text};

use crate::numbers::{push_spaced, push_word_and_number};
use peers_msg::Message;
use std::alloc::AllocError;

/// Appends a line for each acknowledgement among `acks`, in order: `ack`, the sender's id of the table, and the number. Other
/// messages are left out.
pub fn push_acks(text: &mut Vec<u8>, acks: &[Message]) -> Result<(), AllocError>
    ensures { OnOk result (text.new.items ≡ text.old.items ++ flat_map ack_line acks.now) }
{
    for message in acks {
        push_ack_line(text, message)?;
    }
    Ok(())
}

/// Appends the line of an acknowledgement, or nothing for another message.
fn push_ack_line(text: &mut Vec<u8>, message: &Message) -> Result<(), AllocError>
    ensures { OnOk result (text.new.items ≡ text.old.items ++ ack_line message.now) }
{
    match message {
        Message::Ack { table, number } => {
            push_ack(text, *table, *number)?;
            text.push(b'\n')?;
            Ok(())
        }
        _ => Ok(()),
    }
}

/// Appends an acknowledgement of `number`: `ack`, the id of a table or a session, and the number.
pub(crate) fn push_ack(text: &mut Vec<u8>, id: u64, number: u32) -> Result<(), AllocError>
    ensures { OnOk result (text.new.items ≡ text.old.items ++ ack_text id number) }
{
    push_word_and_number(text, "ack ", id)?;
    push_spaced(text, u64::from(number))
}
