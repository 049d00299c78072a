//! Samples of metrics, in the text form of Prometheus.
ghost use Rattle.std.specs.Prelude.{◌≡◌, ◌++◌, OnOk, flat_map};
ghost use Rattle.admin_port.specs.Samples.{digit, family_head, in_seconds, label_byte, label_text, labels_text, more_labels, pair_of, pairs_of, sample_line, seconds_line};

use crate::lines::{push_field, push_line_end, push_words};
use node_text::{push_number, push_word_and_number};
use std::alloc::AllocError;

/// A label of a sample.
#[derive(Debug, Drop)]
pub(crate) struct Label<'a> {
    /// The label's name.
    pub(crate) name: &'a str,
    /// The label's value.
    pub(crate) value: &'a [u8],
}

/// Appends what stands before the samples of a family: what it measures, and whether as a `gauge` or as a `counter`.
#[tactic(auto, unfolding(crate::specs::Samples::family_head))]
pub(crate) fn push_head(
    text: &mut Vec<u8>,
    name: &str,
    kind: &str,
    help: &str,
) -> Result<(), AllocError>
    ensures { OnOk result (text.new.items ≡ text.old.items ++ family_head name.now kind.now help.now) }
{
    push_field(text, "# HELP ", name.as_bytes())?;
    push_field(text, " ", help.as_bytes())?;
    push_field(text, "\n# TYPE ", name.as_bytes())?;
    push_field(text, " ", kind.as_bytes())?;
    push_line_end(text)
}

/// Appends the line of a sample.
#[tactic(auto, unfolding(crate::specs::Samples::sample_line))]
pub(crate) fn push_sample(
    text: &mut Vec<u8>,
    name: &str,
    labels: &[Label<'_>],
    value: u64,
) -> Result<(), AllocError>
    ensures { OnOk result (text.new.items ≡ text.old.items ++ sample_line name.now (pairs_of labels.now) value) }
{
    push_words(text, name)?;
    push_labels(text, labels)?;
    push_word_and_number(text, " ", value)?;
    text.push(b'\n')?;
    Ok(())
}

/// Appends the line of a sample whose value is a time.
#[tactic(auto, unfolding(crate::specs::Samples::seconds_line))]
pub(crate) fn push_seconds(
    text: &mut Vec<u8>,
    name: &str,
    labels: &[Label<'_>],
    milliseconds: u64,
) -> Result<(), AllocError>
    ensures { OnOk result (text.new.items ≡ text.old.items ++ seconds_line name.now (pairs_of labels.now) milliseconds) }
{
    push_words(text, name)?;
    push_labels(text, labels)?;
    text.push(b' ')?;
    push_in_seconds(text, milliseconds)?;
    text.push(b'\n')?;
    Ok(())
}

/// Appends a number of milliseconds in seconds.
#[tactic(auto, unfolding(crate::specs::Samples::in_seconds))]
fn push_in_seconds(text: &mut Vec<u8>, milliseconds: u64) -> Result<(), AllocError>
    ensures { OnOk result (text.new.items ≡ text.old.items ++ in_seconds milliseconds) }
{
    push_number(text, milliseconds / 1_000)?;
    let places = [
        b'.',
        digit(milliseconds / 100),
        digit(milliseconds / 10),
        digit(milliseconds),
    ];
    text.extend_from_slice(places.as_slice())
}

/// Returns the last digit of a number.
fn digit(number: u64) -> u8
    ensures { result ≡ digit number }
{
    b'0' + (number % 10) as u8
}

/// Appends labels in braces, or nothing if there are none.
fn push_labels(text: &mut Vec<u8>, labels: &[Label<'_>]) -> Result<(), AllocError>
    ensures { OnOk result (text.new.items ≡ text.old.items ++ labels_text (pairs_of labels.now)) }
{
    let [first, more @ ..] = labels else {
        return Ok(());
    };
    text.push(b'{')?;
    push_label(text, first)?;
    push_more_labels(text, more)?;
    text.push(b'}')?;
    Ok(())
}

/// Appends each label behind a comma.
fn push_more_labels(text: &mut Vec<u8>, labels: &[Label<'_>]) -> Result<(), AllocError>
    ensures { OnOk result (text.new.items ≡ text.old.items ++ more_labels (pairs_of labels.now)) }
{
    for label in labels {
        text.push(b',')?;
        push_label(text, label)?;
    }
    Ok(())
}

/// Appends a label.
fn push_label(text: &mut Vec<u8>, label: &Label<'_>) -> Result<(), AllocError>
    ensures { OnOk result (text.new.items ≡ text.old.items ++ label_text (pair_of label.now)) }
{
    push_words(text, label.name)?;
    push_words(text, "=\"")?;
    push_label_value(text, label.value)?;
    text.push(b'"')?;
    Ok(())
}

/// Appends the value of a label, with a backslash before `"` and a backslash, and `?` for a byte that can't be printed.
fn push_label_value(text: &mut Vec<u8>, value: &[u8]) -> Result<(), AllocError>
    ensures { OnOk result (text.new.items ≡ text.old.items ++ flat_map label_byte value.now) }
{
    for byte in value {
        match *byte {
            b'"' | b'\\' => text.extend_from_slice([b'\\', *byte].as_slice())?,
            b' '..=b'~' => text.push(*byte)?,
            _ => text.push(b'?')?,
        }
    }
    Ok(())
}
