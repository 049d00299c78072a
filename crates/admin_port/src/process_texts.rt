//! What the system says of a process: the texts of `/proc/self`.
ghost use Rattle.std.specs.Prelude.{◌≡◌, Err, IfOk, None, Some, map};
ghost use Rattle.admin_port.specs.ProcessTexts.{behind_last, number_at, open_descriptors, process_stat, stat_of_numbers, stat_of_words};

use crate::request_words::request_words;
use node_text::{LineError, number};
use std::alloc::Global;

/// How many bytes a page of memory has.
const PAGE: u64 = 4_096;

/// How many milliseconds a tick takes in which the system counts the time for which a process worked.
const TICK: u64 = 10;

/// What the file `stat` says of a process.
#[derive(Clone, Copy, Debug, PartialEq, Eq)]
pub struct ProcessStat {
    /// The time for which it worked, in milliseconds.
    pub cpu_time: u64,
    /// The bytes that are in memory.
    pub resident_memory_bytes: u64,
}

/// Reads the file `stat` of a process: behind the name of its program, which stands in parentheses and may have some itself, come
/// words, of which the 12th and the 13th are its time in ticks, and the 22nd is its memory in pages.
pub fn read_process_stat(alloc: Global, text: &[u8]) -> Result<ProcessStat, LineError>
    ensures read { IfOk result (λ stat. process_stat text.now ≡ Some stat) }
    ensures refused { result ≡ Err LineError.Refused → process_stat text.now ≡ None }
{
    let words = request_words(alloc, behind_last(text))?;
    match stat_of_words(words.as_slice()) {
        Some(stat) => Ok(stat),
        None => Err(LineError::Refused),
    }
}

/// Returns what stands behind the last `)` and the space behind it.
fn behind_last(text: &[u8]) -> &[u8]
    ensures { result.now ≡ behind_last text.now }
{
    let mut start = 0;
    for (index, byte) in text.iter().enumerate() {
        if *byte == b')' {
            start = index + 1;
        }
    }
    match &text[start..] {
        [_, rest @ ..] => rest,
        [] => &[],
    }
}

/// Returns what these words of the file say.
fn stat_of_words(words: &[&[u8]]) -> Option<ProcessStat>
    ensures { result ≡ stat_of_words (map (λ word. word.now) words.now) }
{
    stat_of_numbers(
        number_at(words, 11),
        number_at(words, 12),
        number_at(words, 21),
    )
}

/// Returns the number that the word with this index writes.
fn number_at(words: &[&[u8]], index: usize) -> Option<u64>
    ensures { result ≡ number_at index (map (λ word. word.now) words.now) }
{
    match words.get(index) {
        Some(word) => number(word, u64::MAX),
        None => None,
    }
}

/// Returns what these numbers of ticks and of pages come to.
fn stat_of_numbers(
    user: Option<u64>,
    system: Option<u64>,
    pages: Option<u64>,
) -> Option<ProcessStat>
    ensures { result ≡ stat_of_numbers user system pages }
{
    Some(ProcessStat {
        cpu_time: user?.saturating_add(system?).saturating_mul(TICK),
        resident_memory_bytes: pages?.saturating_mul(PAGE),
    })
}

/// Returns how many file descriptors are open, without that of the folder whose names these are: the entries of `/proc/self/fd`, each
/// ended by a zero.
pub fn open_descriptors(names: &[u8]) -> u64
    ensures { result ≡ open_descriptors names.now }
{
    let mut count = 0usize;
    let mut begins = true;
    for byte in names {
        if begins && byte.is_ascii_digit() {
            count += 1;
        }
        begins = *byte == 0;
    }
    count.saturating_sub(1) as u64
}
