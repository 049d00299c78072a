//! What a node says before its log begins.

use peers_devices::Faults;
use std::io;
use std::io::Write;

/// What a line begins with that systemd's journal takes for an error.
const MARK: &[u8] = b"<3>";

/// Returns whether a line of a configuration is `log journal`, whatever the other lines say.
pub(crate) fn says_journal(text: &[u8]) -> bool {
    for line in text.split(|byte| *byte == b'\n') {
        if is_journal_line(line) {
            return true;
        }
    }
    false
}

/// Returns whether a line is `log journal`, and maybe a comment.
fn is_journal_line(line: &[u8]) -> bool {
    let mut count = 0;
    for word in line.split(|byte| matches!(*byte, b' ' | b'\t' | b'\r')) {
        if word.is_empty() {
            continue;
        }
        let is_right = match count {
            0 => word == b"log".as_slice(),
            1 => word == b"journal".as_slice(),
            _ => return word.starts_with(b"#"),
        };
        if !is_right {
            return false;
        }
        count += 1;
    }
    count == 2
}

/// A writer of lines, each of which begins with `MARK` if the log is for systemd's journal.
#[derive(Drop)]
pub(crate) struct Marked<'a, E> {
    errors: &'a mut E,
    /// Whether the log is for systemd's journal.
    journal: bool,
    /// Whether a line begins with what is written next.
    begins: bool,
}

impl<'a, E> Marked<'a, E> {
    /// Returns a writer of lines to `errors`.
    pub(crate) fn new(errors: &'a mut E, journal: bool) -> Marked<'a, E> {
        Marked {
            errors,
            journal,
            begins: true,
        }
    }
}

/// Returns how many bytes there are up to the first LF and with it, or in all if there is none.
fn line_length(bytes: &[u8]) -> usize {
    match bytes.iter().position(|byte| *byte == b'\n') {
        Some(end) => end.saturating_add(1).min(bytes.len()),
        None => bytes.len(),
    }
}

impl<'a, E: Faults> Faults for Marked<'a, E> {
    ghost failed = { λ m. E.failed m.errors.now };

    fn failures(&self) -> u64 {
        self.errors.failures()
    }
}

impl<'a, E: Write> Write for Marked<'a, E> {
    fn write(&mut self, bytes: &[u8]) -> io::Result<usize> {
        if !self.journal || bytes.is_empty() {
            return self.errors.write(bytes);
        }
        if self.begins {
            self.errors.write_all(MARK)?;
            self.begins = false;
        }
        let line = &bytes[..line_length(bytes).min(bytes.len())];
        let written = self.errors.write(line)?.min(line.len());
        self.begins = line[..written].last().is_some_and(|byte| *byte == b'\n');
        Ok(written.min(bytes.len()))
    }

    fn flush(&mut self) -> io::Result<()> {
        self.errors.flush()
    }
}
