//! What a line says, or the first thing wrong with it.
ghost use Rattle.std.specs.Prelude.{◌≡◌, Some, drop, map};
ghost use Rattle.admin_text.specs.Lines.{IsAdminLine, IsLine, IsListenLine, IsMetricsLine, IsRead, journal_at, level_at, no_table, node_at, node_named, nopurge_at, section_at, size_at, socket_at};
ghost use Rattle.admin_text.specs.Outcomes.{Gives};
ghost use Rattle.admin_text.specs.PeerLines.{repeated};
ghost use Rattle.admin_text.specs.Statements.{said_by};

use crate::addresses::address_of;
use crate::before::{line_of, line_with};
use crate::faults::Fault;
use crate::line_kinds::LineKind;
use crate::line_refusals::LineRefusal;
use crate::meant_kinds::has_meant_with;
use crate::named::level_named;
use crate::names::read_name;
use crate::peer_lines::{read_peer, taken_name};
use crate::settings::Setting;
use crate::socket_paths::path_fault;
use crate::statements::Statement;
use crate::table_lines::read_table;
use node_text::{number, number_from_one};
use std::alloc::Global;
use table_cell::TableCell;
use table_types::Items;

/// The greatest number of rows that a table stores.
const MOST_ROWS: u32 = TableCell::MOST_ROWS as u32;

/// The number of bytes of `unix:`.
const SOCKET_HEAD: usize = 5;

/// Reads the line that has these words, behind the lines `before`.
#[tactic(auto, unfolding(crate::specs::Lines::IsRead))]
pub(crate) fn read_line(
    alloc: Global,
    before: &[Statement<'_>],
    words: &[&[u8]],
) -> Result<Setting, LineRefusal>
    ensures { Gives (IsRead (map said_by before.now) (map (λ word. word.now) words.now)) result }
{
    let [_, rest @ ..] = words else {
        return Err(LineRefusal::Fault(Fault::Unknown));
    };
    match LineKind::of(words) {
        Some(kind) => read_behind(alloc, before, kind, rest),
        None => Err(LineRefusal::Fault(Fault::Unknown)),
    }
}

/// Reads a line of `kind`, from the words behind the first.
fn read_behind(
    alloc: Global,
    before: &[Statement<'_>],
    kind: LineKind,
    words: &[&[u8]],
) -> Result<Setting, LineRefusal>
    ensures { Gives (IsLine (Some kind) (map said_by before.now) (map (λ word. word.now) words.now)) result }
{
    match kind {
        LineKind::Node => read_node(alloc, before, words),
        LineKind::Listen => read_listen(before, words),
        LineKind::Admin => read_admin(before, words),
        LineKind::Socket => read_socket(alloc, before, words),
        LineKind::Metrics => read_metrics(before, words),
        LineKind::Section => read_section(alloc, before, words),
        LineKind::Peer => read_peer(alloc, before, words),
        LineKind::Table => read_table(alloc, before, words),
        LineKind::Size => read_size(before, words),
        LineKind::Nopurge => read_nopurge(before, words),
        LineKind::Log => read_level(before, words),
        LineKind::Journal => read_journal(before, words),
    }
}

/// Reads a line `node NAME`, from the words behind the first.
#[tactic(auto, unfolding(crate::specs::Lines::node_at))]
fn read_node(
    alloc: Global,
    before: &[Statement<'_>],
    words: &[&[u8]],
) -> Result<Setting, LineRefusal>
    ensures { Gives (λ outcome. outcome ≡ node_at (map said_by before.now) (map (λ word. word.now) words.now)) result }
{
    let [word] = words else {
        return Err(LineRefusal::Fault(Fault::Form(LineKind::Node)));
    };
    node_named(alloc, before, word)
}

/// Reads the node's name. No line before gives it one, nor the name to a peer.
fn node_named(alloc: Global, before: &[Statement<'_>], word: &[u8]) -> Result<Setting, LineRefusal>
    ensures { Gives (λ outcome. outcome ≡ node_named (map said_by before.now) word.now) result }
{
    let name = read_name(alloc, 1, word)?;
    match repeated(line_of(before, LineKind::Node)).or(taken_name(before, word)) {
        Some(fault) => Err(LineRefusal::Fault(fault)),
        None => Ok(Setting::Node(name)),
    }
}

/// Reads a line `listen ADDRESS`, from the words behind the first.
fn read_listen(before: &[Statement<'_>], words: &[&[u8]]) -> Result<Setting, LineRefusal>
    ensures { Gives (IsListenLine (map said_by before.now) (map (λ word. word.now) words.now)) result }
{
    let [word] = words else {
        return Err(LineRefusal::Fault(Fault::Form(LineKind::Listen)));
    };
    let Some(address) = address_of(word) else {
        return Err(LineRefusal::Fault(Fault::Address(1)));
    };
    match repeated(line_of(before, LineKind::Listen)) {
        Some(fault) => Err(LineRefusal::Fault(fault)),
        None => Ok(Setting::Listen(address)),
    }
}

/// Reads a line `admin ADDRESS`, from the words behind the first.
fn read_admin(before: &[Statement<'_>], words: &[&[u8]]) -> Result<Setting, LineRefusal>
    ensures { Gives (IsAdminLine (map said_by before.now) (map (λ word. word.now) words.now)) result }
{
    let [word] = words else {
        return Err(LineRefusal::Fault(Fault::Form(LineKind::Admin)));
    };
    let Some(address) = address_of(word) else {
        return Err(LineRefusal::Fault(Fault::Address(1)));
    };
    if !address.ip().is_loopback() {
        return Err(LineRefusal::Fault(Fault::Local));
    }
    match repeated(line_of(before, LineKind::Admin)) {
        Some(fault) => Err(LineRefusal::Fault(fault)),
        None => Ok(Setting::Admin(address)),
    }
}

/// Reads a line `admin unix:PATH`, from the words behind the first, of which one begins with `unix:`.
#[tactic(auto, unfolding(crate::specs::Lines::socket_at))]
fn read_socket(
    alloc: Global,
    before: &[Statement<'_>],
    words: &[&[u8]],
) -> Result<Setting, LineRefusal>
    ensures { Gives (λ outcome. outcome ≡ socket_at (map said_by before.now) (map (λ word. word.now) words.now)) result }
{
    let [word] = words else {
        return Err(LineRefusal::Fault(Fault::Form(LineKind::Socket)));
    };
    let path = behind_head(word);
    match path_fault(path).or(repeated(line_of(before, LineKind::Socket))) {
        Some(fault) => Err(LineRefusal::Fault(fault)),
        None => Ok(Setting::Socket(Items::new(Vec::from_slice(alloc, path)?))),
    }
}

/// Returns `word` without its first five bytes.
fn behind_head(word: &[u8]) -> &[u8]
    ensures { result.now ≡ drop 5 word.now }
{
    if word.len() < SOCKET_HEAD {
        &[]
    } else {
        &word[SOCKET_HEAD..]
    }
}

/// Reads a line `metrics ADDRESS`, from the words behind the first.
fn read_metrics(before: &[Statement<'_>], words: &[&[u8]]) -> Result<Setting, LineRefusal>
    ensures { Gives (IsMetricsLine (map said_by before.now) (map (λ word. word.now) words.now)) result }
{
    let [word] = words else {
        return Err(LineRefusal::Fault(Fault::Form(LineKind::Metrics)));
    };
    let Some(address) = address_of(word) else {
        return Err(LineRefusal::Fault(Fault::Address(1)));
    };
    match repeated(line_of(before, LineKind::Metrics)) {
        Some(fault) => Err(LineRefusal::Fault(fault)),
        None => Ok(Setting::Metrics(address)),
    }
}

/// Reads a line `section NAME`, from the words behind the first.
#[tactic(auto, unfolding(crate::specs::Lines::section_at))]
fn read_section(
    alloc: Global,
    before: &[Statement<'_>],
    words: &[&[u8]],
) -> Result<Setting, LineRefusal>
    ensures { Gives (λ outcome. outcome ≡ section_at (map said_by before.now) (map (λ word. word.now) words.now)) result }
{
    let [word] = words else {
        return Err(LineRefusal::Fault(Fault::Form(LineKind::Section)));
    };
    let name = read_name(alloc, 1, word)?;
    match repeated(line_of(before, LineKind::Section)) {
        Some(fault) => Err(LineRefusal::Fault(fault)),
        None => Ok(Setting::Section(name)),
    }
}

/// Reads a line `size ID ROWS`, from the words behind the first.
#[tactic(auto, unfolding(crate::specs::Lines::size_at))]
fn read_size(before: &[Statement<'_>], words: &[&[u8]]) -> Result<Setting, LineRefusal>
    ensures { Gives (λ outcome. outcome ≡ size_at (map said_by before.now) (map (λ word. word.now) words.now)) result }
{
    let [id, rows] = words else {
        return Err(LineRefusal::Fault(Fault::Form(LineKind::Size)));
    };
    if let Some(fault) = no_table(before, id) {
        return Err(LineRefusal::Fault(fault));
    }
    let Some(rows) = number_from_one(rows, MOST_ROWS) else {
        return Err(LineRefusal::Fault(Fault::Rows));
    };
    match repeated(line_with(before, LineKind::Size, 1, id)) {
        Some(fault) => Err(LineRefusal::Fault(fault)),
        None => Ok(Setting::Size(number(id, u64::MAX), rows)),
    }
}

/// Reads a line `nopurge ID`, from the words behind the first.
#[tactic(auto, unfolding(crate::specs::Lines::nopurge_at))]
fn read_nopurge(before: &[Statement<'_>], words: &[&[u8]]) -> Result<Setting, LineRefusal>
    ensures { Gives (λ outcome. outcome ≡ nopurge_at (map said_by before.now) (map (λ word. word.now) words.now)) result }
{
    let [id] = words else {
        return Err(LineRefusal::Fault(Fault::Form(LineKind::Nopurge)));
    };
    match no_table(before, id).or(repeated(line_with(before, LineKind::Nopurge, 1, id))) {
        Some(fault) => Err(LineRefusal::Fault(fault)),
        None => Ok(Setting::Nopurge(number(id, u64::MAX))),
    }
}

/// Reads a line `log LEVEL`, from the words behind the first.
#[tactic(auto, unfolding(crate::specs::Lines::level_at))]
fn read_level(before: &[Statement<'_>], words: &[&[u8]]) -> Result<Setting, LineRefusal>
    ensures { Gives (λ outcome. outcome ≡ level_at (map said_by before.now) (map (λ word. word.now) words.now)) result }
{
    let [word] = words else {
        return Err(LineRefusal::Fault(Fault::Form(LineKind::Log)));
    };
    let Some(level) = level_named(word) else {
        return Err(LineRefusal::Fault(Fault::Level));
    };
    match repeated(line_of(before, LineKind::Log)) {
        Some(fault) => Err(LineRefusal::Fault(fault)),
        None => Ok(Setting::Log(level)),
    }
}

/// Reads a line `log journal`, from the words behind the first.
#[tactic(auto, unfolding(crate::specs::Lines::journal_at))]
fn read_journal(before: &[Statement<'_>], words: &[&[u8]]) -> Result<Setting, LineRefusal>
    ensures { Gives (λ outcome. outcome ≡ journal_at (map said_by before.now) (map (λ word. word.now) words.now)) result }
{
    let [_] = words else {
        return Err(LineRefusal::Fault(Fault::Form(LineKind::Journal)));
    };
    match repeated(line_of(before, LineKind::Journal)) {
        Some(fault) => Err(LineRefusal::Fault(fault)),
        None => Ok(Setting::Journal),
    }
}

/// Returns that a line says the same, if there is one.
fn repeated(line: Option<usize>) -> Option<Fault>
    ensures { result ≡ repeated line }
{
    Some(Fault::Repeated(line?))
}

/// Returns that no earlier line gives the id to a table, if none does, nor is plainly meant to.
fn no_table(before: &[Statement<'_>], id: &[u8]) -> Option<Fault>
    ensures { result ≡ no_table (map said_by before.now) id.now }
{
    let is_given = line_with(before, LineKind::Table, 1, id).is_some();
    if is_given || has_meant_with(before, LineKind::Table, 1, id) {
        None
    } else {
        Some(Fault::NoTable)
    }
}
