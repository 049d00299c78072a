//! Requests, one on a line.
ghost use Rattle.std.specs.Prelude.{◌≡◌, ◌∷◌, ℕ, [], Err, IfOk, IfSome, List, None, Option, codes, false, map};
ghost use Rattle.admin_port.specs.Requests.{IsNoRequest, IsNoRequestLine, IsNoRow, IsRequest, IsRequestLine, IsRow, IsTable};
ghost use Rattle.admin_text.specs.TableSettings.{definitions};
ghost use Rattle.node_text.specs.Words.{is_text};
ghost use Rattle.table_types.specs.Tables.{Definition};

use crate::request_keys::request_key;
use crate::request_words::request_words;
use crate::table_names::table_named;
use admin_text::TableSetting;
use node_text::{LineError, change_of, is_text};
use std::alloc::Global;
use table_types::{Change, Key, KeyKind, Name};

/// A request. A table is given by its id, and `None` stands for one that isn't there.
#[derive(Debug, Drop)]
pub enum Request {
    /// Changes the row of a key, which may be of another kind than the table's.
    Track {
        /// The table.
        table: Option<u64>,
        /// The row's key.
        key: Key,
        /// The change.
        change: Change,
    },
    /// Reads the row of a key, which may be of another kind than the table's.
    Get {
        /// The table.
        table: Option<u64>,
        /// The row's key.
        key: Key,
    },
    /// Lists the tables.
    ShowTables,
    /// Lists a table's live rows.
    ShowTable(Option<u64>),
    /// Lists the rows of all tables.
    ShowRows,
    /// Lists the peers.
    ShowPeers,
    /// Ends the node.
    Stop,
}

/// The greatest number of bytes of a request's line, without its LF.
pub const MOST_REQUEST: usize = 32_768;

/// Reads the request of a line, which is given without its LF. It refuses a line only if that is the line of no request.
/// `tables` are those of the node, and `section` the name of the peers section, if it has one.
#[tactic(auto, using(crate::proofs::NoRequests::empty_word, crate::proofs::NoRequests::no_request_words))]
pub fn read_request(
    alloc: Global,
    section: &Option<Name>,
    tables: &[TableSetting],
    line: &[u8],
) -> Result<Request, LineError>
    ensures read { IfOk result (IsRequestLine section.now (definitions tables.now) line.now) }
    ensures refused { result ≡ Err LineError.Refused → IsNoRequestLine section.now (definitions tables.now) line.now }
{
    let words = request_words(alloc, line)?;
    request_of(alloc, section, tables, words.as_slice())
}

/// Reads a request from its words.
#[tactic(auto, using(crate::proofs::NoRequests::no_words))]
fn request_of(
    alloc: Global,
    section: &Option<Name>,
    tables: &[TableSetting],
    words: &[&[u8]],
) -> Result<Request, LineError>
    ensures read { IfOk result (IsRequest section.now (definitions tables.now) (map (λ word. word.now) words.now)) }
    ensures refused { result ≡ Err LineError.Refused → IsNoRequest section.now (definitions tables.now) (map (λ word. word.now) words.now) }
{
    match words {
        [kind, words @ ..] => request_of_kind(alloc, section, tables, kind, words),
        [] => Err(LineError::Refused),
    }
}

/// Reads a request, from its first word and those after it.
#[tactic(auto, using(crate::proofs::NoRequests::no_kind))]
fn request_of_kind(
    alloc: Global,
    section: &Option<Name>,
    tables: &[TableSetting],
    kind: &[u8],
    words: &[&[u8]],
) -> Result<Request, LineError>
    ensures read { IfOk result (IsRequest section.now (definitions tables.now) (kind.now ∷ map (λ word. word.now) words.now)) }
    ensures refused { result ≡ Err LineError.Refused → IsNoRequest section.now (definitions tables.now) (kind.now ∷ map (λ word. word.now) words.now) }
{
    match kind {
        b"track" => track_of(alloc, section, tables, words),
        b"get" => get_of(alloc, section, tables, words),
        b"show" => show_of(section, tables, words).ok_or(LineError::Refused),
        b"stop" => stop_of(words).ok_or(LineError::Refused),
        _ => Err(LineError::Refused),
    }
}

/// Reads a request `track TABLE KEY` and a change, from the words after the first.
#[tactic(auto, using(crate::proofs::NoRequests::few_to_track))]
fn track_of(
    alloc: Global,
    section: &Option<Name>,
    tables: &[TableSetting],
    words: &[&[u8]],
) -> Result<Request, LineError>
    ensures read { IfOk result (IsRequest section.now (definitions tables.now) (codes "track" ∷ map (λ word. word.now) words.now)) }
    ensures refused { result ≡ Err LineError.Refused → IsNoRequest section.now (definitions tables.now) (codes "track" ∷ map (λ word. word.now) words.now) }
{
    let [table, key, change @ ..] = words else {
        return Err(LineError::Refused);
    };
    change_of_row(alloc, section, tables, table, key, change)
}

/// Reads a request `track`, from the words of its table and its key, and from those of its change.
#[tactic(auto, using(crate::proofs::NoRequests::no_row_to_track, crate::proofs::NoRequests::no_change_to_track))]
fn change_of_row(
    alloc: Global,
    section: &Option<Name>,
    tables: &[TableSetting],
    table: &[u8],
    key: &[u8],
    change: &[&[u8]],
) -> Result<Request, LineError>
    ensures read { IfOk result (IsRequest section.now (definitions tables.now) (codes "track" ∷ table.now ∷ key.now ∷ map (λ word. word.now) change.now)) }
    ensures refused { result ≡ Err LineError.Refused → IsNoRequest section.now (definitions tables.now) (codes "track" ∷ table.now ∷ key.now ∷ map (λ word. word.now) change.now) }
{
    let (table, key) = row_of(alloc, section, tables, table, key)?;
    let change = change_of(alloc, change)?;
    Ok(Request::Track { table, key, change })
}

/// Reads a request `get TABLE KEY`, from the words after the first.
#[tactic(auto, using(crate::proofs::NoRequests::other_to_get))]
fn get_of(
    alloc: Global,
    section: &Option<Name>,
    tables: &[TableSetting],
    words: &[&[u8]],
) -> Result<Request, LineError>
    ensures read { IfOk result (IsRequest section.now (definitions tables.now) (codes "get" ∷ map (λ word. word.now) words.now)) }
    ensures refused { result ≡ Err LineError.Refused → IsNoRequest section.now (definitions tables.now) (codes "get" ∷ map (λ word. word.now) words.now) }
{
    let [table, key] = words else {
        return Err(LineError::Refused);
    };
    row_to_get(alloc, section, tables, table, key)
}

/// Reads a request `get`, from the words of its table and its key.
#[tactic(auto, using(crate::proofs::NoRequests::no_get))]
fn row_to_get(
    alloc: Global,
    section: &Option<Name>,
    tables: &[TableSetting],
    table: &[u8],
    key: &[u8],
) -> Result<Request, LineError>
    ensures read { IfOk result (IsRequest section.now (definitions tables.now) (codes "get" ∷ table.now ∷ key.now ∷ [])) }
    ensures refused { result ≡ Err LineError.Refused → IsNoRequest section.now (definitions tables.now) (codes "get" ∷ table.now ∷ key.now ∷ []) }
{
    let (table, key) = row_of(alloc, section, tables, table, key)?;
    Ok(Request::Get { table, key })
}

/// Reads a request `stop`, from the words after the first.
#[tactic(auto, using(crate::proofs::NoRequests::some_to_stop))]
fn stop_of(words: &[&[u8]]) -> Option<Request>
    ensures read { (section : Option (List ℕ)) (tables : List Definition) → IfSome result (IsRequest section tables (codes "stop" ∷ map (λ word. word.now) words.now)) }
    ensures refused { (section : Option (List ℕ)) (tables : List Definition) → result ≡ None → IsNoRequest section tables (codes "stop" ∷ map (λ word. word.now) words.now) }
{
    if words.is_empty() {
        Some(Request::Stop)
    } else {
        None
    }
}

/// Reads a request `show`, from the words after the first.
#[tactic(auto, using(crate::proofs::NoRequests::other_to_show))]
fn show_of(section: &Option<Name>, tables: &[TableSetting], words: &[&[u8]]) -> Option<Request>
    ensures read { IfSome result (IsRequest section.now (definitions tables.now) (codes "show" ∷ map (λ word. word.now) words.now)) }
    ensures refused { result ≡ None → IsNoRequest section.now (definitions tables.now) (codes "show" ∷ map (λ word. word.now) words.now) }
{
    match words {
        [word] => list_of(word),
        [word, table] => list_of_table(section, tables, word, table),
        _ => None,
    }
}

/// Reads a request `show` with one word.
#[tactic(auto, using(crate::proofs::NoRequests::no_show_word))]
fn list_of(word: &[u8]) -> Option<Request>
    ensures read { (section : Option (List ℕ)) (tables : List Definition) → IfSome result (IsRequest section tables (codes "show" ∷ word.now ∷ [])) }
    ensures refused { (section : Option (List ℕ)) (tables : List Definition) → result ≡ None → IsNoRequest section tables (codes "show" ∷ word.now ∷ []) }
{
    match word {
        b"table" => Some(Request::ShowTables),
        b"rows" => Some(Request::ShowRows),
        b"peers" => Some(Request::ShowPeers),
        _ => None,
    }
}

/// Reads a request `show` with two words, of which the second names a table.
#[tactic(auto, using(crate::proofs::NoRequests::no_show_table))]
fn list_of_table(
    section: &Option<Name>,
    tables: &[TableSetting],
    word: &[u8],
    table: &[u8],
) -> Option<Request>
    ensures read { IfSome result (IsRequest section.now (definitions tables.now) (codes "show" ∷ word.now ∷ table.now ∷ [])) }
    ensures refused { result ≡ None → IsNoRequest section.now (definitions tables.now) (codes "show" ∷ word.now ∷ table.now ∷ []) }
{
    match word {
        b"table" => Some(Request::ShowTable(table_of(section, tables, table)?)),
        _ => None,
    }
}

/// Reads a table: its id if it is there.
fn table_of(section: &Option<Name>, tables: &[TableSetting], word: &[u8]) -> Option<Option<u64>>
    ensures read { IfSome result (IsTable section.now (definitions tables.now) word.now) }
    ensures refused { result ≡ None → is_text word.now ≡ false }
{
    if !is_text(word) {
        return None;
    }
    match table_named(section, tables, word) {
        Some(table) => Some(Some(table.id())),
        None => Some(None),
    }
}

/// Reads a table and a key. The key of a table that isn't there is read as one of bytes, so that no key of another kind is refused.
#[tactic(auto, using(crate::proofs::NoRequests::no_key, crate::proofs::NoRequests::no_text))]
fn row_of(
    alloc: Global,
    section: &Option<Name>,
    tables: &[TableSetting],
    table: &[u8],
    key: &[u8],
) -> Result<(Option<u64>, Key), LineError>
    ensures read { IfOk result (λ row. IsRow section.now (definitions tables.now) table.now key.now row.0 row.1) }
    ensures refused { result ≡ Err LineError.Refused → IsNoRow section.now (definitions tables.now) table.now key.now }
{
    if !is_text(table) {
        return Err(LineError::Refused);
    }
    match table_named(section, tables, table) {
        Some(table) => Ok((Some(table.id()), request_key(alloc, table.kind(), key)?)),
        None => Ok((None, request_key(alloc, KeyKind::Binary, key)?)),
    }
}
