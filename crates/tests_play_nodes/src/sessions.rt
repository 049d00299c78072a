//! Sessions between the peers `a` and `b`.

use peers_hello::Hello;
use session_core::Session;
use std::alloc::Global;
use table_types::{Name, Roster, Version};
use tests_play_data::parts::{TableParts, definition, named};

/// Makes the roster of these tables.
pub(crate) fn roster(alloc: Global, tables: &[TableParts]) -> Option<Roster> {
    let mut definitions = Vec::new(alloc);
    for table in tables {
        definitions.push(definition(alloc, table)?).ok()?;
    }
    Roster::new(definitions).ok()
}

/// Makes the hello of `a` to `b`.
fn hello(alloc: Global) -> Option<Hello> {
    let (remote, local) = named(alloc, b"b").zip(named(alloc, b"a"))?;
    Some(Hello {
        remote,
        local,
        pid: 1,
        relative: 1,
        version: Version::V21,
    })
}

/// Makes the session of `a`, which connects to `b`.
pub(crate) fn connecting(alloc: Global, roster: Roster, up_to_date: bool) -> Option<Session> {
    let (hello, roster) = hello(alloc).zip(Some(roster))?;
    Session::connect(alloc, hello, roster, up_to_date).ok()
}

/// Makes the list of the peers that `b` knows: `a` alone.
fn peers(alloc: Global) -> Option<Vec<Name>> {
    vec![in alloc; named(alloc, b"a")?].ok()
}

/// Makes the session of `b`, to which `a` connects.
pub(crate) fn accepting(alloc: Global, roster: Roster, up_to_date: bool) -> Option<Session> {
    let names = named(alloc, b"b").zip(peers(alloc));
    let ((own, peers), roster) = names.zip(Some(roster))?;
    Session::accept(alloc, own, peers, roster, up_to_date).ok()
}
