//! The tables of a roster, as a session shares them.

ghost use Rattle.std.specs.Prelude.{◌≡◌, IfOk, map};
ghost use Rattle.session_core.specs.Shares.{any_out, is_out, all_quiet, out_set, quiet_set, unquieted, may_copy, first_to_copy, through, past, next_table, shares_of};

use std::alloc::Global;
use table_types::{Memory, TableDef};

/// A table of the roster, as a session shares it.
#[derive(Clone, Copy, Debug)]
pub(crate) struct Share {
    /// The table's id.
    pub(crate) table: u64,
    /// Whether a batch of it is outstanding: copied to be taught, and not acknowledged to its end.
    pub(crate) out: bool,
    /// Whether it has answered, since the resync began, that it has nothing to teach.
    pub(crate) quiet: bool,
}

impl Share {
    /// Returns whether a batch may be copied from the table.
    fn may_copy(self, teaching: bool) -> bool
        ensures { result ≡ may_copy teaching self }
    {
        !self.out && !(teaching && self.quiet)
    }
}

/// Returns the tables of a roster, with no batch outstanding.
pub(crate) fn shares_of(alloc: Global, tables: &[TableDef]) -> Result<Vec<Share>, Memory>
    ensures { IfOk result (λ shares. shares.items ≡ shares_of tables.now) }
{
    let mut shares = Vec::with_capacity(alloc, tables.len())?;
    for table in tables {
        shares.push(Share {
            table: table.id(),
            out: false,
            quiet: false,
        })?;
    }
    Ok(shares)
}

/// Returns whether some table delays the beginning of a resync.
pub(crate) fn any_out(shares: &[Share]) -> bool
    ensures { result ≡ any_out shares.now }
{
    for share in shares {
        if share.out {
            return true;
        }
    }
    false
}

/// Returns whether `table` is one of the tables and has a batch outstanding.
pub(crate) fn is_out(shares: &[Share], table: u64) -> bool
    ensures { result ≡ is_out table shares.now }
{
    for share in shares {
        if share.table == table && share.out {
            return true;
        }
    }
    false
}

/// Returns whether all tables are quiet.
pub(crate) fn all_quiet(shares: &[Share]) -> bool
    ensures { result ≡ all_quiet shares.now }
{
    for share in shares {
        if !share.quiet {
            return false;
        }
    }
    true
}

/// Sets whether a batch of `table` is outstanding.
pub(crate) fn set_out(shares: &mut [Share], table: u64, out: bool)
    ensures { shares.new ≡ out_set table out shares.old }
{
    for share in shares.iter_mut() {
        if share.table == table {
            share.out = out;
        }
    }
}

/// Marks `table` as quiet.
pub(crate) fn set_quiet(shares: &mut [Share], table: u64)
    ensures { shares.new ≡ quiet_set table shares.old }
{
    for share in shares.iter_mut() {
        if share.table == table {
            share.quiet = true;
        }
    }
}

/// Clears the quiet mark of every table.
pub(crate) fn unquiet(shares: &mut [Share])
    ensures { shares.new ≡ unquieted shares.old }
{
    for share in shares.iter_mut() {
        share.quiet = false;
    }
}

/// Returns the id of the first table from which a batch may be copied.
fn first_to_copy(shares: &[Share], teaching: bool) -> Option<u64>
    ensures { result ≡ first_to_copy teaching shares.now }
{
    for share in shares {
        if share.may_copy(teaching) {
            return Some(share.table);
        }
    }
    None
}

/// Returns the tables up to and including `table`, and those after it: all and none if it isn't among them.
fn split(shares: &[Share], table: u64) -> (&[Share], &[Share])
    ensures through { result.0.now ≡ through table shares.now }
    ensures past { result.1.now ≡ past table shares.now }
{
    for (index, share) in shares.iter().enumerate() {
        if share.table == table {
            return (&shares[..index + 1], &shares[index + 1..]);
        }
    }
    (shares, &shares[shares.len()..])
}

/// Returns the id of the next table from which a batch may be copied, searching round from the one after `asked`.
pub(crate) fn next_table(shares: &[Share], asked: Option<u64>, teaching: bool) -> Option<u64>
    ensures { result ≡ next_table teaching asked shares.now }
{
    match asked {
        None => first_to_copy(shares, teaching),
        Some(table) => {
            let (through, past) = split(shares, table);
            match first_to_copy(past, teaching) {
                Some(next) => Some(next),
                None => first_to_copy(through, teaching),
            }
        }
    }
}
