//! What is said once, until it changes.

ghost use Rattle.std.specs.Prelude.{◌≡◌, [], is_none, not, IfOk, OnOk, OnErr, None, Some};
ghost use Rattle.std.specs.List.{list_any};
ghost use Rattle.table_types.specs.Rosters.{is_same_name};
ghost use Rattle.node_core.specs.Onces.{has_said, is_said, said_after};

use std::alloc::{AllocError, Global};
use table_types::{Items, is_same_name};

/// What was said last of something, so that it is said once, until it changes.
#[derive(Debug, Drop)]
pub struct Once {
    said: Option<Items<u8>>,
}

impl Once {
    /// Returns what was said at first: nothing.
    pub fn new() -> Once
        ensures { result.said ≡ None }
    {
        Once { said: None }
    }

    /// Returns whether `words` weren't said last, and notes that they are.
    pub fn is_news(&mut self, alloc: Global, words: &[u8]) -> Result<bool, AllocError>
        ensures news { IfOk result (λ news. news ≡ not (is_said words.now self.old.said)) }
        ensures said { OnOk result (self.new.said ≡ Some words.now) }
        ensures stays { OnErr result (self.new.said ≡ self.old.said) }
    {
        if let Some(said) = &self.said {
            if is_same_name(said.as_slice(), words) {
                return Ok(false);
            }
        }
        self.said = Some(Items::new(Vec::from_slice(alloc, words)?));
        Ok(true)
    }

    /// Returns whether nothing was said, or nothing is to be said any longer.
    pub fn is_silent(&self) -> bool
        ensures { result ≡ is_none self.now.said }
    {
        self.said.is_none()
    }

    /// Notes that there is nothing to be said any longer, so that whatever comes next is news.
    pub fn forget(&mut self)
        ensures { self.new.said ≡ None }
    {
        self.said = None;
    }
}

/// Names that were said, each once: at most `MOST`.
#[derive(Debug, Drop)]
pub struct SaidNames {
    names: Vec<Items<u8>>,
}

/// Returns whether a name is among those that were said.
fn has_said(names: &[Items<u8>], name: &[u8]) -> bool
    ensures { result ≡ has_said names.now name.now }
{
    for said in names {
        if is_same_name(said.as_slice(), name) {
            return true;
        }
    }
    false
}

impl SaidNames {
    /// How many names are remembered. All are forgotten when another one comes, and may be said again.
    const MOST: usize = 1_024;

    /// Returns the names at first: none. Doesn't allocate.
    pub fn new(alloc: Global) -> SaidNames
        ensures { result.names.items ≡ [] }
    {
        SaidNames {
            names: Vec::new(alloc),
        }
    }

    /// Returns whether the name wasn't said yet, and notes that it is.
    pub fn is_news(&mut self, alloc: Global, name: &[u8]) -> Result<bool, AllocError>
        ensures news { IfOk result (λ news. news ≡ not (has_said self.old.names.items name.now)) }
        ensures said { OnOk result (self.new.names.items ≡ said_after self.old.names.items name.now) }
        ensures stays { OnErr result (self.new.names.items ≡ self.old.names.items) }
    {
        if has_said(self.names.as_slice(), name) {
            return Ok(false);
        }
        let said = Items::new(Vec::from_slice(alloc, name)?);
        if self.names.len() < SaidNames::MOST {
            self.names.push(said)?;
        } else {
            let mut names = Vec::new(alloc);
            names.push(said)?;
            self.names = names;
        }
        Ok(true)
    }
}
