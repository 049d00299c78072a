//! What was told lately, so that it isn't told again and again.
ghost use Rattle.std.specs.Prelude.{◌≡◌, [], OnOk, not};
ghost use Rattle.node_log.specs.Told.{has_told, told_after};

use std::alloc::{AllocError, Global};
use table_types::{Items, is_same_name};

/// The last texts that were told, each once.
#[derive(Debug, Drop)]
pub struct Told {
    texts: Vec<Items<u8>>,
}

impl Told {
    /// How many texts are remembered.
    const MOST: usize = 16;

    /// Returns what was told at first: nothing. Doesn't allocate.
    pub fn new(alloc: Global) -> Told
        ensures { result.texts.items ≡ [] }
    {
        Told {
            texts: Vec::new(alloc),
        }
    }

    /// Returns whether a text isn't among the last that were told.
    pub fn is_news(&self, text: &[u8]) -> bool
        ensures { result ≡ not (has_told text.now self.now.texts.items) }
    {
        !has_told(self.texts.as_slice(), text)
    }

    /// Notes that a text is told.
    pub fn note(&mut self, alloc: Global, text: &[u8]) -> Result<(), AllocError>
        ensures { OnOk result (self.new.texts.items ≡ told_after text.now self.old.texts.items) }
    {
        if !self.is_news(text) {
            return Ok(());
        }
        let text = Items::new(Vec::from_slice(alloc, text)?);
        if self.texts.len() >= Told::MOST {
            self.texts.remove(0);
        }
        self.texts.push(text)?;
        Ok(())
    }
}

/// Returns whether a text is among these.
fn has_told(texts: &[Items<u8>], text: &[u8]) -> bool
    ensures { result ≡ has_told text.now texts.now }
{
    for told in texts {
        if is_same_name(told.as_slice(), text) {
            return true;
        }
    }
    false
}
