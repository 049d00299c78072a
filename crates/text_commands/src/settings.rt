//! What a subcommand takes from a scene.
ghost use Rattle.std.specs.Prelude.{◌≡◌, IfErr, IfOk};
ghost use Rattle.table_types.specs.Batches.{IsBatchFor};
ghost use Rattle.text_commands.specs.Endings.{IsEarly};
ghost use Rattle.text_commands.specs.Settings.{prices_of, start_of};

use crate::endings::Ending;
use known_state::Known;
use node_text::Scene;
use std::alloc::Global;
use table_types::{Batch, Roster};

/// What a scene sets: the known state at the start, the batch of its updates, a stream, and prices.
#[derive(Debug, Drop)]
pub(crate) struct Setting {
    pub known: Known,
    pub batch: Batch,
    pub stream: Vec<u8>,
    /// Empty if the scene has no line with prices.
    pub prices: Vec<u64>,
}

/// Returns what `scene` sets.
pub(crate) fn setting_of(alloc: Global, scene: Scene) -> Result<Setting, Ending>
    ensures known { IfOk result (λ setting. setting.known ≡ start_of scene) }
    ensures batch { IfOk result (λ setting. setting.batch ≡ scene.updates.items) }
    ensures fits { IfOk result (λ setting. IsBatchFor setting.known.roster setting.batch) }
    ensures stream { IfOk result (λ setting. setting.stream.items ≡ scene.stream.items) }
    ensures prices { IfOk result (λ setting. setting.prices.items ≡ prices_of scene) }
    ensures early { IfErr result IsEarly }
{
    let Scene {
        tables,
        defined,
        selected,
        last,
        slots,
        updates,
        stream,
        prices,
        ..
    } = scene;
    let roster = Roster::new(tables)?;
    let batch = Batch::new(alloc, &roster, updates)?;
    let known = Known::build(alloc, roster, selected, defined, last, slots)?;
    Ok(Setting {
        known,
        batch,
        stream,
        prices: prices.unwrap_or(Vec::new(alloc)),
    })
}
