//! Configurations: what a node that stays is told when it starts.
ghost use Rattle.std.specs.Prelude.{◌≡◌, Err, IfErr, IfOk, OnOk, true};
ghost use Rattle.admin_text.specs.Configurations.{IsConfiguration};
ghost use Rattle.admin_text.specs.Refusals.{IsFaultless, IsRefusalOf, names_fault};
ghost use Rattle.admin_text.specs.SoFar.{IsSaidBy};
ghost use Rattle.admin_text.specs.Statements.{statements_of};
ghost use Rattle.admin_text.specs.Warnings.{AreWarningsOf};
ghost use Rattle.admin_text.specs.declared.refusals.Refusal.{Refusal};

use crate::error::ConfigurationError;
use crate::log_settings::LogSetting;
use crate::peers::Peer;
use crate::readings::configuration_of;
use crate::statements::statements_of;
use crate::table_settings::TableSetting;
use crate::warnings::Warnings;
use std::alloc::Global;
use std::net::SocketAddr;
use table_types::Name;

/// What a configuration says.
#[derive(Debug, Drop)]
pub struct Configuration {
    /// The name by which peers know the node.
    pub node: Name,
    /// Where it takes connections of peers.
    pub listen: SocketAddr,
    /// Where it takes requests, if a line says so: a loopback address.
    pub admin: Option<SocketAddr>,
    /// The path of the socket at which it takes requests, if a line says so: 1 to 107 bytes without NUL.
    pub admin_socket: Option<Vec<u8>>,
    /// Where it answers HTTP and nothing else, if a line says so.
    pub metrics: Option<SocketAddr>,
    /// The name of the peers section, if a line says so.
    pub section: Option<Name>,
    /// The peers in the order of their lines: at most 15, with distinct names, none of which is the node's.
    pub peers: Vec<Peer>,
    /// The tables in the order of their lines: 1 to 64, with distinct ids below 2^31 and distinct names.
    pub tables: Vec<TableSetting>,
    /// What goes into its log.
    pub log: LogSetting,
}

/// Reads a configuration.
///
/// Each line ends with LF, before which a CR may stand; the last may lack both. Any spaces and tabs stand between words, before the
/// first and behind the last; `#` begins a comment where a word could begin, and a line without words says nothing. A line is judged
/// by its words and by those of the lines before it, whether these are refused or not.
pub fn read_configuration(alloc: Global, text: &[u8]) -> Result<Configuration, ConfigurationError>
    ensures configuration { IfOk result IsConfiguration }
    ensures said { IfOk result (IsSaidBy (statements_of text.now)) }
    ensures taken { IsFaultless (statements_of text.now) → IfErr result (λ error. error ≡ ConfigurationError.Memory) }
    ensures faultless { OnOk result (IsFaultless (statements_of text.now)) }
    ensures refused { (refusal : Refusal) → result ≡ Err (ConfigurationError.Refused refusal) → IsRefusalOf (statements_of text.now) refusal }
    ensures faulty { (refusal : Refusal) → result ≡ Err (ConfigurationError.Refused refusal) → names_fault refusal ≡ true }
{
    let (configuration, _) = checked_configuration(alloc, text)?;
    Ok(configuration)
}

/// Reads a configuration, and returns what in it is legal and surely meant otherwise, too.
pub fn checked_configuration(
    alloc: Global,
    text: &[u8],
) -> Result<(Configuration, Warnings), ConfigurationError>
    ensures configuration { IfOk result (λ checked. IsConfiguration checked.0) }
    ensures said { IfOk result (λ checked. IsSaidBy (statements_of text.now) checked.0) }
    ensures taken { IsFaultless (statements_of text.now) → IfErr result (λ error. error ≡ ConfigurationError.Memory) }
    ensures warned { IfOk result (λ checked. AreWarningsOf (statements_of text.now) checked.1) }
    ensures faultless { OnOk result (IsFaultless (statements_of text.now)) }
    ensures refused { (refusal : Refusal) → result ≡ Err (ConfigurationError.Refused refusal) → IsRefusalOf (statements_of text.now) refusal }
    ensures faulty { (refusal : Refusal) → result ≡ Err (ConfigurationError.Refused refusal) → names_fault refusal ≡ true }
{
    let lines = statements_of(alloc, text)?;
    configuration_of(alloc, lines.as_slice())
}
