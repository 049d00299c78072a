//! What the lines of a configuration have come to.
ghost use Rattle.std.specs.Prelude.{◌≡◌, Some, IfSome, OnOk, is_some};
ghost use Rattle.admin_text.specs.Configurations.{IsConfiguration};
ghost use Rattle.admin_text.specs.SoFar.{IsAdded, IsFresh, IsSoFar, IsWholeOf, is_whole};

use crate::configurations::Configuration;
use crate::log_settings::LogSetting;
use crate::peers::Peer;
use crate::settings::Setting;
use crate::table_settings::{TableSetting, set_nopurge, set_rows};
use node_core::Level;
use std::alloc::Global;
use std::net::SocketAddr;
use table_types::{Memory, Name};

/// What the lines of a configuration have come to.
#[derive(Drop)]
pub(crate) struct ConfigurationSoFar {
    node: Option<Name>,
    listen: Option<SocketAddr>,
    admin: Option<SocketAddr>,
    admin_socket: Option<Vec<u8>>,
    metrics: Option<SocketAddr>,
    section: Option<Name>,
    peers: Vec<Peer>,
    tables: Vec<TableSetting>,
    log: LogSetting,
}

impl ConfigurationSoFar {
    /// Returns what no lines come to.
    pub(crate) fn new(alloc: Global) -> ConfigurationSoFar
        ensures { IsFresh result }
    {
        ConfigurationSoFar {
            node: None,
            listen: None,
            admin: None,
            admin_socket: None,
            metrics: None,
            section: None,
            peers: Vec::new(alloc),
            tables: Vec::new(alloc),
            log: LogSetting {
                level: Level::Info,
                journal: false,
            },
        }
    }

    /// Adds what a line says. A setting of a table is added to all tables with its id.
    pub(crate) fn add(&mut self, setting: Setting) -> Result<(), Memory>
        ensures { OnOk result (IsAdded setting self.old self.new) }
    {
        match setting {
            Setting::Node(name) => self.node = Some(name),
            Setting::Listen(address) => self.listen = Some(address),
            Setting::Admin(address) => self.admin = Some(address),
            Setting::Socket(path) => self.admin_socket = Some(path.into_vec()),
            Setting::Metrics(address) => self.metrics = Some(address),
            Setting::Section(name) => self.section = Some(name),
            Setting::Peer(peer) => self.peers.push(peer)?,
            Setting::Table(definition) => self.tables.push(TableSetting::new(definition))?,
            Setting::Size(Some(id), rows) => set_rows(self.tables.as_mut_slice(), id, rows),
            Setting::Nopurge(Some(id)) => set_nopurge(self.tables.as_mut_slice(), id),
            Setting::Size(None, _) | Setting::Nopurge(None) => {}
            Setting::Log(level) => self.log.level = level,
            Setting::Journal => self.log.journal = true,
        }
        Ok(())
    }

    /// Returns the configuration if the node's name, the address at which it listens, and a table are there.
    pub(crate) fn whole(self) -> Option<Configuration>
        ensures configuration { IsSoFar self → IfSome result IsConfiguration }
        ensures exactly { is_some result ≡ is_whole self }
        ensures all { IfSome result (IsWholeOf self) }
    {
        let ConfigurationSoFar {
            node,
            listen,
            admin,
            admin_socket,
            metrics,
            section,
            peers,
            tables,
            log,
        } = self;
        match (node, listen) {
            (Some(node), Some(listen)) if !tables.is_empty() => Some(Configuration {
                node,
                listen,
                admin,
                admin_socket,
                metrics,
                section,
                peers,
                tables,
                log,
            }),
            _ => None,
        }
    }
}
