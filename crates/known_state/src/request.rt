//! Requests for names.

ghost use Rattle.std.specs.Prelude.{◌≡◌, ◌<◌, ◌≤◌, ◌↔◌, IfSome, IsSome, IfOk};
ghost use Rattle.known_state.specs.Requests.{Asked};

use std::alloc::Global;
use std::marker::Model;
use table_types::{Memory, Name};

/// What an update with a name requests from the dictionary of server names (profile): its name, and the whole size of
/// its message with the name read and with the name written. The first size is less than the second, which is at most
/// 32,768.
#[derive(Debug, Drop)]
pub struct Request {
    name: Name,
    read_cost: u32,
    write_cost: u32,
}

impl Model for Request {
    ghost use Rattle.std.specs.Prelude.{◌<◌, ◌≤◌};
    ghost use Rattle.known_state.specs.Requests.{Asked};

    ghost Value = { Asked };

    ghost view = { λ r. record { name = r.name; read_cost = r.read_cost; write_cost = r.write_cost } };

    ghost invariant = { λ r. (r.read_cost < r.write_cost) × (r.write_cost ≤ 32768) };
}

impl Request {
    /// The greatest write cost.
    pub const MOST: u32 = 32_768;

    /// Returns the request for `name` at these costs, or `None` if reading costs no less than writing or writing costs
    /// more than 32,768.
    pub fn new(name: Name, read_cost: u32, write_cost: u32) -> Option<Request>
        ensures made { IfSome result (λ request. request ≡ record { name = name; read_cost = read_cost; write_cost = write_cost }) }
        ensures exactly { IsSome result ↔ ((read_cost < write_cost) × (write_cost ≤ 32768)) }
    {
        if read_cost >= write_cost || write_cost > Request::MOST {
            return None;
        }
        Some(Request {
            name,
            read_cost,
            write_cost,
        })
    }

    /// Returns the requested name.
    pub fn name(&self) -> &Name
        ensures { result.now ≡ self.now.name }
    {
        &self.name
    }

    /// Returns the size of the message with the name read, in bytes.
    pub fn read_cost(&self) -> u32
        ensures cost { result ≡ self.now.read_cost }
        ensures less { self.now.read_cost < self.now.write_cost }
    {
        self.read_cost
    }

    /// Returns the size of the message with the name written, in bytes: at most 32,768.
    pub fn write_cost(&self) -> u32
        ensures cost { result ≡ self.now.write_cost }
        ensures most { self.now.write_cost ≤ 32768 }
    {
        self.write_cost
    }

    /// Returns an equal request.
    pub fn copy(&self, alloc: Global) -> Result<Request, Memory>
        ensures { IfOk result (λ copy. copy ≡ self.now) }
    {
        Ok(Request {
            name: self.name.copy(alloc)?,
            read_cost: self.read_cost,
            write_cost: self.write_cost,
        })
    }
}
