//! Whether connections can be accepted at a port, as far as the log says it.

ghost use Rattle.std.specs.Prelude.{◌≡◌, ◌&&◌, not, is_some, false, true};
ghost use Rattle.node_core.specs.Accepting.{failed, news, want_of};

/// What a process lacks for another connection.
#[derive(Clone, Copy, Debug, PartialEq, Eq)]
pub enum Want {
    /// A file descriptor: it has as many as it may.
    Descriptors,
    /// A file descriptor: the host has none left.
    HostDescriptors,
    /// Memory of the host.
    Memory,
}

/// Returns what a process lacks whose call failed with this number of the system (Linux: `ENOMEM`, `ENFILE`, `EMFILE`, `ENOBUFS`), if it
/// lacks anything.
fn want_of(code: u32) -> Option<Want>
    ensures { result ≡ want_of code }
{
    match code {
        24 => Some(Want::Descriptors),
        23 => Some(Want::HostDescriptors),
        12 | 105 => Some(Want::Memory),
        _ => None,
    }
}

/// Whether connections can be accepted at a port, as far as the log says it: once that they can't, until one is.
#[derive(Clone, Copy, Debug)]
pub struct Accepting {
    /// Whether the log says that they can't be.
    said: bool,
}

impl Accepting {
    /// Returns how it is at first.
    pub fn new() -> Accepting
        ensures { result.said ≡ false }
    {
        Accepting { said: false }
    }

    /// Notes that a connection couldn't be accepted, for which the system gave this number. Returns what the process lacks, if it lacks
    /// anything and the log doesn't say that yet.
    pub fn fail(&mut self, code: u32) -> Option<Want>
        ensures news { result ≡ news self.old.said code }
        ensures said { self.new.said ≡ failed self.old.said code }
    {
        let want = want_of(code)?;
        if self.said {
            return None;
        }
        self.said = true;
        Some(want)
    }

    /// Notes that a connection was accepted.
    pub fn accept(&mut self)
        ensures { self.new.said ≡ false }
    {
        self.said = false;
    }
}
