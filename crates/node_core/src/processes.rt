//! Whether a peer is another process than before, by the pids that its hellos say.

ghost use Rattle.std.specs.Prelude.{◌≡◌, None};
ghost use Rattle.node_core.specs.Processes.{pid_after, process_by};

/// What a connection says of the peer's process.
#[derive(Clone, Copy, Debug, PartialEq, Eq)]
pub enum Process {
    /// Nothing: no hello of the peer came on it, or none came before.
    Unknown,
    /// It is another process than the one that sent the peer's last hello.
    New,
    /// Its pid is that of the peer's last hello.
    Same,
}

/// The pid that the last hello of a peer said.
#[derive(Clone, Copy, Debug)]
pub struct LastPid {
    pid: Option<u64>,
}

impl LastPid {
    /// Returns what is known before any hello: nothing.
    pub fn new() -> LastPid
        ensures { result.pid ≡ None }
    {
        LastPid { pid: None }
    }

    /// Notes the pid that a hello of the peer says, if one came that says it, and returns what that says of the peer's process.
    pub fn greet(&mut self, pid: Option<u64>) -> Process
        ensures process { result ≡ process_by self.old.pid pid }
        ensures pid { self.new.pid ≡ pid_after self.old.pid pid }
    {
        let Some(pid) = pid else {
            return Process::Unknown;
        };
        let last = self.pid;
        self.pid = Some(pid);
        match last {
            Some(last) if last == pid => Process::Same,
            Some(_) => Process::New,
            None => Process::Unknown,
        }
    }
}
