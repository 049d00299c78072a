//! The hello and its status.

ghost use Rattle.std.specs.Prelude.{List, ◌≡◌, ◌∷◌, [], IfOk, drop};
ghost use Rattle.peers_hello.specs.Hellos.{hello_text, answer_of};
ghost use Rattle.peers_hello.specs.Statuses.{status_of};
ghost use Rattle.session_core.specs.declared.action.Action.{Action};
ghost use Rattle.session_core.specs.declared.action.Action.TheVariants as actions;
ghost use Rattle.session_core.specs.declared.heard.Heard.{Heard};
ghost use Rattle.session_core.specs.declared.phase.Greeter.TheVariants as greeters;
ghost use Rattle.session_core.specs.Actions.{status_text};
ghost use Rattle.session_core.specs.HeardCounts.{CountsAfter, CountsFor, meeting_of};
ghost use Rattle.session_core.specs.Courses.{Course};
ghost use Rattle.session_core.specs.Sessions.{SessionState, Connects, Accepts, Greets, Follows, falls_back, first_word};

use crate::action::{Action, only, push};
use crate::phase::Greeter;
use crate::receiving::only_control;
use itoa::Buffer;
use peers_hello::{Answer, Hello, Status, read_status};
use peers_msg::Control;
use std::alloc::Global;
use table_types::{Items, Memory, Name, Version};

/// The status that answers a hello of a version that the peer doesn't speak.
const BAD_VERSION: u16 = 502;

/// What the received bytes of a hello or a status amount to.
#[derive(Drop)]
pub(crate) enum Handshake {
    /// The hello or the status is incomplete.
    Incomplete,
    /// The handshake succeeds.
    Accepted {
        /// The size of the hello or the status. Messages follow it.
        used: usize,
        /// The version that both peers speak.
        version: Version,
        /// The actions that answer it.
        answer: Vec<Action>,
    },
    /// The handshake fails.
    Refused {
        /// The actions that end the session.
        actions: Vec<Action>,
        /// Whether the session falls back.
        falls_back: bool,
    },
}

/// Returns the bytes after the first `used`.
pub(crate) fn after(bytes: &[u8], used: usize) -> &[u8]
    ensures { result.now ≡ drop used bytes.now }
{
    if used <= bytes.len() {
        &bytes[used..]
    } else {
        &bytes[bytes.len()..]
    }
}

/// Returns the status line with `code`.
fn status_text(alloc: Global, code: u16) -> Result<Items<u8>, Memory>
    ensures { IfOk result (λ bytes. bytes ≡ status_text code) }
{
    let mut digits = Buffer::new();
    let mut bytes = Vec::from_slice(alloc, digits.format(code).as_bytes())?;
    bytes.push(b'\n')?;
    Ok(Items::new(bytes))
}

/// Returns the action that sends `hello`, with which this node opens the handshake.
pub(crate) fn greeting(alloc: Global, hello: &Hello) -> Result<Vec<Action>, Memory>
    ensures { IfOk result (λ acts. acts.items ≡ actions.Send (hello_text hello.now) ∷ []) }
{
    only(alloc, Action::Send(Items::new(hello.write(alloc)?)))
}

/// Returns whether a session that said this version in its hello falls back at a status with `code`.
fn falls_back(version: Version, code: u16) -> bool
    ensures { result ≡ falls_back version code }
{
    match version {
        Version::V20 => false,
        Version::V21 => code == BAD_VERSION,
    }
}

/// Reads the received bytes of the status that answers this node's hello, which said `version`. `word` is the message that answers
/// status 200.
fn receive_status(
    alloc: Global,
    version: Version,
    word: Control,
    bytes: &[u8],
) -> Result<Handshake, Memory>
    ensures follows { IfOk result (λ handshake. (s : SessionState) (c : Course) (acts : List Action) (e : SessionState) → word ≡ first_word c.stays → Follows handshake s (greeters.Connects version) bytes.now c acts e → Connects version (status_of bytes.now) s bytes.now c acts e) }
    ensures heard { IfOk result (λ handshake. (c : Course) (n m : Heard) → CountsFor handshake bytes.now c n m → CountsAfter (meeting_of (greeters.Connects version) bytes.now) c n m) }
{
    match read_status(bytes) {
        Status::More => Ok(Handshake::Incomplete),
        Status::Code(code, used) => {
            if code == 200 {
                let answer = only_control(alloc, word)?;
                Ok(Handshake::Accepted {
                    used,
                    version,
                    answer,
                })
            } else {
                Ok(Handshake::Refused {
                    actions: only(alloc, Action::Close)?,
                    falls_back: falls_back(version, code),
                })
            }
        }
        Status::Other(_) => Ok(Handshake::Refused {
            actions: only(alloc, Action::Close)?,
            falls_back: false,
        }),
    }
}

/// Reads the received bytes of the remote peer's hello, which must name this node, `own`, and one of `peers`.
fn receive_hello(
    alloc: Global,
    own: &Name,
    peers: &[Name],
    bytes: &[u8],
) -> Result<Handshake, Memory>
    ensures follows { IfOk result (λ handshake. (s : SessionState) (c : Course) (acts : List Action) (e : SessionState) → Follows handshake s (greeters.Accepts own.now peers.now) bytes.now c acts e → Accepts (answer_of own.now peers.now bytes.now) s (greeters.Accepts own.now peers.now) bytes.now c acts e) }
    ensures heard { IfOk result (λ handshake. (c : Course) (n m : Heard) → CountsFor handshake bytes.now c n m → CountsAfter (meeting_of (greeters.Accepts own.now peers.now) bytes.now) c n m) }
{
    match Hello::read(alloc, bytes, own, peers)? {
        Answer::More => Ok(Handshake::Incomplete),
        Answer::Accepted(_, version, used) => {
            let answer = only(alloc, Action::Send(status_text(alloc, 200)?))?;
            Ok(Handshake::Accepted {
                used,
                version,
                answer,
            })
        }
        Answer::Refused(code, _) => {
            let mut actions = only(alloc, Action::Send(status_text(alloc, code)?))?;
            push(&mut actions, Action::Close)?;
            Ok(Handshake::Refused {
                actions,
                falls_back: false,
            })
        }
    }
}

impl Greeter {
    /// Reads the received bytes of the hello or the status. `word` is the first message of a session that connects.
    pub(crate) fn receive(
        &self,
        alloc: Global,
        word: Control,
        bytes: &[u8],
    ) -> Result<Handshake, Memory>
        ensures follows { IfOk result (λ handshake. (s : SessionState) (c : Course) (acts : List Action) (e : SessionState) → word ≡ first_word c.stays → Follows handshake s self.now bytes.now c acts e → Greets s self.now bytes.now c acts e) }
        ensures heard { IfOk result (λ handshake. (c : Course) (n m : Heard) → CountsFor handshake bytes.now c n m → CountsAfter (meeting_of self.now bytes.now) c n m) }
    {
        match self {
            Greeter::Connects(version) => receive_status(alloc, *version, word, bytes),
            Greeter::Accepts { own, peers } => receive_hello(alloc, own, peers.as_slice(), bytes),
        }
    }
}
