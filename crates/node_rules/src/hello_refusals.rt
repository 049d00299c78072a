//! Why hellos are refused, and what of them is said.

ghost use Rattle.std.specs.Prelude.{◌≡◌};
ghost use Rattle.node_rules.specs.HelloRefusals.{late_refusal, names_sender, refusal, refusal_of, said_in};

use node_core::HelloRefusal;

/// Which part of a refused hello the log says, besides its sender.
#[derive(Clone, Copy, Debug, PartialEq, Eq)]
pub enum SaidPart {
    /// None.
    Nothing,
    /// The version that it says.
    Version,
    /// The name by which it calls the node.
    CalledNode,
}

/// Returns why a hello is refused that the protocol refuses with this status.
fn refusal_of(status: u16) -> HelloRefusal
    ensures { result ≡ refusal_of status }
{
    match status {
        502 => HelloRefusal::Version,
        503 => HelloRefusal::OtherNode,
        504 => HelloRefusal::Stranger,
        _ => HelloRefusal::Garbled,
    }
}

/// Returns why a hello is refused, if it is: the protocol refuses it with a status, or its sender may not come from where it came.
pub fn hello_refusal(status: Option<u16>, may_come: bool) -> Option<HelloRefusal>
    ensures { result ≡ refusal status may_come }
{
    match status {
        Some(status) => Some(refusal_of(status)),
        None if may_come => None,
        None => Some(HelloRefusal::Elsewhere),
    }
}

/// Returns why a hello that isn't whole in time is refused, given whether something of it came.
pub fn late_refusal(came: bool) -> HelloRefusal
    ensures { result ≡ late_refusal came }
{
    if came {
        HelloRefusal::Unfinished
    } else {
        HelloRefusal::Missing
    }
}

/// Returns whether a hello that is refused for `refusal` names its sender.
pub fn names_sender(refusal: HelloRefusal) -> bool
    ensures { result ≡ names_sender refusal }
{
    match refusal {
        HelloRefusal::Garbled | HelloRefusal::Missing | HelloRefusal::Unfinished => false,
        HelloRefusal::Version
        | HelloRefusal::OtherNode
        | HelloRefusal::Stranger
        | HelloRefusal::Elsewhere => true,
    }
}

/// Returns which part of a hello that is refused for `refusal` the log says, since it is wrong.
pub fn said_in(refusal: HelloRefusal) -> SaidPart
    ensures { result ≡ said_in refusal }
{
    match refusal {
        HelloRefusal::Version => SaidPart::Version,
        HelloRefusal::OtherNode => SaidPart::CalledNode,
        HelloRefusal::Garbled
        | HelloRefusal::Stranger
        | HelloRefusal::Elsewhere
        | HelloRefusal::Missing
        | HelloRefusal::Unfinished => SaidPart::Nothing,
    }
}
