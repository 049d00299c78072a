//! The pages with which the admin port answers HTTP requests.
ghost use Rattle.std.specs.Prelude.{◌≡◌, ◌++◌, OnOk, codes};
ghost use Rattle.admin_port.specs.Pages.{answer, answer_head, extent_of, health_answer, is_cut_off, is_healthy, method_not_allowed, metrics_answer, fields_too_large, missing_page, overview_answer, ready_answer, reasons, too_many_clients, version_not_supported};

use crate::lines::{push_field, push_words};
use node_text::push_word_and_number;
use std::alloc::{AllocError, Global};

/// How much of an answer is asked for.
#[derive(Clone, Copy, Debug, PartialEq, Eq)]
pub enum Extent {
    /// The head and the page.
    Whole,
    /// The head alone.
    Head,
}

/// What the health of a node is told by.
#[derive(Clone, Copy, Debug)]
pub struct Health {
    /// Whether the node is up to date.
    pub up_to_date: bool,
    /// The number of its peers.
    pub peers: u64,
    /// The number of peers with a session.
    pub peers_up: u64,
}

/// Appends the answer that brings the page of metrics. The connection is closed behind each answer.
pub fn push_metrics(text: &mut Vec<u8>, extent: Extent, page: &[u8]) -> Result<(), AllocError>
    ensures { OnOk result (text.new.items ≡ text.old.items ++ metrics_answer extent page.now) }
{
    push_page(text, extent, "200 OK", "text/plain; version=0.0.4", page)
}

/// Appends the answer whether the node is healthy: `ok`, or each reason why it isn't.
pub fn push_health(
    alloc: Global,
    text: &mut Vec<u8>,
    extent: Extent,
    health: &Health,
) -> Result<(), AllocError>
    ensures { OnOk result (text.new.items ≡ text.old.items ++ health_answer extent health.now) }
{
    if is_healthy(health) {
        return push_page(text, extent, "200 OK", "text/plain", b"ok\n");
    }
    let mut reasons = Vec::new(alloc);
    push_reasons(&mut reasons, health)?;
    push_page(
        text,
        extent,
        "503 Service Unavailable",
        "text/plain",
        reasons.as_slice(),
    )
}

/// Returns whether the node is up to date, and a peer is up, if there is one.
fn is_healthy(health: &Health) -> bool
    ensures { result ≡ is_healthy health.now }
{
    health.up_to_date && !is_cut_off(health)
}

/// Returns whether there are peers, and none of them has a session.
fn is_cut_off(health: &Health) -> bool
    ensures { result ≡ is_cut_off health.now }
{
    health.peers > 0 && health.peers_up == 0
}

/// Appends why the node isn't healthy, one reason a line.
fn push_reasons(text: &mut Vec<u8>, health: &Health) -> Result<(), AllocError>
    ensures { OnOk result (text.new.items ≡ text.old.items ++ reasons health.now) }
{
    if !health.up_to_date {
        push_words(text, "not up to date\n")?;
    }
    if is_cut_off(health) {
        push_words(text, "no peer is up\n")?;
    }
    Ok(())
}

/// Appends the answer that the node serves.
pub fn push_ready(text: &mut Vec<u8>, extent: Extent) -> Result<(), AllocError>
    ensures { OnOk result (text.new.items ≡ text.old.items ++ ready_answer extent) }
{
    push_page(text, extent, "200 OK", "text/plain", b"ok\n")
}

/// Appends the answer that brings the page that names the others.
pub fn push_overview(text: &mut Vec<u8>, extent: Extent) -> Result<(), AllocError>
    ensures { OnOk result (text.new.items ≡ text.old.items ++ overview_answer extent) }
{
    let page = b"/metrics\n/health\n/ready\n";
    push_page(text, extent, "200 OK", "text/plain", page)
}

/// Appends an answer, or its head alone.
#[tactic(auto, unfolding(crate::specs::Pages::answer))]
fn push_page(
    text: &mut Vec<u8>,
    extent: Extent,
    status: &str,
    kind: &str,
    page: &[u8],
) -> Result<(), AllocError>
    ensures { OnOk result (text.new.items ≡ text.old.items ++ answer extent status.now kind.now page.now) }
{
    push_answer_head(text, status, kind, page.len() as u64)?;
    match extent {
        Extent::Whole => text.extend_from_slice(page),
        Extent::Head => Ok(()),
    }
}

/// Appends what stands before a page of `length` bytes.
#[tactic(auto, unfolding(crate::specs::Pages::answer_head))]
fn push_answer_head(
    text: &mut Vec<u8>,
    status: &str,
    kind: &str,
    length: u64,
) -> Result<(), AllocError>
    ensures { OnOk result (text.new.items ≡ text.old.items ++ answer_head status.now kind.now length) }
{
    push_field(text, "HTTP/1.1 ", status.as_bytes())?;
    push_field(text, "\r\nContent-Type: ", kind.as_bytes())?;
    push_word_and_number(text, "\r\nContent-Length: ", length)?;
    push_words(text, "\r\nConnection: close\r\n\r\n")?;
    Ok(())
}

/// Appends the answer that there is no such page.
#[tactic(auto, unfolding(crate::specs::Pages::missing_page))]
pub fn push_missing_page(text: &mut Vec<u8>) -> Result<(), AllocError>
    ensures { OnOk result (text.new.items ≡ text.old.items ++ missing_page) }
{
    push_words(
        text,
        "HTTP/1.1 404 Not Found\r\nContent-Length: 0\r\nConnection: close\r\n\r\n",
    )
}

/// Appends the answer to a request with another method than GET and HEAD.
#[tactic(auto, unfolding(crate::specs::Pages::method_not_allowed))]
pub fn push_method_not_allowed(text: &mut Vec<u8>) -> Result<(), AllocError>
    ensures { OnOk result (text.new.items ≡ text.old.items ++ method_not_allowed) }
{
    push_words(
        text,
        "HTTP/1.1 405 Method Not Allowed\r\nAllow: GET, HEAD\r\nContent-Length: 0\r\nConnection: close\r\n\r\n",
    )
}

/// Appends the answer to a request that has a line that is too long.
#[tactic(auto, unfolding(crate::specs::Pages::fields_too_large))]
pub fn push_fields_too_large(text: &mut Vec<u8>) -> Result<(), AllocError>
    ensures { OnOk result (text.new.items ≡ text.old.items ++ fields_too_large) }
{
    push_words(
        text,
        "HTTP/1.1 431 Request Header Fields Too Large\r\nContent-Length: 0\r\nConnection: close\r\n\r\n",
    )
}

/// Appends the answer that there are too many clients.
#[tactic(auto, unfolding(crate::specs::Pages::too_many_clients))]
pub fn push_too_many_clients(text: &mut Vec<u8>) -> Result<(), AllocError>
    ensures { OnOk result (text.new.items ≡ text.old.items ++ too_many_clients) }
{
    push_words(
        text,
        "HTTP/1.1 503 Service Unavailable\r\nRetry-After: 1\r\nContent-Length: 0\r\nConnection: close\r\n\r\n",
    )
}

/// Appends the answer to a request in another version than HTTP/1.x.
#[tactic(auto, unfolding(crate::specs::Pages::version_not_supported))]
pub fn push_version_not_supported(text: &mut Vec<u8>) -> Result<(), AllocError>
    ensures { OnOk result (text.new.items ≡ text.old.items ++ version_not_supported) }
{
    push_words(
        text,
        "HTTP/1.1 505 HTTP Version Not Supported\r\nContent-Length: 0\r\nConnection: close\r\n\r\n",
    )
}
