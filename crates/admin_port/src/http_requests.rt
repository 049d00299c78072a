//! HTTP requests, of which only the first line says what they ask for.
ghost use Rattle.std.specs.Prelude.{◌≡◌, ◌∷◌, []};
ghost use Rattle.admin_port.specs.HttpRequests.{asked, asks_for_page, begins_http, http_request, http_request_of, in_version, is_http_1, is_minor, page_at, path_of};

use node_text::cut;
use table_types::is_same_name;

/// A page.
#[derive(Clone, Copy, Debug, PartialEq, Eq)]
pub enum Page {
    /// The metrics.
    Metrics,
    /// Whether the node is healthy.
    Health,
    /// Whether it serves.
    Ready,
    /// The pages that there are.
    Overview,
    /// One that isn't there.
    Missing,
}

/// What an HTTP request asks for.
#[derive(Clone, Copy, Debug, PartialEq, Eq)]
pub enum HttpRequest {
    /// A page.
    Get(Page),
    /// The head alone of the answer that has the page.
    Head(Page),
    /// Either, in another version than HTTP/1.x.
    OtherVersion,
    /// Something by another method than GET and HEAD.
    OtherMethod,
}

/// Returns what the HTTP request asks for whose first line is `line`, which is given without its LF. Returns `None` if `line` isn't the
/// first line of an HTTP request.
#[tactic(auto, using(crate::proofs::HttpLines::one_word, crate::proofs::HttpLines::two_words, crate::proofs::HttpLines::three_words, crate::proofs::HttpLines::more_words))]
pub fn read_http_request(line: &[u8]) -> Option<HttpRequest>
    ensures { result ≡ http_request line.now }
{
    let (method, rest) = cut(line, b' ')?;
    let (target, version) = cut(rest, b' ')?;
    match cut(version, b' ') {
        Some(_) => None,
        None => request_of_words(method, target, version),
    }
}

/// Returns whether the first line of `bytes` is whole, and that of an HTTP request.
#[tactic(auto, using(crate::proofs::FirstLines::some_line, crate::proofs::FirstLines::no_line))]
pub(crate) fn begins_http(bytes: &[u8]) -> bool
    ensures { result ≡ begins_http bytes.now }
{
    match cut(bytes, b'\n') {
        Some((line, _)) => read_http_request(line).is_some(),
        None => false,
    }
}

/// Returns whether `line`, which may go on, begins as that of an HTTP request for a page does.
pub fn asks_for_page(line: &[u8]) -> bool
    ensures { result ≡ asks_for_page line.now }
{
    line.starts_with(b"GET ") || line.starts_with(b"HEAD ")
}

/// Returns what the HTTP request asks for that has these three words, or `None` if they are none.
fn request_of_words(method: &[u8], target: &[u8], version: &[u8]) -> Option<HttpRequest>
    ensures { result ≡ http_request_of (method.now ∷ target.now ∷ version.now ∷ []) }
{
    if method.is_empty() || target.is_empty() || !version.starts_with(b"HTTP/") {
        return None;
    }
    Some(asked(method, target, version))
}

/// Returns what an HTTP request with this method asks for.
fn asked(method: &[u8], target: &[u8], version: &[u8]) -> HttpRequest
    ensures { result ≡ asked method.now target.now version.now }
{
    let page = page_at(path_of(target));
    if is_same_name(method, b"GET") {
        in_version(version, HttpRequest::Get(page))
    } else if is_same_name(method, b"HEAD") {
        in_version(version, HttpRequest::Head(page))
    } else {
        HttpRequest::OtherMethod
    }
}

/// Returns `request`, unless `version` isn't HTTP/1.x.
fn in_version(version: &[u8], request: HttpRequest) -> HttpRequest
    ensures { result ≡ in_version version.now request }
{
    if is_http_1(version) {
        request
    } else {
        HttpRequest::OtherVersion
    }
}

/// Returns the path of a target, which may have a query behind it.
#[tactic(auto, using(crate::proofs::Targets::before_query, crate::proofs::Targets::without_query))]
fn path_of(target: &[u8]) -> &[u8]
    ensures { result.now ≡ path_of target.now }
{
    match cut(target, b'?') {
        Some((path, _)) => path,
        None => target,
    }
}

/// Returns the page at a path.
fn page_at(path: &[u8]) -> Page
    ensures { result ≡ page_at path.now }
{
    if is_same_name(path, b"/metrics") {
        Page::Metrics
    } else if is_same_name(path, b"/health") {
        Page::Health
    } else if is_same_name(path, b"/ready") {
        Page::Ready
    } else if is_same_name(path, b"/") {
        Page::Overview
    } else {
        Page::Missing
    }
}

/// Returns whether `version` is `HTTP/1.` and a digit, with or without a CR at the end.
fn is_http_1(version: &[u8]) -> bool
    ensures { result ≡ is_http_1 version.now }
{
    match version.strip_prefix(b"HTTP/1.") {
        Some(minor) => is_minor(minor),
        None => false,
    }
}

/// Returns whether `word` is a digit, with or without a CR at the end.
fn is_minor(word: &[u8]) -> bool
    ensures { result ≡ is_minor word.now }
{
    match word {
        [digit] | [digit, b'\r'] => digit.is_ascii_digit(),
        _ => false,
    }
}
