//! Answering HTTP requests.

use crate::kept_page::KeptPage;
use crate::measuring::{health, metrics};
use crate::node::Node;
use crate::reading::{After, Reading};
use admin_port::{
    Extent, HttpRequest, Page, push_health, push_method_not_allowed, push_metrics,
    push_missing_page, push_overview, push_ready, push_version_not_supported,
};
use std::alloc::AllocError;
use std::fs::Files;
use std::io;
use std::io::Write;
use std::sync::Wait;
use std::time::Clock;

/// Answers an HTTP request at once, unless it is for a page, of which the head has to be read first.
fn begin(reading: &mut Reading, request: HttpRequest) -> Result<After, AllocError> {
    match request {
        HttpRequest::Get(page) => reading.page = Some((page, Extent::Whole)),
        HttpRequest::Head(page) => reading.page = Some((page, Extent::Head)),
        HttpRequest::OtherVersion => {
            push_version_not_supported(&mut reading.answers)?;
            return Ok(After::Closes);
        }
        HttpRequest::OtherMethod => {
            push_method_not_allowed(&mut reading.answers)?;
            return Ok(After::Closes);
        }
    }
    Ok(After::GoesOn)
}

/// Who answers HTTP requests. It has no seat, so it can change nothing.
#[derive(Clone, Copy)]
pub(crate) struct Viewer<'a> {
    node: &'a Node,
    /// Where the page of metrics is kept, if it isn't made anew for each request.
    kept: Option<&'a KeptPage>,
}

impl<'a> Viewer<'a> {
    /// Returns one of this node.
    pub(crate) fn new(node: &'a Node) -> Viewer<'a> {
        Viewer { node, kept: None }
    }

    /// Returns one of this node that has the page of metrics from where it is kept.
    pub(crate) fn keeping(node: &'a Node, kept: &'a KeptPage) -> Viewer<'a> {
        Viewer {
            node,
            kept: Some(kept),
        }
    }

    /// Returns the node.
    pub(crate) fn node(&self) -> &'a Node {
        self.node
    }

    /// Answers the HTTP request that goes on with `piece`, and refuses what isn't one; writes the answer. Returns whether the
    /// connection goes on.
    pub(crate) fn answer<R: Wait + Clock + Files, W: Write>(
        &self,
        rt: &R,
        reading: &mut Reading,
        piece: &[u8],
        output: &mut W,
    ) -> io::Result<bool> {
        for byte in piece {
            if *byte != b'\n' {
                reading.line.push(*byte)?;
                continue;
            }
            if self.answer_line(rt, reading)? != After::GoesOn {
                reading.write(output)?;
                return Ok(false);
            }
            reading.line.clear();
        }
        if !reading.is_long() {
            return Ok(true);
        }
        reading.refuse_long()?;
        reading.write(output)?;
        Ok(false)
    }

    /// Answers a line. A node that stops answers none.
    fn answer_line<R: Wait + Clock + Files>(
        &self,
        rt: &R,
        reading: &mut Reading,
    ) -> Result<After, AllocError> {
        if self.node.stops() {
            return Ok(After::Closes);
        }
        if reading.is_long() {
            reading.refuse_long()?;
            return Ok(After::Closes);
        }
        match self.answer_http(rt, reading)? {
            Some(after) => Ok(after),
            None => {
                reading.refuse()?;
                Ok(After::Closes)
            }
        }
    }

    /// Reads a line of an HTTP request, which is its first one or a line of its head. Appends the page that the request asks for at the
    /// empty line that ends the head. Returns `None` for any other line.
    pub(crate) fn answer_http<R: Wait + Clock + Files>(
        &self,
        rt: &R,
        reading: &mut Reading,
    ) -> Result<Option<After>, AllocError> {
        if let Some((page, extent)) = reading.page {
            if !reading.is_blank() {
                return Ok(Some(After::GoesOn));
            }
            self.push_page(rt, &mut reading.answers, page, extent)?;
            return Ok(Some(After::Closes));
        }
        match reading.http_request() {
            Some(request) => Ok(Some(begin(reading, request)?)),
            None => Ok(None),
        }
    }

    /// Appends the answer to an HTTP request for a page.
    fn push_page<R: Wait + Clock + Files>(
        &self,
        rt: &R,
        text: &mut Vec<u8>,
        page: Page,
        extent: Extent,
    ) -> Result<(), AllocError> {
        let node = self.node;
        match page {
            Page::Metrics => match self.kept {
                Some(kept) => kept.push(rt, node, text, extent),
                None => push_metrics(text, extent, metrics(rt, node)?.as_slice()),
            },
            Page::Health => push_health(node.alloc, text, extent, &health(rt, node)),
            Page::Ready => push_ready(text, extent),
            Page::Overview => push_overview(text, extent),
            Page::Missing => push_missing_page(text),
        }
    }
}
