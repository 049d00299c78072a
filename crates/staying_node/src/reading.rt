//! What a client sends, as it is read.

use admin_port::{
    Answer, Extent, HttpRequest, MOST_REQUEST, Page, asks_for_page, push_answer,
    push_fields_too_large, push_refused, read_http_request,
};
use node_log::is_greeting;
use std::alloc::{AllocError, Global};
use std::io;
use std::io::Write;

/// A requester that has this many bytes of answers writes them before it answers the next request, or lists further rows.
pub(crate) const MANY_ANSWERS: usize = 65_536;

/// What a client sent: the beginning of a line, and the answers to the lines before it.
#[derive(Drop)]
pub(crate) struct Reading {
    pub(crate) alloc: Global,
    pub(crate) line: Vec<u8>,
    pub(crate) answers: Vec<u8>,
    /// How many bytes of the answers are whole: all but what the request that is being answered has so far.
    pub(crate) whole: usize,
    /// Whether the next line is the first one, which alone may be that of an HTTP request.
    is_first: bool,
    /// The page that an HTTP request asks for, and how much of the answer. The reader of the request answers it once it has read the head.
    pub(crate) page: Option<(Page, Extent)>,
    /// Whether a request was answered since that was last asked.
    pub(crate) answered: bool,
    /// Whether a line was refused that a hello of the peers protocol begins with.
    pub(crate) greeted: bool,
}

impl Reading {
    /// Returns what a client has sent that has just connected.
    pub(crate) fn new(alloc: Global) -> Reading {
        Reading {
            alloc,
            line: Vec::new(alloc),
            answers: Vec::new(alloc),
            whole: 0,
            is_first: true,
            page: None,
            answered: false,
            greeted: false,
        }
    }

    /// Returns whether a request was answered since this was last asked.
    pub(crate) fn take_answered(&mut self) -> bool {
        let answered = self.answered;
        self.answered = false;
        answered
    }

    /// Appends the answer to a line that is no request, and notes whether a hello of the peers protocol begins with it.
    pub(crate) fn refuse(&mut self) -> Result<(), AllocError> {
        self.greeted = is_greeting(self.line.as_slice());
        push_refused(&mut self.answers, self.line.as_slice())
    }

    /// Returns whether the line is too long for a request.
    pub(crate) fn is_long(&self) -> bool {
        self.line.len() > MOST_REQUEST
    }

    /// Answers a line that is too long: 431 in an HTTP request, and otherwise as a line that isn't a request.
    pub(crate) fn refuse_long(&mut self) -> Result<(), AllocError> {
        let begins_http = self.is_first && asks_for_page(self.line.as_slice());
        if self.page.is_some() || begins_http {
            push_fields_too_large(&mut self.answers)
        } else {
            push_answer(&mut self.answers, Answer::Refused)
        }
    }

    /// Returns whether the line is empty, which ends the head of an HTTP request.
    pub(crate) fn is_blank(&self) -> bool {
        matches!(self.line.as_slice(), [] | [b'\r'])
    }

    /// Returns the HTTP request of the line, if it is the first one.
    pub(crate) fn http_request(&mut self) -> Option<HttpRequest> {
        if !self.is_first {
            return None;
        }
        self.is_first = false;
        read_http_request(self.line.as_slice())
    }

    /// Writes the answers that aren't written yet. None is left after a failure either, so that no byte is written twice.
    pub(crate) fn write<W: Write>(&mut self, output: &mut W) -> io::Result<()> {
        let written = output.write_all(self.answers.as_slice());
        self.answers.clear();
        self.whole = 0;
        written
    }

    /// Writes the answers that aren't written yet if they are many.
    pub(crate) fn write_many<W: Write>(&mut self, output: &mut W) -> io::Result<()> {
        if self.answers.len() >= MANY_ANSWERS {
            self.write(output)
        } else {
            Ok(())
        }
    }
}

/// Whether a connection goes on after a request.
#[derive(Clone, Copy, Debug, PartialEq, Eq)]
pub(crate) enum After {
    /// It takes further requests.
    GoesOn,
    /// It is closed.
    Closes,
    /// It is closed, and the node stops.
    Stops,
}
