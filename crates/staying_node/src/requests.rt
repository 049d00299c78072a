//! Answering requests.

use crate::measuring::peer_reports;
use crate::node::Node;
use crate::reading::{After, MANY_ANSWERS, Reading};
use crate::tables::{MANY, forget, forget_all, lock, not_before_latest, slide};
use crate::viewing::Viewer;
use admin_port::{
    Answer, Request, push_answer, push_found, push_live_rows, push_node, push_peers, push_rows,
    push_table_header, push_tracked, read_request,
};
use admin_text::TableSetting;
use node_text::LineError;
use std::alloc::AllocError;
use std::fs::Files;
use std::io;
use std::io::Write;
use std::sync::Wait;
use std::time::Clock;
use table_cell::{Reply, TrackError};
use table_shards::held::lent;
use table_shards::{Seat, ShardError};
use table_types::{Change, Key, Memory, Row, TableDef};

/// How many rows of a table are copied at once, while its lock is held, to be listed.
const PART: usize = 512;

/// Which rows of a table are listed, and how.
#[derive(Clone, Copy, Debug, PartialEq, Eq)]
enum Form {
    /// The live ones, as HAProxy prints them.
    Live,
    /// All of them, as lines of the program.
    All,
}

/// Who answers the requests of one connection after another.
#[derive(Drop)]
pub(crate) struct Requester<'a> {
    node: &'a Node,
    seat: Seat,
    /// Whether this requester has tracked keys since it last woke the peers' workers.
    tracked: bool,
}

impl<'a> Requester<'a> {
    /// Returns one that works from `seat`.
    pub(crate) fn new(node: &'a Node, seat: Seat) -> Requester<'a> {
        Requester {
            node,
            seat,
            tracked: false,
        }
    }

    /// Returns the node.
    pub(crate) fn node(&self) -> &'a Node {
        self.node
    }

    /// Wakes the peers' workers if keys were tracked, and drops the receipts of that.
    pub(crate) fn tell_peers<R: Wait>(&mut self, rt: &R) {
        if self.tracked {
            self.tracked = false;
            forget_all(self.node, &mut self.seat);
            self.node.ring_all(rt);
        }
    }

    /// Answers the requests whose lines end in `piece`, and writes the answers, but for the last ones if the node is to stop. Returns
    /// whether the connection goes on.
    pub(crate) fn answer<R: Wait + Clock + Files, W: Write>(
        &mut self,
        rt: &R,
        reading: &mut Reading,
        piece: &[u8],
        output: &mut W,
    ) -> io::Result<After> {
        for byte in piece {
            if *byte != b'\n' {
                self.take_byte(rt, reading, *byte, output)?;
                continue;
            }
            if !self.node.tracks() || reading.answers.len() >= MANY_ANSWERS {
                self.tell_peers(rt);
                reading.write(output)?;
            }
            match self.answer_whole_line(rt, reading, output)? {
                After::GoesOn => {
                    reading.line.clear();
                    reading.answered |= reading.page.is_none();
                }
                After::Closes => return self.close(rt, reading, output),
                After::Stops => {
                    self.tell_peers(rt);
                    return Ok(After::Stops);
                }
            }
        }
        self.tell_peers(rt);
        let is_long = reading.is_long();
        if is_long {
            self.refuse_long(rt, reading, output)?;
        }
        reading.write(output)?;
        Ok(if is_long {
            After::Closes
        } else {
            After::GoesOn
        })
    }

    /// Writes the last answers. Returns that the connection doesn't go on.
    fn close<R: Wait, W: Write>(
        &mut self,
        rt: &R,
        reading: &mut Reading,
        output: &mut W,
    ) -> io::Result<After> {
        self.tell_peers(rt);
        reading.write(output)?;
        Ok(After::Closes)
    }

    /// Appends a byte to the line. If memory runs out, writes the answers to the lines before it.
    fn take_byte<R: Wait, W: Write>(
        &mut self,
        rt: &R,
        reading: &mut Reading,
        byte: u8,
        output: &mut W,
    ) -> io::Result<()> {
        match reading.line.push(byte) {
            Ok(()) => Ok(()),
            Err(_) => {
                let _closed = self.close(rt, reading, output)?;
                Err(AllocError.into())
            }
        }
    }

    /// Answers a line that is too long. If memory runs out, writes the answers to the lines before it.
    fn refuse_long<R: Wait, W: Write>(
        &mut self,
        rt: &R,
        reading: &mut Reading,
        output: &mut W,
    ) -> io::Result<()> {
        reading.whole = reading.answers.len();
        match reading.refuse_long() {
            Ok(()) => Ok(()),
            Err(_) => {
                reading.answers.truncate(reading.whole);
                let _closed = self.close(rt, reading, output)?;
                Err(AllocError.into())
            }
        }
    }

    /// Answers the request of a line. If memory runs out, writes the answers to the lines before it.
    fn answer_whole_line<R: Wait + Clock + Files, W: Write>(
        &mut self,
        rt: &R,
        reading: &mut Reading,
        output: &mut W,
    ) -> io::Result<After> {
        reading.whole = reading.answers.len();
        match self.answer_line(rt, reading, output) {
            Ok(after) => Ok(after),
            Err(error) => {
                reading.answers.truncate(reading.whole);
                let _closed = self.close(rt, reading, output)?;
                Err(error)
            }
        }
    }

    /// Answers the request of a line. A node that stops answers none.
    fn answer_line<R: Wait + Clock + Files, W: Write>(
        &mut self,
        rt: &R,
        reading: &mut Reading,
        output: &mut W,
    ) -> io::Result<After> {
        if self.node.stops() {
            return Ok(After::Closes);
        }
        if reading.is_long() {
            reading.refuse_long()?;
            return Ok(After::Closes);
        }
        if let Some(after) = Viewer::new(self.node).answer_http(rt, reading)? {
            return Ok(after);
        }
        let configuration = &self.node.configuration;
        let read = read_request(
            reading.alloc,
            &configuration.section,
            configuration.tables.as_slice(),
            reading.line.as_slice(),
        );
        match read {
            Ok(request) => self.answer_request(rt, reading, request, output),
            Err(LineError::Memory) => Err(AllocError.into()),
            Err(_) => {
                reading.refuse()?;
                Ok(After::Closes)
            }
        }
    }

    /// Answers a request.
    fn answer_request<R: Wait + Clock, W: Write>(
        &mut self,
        rt: &R,
        reading: &mut Reading,
        request: Request,
        output: &mut W,
    ) -> io::Result<After> {
        match request {
            Request::Track { table, key, change } => {
                return self.answer_track(rt, reading, table, key, change);
            }
            Request::Get { table, key } => self.get(rt, &mut reading.answers, table, &key)?,
            Request::ShowTables => self.show_tables(rt, &mut reading.answers)?,
            Request::ShowTable(table) => self.show_table(rt, reading, table, output)?,
            Request::ShowRows => self.show_rows(rt, reading, output)?,
            Request::ShowPeers => self.show_peers(rt, &mut reading.answers)?,
            Request::Stop => {
                push_answer(&mut reading.answers, Answer::Done)?;
                return Ok(After::Stops);
            }
        }
        Ok(After::GoesOn)
    }

    /// Returns the configuration's table with this id.
    fn setting(&self, table: Option<u64>) -> Option<&'a TableSetting> {
        let id = table?;
        self.node
            .configuration
            .tables
            .iter()
            .find(|setting| setting.definition.id() == id)
    }

    /// Waits until keys may be tracked. Returns whether the node still runs.
    fn wait_to_track<R: Wait + Clock>(&mut self, rt: &R) -> bool {
        if !self.node.tracks() {
            self.node.wait_to_track(rt);
        }
        !self.node.stops()
    }

    /// Answers a request to track a key, unless the node stops.
    ///
    /// It looks whether the node stops once more after the change, outside the table's lock. If it doesn't stop yet, the row was in the
    /// table before the worker of a session can have seen that it stops, and the worker teaches it before it ends. If it stops, a
    /// worker may have looked at the table for the last time before the change, so that isn't answered.
    fn answer_track<R: Wait + Clock>(
        &mut self,
        rt: &R,
        reading: &mut Reading,
        table: Option<u64>,
        key: Key,
        change: Change,
    ) -> io::Result<After> {
        if !self.wait_to_track(rt) {
            return Ok(After::Closes);
        }
        self.track(rt, &mut reading.answers, table, key, change)?;
        if self.node.stops() {
            reading.answers.truncate(reading.whole);
            return Ok(After::Closes);
        }
        Ok(After::GoesOn)
    }

    /// Changes the row of a key, and appends the answer.
    fn track<R: Wait + Clock>(
        &mut self,
        rt: &R,
        text: &mut Vec<u8>,
        table: Option<u64>,
        key: Key,
        change: Change,
    ) -> Result<(), AllocError> {
        let Some(setting) = self.setting(table) else {
            return push_answer(text, Answer::NoTable);
        };
        let copy = key.copy(self.node.alloc).map_err(|_| AllocError)?;
        let tracked = self.make_track(rt, &setting.definition, copy, change);
        push_tracked(text, &setting.definition, &key, &tracked).map_err(|_| AllocError)
    }

    /// Changes the row of a key at this moment, or at the table's latest.
    fn make_track<R: Wait + Clock>(
        &mut self,
        rt: &R,
        definition: &TableDef,
        key: Key,
        change: Change,
    ) -> Result<Reply, TrackError> {
        let id = definition.id();
        let Some(mut locked) = lock(rt, self.node, id) else {
            return Err(TrackError::Memory);
        };
        let now = not_before_latest(&locked, self.node.clock.now(rt));
        let tracked = lent::track_with_reply(&mut locked, &mut self.seat, id, key, change, now);
        if self.seat.receipts(id).len() as u64 >= MANY {
            let _long = slide(&mut locked, &self.seat, id);
        }
        drop(locked);
        forget(&mut self.seat, id);
        match tracked {
            Ok(reply) => {
                self.tracked = true;
                Ok(reply)
            }
            Err(ShardError::Cell(error)) => Err(error),
            Err(_) => Err(TrackError::Memory),
        }
    }

    /// Appends the row of a key.
    fn get<R: Wait + Clock>(
        &self,
        rt: &R,
        text: &mut Vec<u8>,
        table: Option<u64>,
        key: &Key,
    ) -> Result<(), AllocError> {
        let Some(setting) = self.setting(table) else {
            return push_answer(text, Answer::NoTable);
        };
        let Some(locked) = lock(rt, self.node, setting.definition.id()) else {
            return push_answer(text, Answer::NoTable);
        };
        let now = self.node.clock.now(rt);
        push_found(text, &setting.definition, key, locked.cell().row(key), now)
    }

    /// Appends the header of a table.
    fn show_header<R: Wait>(
        &self,
        rt: &R,
        text: &mut Vec<u8>,
        setting: &TableSetting,
    ) -> Result<(), AllocError> {
        let Some(locked) = lock(rt, self.node, setting.definition.id()) else {
            return Ok(());
        };
        let used = locked.cell().row_count() as u64;
        drop(locked);
        push_table_header(
            text,
            &self.node.configuration.section,
            &setting.definition,
            setting.most_rows(),
            used,
        )
    }

    /// Appends the header of each table, in ascending order of id, and ends the listing.
    fn show_tables<R: Wait>(&self, rt: &R, text: &mut Vec<u8>) -> Result<(), AllocError> {
        for table in self.node.roster.tables() {
            if let Some(setting) = self.setting(Some(table.id())) {
                self.show_header(rt, text, setting)?;
            }
        }
        push_answer(text, Answer::End)
    }

    /// Returns copies of the rows of a table that come after the key `after`, or of its first rows: a `PART` of them, or fewer if there
    /// are no more.
    fn rows_after<R: Wait>(
        &self,
        rt: &R,
        table: u64,
        after: Option<&Key>,
    ) -> Result<Vec<(Key, Row)>, AllocError> {
        match lock(rt, self.node, table) {
            Some(locked) => locked
                .cell()
                .rows_after(after, PART)
                .map_err(|_| AllocError),
            None => Ok(Vec::new(self.node.alloc)),
        }
    }

    /// Appends a part of the rows of a table: its live ones as HAProxy prints them, or all as lines of the program.
    fn push_part<R: Wait + Clock>(
        &self,
        rt: &R,
        text: &mut Vec<u8>,
        table: &TableDef,
        rows: &[(Key, Row)],
        form: Form,
    ) -> Result<(), AllocError> {
        match form {
            Form::Live => {
                let now = self.node.clock.now(rt);
                push_live_rows(self.node.alloc, text, table, rows, now)
            }
            Form::All => push_rows(text, table, rows),
        }
    }

    /// Appends the rows of a table, part after part, and writes the answers whenever they are many. The table's lock is held for a part
    /// at a time, and not while answers are written. Wakes the peers' workers first, since a write may wait.
    fn list_rows<R: Wait + Clock, W: Write>(
        &mut self,
        rt: &R,
        reading: &mut Reading,
        table: &TableDef,
        form: Form,
        output: &mut W,
    ) -> io::Result<()> {
        self.tell_peers(rt);
        let mut after = None;
        for _ in rt.forever() {
            let mut rows = self.rows_after(rt, table.id(), after.as_ref())?;
            self.push_part(rt, &mut reading.answers, table, rows.as_slice(), form)?;
            reading.write_many(output)?;
            if rows.len() < PART {
                return Ok(());
            }
            after = rows.pop().map(|(key, _)| key);
        }
        unreachable!()
    }

    /// Appends the header of a table and its live rows, and ends the listing.
    fn show_table<R: Wait + Clock, W: Write>(
        &mut self,
        rt: &R,
        reading: &mut Reading,
        table: Option<u64>,
        output: &mut W,
    ) -> io::Result<()> {
        match self.setting(table) {
            Some(setting) => {
                self.show_header(rt, &mut reading.answers, setting)?;
                self.list_rows(rt, reading, &setting.definition, Form::Live, output)?;
            }
            None => push_answer(&mut reading.answers, Answer::NoTable)?,
        }
        Ok(push_answer(&mut reading.answers, Answer::End)?)
    }

    /// Appends the rows of all tables, and ends the listing.
    fn show_rows<R: Wait + Clock, W: Write>(
        &mut self,
        rt: &R,
        reading: &mut Reading,
        output: &mut W,
    ) -> io::Result<()> {
        let node = self.node;
        for table in node.roster.tables() {
            self.list_rows(rt, reading, table, Form::All, output)?;
        }
        Ok(push_answer(&mut reading.answers, Answer::End)?)
    }

    /// Appends the node and its peers, and ends the listing.
    fn show_peers<R: Wait + Clock>(&self, rt: &R, text: &mut Vec<u8>) -> Result<(), AllocError> {
        let now = self.node.clock.now(rt);
        let up_to_date = self.node.catching_up.is_up_to_date(rt);
        let configuration = &self.node.configuration;
        push_node(text, &configuration.node, now, up_to_date)?;
        let reports = peer_reports(rt, self.node)?;
        push_peers(text, &configuration.section, reports.as_slice())?;
        push_answer(text, Answer::End)
    }
}
