//! What a peer that was asked for all rows brings.

ghost use Rattle.std.specs.Prelude.{◌≡◌};
ghost use Rattle.node_core.specs.Bringing.{brought_in, is_more, nothing_brought};

/// What has come from a peer so far, to tell one that teaches, whatever tables, from one that is mute.
#[derive(Clone, Copy, Debug)]
pub struct Brought {
    /// The rows that were learned or passed over.
    rows: u64,
    /// The bytes, but for those of control messages.
    bytes: u64,
    /// The sum of the numbers that it has acknowledged.
    acknowledged: u64,
}

impl Brought {
    /// Returns what has come before anything.
    pub fn nothing() -> Brought
        ensures { result ≡ nothing_brought }
    {
        Brought {
            rows: 0,
            bytes: 0,
            acknowledged: 0,
        }
    }

    /// Returns what has come once this many rows were learned or passed over, this many bytes were read and as many control messages
    /// among them, of two bytes each, and the numbers that were acknowledged have this sum.
    pub fn of(rows: u64, read: u64, controls: u64, acknowledged: u64) -> Brought
        ensures { result ≡ brought_in rows read controls acknowledged }
    {
        Brought {
            rows,
            bytes: read.saturating_sub(controls.saturating_mul(2)),
            acknowledged,
        }
    }

    /// Returns whether a row has come since `before`, or a part of a message that may teach one: rows of tables that this node lacks
    /// are counted nowhere. Bytes that came with an acknowledgement of a further number may be the acknowledgement, and don't count.
    pub fn is_more_than(self, before: Brought) -> bool
        ensures { result ≡ is_more before self }
    {
        self.rows != before.rows
            || (self.bytes != before.bytes && self.acknowledged == before.acknowledged)
    }
}
