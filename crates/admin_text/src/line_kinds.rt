//! Kinds of lines of a configuration.
ghost use Rattle.std.specs.Prelude.{◌≡◌, map, slice_get};
ghost use Rattle.admin_text.specs.LineKinds.{is_of_kind, is_socket, is_told, is_word, kind_of, line_word};

/// A kind of line, by its first word, and if that is `admin` or `log`, by its second one.
#[derive(Clone, Copy, Debug, PartialEq, Eq)]
pub enum LineKind {
    /// The name by which peers know the node.
    Node,
    /// Where it takes connections of peers.
    Listen,
    /// The address at which it takes requests.
    Admin,
    /// The socket at which it takes requests.
    Socket,
    /// Where it answers HTTP and nothing else.
    Metrics,
    /// The name of the peers section.
    Section,
    /// A peer.
    Peer,
    /// A table.
    Table,
    /// How many rows a table may store.
    Size,
    /// That a table keeps its live rows.
    Nopurge,
    /// Which lines of the log are written.
    Log,
    /// That the log is for systemd's journal.
    Journal,
}

impl LineKind {
    /// All kinds.
    pub const ALL: [LineKind; 12] = [
        LineKind::Node,
        LineKind::Listen,
        LineKind::Admin,
        LineKind::Socket,
        LineKind::Metrics,
        LineKind::Section,
        LineKind::Peer,
        LineKind::Table,
        LineKind::Size,
        LineKind::Nopurge,
        LineKind::Log,
        LineKind::Journal,
    ];

    /// Returns the first word of the line.
    pub fn word(self) -> &'static str
        ensures { result.now ≡ line_word self }
    {
        match self {
            LineKind::Node => "node",
            LineKind::Listen => "listen",
            LineKind::Admin | LineKind::Socket => "admin",
            LineKind::Metrics => "metrics",
            LineKind::Section => "section",
            LineKind::Peer => "peer",
            LineKind::Table => "table",
            LineKind::Size => "size",
            LineKind::Nopurge => "nopurge",
            LineKind::Log | LineKind::Journal => "log",
        }
    }

    /// Returns how the line is written.
    pub fn form(self) -> &'static str {
        match self {
            LineKind::Node => "\"node NAME\"",
            LineKind::Listen => "\"listen ADDRESS\"",
            LineKind::Admin | LineKind::Socket => "\"admin ADDRESS\" or \"admin unix:PATH\"",
            LineKind::Metrics => "\"metrics ADDRESS\"",
            LineKind::Section => "\"section NAME\"",
            LineKind::Peer => "\"peer NAME [ADDRESS] [from NETWORK..]\"",
            LineKind::Table =>
                "\"table ID NAME KIND LENGTH EXPIRE [TYPES..]\", as in \"table 1 /t1 integer 4 600000 gpc0 http_req_rate:10000\"",
            LineKind::Size => "\"size ID ROWS\"",
            LineKind::Nopurge => "\"nopurge ID\"",
            LineKind::Log | LineKind::Journal =>
                "\"log error\", \"log warn\", \"log info\" (the default), \"log debug\", or \"log journal\" for systemd's journal",
        }
    }

    /// Returns the kind of the line with these words.
    #[tactic(auto, unfolding(crate::specs::LineKinds::kind_of))]
    pub(crate) fn of(words: &[&[u8]]) -> Option<LineKind>
        ensures { result ≡ kind_of (map (λ word. word.now) words.now) }
    {
        for kind in LineKind::ALL.iter() {
            if kind.has(words) {
                return Some(*kind);
            }
        }
        None
    }

    /// Returns whether the line with these words is of this kind.
    pub(crate) fn has(self, words: &[&[u8]]) -> bool
        ensures { result ≡ is_of_kind self (map (λ word. word.now) words.now) }
    {
        is_word_at(words, 0, self.word().as_bytes()) && self.is_told(words)
    }

    /// Returns whether the second word is one of a line of this kind, of the lines with its first word.
    fn is_told(self, words: &[&[u8]]) -> bool
        ensures { result ≡ is_told self (slice_get (map (λ word. word.now) words.now) 1) }
    {
        match self {
            LineKind::Admin => !is_socket_at(words, 1),
            LineKind::Socket => is_socket_at(words, 1),
            LineKind::Log => !is_word_at(words, 1, b"journal"),
            LineKind::Journal => is_word_at(words, 1, b"journal"),
            LineKind::Node | LineKind::Listen | LineKind::Metrics | LineKind::Section => true,
            LineKind::Peer | LineKind::Table | LineKind::Size | LineKind::Nopurge => true,
        }
    }
}

/// Returns whether `word` stands at `place`.
pub(crate) fn is_word_at(words: &[&[u8]], place: usize, word: &[u8]) -> bool
    ensures { result ≡ is_word (slice_get (map (λ word. word.now) words.now) place) word.now }
{
    match words.get(place) {
        Some(other) => *other == word,
        None => false,
    }
}

/// Returns whether the word at `place` begins with `unix:`.
fn is_socket_at(words: &[&[u8]], place: usize) -> bool
    ensures { result ≡ is_socket (slice_get (map (λ word. word.now) words.now) place) }
{
    match words.get(place) {
        Some(word) => word.starts_with(b"unix:"),
        None => false,
    }
}
