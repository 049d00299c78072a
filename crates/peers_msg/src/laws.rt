//! Laws of the definitions.

ghost use Rattle.std.specs.Prelude.{List, length, fold, true, ℕ, ◌≡◌, ◌≤◌, [], ◌∷◌, ◌++◌, Result, Ok, Err, Option, Some, ◌≢◌, None, ◌↔◌};
ghost use Rattle.peers_encint.specs.Integers.{IsBytes};
ghost use Rattle.peers_msg.specs.Reading.{message_at, with_more};
ghost use Rattle.peers_msg.specs.Decoding.{Decoding, DecoderFeeds, DecoderNext, AreRead, AreReadInPieces, IsEnd, together};
ghost use Rattle.peers_msg.specs.Calls.{AreDecoderCalls};
ghost use Rattle.peers_msg.specs.Stream.{AllFit};
ghost use Rattle.peers_msg.specs.Received.{Received, AreDistinct, nothing_received, received_after, resumed};
ghost use Rattle.peers_msg.specs.OwnTables.{own_part};
ghost use Rattle.peers_msg.specs.Fitting.{update_fits, fits};
ghost use Rattle.peers_msg.specs.Messages.{UpdateFields, is_small, most_data};
ghost use Rattle.peers_msg.specs.Spelling.{update_text, definition_text, spelled, stream_of};
ghost use Rattle.peers_msg.specs.declared.fault.Breach.{Breach};
ghost use Rattle.peers_msg.specs.declared.fault.Fault.{Fault};
ghost use Rattle.peers_msg.specs.declared.fault.Fault.TheVariants as faults;
ghost use Rattle.peers_msg.specs.declared.message.Message.{Message};
ghost use Rattle.table_types.specs.Tables.{Definition, is_definition};
ghost use Rattle.table_types.specs.Updates.{row_fits};
ghost use Rattle.table_types.specs.declared.key.Key.{Key};
ghost use Rattle.table_types.specs.declared.update.Value.{Value};

/// Two messages that fit what was received and have the same spelling are the same message. If two messages both begin
/// the same bytes, they are the same message, and the same bytes follow.
pub fn one_message()
    ensures same { (h : Received) (m n : Message) → fits h m ≡ true → fits h n ≡ true → spelled m ≡ spelled n → m ≡ n }
    ensures apart { (h : Received) (m n : Message) (x y : List ℕ) → fits h m ≡ true → fits h n ≡ true → spelled m ++ x ≡ spelled n ++ y → (m ≡ n) × (x ≡ y) }
{}

/// No message's spelling is a proper prefix of another's, whatever was received before each of them.
pub fn no_prefix()
    ensures { (g h : Received) (m n : Message) (rest : List ℕ) → fits g m ≡ true → fits h n ≡ true → spelled m ++ rest ≡ spelled n → rest ≡ [] }
{}

/// Two lists of messages that fit what was received and have the same spelling are the same list.
pub fn one_list()
    ensures { (h : Received) (ms ns : List Message) → AllFit h ms → AllFit h ns → stream_of ms ≡ stream_of ns → ms ≡ ns }
{}

/// The bytes of a message read are its spelling, and the message fits what was received.
pub fn read_is_spelled()
    ensures { (h : Received) (m : Message) (bytes rest : List ℕ) → IsBytes bytes → message_at h bytes ≡ Ok (Some (m, rest)) → (bytes ≡ spelled m ++ rest) × (fits h m ≡ true) }
{}

/// Reading the spelling of a message that fits returns the message, whatever follows. While some of its bytes are
/// missing, it isn't complete, and reading finds no breach.
pub fn spelled_is_read()
    ensures whole { (h : Received) (m : Message) (rest : List ℕ) → fits h m ≡ true → message_at h (spelled m ++ rest) ≡ Ok (Some (m, rest)) }
    ensures cut { (h : Received) (m : Message) (bytes more : List ℕ) → IsBytes bytes → fits h m ≡ true → bytes ++ more ≡ spelled m → more ≢ [] → message_at h bytes ≡ Ok None }
{}

/// Appending bytes changes only the result that a message isn't complete.
pub fn reading_stays()
    ensures { (h : Received) (bytes more : List ℕ) → IsBytes bytes → message_at h bytes ≢ Ok None → message_at h (bytes ++ more) ≡ with_more more (message_at h bytes) }
{}

/// The messages of a stream depend neither on how the stream is cut into pieces nor on how many messages are read after
/// each piece. If two ways to cut a stream are both read until no message is complete, they have read the same
/// messages, received the same definitions and left the same bytes, and both end with the same result: not complete
/// yet, or the same breach. If one of them stops at a breach before the stream's end, the other ends at that breach
/// too, after the same messages, and leaves the later bytes unread.
pub fn any_cutting()
    ensures whole { (h : Received) (unread : List ℕ) (pieces : List (List ℕ)) (ms : List Message) (g : Received) (rest : List ℕ) → IsBytes (unread ++ together pieces) → AreReadInPieces h unread pieces ms g rest → AreRead h (unread ++ together pieces) ms g rest }
    ensures same { (h : Received) (one other : List (List ℕ)) (ms ns : List Message) (g k : Received) (x y : List ℕ) → IsBytes (together one) → together one ≡ together other → AreReadInPieces h [] one ms g x → AreReadInPieces h [] other ns k y → IsEnd g x → IsEnd k y →
        (ms ≡ ns) × (g ≡ k) × (x ≡ y) × (message_at g x ≡ message_at k y) }
    ensures breach { (h : Received) (one other : List (List ℕ)) (more : List ℕ) (ms ns : List Message) (g k : Received) (x y : List ℕ) (breach : Breach) →
        IsBytes (together other) → together one ++ more ≡ together other →
        AreReadInPieces h [] one ms g x → message_at g x ≡ Err breach → AreReadInPieces h [] other ns k y → IsEnd k y →
        (ms ≡ ns) × (g ≡ k) × (x ++ more ≡ y) × (message_at k y ≡ Err breach) }
{}

/// In whatever order a decoder is fed pieces and asked for messages, it reads a stream in pieces: first the unread
/// bytes, then the pieces that it accepted. So the messages that it returns fit, their spelling is these bytes up to
/// those unread at the end, and the decoder has received what the messages define.
pub fn any_calls()
    ensures pieces { (d e : Decoding) (calls : List (Option (List ℕ))) (pieces : List (List ℕ)) (ms : List Message) → AreDecoderCalls d calls pieces ms e →
        AreReadInPieces d.received [] (d.unread ∷ pieces) ms e.received e.unread }
    ensures spelled { (d e : Decoding) (calls : List (Option (List ℕ))) (pieces : List (List ℕ)) (ms : List Message) → IsBytes (d.unread ++ together pieces) → AreDecoderCalls d calls pieces ms e →
        (d.unread ++ together pieces ≡ stream_of ms ++ e.unread) × AllFit d.received ms × (e.received ≡ fold received_after d.received ms) }
{}

/// If a list of messages is read from bytes, the list fits, the bytes are its encoding followed by the unread rest, and
/// the decoder has received what the list defines. A list that fits is read back from its encoding, whatever follows.
pub fn lists_are_read()
    ensures spelled { (h g : Received) (bytes rest : List ℕ) (ms : List Message) → IsBytes bytes → AreRead h bytes ms g rest →
        (bytes ≡ stream_of ms ++ rest) × AllFit h ms × (g ≡ fold received_after h ms) }
    ensures read { (h : Received) (ms : List Message) (rest : List ℕ) → AllFit h ms → AreRead h (stream_of ms ++ rest) ms (fold received_after h ms) rest }
{}

/// A decoder is deterministic: if the contract allows two outcomes of feeding a piece or asking for a message, and
/// neither is running out of memory, both have the same result and leave the same state.
pub fn one_outcome()
    ensures feed { (d a b : Decoding) (piece : List ℕ) (one other : Result (Unit {0}) Fault) → DecoderFeeds d piece one a → DecoderFeeds d piece other b →
        one ≢ Err faults.Memory → other ≢ Err faults.Memory → (one ≡ other) × (a ≡ b) }
    ensures next { (d a b : Decoding) (one other : Result (Option Message) Fault) → DecoderNext d one a → DecoderNext d other b →
        one ≢ Err faults.Memory → other ≢ Err faults.Memory → (one ≡ other) × (a ≡ b) }
{}

/// The tables received are in ascending order of id, with distinct ids and distinct names: before anything is received,
/// after each message, after a roster's own tables were defined, and in the part that is a roster's own.
pub fn tables_stay_distinct()
    ensures begun { AreDistinct nothing_received.tables }
    ensures step { (h : Received) (m : Message) → AreDistinct h.tables → AreDistinct (received_after h m).tables }
    ensures resumed { (roster : List Definition) (ids : List ℕ) (selected : Option ℕ) → AreDistinct (resumed roster ids selected).tables }
    ensures own { (roster : List Definition) (h : Received) → AreDistinct h.tables → AreDistinct (own_part roster h).tables }
{}

/// The data of a definition, and of an update that fits a table, have at most 16,384 bytes. A key and values that fit a
/// table meet the limits for every update.
pub fn data_is_small()
    ensures updates { (d : Definition) (u : UpdateFields) → is_definition d ≡ true → update_fits d u ≡ true → length (update_text u) ≤ most_data }
    ensures definitions { (d : Definition) → is_definition d ≡ true → length (definition_text d) ≤ most_data }
    ensures rows { (d : Definition) (key : Key) (values : List Value) → is_definition d ≡ true → row_fits d key values ≡ true → is_small key values ≡ true }
{}
