//! What holds of the definitions, whatever the program does.

ghost use Rattle.std.specs.Prelude.{◌≡◌, ◌≢◌, ◌+◌, ◌∷◌, ◌++◌, [], ℕ, List, Result, Ok, Err, Option, Some, None, false, length};
ghost use Rattle.std.specs.List.{AllByRecursion};
ghost use Rattle.peers_msg.specs.Integers.{IsBytes};
ghost use Rattle.table_types.specs.declared.key.Key.{Key};
ghost use Rattle.table_types.specs.declared.update.Update.{Update};
ghost use Rattle.table_types.specs.Tables.{Definition};
ghost use Rattle.table_types.specs.Rosters.{table_at, roster_fault};
ghost use Rattle.table_types.specs.Rows.{StoredRow, row_of};
ghost use Rattle.peers_msg.specs.declared.message.Message.{Message};
ghost use Rattle.peers_msg.specs.Decoding.{together};
ghost use Rattle.peers_msg.specs.Spelling.{stream_of};
ghost use Rattle.known_state.specs.State.{State, Legal};
ghost use Rattle.known_state.specs.Known.{KnownState, fresh_of};
ghost use Rattle.known_state.specs.LastNumbers.{AreRising};
ghost use Rattle.known_state.specs.Lessons.{IsLessonFor};
ghost use Rattle.learner.specs.declared.fault.Fault.{Fault};
ghost use Rattle.learner.specs.declared.fault.Fault.TheVariants as faults;
ghost use Rattle.learner.specs.declared.taken.Taken.{Taken};
ghost use Rattle.learner.specs.Intake.{Taking, IntakeFeeds, IntakeNext};
ghost use Rattle.learner.specs.Cutting.{IsStopped, IsStoppedAt, AreAnswered};
ghost use Rattle.learner.specs.Calls.{AreIntakeCalls, IsEndOf};
ghost use Rattle.learner.specs.Rows.{put, put_all, row_at, rows_at, AreOfOthers};
ghost use Rattle.learner.specs.Moments.{Piece, stream_in, AreFedInTime, IsStoppedInTime, IsStoppedAtInTime, HasLearnedInTime};
ghost use Rattle.learner.specs.Learning.{AreLearned, IsWaiting, Learning, unlearned, LearnerFeeds, AreFed, IsReady, IsReadyIn, IsTaught, HasLearned};
ghost use Rattle.learner.specs.OnItsWay.{AreNextOf, IsFedOnItsWay, IsOnItsWay};

/// However a stream is cut into pieces, what is learned from the pieces at one moment is what is learned from the
/// whole: the same rows, the same state, and the same bytes left.
pub fn any_pieces()
    ensures two { (now : ℕ) (l mid e : Learning) (a b : List ℕ) (one other : ℕ) →
        IsBytes (l.intake.unread ++ (a ++ b)) → LearnerFeeds now l a (Ok one) mid → LearnerFeeds now mid b (Ok other) e →
        LearnerFeeds now l (a ++ b) (Ok (one + other)) e }
    ensures whole { (now : ℕ) (l e : Learning) (a : List ℕ) (pieces : List (List ℕ)) (count : ℕ) →
        IsBytes (l.intake.unread ++ together (a ∷ pieces)) → AreFed now l (a ∷ pieces) count e →
        LearnerFeeds now l (together (a ∷ pieces)) (Ok count) e }
    ensures same { (now : ℕ) (l a b : Learning) (piece : List ℕ) (one other : ℕ) →
        LearnerFeeds now l piece (Ok one) a → LearnerFeeds now l piece (Ok other) b → (one ≡ other) × (a ≡ b) }
{}

/// A learner has only one outcome: if two outcomes of feeding it a piece are both allowed, and memory runs out in
/// neither, then the answer is the same, and so is what the learner holds afterwards. The same holds of an intake: of
/// feeding it, and of asking it for a message.
pub fn one_outcome()
    ensures learner { (now : ℕ) (l a b : Learning) (piece : List ℕ) (one other : Result ℕ Fault) → LearnerFeeds now l piece one a → LearnerFeeds now l piece other b →
        one ≢ Err faults.Memory → other ≢ Err faults.Memory → (one ≡ other) × (a ≡ b) }
    ensures feed { (t a b : Taking) (piece : List ℕ) (one other : Result (Unit {0}) Fault) → IntakeFeeds t piece one a → IntakeFeeds t piece other b →
        one ≢ Err faults.Memory → other ≢ Err faults.Memory → (one ≡ other) × (a ≡ b) }
    ensures next { (t a b : Taking) (one other : Result (Option Taken) Fault) → IntakeNext t one a → IntakeNext t other b →
        one ≢ Err faults.Memory → other ≢ Err faults.Memory → (one ≡ other) × (a ≡ b) }
{}

/// However a stream is cut into pieces that are fed at one moment, the same fault occurs, unless memory runs out. If
/// two ways to cut it each stop at a fault, it is the same fault, and the learner is then the same: the same rows and
/// the same state, with nothing unread. The faulty message is at the same place of the stream. If a fault stops one
/// way, it stops every other way too, at one of its pieces, if all of them are fed. After a fault, feeding any piece
/// returns `Closed` and changes nothing. With pieces at whatever moments, it is still the same fault, at the same place
/// of the stream, with the same state and nothing unread.
pub fn one_fault()
    ensures same { (now : ℕ) (l a b : Learning) (before others : List (List ℕ)) (last end more rest : List ℕ) (fault other : Fault) →
        l.intake.closed ≡ false → IsBytes (l.intake.unread ++ (together before ++ (last ++ more))) →
        together before ++ (last ++ more) ≡ together others ++ (end ++ rest) →
        IsStopped now l before last fault a → IsStopped now l others end other b → fault ≢ faults.Memory → other ≢ faults.Memory →
        (fault ≡ other) × (a ≡ b) }
    ensures place { (now : ℕ) (l a b : Learning) (before others : List (List ℕ)) (last end more rest left over : List ℕ) (fault other : Fault) →
        l.intake.closed ≡ false → IsBytes (l.intake.unread ++ (together before ++ (last ++ more))) →
        together before ++ (last ++ more) ≡ together others ++ (end ++ rest) →
        IsStoppedAt now l before last fault left a → IsStoppedAt now l others end other over b → fault ≢ faults.Memory → other ≢ faults.Memory →
        left ++ more ≡ over ++ rest }
    ensures comes { (now : ℕ) (l a b : Learning) (before others : List (List ℕ)) (last first more : List ℕ) (fault : Fault) (answers : List (Result ℕ Fault)) →
        l.intake.closed ≡ false → IsBytes (l.intake.unread ++ (together before ++ (last ++ more))) →
        together before ++ (last ++ more) ≡ together (first ∷ others) →
        IsStopped now l before last fault a → fault ≢ faults.Memory →
        AreAnswered now l (first ∷ others) answers b → AllByRecursion (λ answer. answer ≢ Err faults.Memory) answers →
        (begins : List (List ℕ)) × (end : List ℕ) × (rest : List (List ℕ))
        × (first ∷ others ≡ begins ++ (end ∷ rest)) × IsStopped now l begins end fault b
        × (a ≡ b) }
    ensures moments { (l a b : Learning) (before others : List Piece) (last end : Piece) (more rest : List ℕ) (fault other : Fault) →
        l.intake.closed ≡ false → IsBytes (l.intake.unread ++ (stream_in before ++ (last.bytes ++ more))) →
        stream_in before ++ (last.bytes ++ more) ≡ stream_in others ++ (end.bytes ++ rest) →
        IsStoppedInTime l before last fault a → IsStoppedInTime l others end other b → fault ≢ faults.Memory → other ≢ faults.Memory →
        (fault ≡ other) × (a.intake ≡ b.intake) }
    ensures place_in_time { (l a b : Learning) (before others : List Piece) (last end : Piece) (more rest left over : List ℕ) (fault other : Fault) →
        l.intake.closed ≡ false → IsBytes (l.intake.unread ++ (stream_in before ++ (last.bytes ++ more))) →
        stream_in before ++ (last.bytes ++ more) ≡ stream_in others ++ (end.bytes ++ rest) →
        IsStoppedAtInTime l before last fault left a → IsStoppedAtInTime l others end other over b → fault ≢ faults.Memory → other ≢ faults.Memory →
        left ++ more ≡ over ++ rest }
    ensures closed { (now after : ℕ) (l e x : Learning) (piece bytes : List ℕ) (fault : Fault) (answer : Result ℕ Fault) →
        LearnerFeeds now l piece (Err fault) e → LearnerFeeds after e bytes answer x → (answer ≡ Err faults.Closed) × (x ≡ e) }
{}

/// However a stream is cut, and in whatever order an intake is fed its pieces and asked for its messages, it gives the
/// same rows and the same other messages, in the same order, up to the same end: a fault, or no whole message once all
/// pieces are fed. The end is at the same place of the stream, and the intake is then the same. Calls that run out of
/// memory may come in between, and change nothing.
pub fn any_calls()
    ensures { (t a b x y : Taking) (one other : List (Option (List ℕ))) (bytes others more rest : List ℕ) (answers given : List Taken) (end last : Result (Option Taken) Fault) →
        IsBytes (t.unread ++ (bytes ++ more)) → bytes ++ more ≡ others ++ rest →
        AreIntakeCalls t one bytes answers a → AreIntakeCalls t other others given b → IntakeNext a end x → IntakeNext b last y →
        IsEndOf end more → IsEndOf last rest →
        (answers ≡ given) × (end ≡ last) × (x ≡ y) × (a.unread ++ more ≡ b.unread ++ rest) }
{}

/// Putting an update changes only the row of its table and key: that row becomes what the update teaches at that
/// moment, and any other row is unchanged.
pub fn others_stay()
    ensures here { (now : ℕ) (roster : List Definition) (tables : List (List (Key × StoredRow))) (u : Update) (d : Definition) →
        length tables ≡ length roster → table_at roster u.table ≡ Some d →
        row_at u.key (rows_at roster u.table (put now roster tables u)) ≡ Some (row_of now d.expire u) }
    ensures keys { (now : ℕ) (roster : List Definition) (tables : List (List (Key × StoredRow))) (u : Update) (id : ℕ) (key : Key) →
        key ≢ u.key → row_at key (rows_at roster id (put now roster tables u)) ≡ row_at key (rows_at roster id tables) }
    ensures tables { (now : ℕ) (roster : List Definition) (tables : List (List (Key × StoredRow))) (u : Update) (id : ℕ) →
        id ≢ u.table → rows_at roster id (put now roster tables u) ≡ rows_at roster id tables }
{}

/// Putting updates one after another leaves as the row of a table and key what the last update of that table and key
/// teaches, or the row as it was if there is none.
pub fn the_last_stands()
    ensures last { (now : ℕ) (roster : List Definition) (before after : List Update) (u : Update) (d : Definition) (tables : List (List (Key × StoredRow))) →
        length tables ≡ length roster → table_at roster u.table ≡ Some d → AreOfOthers u.table u.key after →
        row_at u.key (rows_at roster u.table (put_all now roster (before ++ (u ∷ after)) tables)) ≡ Some (row_of now d.expire u) }
    ensures others { (now : ℕ) (roster : List Definition) (us : List Update) (id : ℕ) (key : Key) (tables : List (List (Key × StoredRow))) →
        AreOfOthers id key us →
        row_at key (rows_at roster id (put_all now roster us tables)) ≡ row_at key (rows_at roster id tables) }
{}

/// What a legal stream teaches. Suppose that each id a learner received stands for its own definition, that nothing is
/// unread, and that the learner is fed a stream that is legal from its state. Then every update that the stream carries
/// is put among the learner's rows, and nothing else; the learner reaches the state in which the stream ends; nothing
/// is left unread; and no fault occurs, unless memory runs out. This holds however the stream is cut, if all of it is
/// fed at one moment. No fault occurs on the way either, with pieces at whatever moments, unless memory runs out.
pub fn a_legal_stream()
    ensures whole { (now : ℕ) (l e : Learning) (ms : List Message) (us : List Update) (after : State) (result : Result ℕ Fault) →
        IsReady l → Legal l.intake.roster l.intake.state ms us after →
        LearnerFeeds now l (stream_of ms) result e → result ≢ Err faults.Memory →
        (result ≡ Ok (length us)) × IsTaught now l us after e }
    ensures pieces { (now : ℕ) (l e : Learning) (ms : List Message) (us : List Update) (after : State) (a : List ℕ) (pieces : List (List ℕ)) (count : ℕ) →
        IsReady l → Legal l.intake.roster l.intake.state ms us after →
        IsBytes (stream_of ms) → together (a ∷ pieces) ≡ stream_of ms → AreFed now l (a ∷ pieces) count e →
        (count ≡ length us) × IsTaught now l us after e }
    ensures faultless { (now : ℕ) (l mid e : Learning) (ms : List Message) (us : List Update) (after : State) (before : List Piece) (piece more : List ℕ) (counts : List ℕ) (fault : Fault) →
        IsReady l → Legal l.intake.roster l.intake.state ms us after →
        IsBytes (stream_of ms) → stream_in before ++ (piece ++ more) ≡ stream_of ms →
        AreFedInTime l before counts mid → LearnerFeeds now mid piece (Err fault) e → fault ≡ faults.Memory }
{}

/// A lesson teaches what it says. A teacher knows that a learner is in the known state `k`, but not what else it
/// holds. Every such learner that is fed a lesson from `k` puts all the updates that the lesson carries and nothing
/// else; it is then in the known state in which the lesson ends, and ready for the next lesson from there; nothing is
/// left unread; and no fault occurs, unless memory runs out. This holds however the lesson is cut. With pieces at several
/// moments, a row gets the moment of the piece in which its message ends: the updates are divided into parts, one for
/// each piece. A learner that was fed nothing is ready for a lesson to a learner that received nothing.
pub fn a_lesson()
    ensures fresh { (roster : List Definition) → roster_fault roster ≡ None → IsReadyIn (fresh_of roster) (unlearned roster) }
    ensures whole { (now : ℕ) (k after : KnownState) (us : List Update) (bytes : List ℕ) (l e : Learning) (result : Result ℕ Fault) →
        IsLessonFor k us bytes after → IsReadyIn k l → LearnerFeeds now l bytes result e → result ≢ Err faults.Memory →
        (result ≡ Ok (length us)) × HasLearned now l us after e }
    ensures pieces { (now : ℕ) (k after : KnownState) (us : List Update) (a : List ℕ) (pieces : List (List ℕ)) (l e : Learning) (count : ℕ) →
        IsLessonFor k us (together (a ∷ pieces)) after → IsBytes (together (a ∷ pieces)) → IsReadyIn k l → AreFed now l (a ∷ pieces) count e →
        (count ≡ length us) × HasLearned now l us after e }
    ensures moments { (k after : KnownState) (us : List Update) (pieces : List Piece) (counts : List ℕ) (l e : Learning) →
        IsLessonFor k us (stream_in pieces) after → IsBytes (stream_in pieces) → IsReadyIn k l → AreFedInTime l pieces counts e →
        HasLearnedInTime k l pieces us counts after e }
    ensures faultless { (now : ℕ) (k after : KnownState) (us : List Update) (before : List Piece) (piece more : List ℕ) (counts : List ℕ) (l mid e : Learning) (fault : Fault) →
        IsLessonFor k us (stream_in before ++ (piece ++ more)) after → IsBytes (stream_in before ++ (piece ++ more)) → IsReadyIn k l →
        AreFedInTime l before counts mid → LearnerFeeds now mid piece (Err fault) e → fault ≡ faults.Memory }
{}

/// A learner on its way through a legal stream stays on its way, at whatever moments the pieces come. The messages that it learns
/// are the next ones of the stream. If it is fed the next bytes, there is no fault unless memory runs out; it puts the updates of
/// the messages that are then whole among its rows, in order, and nothing else. Once it has been fed all bytes, it has put every
/// update, is in the state in which the stream ends, and leaves nothing unread.
pub fn a_learner_stays_on_its_way()
    ensures learned { (now : ℕ) (l e : Learning) (more : List ℕ) (ms ns : List Message) (us vs : List Update) (after : State) →
        IsOnItsWay l more ms us after → AreLearned now l ns vs e → AreNextOf now l more ms us after ns vs e }
    ensures fed { (now : ℕ) (l e : Learning) (piece more : List ℕ) (ms : List Message) (us : List Update) (after : State) (answer : Result ℕ Fault) →
        IsOnItsWay l (piece ++ more) ms us after → LearnerFeeds now l piece answer e → answer ≢ Err faults.Memory →
        IsFedOnItsWay now l piece more ms us after answer e }
    ensures ended { (l : Learning) (ms : List Message) (us : List Update) (after : State) →
        IsOnItsWay l [] ms us after → IsWaiting l.intake → (us ≡ []) × (l.intake.state ≡ after) × (l.intake.unread ≡ []) }
{}

/// The last numbers of a learner that was fed nothing are in ascending order of id, and stay so whatever it is fed.
pub fn numbers_stay_rising()
    ensures begun { (roster : List Definition) → AreRising (unlearned roster).intake.state.last_numbers }
    ensures fed { (now : ℕ) (l e : Learning) (piece : List ℕ) (result : Result ℕ Fault) →
        AreRising l.intake.state.last_numbers → LearnerFeeds now l piece result e → AreRising e.intake.state.last_numbers }
{}
