//! What holds of lessons, whatever the program does.

ghost use Rattle.std.specs.Prelude.{◌≡◌, ◌≤◌, ◌<◌, ◌^◌, ◌++◌, Bool, true, List, Option, None, ℕ, flat_map, length};
ghost use Rattle.std.specs.List.{AllByRecursion};
ghost use Rattle.table_types.specs.Tables.{Definition, is_definition};
ghost use Rattle.table_types.specs.Rosters.{roster_fault};
ghost use Rattle.table_types.specs.Batches.{IsBatchFor};
ghost use Rattle.table_types.specs.declared.update.Update.{Update};
ghost use Rattle.peers_msg.specs.declared.message.Message.{Message};
ghost use Rattle.peers_msg.specs.Spelling.{size_of_all, stream_of};
ghost use Rattle.known_state.specs.State.{Legal, State};
ghost use Rattle.known_state.specs.Known.{AreOwn, KnownState};
ghost use Rattle.known_state.specs.Cost.{full, knowledge_of, written_lesson};
ghost use Rattle.known_state.specs.Lessons.{IsLessonFor};
ghost use Rattle.known_state.specs.Plans.{Plan};
ghost use Rattle.known_state.specs.Requests.{reads_of};
ghost use Rattle.known_state.specs.Shortest.{Shortest};
ghost use Rattle.teach_writer.specs.declared.lesson.Lesson.{Lesson};
ghost use Rattle.teach_writer.specs.Lessons.{IsShortestLesson, plan_of};
ghost use Rattle.teach_writer.specs.Pieces.{ArePieces, Left, bytes_left, plan_left};
ghost use Rattle.teach_writer.specs.Planning.{IsLessonBy};
ghost use Rattle.teach_writer.specs.Sending.{AreSent};

/// Messages that go through a batch read exactly the requests that are marked as kept.
pub fn marks_are_reads()
    ensures { (roster : List Definition) (s e : State) (starts : List ℕ → Option ℕ) (us : List Update)
        (marks : List Bool) (ms : List Message) → AreSent roster s starts us marks ms e → reads_of ms ≡ marks }
{}

/// The lesson with every name written is a lesson, if the tables of the roster are well formed and the updates' numbers
/// are below 2^32: it is legal from the known state and carries the batch. `full` is its size in bytes, and no
/// shortest lesson has more.
pub fn names_may_all_be_written()
    ensures lesson { (k : KnownState) (us : List Update) →
        roster_fault k.roster ≡ None → AllByRecursion (λ d. is_definition d ≡ true) k.roster →
        AreOwn k.roster k.state.received.tables → IsBatchFor k.roster us → AllByRecursion (λ u. u.number < 2 ^ 32) us →
        (after : KnownState) × IsLessonFor k us (stream_of (written_lesson k.roster (knowledge_of k.state) us)) after }
    ensures size { (roster : List Definition) (s : State) (us : List Update) →
        length (stream_of (written_lesson roster (knowledge_of s) us)) ≡ full roster s us }
    ensures most { (k : KnownState) (us : List Update) (ms : List Message) →
        roster_fault k.roster ≡ None → AllByRecursion (λ d. is_definition d ≡ true) k.roster →
        AreOwn k.roster k.state.received.tables → IsBatchFor k.roster us → AllByRecursion (λ u. u.number < 2 ^ 32) us →
        Shortest k us ms → size_of_all ms ≤ full k.roster k.state us }
{}

/// Lessons that follow one another are one lesson: messages that are legal where others end are legal after them and carry
/// what both carry, their bytes follow those of the others, and the lesson leads to the known state in which the second ends.
pub fn lessons_append()
    ensures legal { (roster : List Definition) (a b : List Message) (s mid e : State) (us vs : List Update) →
        Legal roster s a us mid → Legal roster mid b vs e → Legal roster s (a ++ b) (us ++ vs) e }
    ensures stream { (a b : List Message) → stream_of (a ++ b) ≡ stream_of a ++ stream_of b }
    ensures lesson { (k mid after : KnownState) (us vs : List Update) (bytes more : List ℕ) →
        IsLessonFor k us bytes mid → IsLessonFor mid vs more after → IsLessonFor k (us ++ vs) (bytes ++ more) after }
{}

/// A lesson that has the bytes of a shortest list of messages for the batch is a shortest lesson: its own messages are among
/// the shortest.
pub fn a_lesson_of_the_same_bytes_is_shortest()
    ensures { (known after : KnownState) (batch : List Update) (bytes : List ℕ) → IsLessonFor known batch bytes after →
        ((ms : List Message) × (bytes ≡ stream_of ms) × Shortest known batch ms) → IsShortestLesson known batch bytes after }
{}

/// A batch has only one lesson by a plan, from one known state: with the same requests kept, the same messages send it, and
/// so the same bytes, and they lead to the same state.
pub fn a_plan_has_one_lesson()
    ensures messages { (roster : List Definition) (s after end : State) (starts : List ℕ → Option ℕ) (us : List Update)
        (marks : List Bool) (ms others : List Message) →
        AreSent roster s starts us marks ms after → AreSent roster s starts us marks others end → (ms ≡ others) × (after ≡ end) }
    ensures bytes { (known : KnownState) (batch : List Update) (plan : Plan) (bytes others : List ℕ) (after end : State) →
        IsLessonBy plan known batch bytes after → IsLessonBy plan known batch others end → (bytes ≡ others) × (after ≡ end) }
{}

/// The pieces that are given one after another until none is left, joined, are the bytes that were left. If they are those
/// of a whole lesson, as `Pieces::new` returns them, and of the plan that a lesson of `teach` names, from the same known
/// state and for the same batch, then they are that lesson's bytes, and the learner knows the same after them.
pub fn pieces_joined_are_the_lesson()
    ensures joined { (left end : Left) (pieces : List (List ℕ)) → ArePieces left pieces end →
        (flat_map (λ piece. piece) pieces ≡ bytes_left left) × (plan_left end ≡ plan_left left) × (end.known ≡ left.known) }
    ensures lesson { (known : KnownState) (batch : List Update) (lesson : Lesson) (left end : Left) (pieces : List (List ℕ)) →
        IsLessonBy (plan_of lesson) known batch lesson.bytes lesson.known.state →
        IsLessonBy (plan_left left) known batch (bytes_left left) left.known.state →
        plan_left left ≡ plan_of lesson → ArePieces left pieces end →
        (flat_map (λ piece. piece) pieces ≡ lesson.bytes) × (end.known.state ≡ lesson.known.state) }
{}
