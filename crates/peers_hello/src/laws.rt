//! Laws of the definitions.
ghost use Rattle.std.specs.Prelude.{ℕ, List, ◌++◌, ◌≡◌};
ghost use Rattle.table_types.specs.declared.version.Version.{Version};
ghost use Rattle.peers_hello.specs.declared.hello.Answer.TheVariants as answers;
ghost use Rattle.peers_hello.specs.Hellos.{IsReadAsWritten, answer_of};
ghost use Rattle.peers_hello.specs.Meetings.{Stays, by_answer, by_status};
ghost use Rattle.peers_hello.specs.Statuses.{status_of};

/// A peer accepts a hello written for it, whatever follows it, if it knows the sender and neither name has a space, CR
/// or LF.
pub fn what_is_written_is_accepted()
    ensures { IsReadAsWritten }
{}

/// What follows decides nothing. Once the first bytes amount to a status or to a hello, or to neither, they do so with more
/// bytes after them, with the same version and the same code, and those come after the bytes that were left.
pub fn what_follows_decides_nothing()
    ensures status { (version : Version) (bytes more : List ℕ) → Stays (by_status version (status_of bytes) bytes) more (by_status version (status_of (bytes ++ more)) (bytes ++ more)) }
    ensures hello { (own : List ℕ) (peers : List (List ℕ)) (bytes more : List ℕ) →
        Stays (by_answer (answer_of own peers bytes) bytes) more (by_answer (answer_of own peers (bytes ++ more)) (bytes ++ more)) }
    ensures accepted { (own : List ℕ) (peers : List (List ℕ)) (bytes more name : List ℕ) (version : Version) (used : ℕ) →
        answer_of own peers bytes ≡ answers.Accepted name version used → answer_of own peers (bytes ++ more) ≡ answers.Accepted name version used }
{}
