//! Laws of the log, which hold whatever the program does.
ghost use Rattle.std.specs.Prelude.{◌≡◌, ◌+◌, ◌++◌, ◌∷◌, ◌<◌, ◌^◌, ℕ, [], List, None, length, map, true};
ghost use Rattle.node_core.specs.declared.events.Event.{Event};
ghost use Rattle.node_log.specs.declared.limits.Limit.{Limit};
ghost use Rattle.node_log.specs.declared.lines.Form.{Form};
ghost use Rattle.node_log.specs.Limits.{AreApart, after_all, said_of, unsaid};
ghost use Rattle.node_log.specs.Lines.{IsOneLine, Says, behind_colon};
ghost use Rattle.node_log.specs.Ranges.{is_event};
ghost use Rattle.node_log.specs.Values.{printable};

/// Whatever bytes names, addresses and reasons have, the line of an event is one line of printable bytes, and what stands behind its first
/// `: ` is its sentence.
pub fn lines_are_read()
    ensures line { (form : Form) (event : Event) (sentence line : List ℕ) → is_event event ≡ true → Says form event sentence line → IsOneLine line }
    ensures sentence { (form : Form) (event : Event) (sentence line : List ℕ) → is_event event ≡ true → Says form event sentence line → behind_colon line ≡ map printable sentence ++ 10 ∷ [] }
{}

/// Whenever lines of one cause about one peer come, each that is said comes a second or more after the fifth before it, so never more than
/// five are said in less than a second; and each that isn't said is counted.
pub fn at_most_five_a_second()
    ensures apart { (moments : List ℕ) → AreApart None None None None None (said_of moments unsaid) }
    ensures counted { (moments : List ℕ) → length moments < 2 ^ 64 → (after_all moments unsaid).omitted + length (said_of moments unsaid) ≡ length moments }
{}
