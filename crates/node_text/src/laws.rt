//! A law of the text: what is printed is read as it was.
ghost use Rattle.std.specs.Prelude.{◌≡◌, ◌<◌, ◌≤◌, ◌^◌, IfSome, Option, Some, flat_map, true, ℕ, List};
ghost use Rattle.std.specs.Fmt.{decimal};
ghost use Rattle.node_text.specs.Bytes.{bytes_of, digits_of};
ghost use Rattle.node_text.specs.Keys.{AreBytes, IsWritable, key_of, key_text};
ghost use Rattle.node_text.specs.Numbers.{number_of, number_or_dash};
ghost use Rattle.node_text.specs.Updates.{life_of};
ghost use Rattle.table_types.specs.Keys.{key_fits};
ghost use Rattle.table_types.specs.declared.key.Key.{Key};
ghost use Rattle.table_types.specs.declared.key.KeyKind.{KeyKind};

/// Proves that what is printed is read as it was: bytes in hexadecimal, numbers in decimal, lives of updates, and keys of a
/// table, except strings that aren't text.
pub fn printed_is_read()
    ensures bytes { (bytes : List ℕ) → AreBytes bytes → bytes_of (flat_map digits_of bytes) ≡ Some bytes }
    ensures numbers { (n most : ℕ) → n ≤ most → n < 2 ^ 64 → number_of (decimal n) most ≡ Some n }
    ensures lives { (life : Option ℕ) → IfSome life (λ milliseconds. milliseconds < 2 ^ 32) → life_of (number_or_dash life) ≡ Some life }
    ensures keys { (kind : KeyKind) (key_length : ℕ) (key : Key) → key_fits kind key_length key ≡ true → IsWritable key → key_of kind (key_text key) ≡ Some key }
{}
