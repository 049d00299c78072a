//! What a configuration names by one word.
ghost use Rattle.std.specs.Prelude.{◌≡◌, ℕ, List};
ghost use Rattle.table_types.specs.DataTypes.{name_of};
ghost use Rattle.table_types.specs.Keys.{kind_name};
ghost use Rattle.admin_text.specs.Named.{first_named, keys_named, level_name, level_named, type_named};

use node_core::Level;
use table_types::{DataType, KeyKind};

/// The levels of the log.
const LEVELS: [Level; 4] = [Level::Error, Level::Warn, Level::Info, Level::Debug];

/// What has a word for a name.
trait Named: Copy {
    ghost called: { Self → List ℕ };

    /// Returns its name.
    fn called(self) -> &'static str
        ensures { result.now ≡ called self };
}

impl Named for KeyKind {
    ghost called = { kind_name };

    fn called(self) -> &'static str {
        self.name()
    }
}

impl Named for DataType {
    ghost called = { name_of };

    fn called(self) -> &'static str {
        self.name()
    }
}

impl Named for Level {
    ghost called = { level_name };

    fn called(self) -> &'static str {
        match self {
            Level::Error => "error",
            Level::Warn => "warn",
            Level::Info => "info",
            Level::Debug => "debug",
        }
    }
}

/// Returns the first of `all` with this name.
fn first_named<T: Named>(all: &[T], name: &[u8]) -> Option<T>
    ensures { result ≡ first_named T.called name.now all.now }
{
    for one in all {
        if one.called().as_bytes() == name {
            return Some(*one);
        }
    }
    None
}

/// Returns the kind of keys with this name.
#[tactic(auto, unfolding(crate::specs::Named::keys_named))]
pub(crate) fn keys_named(name: &[u8]) -> Option<KeyKind>
    ensures { result ≡ keys_named name.now }
{
    first_named(&KeyKind::ALL, name)
}

/// Returns the data type with this name.
#[tactic(auto, unfolding(crate::specs::Named::type_named))]
pub(crate) fn type_named(name: &[u8]) -> Option<DataType>
    ensures { result ≡ type_named name.now }
{
    first_named(&DataType::ALL, name)
}

/// Returns the level of the log with this name.
#[tactic(auto, unfolding(crate::specs::Named::level_named))]
pub(crate) fn level_named(name: &[u8]) -> Option<Level>
    ensures { result ≡ level_named name.now }
{
    first_named(&LEVELS, name)
}
