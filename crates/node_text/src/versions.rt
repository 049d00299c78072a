//! Versions of the protocol.
ghost use Rattle.std.specs.Prelude.{◌≡◌, Err, IfOk, IfSome, IsTrue, Some, length, map};
ghost use Rattle.std.specs.List.{AllByRecursion};
ghost use Rattle.node_text.specs.Versions.{AreVersionNames, AreVersions, IsVersionName, version_name};
ghost use Rattle.table_types.specs.declared.version.Version.{Version};

use crate::error::LineError;
use std::alloc::Global;
use table_types::Version;

/// Returns the version that `word` names: `2.0` or `2.1`.
pub(crate) fn version_of(word: &[u8]) -> Option<Version>
    ensures name { IfSome result (λ version. version_name version ≡ word.now) }
    ensures exactly { (version : Version) → version_name version ≡ word.now → result ≡ Some version }
{
    match word {
        b"2.0" => Some(Version::V20),
        b"2.1" => Some(Version::V21),
        _ => None,
    }
}

/// Returns whether each word names a version.
fn are_version_names(words: &[&[u8]]) -> bool
    ensures { IsTrue result → AllByRecursion IsVersionName (map (λ word. word.now) words.now) }
{
    for word in words {
        if version_of(word).is_none() {
            return false;
        }
    }
    true
}

/// Reads the versions of `count` sessions, one from each word: 2.1 for each if there are no words. Allocates only if none of the
/// words is refused.
pub(crate) fn versions_of(
    alloc: Global,
    count: usize,
    words: &[&[u8]],
) -> Result<Vec<Version>, LineError>
    ensures written { IfOk result (λ versions. AreVersions count (map (λ word. word.now) words.now) versions.items) }
    ensures count { IfOk result (λ versions. length versions.items ≡ count) }
    ensures memory { result ≡ Err LineError.Memory → AreVersionNames count (map (λ word. word.now) words.now) }
{
    if words.is_empty() {
        return Ok(vec![in alloc; Version::V21; count]?);
    }
    if words.len() != count || !are_version_names(words) {
        return Err(LineError::Refused);
    }
    named_versions(alloc, words)
}

/// Reads the versions that the words name, in order.
fn named_versions(alloc: Global, words: &[&[u8]]) -> Result<Vec<Version>, LineError>
    ensures { IfOk result (λ versions. map version_name versions.items ≡ map (λ word. word.now) words.now) }
{
    let mut versions = Vec::new(alloc);
    for word in words {
        versions.push(version_of(word).ok_or(LineError::Refused)?)?;
    }
    Ok(versions)
}
