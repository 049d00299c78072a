//! Paths of sockets.
ghost use Rattle.std.specs.Prelude.{◌≡◌};
ghost use Rattle.admin_text.specs.Sockets.{has_nul, is_path, path_fault};

use crate::faults::{Fault, PathFault};

/// The most bytes of a path: an address of Linux has 108, of which the last is NUL.
const LONGEST_PATH: usize = 107;

/// Returns why `path` isn't the path of a socket.
pub(crate) fn path_fault(path: &[u8]) -> Option<Fault>
    ensures { result ≡ path_fault path.now }
{
    if is_path(path) {
        None
    } else if path.is_empty() {
        Some(Fault::Path(PathFault::Empty))
    } else if has_nul(path) {
        Some(Fault::Path(PathFault::Nul))
    } else {
        Some(Fault::Path(PathFault::Long(path.len())))
    }
}

/// Returns whether `path` has 1 to 107 bytes, none of them NUL.
fn is_path(path: &[u8]) -> bool
    ensures { result ≡ is_path path.now }
{
    !path.is_empty() && path.len() <= LONGEST_PATH && !has_nul(path)
}

/// Returns whether `path` has a NUL.
fn has_nul(path: &[u8]) -> bool
    ensures { result ≡ has_nul path.now }
{
    path.contains(&0)
}
