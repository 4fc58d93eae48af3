//! The name of a source file.

/// How many bytes stand behind the last `/`, or all of them.
fn behind_slash(path: &[u8]) -> usize
    ensures length { result ≡ position_or_len is_slash (reverse path.now) }
    ensures within { result ≤ length path.now }
{
    path.iter().rev().take_while(|byte| **byte != b'/').count()
}

/// The name of the file at a path: the part behind the last `/`, or all of it.
pub(crate) fn file_in(path: &[u8]) -> &[u8]
    ensures { result.now ≡ file_in path.now }
{
    &path[path.len() - behind_slash(path)..]
}

ghost use Rattle.std.specs.Prelude.{◌≡◌, ◌≤◌, length, reverse};
ghost use Rattle.std.specs.List.{position_or_len};
ghost use Rattle.ti_debugger.specs.Sources.{file_in, is_slash};
