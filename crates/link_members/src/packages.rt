//! The package of a class.

ghost use Rattle.std.specs.Prelude.{◌≡◌, ◌<◌, ◌≤◌, length};
ghost use Rattle.link_rules.specs.Packages.{last_slash, package_of, is_one_package};

const SLASH: u16 = b'/' as u16;

/// The place of the last `/`, 0 where there is none.
fn last_slash(name: &[u16]) -> usize
    ensures value { result ≡ last_slash (length name.now) name.now }
    ensures within { result ≤ length name.now }
{
    let mut end = name.len();
    while end > 0 {
        end -= 1;
        if name[end] == SLASH {
            return end;
        }
    }
    0
}

/// The package of the class of a name: the name up to the last `/`.
pub fn package(name: &[u16]) -> &[u16]
    ensures { result.now ≡ package_of name.now }
{
    &name[..last_slash(name)]
}

/// Whether two classes are in one package: whether their names agree up to the last `/`.
pub(crate) fn is_one_package(name: &[u16], other: &[u16]) -> bool
    ensures { result ≡ is_one_package name.now other.now }
{
    package(name) == package(other)
}
