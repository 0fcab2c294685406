ghost use Rattle.std.specs.Prelude.{◌≡◌};
ghost use Rattle.rec_base.specs.Files.{first_at, same_name, without_first};

use crate::{MemSource, Name};

// Takes out the first source at a name.
pub(crate) fn take_first(files: &mut Vec<(Name, MemSource)>, name: &Name) -> Option<MemSource>
    ensures first { result ≡ first_at files.old.items name.now }
    ensures others { files.new.items ≡ without_first files.old.items name.now }
{
    for i in 0..files.len() {
        if is_same(&files[i].0, name) {
            let (_name, source) = files.remove(i);
            return Some(source);
        }
    }
    None
}

// Whether two names are one.
fn is_same(left: &Name, right: &Name) -> bool
    ensures { result ≡ same_name left.now right.now }
{
    match left {
        Name::File(a) => match right {
            Name::File(b) => a.bytes() == b.bytes(),
            Name::Peer { .. } => false,
        },
        Name::Peer {
            host: a,
            port: m,
            request: q,
        } => match right {
            Name::File(_) => false,
            Name::Peer {
                host: b,
                port: n,
                request: r,
            } => a.bytes() == b.bytes() && *m == *n && q.bytes() == r.bytes(),
        },
    }
}
