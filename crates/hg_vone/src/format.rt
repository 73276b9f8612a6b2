//! Which bytes are a dirstate of the first version.

ghost use Rattle.std.specs.Prelude.{◌≡◌, ◌≤◌, length};
ghost use Rattle.hg_vone.specs.Format as format;
ghost use Rattle.hg_vone.specs.Format.{differs};

/// What a dirstate of the second version begins with.
const MARKER: [u8; 11] = *b"dirstate-v2";

/// Whether the bytes of a dirstate are of the first version: one of the first eleven that are there differs from `dirstate-v2`. A file of the first
/// version has no mark of its own and begins with its first parent. An empty file is none, and neither is one that ends within the mark.
pub fn is_vone(bytes: &[u8]) -> bool
    ensures { result ≡ format.is_vone bytes.now }
{
    differ(&MARKER, bytes)
}

// Whether the bytes differ at a place where both have one.
fn differ(front: &[u8], bytes: &[u8]) -> bool
    ensures { result ≡ differs front.now bytes.now }
{
    let mut front = front;
    let mut rest = bytes;
    while let [m, more @ ..] = front {
        let [b, after @ ..] = rest else {
            return false;
        };
        if *m != *b {
            return true;
        }
        front = more;
        rest = after;
    }
    false
}
