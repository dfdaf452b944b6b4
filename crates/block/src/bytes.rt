// Bytes, whatever they mean.
ghost use Rattle.std.specs.Prelude.{◌≡◌};
ghost use Rattle.lists.specs.SameBytes.{same_bytes};

// Whether the same bytes are lent twice. Every byte is looked at, so that many can be looked at together: the `==` of slices compares one after another.
pub fn same(a: &[u8], b: &[u8]) -> bool
    ensures { result ≡ same_bytes a.now b.now }
{
    if a.len() != b.len() {
        return false;
    }
    let mut same = true;
    for (i, byte) in a.iter().enumerate() {
        same &= *byte == b[i];
    }
    same
}
