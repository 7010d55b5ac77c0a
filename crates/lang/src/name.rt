ghost use Rattle.std.specs.Prelude.{◌≡◌};
ghost use Rattle.lang.specs.Names.{same_bytes, padded};

// A name: its bytes, and zeros up to the sixteenth. No name has a zero byte.
#[derive(Clone, Copy, PartialEq, Eq, Debug)]
pub struct Name {
    pub bytes: [u8; 16],
}

impl Name {
    // The name with these bytes; past the sixteenth they are left out.
    pub fn of(bytes: &[u8]) -> Name
        ensures { result.bytes ≡ padded bytes.now }
    {
        let mut all = [0; 16];
        let len = bytes.len().min(16);
        all[..len].copy_from_slice(&bytes[..len]);
        Name { bytes: all }
    }
}

// Whether two runs of bytes are equal. For `b"literal"`, which `==` would want as a slice at each of 17 places.
pub fn same_bytes(a: &[u8], b: &[u8]) -> bool
    ensures { result ≡ same_bytes a.now b.now }
{
    a == b
}
