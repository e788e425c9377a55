ghost use Rattle.std.specs.Prelude.{◌≡◌, Some};
ghost use Rattle.image.specs.Bytes.{record_of};

// Eight bytes of an image, taken apart.
#[derive(Clone, Copy)]
pub struct Record {
    pub kind: u8,
    pub a: u8,
    pub b: u16,
    pub c: i32,
}

impl Record {
    // Nothing where the part has not eight bytes.
    pub fn of(part: &[u8]) -> Option<Record>
        ensures { result ≡ record_of part.now }
    {
        let [kind, a, b0, b1, c0, c1, c2, c3] = part else {
            return None;
        };
        Some(Record {
            kind: *kind,
            a: *a,
            b: u16::from_le_bytes([*b0, *b1]),
            c: i32::from_le_bytes([*c0, *c1, *c2, *c3]),
        })
    }
}
