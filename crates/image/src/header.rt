ghost use Rattle.std.specs.Prelude.{◌≡◌, ◌+◌, ◌*◌, ◌≤◌, length, IfOk, Some, None, MatchResult};
ghost use Rattle.image.specs.Bytes.{count_of, text_of};
ghost use Rattle.image.specs.Header.{header_fault};

// Why the first nine bytes or the length turn an image down, in the order in which they are tested.
#[derive(Clone, Copy)]
pub enum ImageFault {
    Short,
    Letters,
    Version,
    Range,
    Length,
}

// How many records an image has, and how many text bytes behind them.
#[derive(Clone, Copy)]
pub struct Header {
    pub records: usize,
    pub texts: usize,
}

impl Header {
    // The first test that fails turns the image down. No `TryFrom`: it would hide the clauses in a
    // ghost member.
    pub fn of(image: &[u8]) -> Result<Header, ImageFault>
        ensures verdict { MatchResult result (λ h. header_fault image.now ≡ None) (λ f. header_fault image.now ≡ Some f) }
        ensures counts { IfOk result (λ h. (h.records ≡ count_of image.now) × (h.texts ≡ text_of image.now)) }
        ensures whole { IfOk result (λ h. (length image.now ≡ 9 + 8 * h.records + h.texts) × (1 ≤ h.records) × (h.records ≤ 512) × (h.texts ≤ 2048)) }
    {
        let [r, u, l, v0, v1, n0, n1, t0, t1, rest @ ..] = image else {
            return Err(ImageFault::Short);
        };
        if [*r, *u, *l] != *b"RUL" {
            return Err(ImageFault::Letters);
        }
        if u16::from_le_bytes([*v0, *v1]) != 1 {
            return Err(ImageFault::Version);
        }
        let records = u16::from_le_bytes([*n0, *n1]) as usize;
        let texts = u16::from_le_bytes([*t0, *t1]) as usize;
        if records == 0 || records > 512 || texts > 2048 {
            return Err(ImageFault::Range);
        }
        if rest.len() != 8 * records + texts {
            return Err(ImageFault::Length);
        }
        Ok(Header { records, texts })
    }
}
