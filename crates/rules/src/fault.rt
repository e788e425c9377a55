ghost use Rattle.std.specs.Prelude.{◌≡◌};

// Which rule of typing a record breaks.
#[derive(Clone, Copy)]
pub enum Broken {
    Unbound,
    Mistyped,
    Count,
    Arms,
}

#[derive(Clone, Copy)]
pub struct TypeFault {
    pub broken: Broken,
    pub record: usize,
}

impl Broken {
    pub fn at(self, place: usize) -> TypeFault
        ensures { result ≡ record { broken = self; «record» = place } }
    {
        TypeFault {
            broken: self,
            record: place,
        }
    }
}
