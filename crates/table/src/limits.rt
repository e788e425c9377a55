ghost use Rattle.std.specs.Prelude.{◌≡◌};
ghost use Rattle.table.specs.Kinds.{limits_of, within, fits, up_to as allowed_up_to, any_number as any_number_of_32};

use crate::Kind;
use image::Record;

// What a kind allows: A and B from 0 up to a number, and C from one number to another.
#[derive(Clone, Copy)]
pub struct Limits {
    a: u8,
    b: u16,
    least: i32,
    most: i32,
}

// C is from 0 up to a number.
fn up_to(a: u8, b: u16, c: u8) -> Limits
    ensures { result ≡ allowed_up_to a b c }
{
    Limits {
        a,
        b,
        least: 0,
        most: c as i32,
    }
}

// C is any number of 32 bits.
fn any_number() -> Limits
    ensures { result ≡ any_number_of_32 }
{
    Limits {
        a: 0,
        b: 0,
        least: i32::MIN,
        most: i32::MAX,
    }
}

impl Limits {
    fn hold(self, r: Record) -> bool
        ensures { result ≡ within self r }
    {
        r.a <= self.a && r.b <= self.b && self.least <= r.c && r.c <= self.most
    }
}

impl Kind {
    pub fn limits(self) -> Limits
        ensures { result ≡ limits_of self }
    {
        match self {
            Kind::Enum => up_to(0, 31, 0),
            Kind::Case => up_to(4, 15, 0),
            Kind::Def | Kind::Call => up_to(4, 63, 0),
            Kind::Ty => up_to(4, 31, 0),
            Kind::Number => any_number(),
            Kind::Boolean => up_to(1, 0, 0),
            Kind::Text => up_to(0, 65535, 24),
            Kind::Local | Kind::Val => up_to(0, 65535, 0),
            Kind::Make => up_to(4, 31, 15),
            Kind::Arm => up_to(4, 65535, 15),
            Kind::Close | Kind::Unit | Kind::If | Kind::Match | Kind::Exit => up_to(0, 0, 0),
            Kind::Add | Kind::Mul | Kind::Div | Kind::Mod => up_to(0, 0, 0),
            Kind::Concat | Kind::Eq | Kind::Lt | Kind::Seq => up_to(0, 0, 0),
        }
    }

    // Only an enum's TYPE has a B other than 0, and an ARM's names end at 65,536.
    pub fn allows(self, r: Record) -> bool
        ensures { result ≡ fits self r }
    {
        if !self.limits().hold(r) {
            return false;
        }
        match self {
            Kind::Ty => r.a == 4 || r.b == 0,
            Kind::Arm => r.a as u32 + r.b as u32 <= 65536,
            _ => true,
        }
    }
}
