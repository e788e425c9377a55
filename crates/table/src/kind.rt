ghost use Rattle.std.specs.Prelude.{◌≡◌};
ghost use Rattle.std.specs.Result.{result_ok};
ghost use Rattle.table.specs.Kinds.{kind_at};

// The kinds of record that the table knows.
#[derive(Clone, Copy, PartialEq, Eq, Debug)]
pub enum Kind {
    Close,
    Enum,
    Case,
    Def,
    Ty,
    Unit,
    Number,
    Boolean,
    Text,
    Local,
    Add,
    Mul,
    Div,
    Mod,
    Concat,
    Eq,
    Lt,
    Seq,
    If,
    Val,
    Call,
    Make,
    Match,
    Arm,
    Exit,
}

// A number that no kind has.
#[derive(Clone, Copy, PartialEq, Eq, Debug)]
pub struct UnknownKind;

impl TryFrom<u8> for Kind {
    type Error = UnknownKind;

    ghost try_from_gives = { λ number result. result_ok result ≡ kind_at number };

    #[tactic(auto, unfolding(crate::specs::Kinds::kind_at))]
    fn try_from(number: u8) -> Result<Kind, UnknownKind> {
        Ok(match number {
            0 => Kind::Close,
            1 => Kind::Enum,
            2 => Kind::Case,
            3 => Kind::Def,
            8 => Kind::Ty,
            16 => Kind::Unit,
            17 => Kind::Number,
            18 => Kind::Boolean,
            19 => Kind::Text,
            20 => Kind::Local,
            21 => Kind::Add,
            22 => Kind::Mul,
            23 => Kind::Div,
            24 => Kind::Mod,
            25 => Kind::Concat,
            26 => Kind::Eq,
            27 => Kind::Lt,
            28 => Kind::Seq,
            29 => Kind::If,
            30 => Kind::Val,
            31 => Kind::Call,
            32 => Kind::Make,
            33 => Kind::Match,
            34 => Kind::Arm,
            35 => Kind::Exit,
            _ => return Err(UnknownKind),
        })
    }
}
