ghost use Rattle.std.specs.Prelude.{◌≡◌};
ghost use Rattle.verdict.specs.Cases.{image_K, KAccepted, KWithout4, KWithout16};

// Nine bytes of header, and then a line for each of the records, counted from 0:
//  0 ENUM 0, 1 CASE 0 of no field, 2 CASE 1 of one field, 3 its TYPE text, 4 CLOSE,
//  5 DEF 0 of two parameters, 6 TYPE number, 7 TYPE text, 8 TYPE enum 0, which is the result,
//  9 IF, 10 LT, 11 LOCAL 0, 12 NUM 50000, 13 MAKE case 1, 14 LOCAL 1, 15 MAKE case 0, 16 CLOSE.
fn bytes() -> [u8; 145]
    ensures { result ≡ image_K }
{
    *b"RUL\x01\x00\x11\x00\x00\x00\
       \x01\x00\x00\x00\x00\x00\x00\x00\
       \x02\x00\x00\x00\x00\x00\x00\x00\
       \x02\x01\x01\x00\x00\x00\x00\x00\
       \x08\x03\x00\x00\x00\x00\x00\x00\
       \x00\x00\x00\x00\x00\x00\x00\x00\
       \x03\x02\x00\x00\x00\x00\x00\x00\
       \x08\x01\x00\x00\x00\x00\x00\x00\
       \x08\x03\x00\x00\x00\x00\x00\x00\
       \x08\x04\x00\x00\x00\x00\x00\x00\
       \x1d\x00\x00\x00\x00\x00\x00\x00\
       \x1b\x00\x00\x00\x00\x00\x00\x00\
       \x14\x00\x00\x00\x00\x00\x00\x00\
       \x11\x00\x00\x00\x50\xc3\x00\x00\
       \x20\x01\x00\x00\x01\x00\x00\x00\
       \x14\x00\x01\x00\x00\x00\x00\x00\
       \x20\x00\x00\x00\x00\x00\x00\x00\
       \x00\x00\x00\x00\x00\x00\x00\x00"
}

// A card to try, with one enum and one function: the check's answer is `ok 1 1`. With one record
// fewer, and 16 for their count, it is refused: without record 4, so that the ENUM is left open, by
// `no 8 4 0`, and without record 16, the CLOSE of the DEF, by `no 8 16 5`.
pub fn worked_card() -> [u8; 145]
    ensures bytes { result ≡ image_K }
    ensures accepted { KAccepted }
    ensures without4 { KWithout4 }
    ensures without16 { KWithout16 }
{
    bytes()
}
