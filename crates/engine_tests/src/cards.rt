use std::alloc::{AllocError, Global};

// A record before it is written as eight bytes: kind, A, B and C.
struct Line(u8, u8, u16, i32);

// A card with every kind of record. Its enum has a case of no field, one of a text, and one of a
// number and a value of the enum itself.
const EVERY: [Line; 100] = [
    Line(1, 0, 0, 0),
    Line(2, 0, 0, 0),
    Line(2, 1, 1, 0),
    Line(8, 3, 0, 0),
    Line(2, 2, 2, 0),
    Line(8, 1, 0, 0),
    Line(8, 4, 0, 0),
    Line(0, 0, 0, 0),
    // 8: function 0, of a number and a text: case 1 with the text below 50000, else case 0
    Line(3, 2, 0, 0),
    Line(8, 1, 0, 0),
    Line(8, 3, 0, 0),
    Line(8, 4, 0, 0),
    Line(29, 0, 0, 0),
    Line(27, 0, 0, 0),
    Line(20, 0, 0, 0),
    Line(17, 0, 0, 50000),
    Line(32, 1, 0, 1),
    Line(20, 0, 1, 0),
    Line(32, 0, 0, 0),
    Line(0, 0, 0, 0),
    // 20: function 1 divides by zero
    Line(3, 0, 1, 0),
    Line(8, 1, 0, 0),
    Line(23, 0, 0, 0),
    Line(17, 0, 0, 1),
    Line(17, 0, 0, 0),
    Line(0, 0, 0, 0),
    // 26: function 2 goes out of range
    Line(3, 0, 2, 0),
    Line(8, 1, 0, 0),
    Line(21, 0, 0, 0),
    Line(17, 0, 0, 2147483647),
    Line(17, 0, 0, 1),
    Line(0, 0, 0, 0),
    // 32: function 3 joins a text to itself
    Line(3, 1, 3, 0),
    Line(8, 3, 0, 0),
    Line(8, 3, 0, 0),
    Line(25, 0, 0, 0),
    Line(20, 0, 0, 0),
    Line(20, 0, 0, 0),
    Line(0, 0, 0, 0),
    // 39: function 4 exits
    Line(3, 0, 4, 0),
    Line(8, 1, 0, 0),
    Line(35, 0, 0, 0),
    Line(8, 1, 0, 0),
    Line(19, 0, 0, 5),
    Line(0, 0, 0, 0),
    // 45: function 5 only calls itself
    Line(3, 0, 5, 0),
    Line(8, 0, 0, 0),
    Line(31, 0, 5, 0),
    Line(0, 0, 0, 0),
    // 49: function 6, of a number: two to its power, by two calls
    Line(3, 1, 6, 0),
    Line(8, 1, 0, 0),
    Line(8, 1, 0, 0),
    Line(29, 0, 0, 0),
    Line(27, 0, 0, 0),
    Line(20, 0, 0, 0),
    Line(17, 0, 0, 1),
    Line(17, 0, 0, 1),
    Line(21, 0, 0, 0),
    Line(31, 1, 6, 0),
    Line(21, 0, 0, 0),
    Line(20, 0, 0, 0),
    Line(17, 0, 0, -1),
    Line(31, 1, 6, 0),
    Line(21, 0, 0, 0),
    Line(20, 0, 0, 0),
    Line(17, 0, 0, -1),
    Line(0, 0, 0, 0),
    // 67: function 7, of a number: makes a value of case 2, takes it apart and compares its field
    Line(3, 1, 7, 0),
    Line(8, 1, 0, 0),
    Line(8, 1, 0, 0),
    Line(30, 0, 1, 0),
    Line(32, 2, 0, 2),
    Line(20, 0, 0, 0),
    Line(32, 1, 0, 1),
    Line(19, 0, 0, 5),
    Line(28, 0, 0, 0),
    Line(16, 0, 0, 0),
    Line(33, 0, 0, 0),
    Line(20, 0, 1, 0),
    Line(34, 0, 0, 0),
    Line(17, 0, 0, 0),
    Line(34, 1, 2, 1),
    Line(17, 0, 0, 1),
    Line(34, 2, 2, 2),
    Line(29, 0, 0, 0),
    Line(26, 0, 0, 0),
    Line(20, 0, 3, 0),
    Line(32, 1, 0, 1),
    Line(19, 0, 0, 5),
    Line(24, 0, 0, 0),
    Line(22, 0, 0, 0),
    Line(20, 0, 2, 0),
    Line(17, 0, 0, 3),
    Line(17, 0, 0, 7),
    Line(29, 0, 0, 0),
    Line(18, 1, 0, 0),
    Line(17, 0, 0, -1),
    Line(17, 0, 0, -2),
    Line(0, 0, 0, 0),
    Line(0, 0, 0, 0),
];

// The card's image: its header, its records and the text "Skerr".
pub fn every(heap: Global) -> Result<Vec<u8>, AllocError> {
    let mut image = Vec::from_slice(heap, &[b'R', b'U', b'L', 1, 0, 100, 0, 5, 0])?;
    for Line(kind, a, b, c) in &EVERY {
        let [b0, b1] = b.to_le_bytes();
        let [c0, c1, c2, c3] = c.to_le_bytes();
        image.extend_from_slice(&[*kind, *a, b0, b1, c0, c1, c2, c3])?;
    }
    image.extend_from_slice(b"Skerr")?;
    Ok(image)
}
