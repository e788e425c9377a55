// What a call needs of a function: where its body begins, and how many parameters it has.
#[derive(Clone, Copy)]
pub struct Function {
    pub body: u16,
    pub parameters: u8,
}
