ghost use Rattle.std.specs.Prelude.{◌≡◌, Decides};
ghost use Rattle.battery.specs.Same.{same_value, same_value_laws};

// What an expression comes to. Texts and enum values lie in cells of the store: a value of theirs
// is the place of one.
#[derive(Clone, Copy, Default, Debug)]
pub enum Value {
    #[default]
    Unit,
    Number(i32),
    Boolean(bool),
    Place(u16),
}

// By hand: the clause `means` and a must-fail edit stand on it, and a derive has neither.
impl PartialEq for Value {
    ghost eq = { same_value };

    ghost laws = { same_value_laws };

    fn eq(&self, other: &Value) -> bool
        ensures value { result ≡ same_value self.now other.now }
        ensures means { Decides result (self.now ≡ other.now) }
    {
        match (self, other) {
            (Value::Unit, Value::Unit) => true,
            (Value::Number(a), Value::Number(b)) => *a == *b,
            (Value::Boolean(a), Value::Boolean(b)) => *a == *b,
            (Value::Place(a), Value::Place(b)) => *a == *b,
            _ => false,
        }
    }
}
