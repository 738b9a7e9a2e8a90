// The value of a literal.
ghost use Rattle.std.specs.Prelude.{◌≡◌};
ghost use Rattle.gr_trail.specs.Columns.{truth_of};

/// What is stored of a literal, in one byte.
#[derive(Clone, Copy)]
#[repr(u8)]
pub(crate) enum Value {
    Open,
    True,
    False,
}

const _: () = prove!(size_of::<Value>() == 1);

impl Value {
    /// Whether the literal is true: `None` where its variable has no value.
    pub(crate) fn truth(self) -> Option<bool>
        ensures { result ≡ truth_of self }
    {
        match self {
            Value::Open => None,
            Value::True => Some(true),
            Value::False => Some(false),
        }
    }
}
