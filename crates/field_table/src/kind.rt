ghost use Rattle.std.specs.Prelude.{◌≡◌};
ghost use Rattle.field_table.specs.Value.{initial_of};

use crate::value::Value;
use fission_ids::Text;

/// What a field may hold, and what it holds in a new context.
#[derive(Clone, Copy, Debug, PartialEq, Eq)]
pub enum Kind {
    /// True or false.
    Flag {
        /// What a new context has.
        initial: bool,
    },
    /// A whole number from 0 on.
    Number {
        /// The greatest number that may be given.
        max: u64,
        /// What a new context has.
        initial: u64,
    },
    /// A text of at most 64 bytes of UTF-8, which is empty at first.
    Words,
    /// The number of a window global, 0 for none, as at first.
    Window,
    /// The number of a browsing context, 0 for none, as at first.
    Context,
}

impl Kind {
    // What a field of this kind holds in a new context.
    pub(crate) fn initial_value(self) -> Value
        ensures { result ≡ initial_of self }
    {
        match self {
            Kind::Flag { initial } => Value::Flag(initial),
            Kind::Number { max: _, initial } => Value::Number(initial),
            Kind::Words => Value::Words(Text::empty()),
            Kind::Window | Kind::Context => Value::Number(0),
        }
    }
}
