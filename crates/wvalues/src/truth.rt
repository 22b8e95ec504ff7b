ghost use Rattle.std.specs.Prelude.{◌≡◌};
ghost use Rattle.wvalues.specs.Truth.{both, either, opposite};

/// What a condition comes to.
#[derive(Clone, Copy, Debug, PartialEq, Eq)]
pub enum Truth {
    Yes,
    No,
    /// Neither: a null was compared.
    Unknown,
}

impl Truth {
    /// No where one of them is no, yes where both are, else unknown.
    pub fn and(self, other: Truth) -> Truth
        ensures { result ≡ both self other }
    {
        match (self, other) {
            (Truth::No, _) | (_, Truth::No) => Truth::No,
            (Truth::Yes, Truth::Yes) => Truth::Yes,
            _ => Truth::Unknown,
        }
    }

    /// Yes where one of them is yes, no where both are no, else unknown.
    pub fn or(self, other: Truth) -> Truth
        ensures { result ≡ either self other }
    {
        match (self, other) {
            (Truth::Yes, _) | (_, Truth::Yes) => Truth::Yes,
            (Truth::No, Truth::No) => Truth::No,
            _ => Truth::Unknown,
        }
    }

    /// The opposite of yes or no; unknown stays unknown.
    pub fn not(self) -> Truth
        ensures { result ≡ opposite self }
    {
        match self {
            Truth::Yes => Truth::No,
            Truth::No => Truth::Yes,
            Truth::Unknown => Truth::Unknown,
        }
    }
}
