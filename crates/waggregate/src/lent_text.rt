//! Texts, lent with the values that they lie in.
ghost use Rattle.std.specs.Prelude.{◌≡◌};
ghost use Rattle.wvalues.specs.Meaning.{Text, meaning, text_in};

use wvalues::Value;

/// A value that is a text.
#[derive(Clone, Copy, Debug)]
pub(crate) struct LentText<'a> {
    /// The value, whose copies share the text.
    pub(crate) value: &'a Value,
    ghost is_text: { meaning value.now ≡ Text (text_in (meaning value.now)) },
}

impl<'a> LentText<'a> {
    /// The text, where it lies.
    pub(crate) fn as_str(&self) -> &str
        ensures { result.now ≡ text_in (meaning self.now.value.now) }
    {
        self.value.text()
    }
}
