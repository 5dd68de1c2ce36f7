//! The two kinds of keys that are passed on.
ghost use Rattle.std.specs.Prelude.{◌≡◌};
ghost use Rattle.input_latch.specs.KeyClass.{first_of, last_of};

/// The two kinds of keys that are passed on (HID Usage Tables, page 7).
#[derive(Clone, Copy)]
pub enum KeyClass {
    /// Keys of which a boot report shows at most six (HID 1.11, appendix B).
    Ordinary,
    /// Control, shift, alt and GUI on both sides, each with a bit of its own in a boot report.
    Modifier,
}

impl KeyClass {
    /// The first usage of the class.
    pub fn first(self) -> u8
        ensures { result ≡ first_of self }
    {
        match self {
            KeyClass::Ordinary => 0x04,
            KeyClass::Modifier => 0xe0,
        }
    }

    /// The last usage of the class.
    pub fn last(self) -> u8
        ensures { result ≡ last_of self }
    {
        match self {
            KeyClass::Ordinary => 0xa4,
            KeyClass::Modifier => 0xe7,
        }
    }
}
