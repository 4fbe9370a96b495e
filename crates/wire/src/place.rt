//! Where the next byte of a head stands.
ghost use Rattle.std.specs.Prelude.{◌≡◌};
ghost use Rattle.wire.specs.Cut as spec;

/// Where the next byte of a head stands: in the empty lines before its first line, after a carriage return there,
/// within a line, at the start of a later line, or after a carriage return there.
#[derive(Clone, Copy, Debug)]
pub enum Place {
    Blank,
    BlankReturn,
    Text,
    Start,
    StartReturn,
}

impl Place {
    /// The place after a byte; none where the head ends with it.
    pub fn next(self, byte: u8) -> Option<Place>
        ensures { result ≡ spec.next self byte }
    {
        match self {
            Place::Blank => Some(match byte {
                b'\n' => Place::Blank,
                b'\r' => Place::BlankReturn,
                _ => Place::Text,
            }),
            Place::BlankReturn => Some(match byte {
                b'\n' => Place::Blank,
                _ => Place::Text,
            }),
            Place::Text => Some(match byte {
                b'\n' => Place::Start,
                _ => Place::Text,
            }),
            Place::Start => match byte {
                b'\n' => None,
                b'\r' => Some(Place::StartReturn),
                _ => Some(Place::Text),
            },
            Place::StartReturn => match byte {
                b'\n' => None,
                _ => Some(Place::Text),
            },
        }
    }
}
