//! Places in a text, for people.
ghost use Rattle.std.specs.Prelude.{◌≡◌, ◌<◌, ◌≤◌, length};
ghost use Rattle.plan_words.specs.Places.{after_byte, place_behind};

/// A line and a column, from 1. A column is a character.
#[derive(Clone, Copy, Debug, PartialEq, Eq)]
pub struct Place {
    pub line: usize,
    pub column: usize,
}

/// The place behind so many bytes of a text.
pub fn place_behind(text: &[u8], at: usize) -> Place
    requires { at ≤ length text.now }
    ensures { result ≡ place_behind text.now at }
{
    let mut place = Place { line: 1, column: 1 };
    for byte in &text[..at] {
        place = after_byte(place, *byte);
    }
    place
}

/// The place behind one byte more. The inner bytes of a character have the place of its first.
fn after_byte(place: Place, byte: u8) -> Place
    requires line { place.line < usize.MAX }
    requires column { place.column < usize.MAX }
    ensures { result ≡ after_byte place byte }
{
    match byte {
        b'\n' => Place {
            line: place.line + 1,
            column: 1,
        },
        0x80..=0xbf => place,
        _ => Place {
            line: place.line,
            column: place.column + 1,
        },
    }
}
