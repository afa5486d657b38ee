//! The values of a JSON object as they are written.
use serde_json::{Error, Value};
use std::alloc::Global;

// What a byte of an object's text does.
#[derive(Clone, Copy)]
enum Mark {
    // It begins the object.
    Begin,
    // It ends the name of a member of the object.
    Colon,
    // It ends a member, or the object.
    End,
    // It is inside one of these.
    Inside,
}

// A place in the text of an object: how many braces and brackets are open, and whether a string is.
#[derive(Clone, Copy)]
struct Place {
    depth: usize,
    in_string: bool,
    // Set after a backslash in a string.
    is_escaped: bool,
}

impl Place {
    // Goes past a byte in a string.
    fn pass_in_string(&mut self, byte: u8) {
        if self.is_escaped {
            self.is_escaped = false;
        } else if byte == b'\\' {
            self.is_escaped = true;
        } else if byte == b'"' {
            self.in_string = false;
        }
    }

    // Goes past a brace or a bracket that opens.
    fn open(&mut self) -> Mark {
        let is_first = self.depth == 0;
        self.depth = self.depth.saturating_add(1);
        if is_first { Mark::Begin } else { Mark::Inside }
    }

    // Goes past one that closes.
    fn close(&mut self) -> Mark {
        self.depth = self.depth.saturating_sub(1);
        if self.depth == 0 {
            Mark::End
        } else {
            Mark::Inside
        }
    }

    // Goes past a byte.
    fn pass(&mut self, byte: u8) -> Mark {
        if self.in_string {
            self.pass_in_string(byte);
            return Mark::Inside;
        }
        match byte {
            b'{' | b'[' => self.open(),
            b'}' | b']' => self.close(),
            b':' if self.depth == 1 => Mark::Colon,
            b',' if self.depth == 1 => Mark::End,
            b'"' => {
                self.in_string = true;
                Mark::Inside
            }
            _ => Mark::Inside,
        }
    }
}

// Returns true if this is a JSON string of this text.
fn is_string_of(alloc: Global, json: Option<&str>, text: &str) -> Result<bool, Error> {
    let Some(json) = json else {
        return Ok(false);
    };
    let value = Value::from_str(alloc, json)?;
    match value.as_str() {
        Some(found) => Ok(found == text),
        None => Ok(false),
    }
}

/// The value of a member as it is written in the text of a JSON object; if several members have the name, that of the last one. Fails with
/// an `Error` if an allocation fails.
pub fn written_value<'a>(
    alloc: Global,
    object: &'a str,
    name: &str,
) -> Result<Option<&'a str>, Error> {
    let bytes = object.as_bytes();
    let mut place = Place {
        depth: 0,
        in_string: false,
        is_escaped: false,
    };
    let mut found = None;
    let mut begin = 0usize;
    let mut colon = 0usize;
    for at in 0..bytes.len() {
        match place.pass(bytes[at]) {
            Mark::Begin => begin = at.saturating_add(1),
            Mark::Colon => colon = at,
            Mark::End => {
                if is_string_of(alloc, object.get(begin..colon), name)? {
                    found = object.get(colon.saturating_add(1)..at);
                }
                begin = at.saturating_add(1);
            }
            Mark::Inside => {}
        }
    }
    Ok(found.map(|text| text.trim_ascii()))
}
