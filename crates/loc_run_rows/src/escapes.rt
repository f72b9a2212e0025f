//! Bytes as the rows write them: `\n`, `\r` and `\t` as in Rust, `\s` for a space, `\\` for a backslash, `\xHH` for any byte, and `\e` for none.

ghost use Rattle.std.specs.Prelude.{◌<◌};

use crate::page::Page;
use std::alloc::Global;
use std::mem;

// How far an escape is read: not begun, its backslash, `\x`, or its high digit, times 16.
#[derive(Clone, Copy)]
enum Escape {
    None,
    Begun,
    High,
    Low(u8),
}

// The byte that a letter behind a backslash stands for.
fn meant(page: &mut Page, letter: u8) -> u8 {
    match letter {
        b'n' => b'\n',
        b'r' => b'\r',
        b't' => b'\t',
        b's' => b' ',
        b'\\' => b'\\',
        _ => {
            page.refuse();
            0
        }
    }
}

// The value of a hexadecimal digit.
fn digit(page: &mut Page, letter: u8) -> u8
    ensures { result < 16 }
{
    match letter {
        b'0'..=b'9' => letter - b'0',
        b'A'..=b'F' => letter - b'A' + 10,
        _ => {
            page.refuse();
            0
        }
    }
}

// Reads a letter of an escape.
fn step(page: &mut Page, escape: Escape, letter: u8) -> Escape {
    let byte = match escape {
        Escape::None if letter == b'\\' => return Escape::Begun,
        Escape::None => letter,
        Escape::Begun if letter == b'x' => return Escape::High,
        Escape::Begun if letter == b'e' => return Escape::None,
        Escape::Begun => meant(page, letter),
        Escape::High => return Escape::Low(digit(page, letter) * 16),
        Escape::Low(high) => high | digit(page, letter),
    };
    page.make(&[byte]);
    Escape::None
}

/// Puts the bytes that a text of a row stands for behind those of the file that a step makes.
pub(crate) fn put_unescaped(page: &mut Page, text: &str) {
    let mut escape = Escape::None;
    for letter in text.bytes() {
        escape = step(page, escape, letter);
    }
    match escape {
        Escape::None => {}
        _ => page.refuse(),
    }
}

/// The bytes that a text of a row stands for, in place of those of the file that a step makes.
pub(crate) fn unescaped(page: &mut Page, alloc: Global, text: &str) -> Vec<u8> {
    page.made.clear();
    put_unescaped(page, text);
    mem::replace(&mut page.made, Vec::new(alloc))
}

/// Prints a byte as a row writes it.
pub(crate) fn put_escaped(page: &mut Page, byte: u8) {
    let done = match byte {
        b'\\' => page.text.push_str("\\\\"),
        b' '..=b'~' => page.text.push(char::from(byte)),
        other => write!(page.text, "\\x{other:02X}"),
    };
    page.note(done.is_err());
}
