//! Steps of a row that make files.

ghost use Rattle.std.specs.Prelude.{◌<◌, ◌^◌};

use crate::escapes::put_unescaped;
use crate::hostile::put_hostile;
use crate::page::Page;
use crate::shapes::shape;
use crate::stage::Stage;

/// The first word of a text, and what stands behind the space.
pub(crate) fn cut(text: &str) -> (&str, &str) {
    text.split_once(' ').unwrap_or((text, ""))
}

/// The number that a word is, which has 32 bits.
pub(crate) fn number(page: &mut Page, word: &str) -> u64
    ensures { result < 2 ^ 32 }
{
    match word.parse::<u32>() {
        Ok(n) => u64::from(n),
        Err(_) => {
            page.refuse();
            0
        }
    }
}

// `more NAME COUNT BYTES`: these bytes so many times behind those of a file.
fn put_more(page: &mut Page, old: &[u8], rest: &str) {
    let (count, text) = cut(rest);
    page.make(old);
    for _ in 0..number(page, count) {
        put_unescaped(page, text);
    }
}

// `times NAME COUNT`: a file so many times over.
fn put_times(page: &mut Page, old: &[u8], count: &str) {
    for _ in 0..number(page, count) {
        page.make(old);
    }
}

// `splice NAME AT CUT BYTES`: in a file, these bytes in place of as many as are cut out there.
fn put_spliced(page: &mut Page, old: &[u8], rest: &str) {
    let (at, rest) = cut(rest);
    let (count, text) = cut(rest);
    let at = number(page, at) as usize;
    let behind = at + number(page, count) as usize;
    if old.len() < behind {
        page.refuse();
    } else {
        page.make(&old[..at]);
        put_unescaped(page, text);
        page.make(&old[behind..]);
    }
}

// The name of the file that a step makes, of the first word behind it and the rest.
fn made_name<'a>(verb: &str, name: &'a str, behind: &'a str) -> &'a str {
    match verb {
        "copy" => behind,
        "damaged" | "hostile" => "index",
        _ => name,
    }
}

/// Makes a file: `file NAME BYTES`, `save NAME` of what stands on out of the last run, another file as `copy FROM NAME`, the file `index` of the file
/// `sample` by `damaged AT CUT BYTES`, or of the file `built` by `hostile`, a file anew from its own bytes by `more`, `times` or `splice`, or one by a step
/// of `shapes`.
pub(crate) fn make(page: &mut Page, stage: &mut Stage, verb: &str, rest: &str) {
    let (name, behind) = cut(rest);
    page.made.clear();
    match verb {
        "file" => put_unescaped(page, behind),
        "save" => {
            let out = stage.out(page);
            page.make(out);
        }
        "more" => {
            let old = stage.bytes(page, name);
            put_more(page, old, behind);
        }
        "times" => {
            let old = stage.bytes(page, name);
            put_times(page, old, behind);
        }
        "splice" => {
            let old = stage.bytes(page, name);
            put_spliced(page, old, behind);
        }
        "damaged" => {
            let old = stage.bytes(page, "sample");
            put_spliced(page, old, rest);
        }
        "copy" => {
            let old = stage.bytes(page, name);
            page.make(old);
        }
        "hostile" => {
            let old = stage.bytes(page, "built");
            put_hostile(page, old, rest);
        }
        _ => shape(page, stage.alloc, verb, behind),
    }
    stage.put(page, made_name(verb, name, behind));
}
