//! Steps of a row that ask what no command shows and no clause says.

ghost use Rattle.std.specs.Prelude.{◌≡◌, ◌<◌};

use crate::escapes::unescaped;
use crate::making::cut;
use crate::page::Page;
use crate::places::place;
use crate::stage::Stage;
use crate::steady::steady;
use loc_top::Steps;
use loc_wkt::Tokens;
use std::alloc::Global;
use std::marker::Brand;
use std::sync::ledger::{Blank, Ledger};

// Prints where the tokens of a text begin and end.
fn show_tokens(page: &mut Page, text: &[u8]) {
    for token in Tokens::new(text) {
        let numbers = [
            ("", token.text.len() as u64),
            (" bytes at ", token.start as u64),
        ];
        page.put_numbers(&numbers, ", ");
    }
    page.put("no more\n");
}

// `ask tokens TEXT`: where the tokens of a text begin and end.
fn tokens(page: &mut Page, alloc: Global, text: &str) {
    let text = unescaped(page, alloc, text);
    show_tokens(page, &text);
}

// How many bytes a counter of steps has.
fn counter_size<L: Ledger>(blank: Blank) -> usize
    requires name { blank.name ≡ L.name }
    requires parts { blank.parts ≡ L.parts }
    requires some { 0 < L.parts }
{
    let _steps = Steps::<L>::new(blank);
    size_of::<Steps<L>>()
}

// `ask counter`: how many bytes a counter of steps has.
fn counter(page: &mut Page) {
    page.put_numbers(
        &[("", counter_size::<Brand>(Blank::new(1)) as u64)],
        " bytes\n",
    );
}

/// `ask tokens TEXT`, `ask place LAYER X Y`, `ask steady` or `ask counter`.
pub(crate) fn ask(page: &mut Page, stage: &mut Stage, line: &str) {
    let (asked, rest) = cut(line);
    match asked {
        "tokens" => tokens(page, stage.alloc, rest),
        "place" => place(page, stage, rest),
        "steady" => steady(page, stage.alloc),
        "counter" => counter(page),
        _ => page.refuse(),
    }
}
