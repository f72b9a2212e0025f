//! Index files whose nodes were put there to keep a judge busy: long chains, and paths that double at each level.

use crate::making::{cut, number};
use crate::page::Page;

/// The number that stands at a place of an index.
pub(crate) fn number_at(page: &mut Page, index: &[u8], at: usize) -> u32 {
    match index.get(at..) {
        Some([a, b, c, d, ..]) => u32::from_be_bytes([*a, *b, *c, *d]),
        _ => {
            page.refuse();
            0
        }
    }
}

// Puts nodes behind those of an index: each has edge 1, and leads to the next one, on the right or on both sides.
fn put_nodes(page: &mut Page, before: u32, count: u32, doubled: bool) {
    for n in 1..=count {
        let next = if n < count {
            before.saturating_add(n + 1)
        } else {
            0
        };
        let right = next.to_be_bytes();
        let left = if doubled { right } else { [0; 4] };
        page.make(&[0, 0, 0, 1]);
        page.make(&left);
        page.make(&right);
        page.make(&[0; 9]);
    }
}

// Puts a number at a place of an index.
fn put_number(page: &mut Page, at: usize, number: u32) {
    let length = page.made.len();
    if length < 4 || at > length - 4 {
        page.refuse();
    } else {
        page.made[at..at + 4].copy_from_slice(&number.to_be_bytes());
    }
}

// Lets the roots of an index, behind so many corners, lead to a node, from a version on.
fn put_roots(page: &mut Page, nodes: u32, corners: u32, version: u64) {
    let behind = 21 * nodes as usize + 4 * corners as usize;
    let length = page.made.len();
    if length < behind {
        page.refuse();
        return;
    }
    for n in version as usize..corners as usize {
        put_number(page, length - behind + 4 * n, nodes.saturating_add(1));
    }
}

/// `hostile COUNT single|double VERSION`: an index with so many hostile nodes more, to which the roots lead from a version on.
pub(crate) fn put_hostile(page: &mut Page, built: &[u8], rest: &str) {
    let (count, rest) = cut(rest);
    let (links, version) = cut(rest);
    let count = number(page, count) as u32;
    let nodes = number_at(page, built, 36);
    let corners = number_at(page, built, 20);
    let version = number(page, version);
    page.make(built);
    put_roots(page, nodes, corners, version);
    put_number(page, 36, nodes.saturating_add(count));
    put_nodes(page, nodes, count, links == "double");
}
