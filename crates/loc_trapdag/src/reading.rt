// The text of an order, line by line.

ghost use Rattle.std.specs.Prelude.{◌≡◌, ℕ, ◌<◌, ◌≤◌, ◌^◌, Ok, IfOk, IfErr, IsTrue, OnOk, Some, [], ◌∷◌, ◌++◌, ◌≢◌, length, get_or, min, replicate};
ghost use Rattle.std.specs.Char.{is_ascii_digit};
ghost use Rattle.std.specs.List.{list_all, prefix_len};
ghost use Rattle.std.specs.Str.Parse.{digits_value};
ghost use Rattle.loc_spec_text.specs.Limits.{most_text};
ghost use Rattle.loc_spec_text.specs.Bytes.{is_white as is_white_byte};
ghost use Rattle.loc_trapdag.specs.Orders.{IsOrder, IsFaultOf, order_of, digits_of, rest_of, line_number, number_fault, IsFreeFault, IsCapped};

use crate::OrderFault;
use loc_wkt::{is_blank, next_line};
use std::alloc::{AllocError, Global};

/// A number past every edge, at which reading stops to count.
const CAP: u64 = 1 << 32;

const MOST_DIGITS: usize = 20;

// Space, tab, CR or LF.
fn is_white(byte: u8) -> bool
    ensures { result ≡ is_white_byte byte }
{
    matches!(byte, b' ' | b'\t' | b'\r' | b'\n')
}

// The value of digits, or the cap where it is not below it.
fn capped_value(digits: &[u8]) -> u64
    requires { IsTrue (list_all is_ascii_digit digits.now) }
    ensures { result ≡ min (digits_value 10 digits.now) (2 ^ 32) }
{
    let mut value = 0u64;
    for digit in digits {
        value = (value * 10 + u64::from(*digit - b'0')).min(CAP);
    }
    value
}

// How many bytes at the front are white space.
fn white_count(text: &[u8]) -> usize
    ensures { result ≡ prefix_len is_white_byte text.now }
{
    text.iter().take_while(|b| is_white(**b)).count()
}

// How many bytes at the front are digits.
fn digit_count(text: &[u8]) -> usize
    ensures { result ≡ prefix_len is_ascii_digit text.now }
{
    text.iter().take_while(|b| b.is_ascii_digit()).count()
}

// The digits of a line behind white space at its front, and what follows them.
fn cut_digits(line: &[u8]) -> (&[u8], &[u8])
    ensures digits { result.0.now ≡ digits_of line.now }
    ensures rest { result.1.now ≡ rest_of line.now }
{
    let (_, text) = line.split_at(white_count(line));
    text.split_at(digit_count(text))
}

// The number of a line, or the cap where it is not below it.
fn number_of(line: &[u8]) -> Option<u64>
    ensures { IsCapped (line_number line.now) result }
{
    let (digits, rest) = cut_digits(line);
    if !is_blank(rest) || digits.is_empty() || digits.len() > MOST_DIGITS {
        return None;
    }
    Some(capped_value(digits))
}

// The edge of a line.
fn edge_of(line: &[u8], number: u32, edges: u32) -> Result<u32, OrderFault>
    ensures value { IfOk result (λ edge. line_number line.now ≡ Some edge) }
    ensures in_range { IfOk result (λ edge. edge < edges) }
    ensures fault { IfErr result (λ fault. number_fault edges [] number (line_number line.now) ≡ Some fault) }
{
    match number_of(line) {
        None => Err(OrderFault::NotNumber { line: number }),
        Some(edge) if edge < u64::from(edges) => Ok(edge as u32),
        Some(_) => Err(OrderFault::OutOfRange { line: number }),
    }
}

// Puts an edge behind the others.
fn put(order: &mut Vec<u32>, edge: u32) -> Result<(), AllocError>
    ensures { OnOk result (order.new.items ≡ order.old.items ++ edge ∷ []) }
{
    order.push(edge)?;
    Ok(())
}

// Refuses the least edge that has no line.
fn find_missing(line_of: &[u32], edges: u32) -> Result<(), OrderFault>
    requires { length line_of.now ≡ edges }
    ensures ok { OnOk result ((e : ℕ) → e < edges → get_or line_of.now e 0 ≢ 0) }
    ensures err { IfErr result (IsFreeFault edges line_of.now) }
{
    for edge in 0..edges {
        if line_of[edge as usize] == 0 {
            return Err(OrderFault::Missing { edge });
        }
    }
    Ok(())
}

// Reads the lines of a text: puts each edge behind the others, and its line into its place.
fn read_lines(
    text: &[u8],
    edges: u32,
    line_of: &mut [u32],
    order: &mut Vec<u32>,
) -> Result<(), OrderFault>
    requires size { length text.now ≤ most_text }
    requires no_line { line_of.old ≡ replicate edges 0 }
    requires no_edge { order.old.items ≡ [] }
    ensures ok { OnOk result (order_of edges text.now ≡ Ok order.new.items) }
    ensures permutation { OnOk result (IsOrder edges order.new.items) }
    ensures err { IfErr result (IsFaultOf (order_of edges text.now)) }
{
    let mut rest = text;
    let mut number = 0u32;
    while let Some((line, more)) = next_line(rest) {
        number += 1;
        if !is_blank(line) {
            let edge = edge_of(line, number, edges)?;
            let earlier = line_of[edge as usize];
            if earlier != 0 {
                return Err(OrderFault::Twice {
                    line: number,
                    earlier,
                });
            }
            line_of[edge as usize] = number;
            put(order, edge)?;
        }
        rest = more;
    }
    find_missing(line_of, edges)
}

// The edges of a text, in order.
pub(crate) fn read_order(alloc: Global, text: &[u8], edges: u32) -> Result<Vec<u32>, OrderFault>
    requires size { length text.now ≤ most_text }
    ensures ok { IfOk result (λ order. order_of edges text.now ≡ Ok order.items) }
    ensures permutation { IfOk result (λ order. IsOrder edges order.items) }
    ensures err { IfErr result (IsFaultOf (order_of edges text.now)) }
{
    let mut line_of = vec![in alloc; 0u32; edges as usize]?;
    let mut order = Vec::new(alloc);
    read_lines(text, edges, &mut line_of, &mut order)?;
    Ok(order)
}
