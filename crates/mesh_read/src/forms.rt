ghost use Rattle.std.specs.Prelude.{◌≡◌, ◌∷◌, [], ◌+◌, ◌-◌, ◌<◌, ◌≤◌, ◌^◌, ◌&&◌, length, slice_index, true, Some, None, IfSome, IfOk, MatchOption, if◌then◌else◌, All};
ghost use Rattle.std.specs.List.{list_all};
ghost use Rattle.std.specs.Str.Parse.{digits_value};
ghost use Rattle.formats.specs.Heads.{words_of};
ghost use Rattle.mesh_files.specs.Files.{IsSmallPlace};
ghost use Rattle.mesh_files.specs.Forms.{place_of_texts, ranks_of_texts, node_head as head_of_nodes, tet_head as head_of_tets, node_line as place_in, tet_line as ranks_in, is_node_number};
ghost use Rattle.mesh_files.specs.Numbers.{is_number, is_the_number, is_number_to, greatest_number};

use crate::decimals::{Decimal, coordinate, read_decimal};
use crate::fields::field_count;
use crate::numbers::number;
use mesh_files::{FileHead, LineFault};
use st_base::Place;
use text_words::next_word;

fn is_this(text: &[u8], wanted: u32) -> bool
    ensures { result ≡ is_the_number wanted text.now }
{
    match number(text) {
        Some(value) => value == wanted,
        None => false,
    }
}

fn number_to(text: &[u8], most: u32) -> Option<u32>
    ensures value { result ≡ (if is_number_to most text.now then Some (digits_value 10 text.now) else None) }
    ensures bound { IfSome result (λ n. n ≤ most) }
{
    match number(text) {
        Some(value) if value <= most => Some(value),
        _ => None,
    }
}

// The first four fields of a text, and what stands behind them.
#[derive(Clone, Copy, Debug)]
struct FirstFour<'a> {
    first: &'a [u8],
    second: &'a [u8],
    third: &'a [u8],
    fourth: &'a [u8],
    rest: &'a [u8],
}

fn first_four(text: &[u8]) -> Option<FirstFour<'_>>
    ensures { MatchOption result
        (length (words_of text.now) < 4)
        (λ f. words_of text.now ≡ f.first.now ∷ f.second.now ∷ f.third.now ∷ f.fourth.now ∷ words_of f.rest.now) }
{
    let (first, rest) = next_word(text)?;
    let (second, rest) = next_word(rest)?;
    let (third, rest) = next_word(rest)?;
    let (fourth, rest) = next_word(rest)?;
    Some(FirstFour {
        first,
        second,
        third,
        fourth,
        rest,
    })
}

// A head of four numbers.
fn head_of_four(
    count: &[u8],
    dimension: &[u8],
    attributes: &[u8],
    markers: &[u8],
) -> Option<FileHead>
    ensures value { result ≡ head_of_nodes (count.now ∷ dimension.now ∷ attributes.now ∷ markers.now ∷ []) }
    ensures bound { IfSome result (λ h. h.extra ≤ 17) }
{
    let count = number(count)?;
    if !is_this(dimension, 3) {
        return None;
    }
    let attributes = number_to(attributes, 16)?;
    let markers = number_to(markers, 1)?;
    Some(FileHead {
        count,
        extra: attributes + markers,
    })
}

/// The head of a .node file that a line is.
pub fn node_head(line: &[u8]) -> Option<FileHead>
    ensures { result ≡ head_of_nodes (words_of line.now) }
{
    let four = first_four(line)?;
    if next_word(four.rest).is_some() {
        return None;
    }
    head_of_four(four.first, four.second, four.third, four.fourth)
}

// A head of three numbers.
fn head_of_three(count: &[u8], nodes: &[u8], attributes: &[u8]) -> Option<FileHead>
    ensures value { result ≡ head_of_tets (count.now ∷ nodes.now ∷ attributes.now ∷ []) }
    ensures bound { IfSome result (λ h. h.extra ≤ 17) }
{
    let count = number(count)?;
    if !is_this(nodes, 4) {
        return None;
    }
    let extra = number_to(attributes, 16)?;
    Some(FileHead { count, extra })
}

/// The head of an .ele file that a line is.
pub fn tet_head(line: &[u8]) -> Option<FileHead>
    ensures { result ≡ head_of_tets (words_of line.now) }
{
    let (count, rest) = next_word(line)?;
    let (nodes, rest) = next_word(rest)?;
    let (attributes, rest) = next_word(rest)?;
    if next_word(rest).is_some() {
        return None;
    }
    head_of_three(count, nodes, attributes)
}

// Three decimals that are coordinates.
fn place(x: &[u8], y: &[u8], z: &[u8]) -> Result<Place, LineFault>
    ensures value { result ≡ place_of_texts x.now y.now z.now }
    ensures small { IfOk result IsSmallPlace }
{
    let (Some(x), Some(y), Some(z)) = (read_decimal(x), read_decimal(y), read_decimal(z)) else {
        return Err(LineFault::Form);
    };
    let (Some(x), Some(y), Some(z)) = (coordinate(&x), coordinate(&y), coordinate(&z)) else {
        return Err(LineFault::Coordinate);
    };
    Ok(Place { x, y, z })
}

/// The place of node `wanted` on its line, with so many more fields behind it.
pub fn node_line(line: &[u8], extra: u32, wanted: u32) -> Result<Place, LineFault>
    ensures value { result ≡ place_in extra wanted (words_of line.now) }
    ensures small { IfOk result IsSmallPlace }
{
    let Some(four) = first_four(line) else {
        return Err(LineFault::Form);
    };
    if !is_this(four.first, wanted) || field_count(four.rest) != extra as usize {
        return Err(LineFault::Form);
    }
    place(four.second, four.third, four.fourth)
}

// The rank of a node with this number, where there is one.
fn rank(number: u32, first: u32, count: u32) -> Option<u32>
    requires { first + count < 2 ^ 32 }
    ensures value { result ≡ (if is_node_number first count number then Some (number - first) else None) }
    ensures within { IfSome result (λ n. n < count) }
{
    if first <= number && number < first + count {
        Some(number - first)
    } else {
        None
    }
}

fn four_ranks(numbers: [u32; 4], first: u32, count: u32) -> Option<[u32; 4]>
    requires { first + count < 2 ^ 32 }
    ensures value { result ≡ (if is_node_number first count (slice_index numbers 0)
        && (is_node_number first count (slice_index numbers 1)
        && (is_node_number first count (slice_index numbers 2)
        && is_node_number first count (slice_index numbers 3)))
        then Some ((slice_index numbers 0 - first) ∷ (slice_index numbers 1 - first) ∷ (slice_index numbers 2 - first) ∷ (slice_index numbers 3 - first) ∷ []) else None) }
    ensures within { IfSome result (λ t. All (λ n. n < count) t) }
{
    let [a, b, c, d] = numbers;
    Some([
        rank(a, first, count)?,
        rank(b, first, count)?,
        rank(c, first, count)?,
        rank(d, first, count)?,
    ])
}

fn four_numbers(a: &[u8], b: &[u8], c: &[u8], d: &[u8]) -> Option<[u32; 4]>
    ensures { result ≡ (if is_number a.now && (is_number b.now && (is_number c.now && is_number d.now))
        then Some (digits_value 10 a.now ∷ digits_value 10 b.now ∷ digits_value 10 c.now ∷ digits_value 10 d.now ∷ [])
        else None) }
{
    Some([number(a)?, number(b)?, number(c)?, number(d)?])
}

// Four numbers of nodes, as ranks.
fn ranks(
    a: &[u8],
    b: &[u8],
    c: &[u8],
    d: &[u8],
    first: u32,
    count: u32,
) -> Result<[u32; 4], LineFault>
    requires { first + count < 2 ^ 32 }
    ensures value { result ≡ ranks_of_texts first count a.now b.now c.now d.now }
    ensures within { IfOk result (λ t. All (λ n. n < count) t) }
    ensures four { IfOk result (λ t. length t ≡ 4) }
{
    match four_numbers(a, b, c, d) {
        Some(numbers) => match four_ranks(numbers, first, count) {
            Some(ranks) => Ok(ranks),
            None => Err(LineFault::Node),
        },
        None => Err(LineFault::Form),
    }
}

/// The ranks of the nodes of tetrahedron `wanted` on its line, with so many more fields behind them,
/// where `count` nodes have numbers from `first` on.
pub fn tet_line(
    line: &[u8],
    first: u32,
    count: u32,
    extra: u32,
    wanted: u32,
) -> Result<[u32; 4], LineFault>
    requires { first + count < 2 ^ 32 }
    ensures value { result ≡ ranks_in first count extra wanted (words_of line.now) }
    ensures within { IfOk result (λ t. All (λ n. n < count) t) }
    ensures four { IfOk result (λ t. length t ≡ 4) }
{
    let Some(four) = first_four(line) else {
        return Err(LineFault::Form);
    };
    let Some((last, rest)) = next_word(four.rest) else {
        return Err(LineFault::Form);
    };
    if !is_this(four.first, wanted) || field_count(rest) != extra as usize {
        return Err(LineFault::Form);
    }
    ranks(four.second, four.third, four.fourth, last, first, count)
}
