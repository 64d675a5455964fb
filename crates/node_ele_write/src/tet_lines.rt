ghost use Rattle.std.specs.Prelude.{◌≡◌, ◌+◌, ◌*◌, ◌^◌, ◌<◌, ◌≤◌, [], ◌∷◌, ◌++◌, All, length, map, take, IfOk, OnOk};
ghost use Rattle.mesh_texts.specs.Lines.{ele_line, ele_lines, renumbered};
ghost use Rattle.node_ele_write.specs.Stars.{star_tets};

use crate::front::Front;
use crate::texts::{Text, Texts};
use st_base::NoMemory;

/// The bytes of a buffer for lines of tetrahedra, seven at least.
pub const LINES: usize = 512;

/// No line of a tetrahedron takes more bytes: a number of 64 bits, three of 32, each behind a space, and what is copied
/// of the last.
const LINE: usize = 69;

/// Puts the line of a tetrahedron, by the last digit of its number and the texts of its nodes, into a buffer from `end`
/// on, and answers where it ends.
#[inline(always)]
fn put_texts(
    bytes: &mut [u8; LINES],
    end: usize,
    front: &Front,
    digit: u8,
    a: &Text,
    b: &Text,
    c: &Text,
    d: &Text,
) -> usize
    requires digit { digit < 10 }
    requires small { 10 * front.now.tens + digit < 2 ^ 64 }
    requires room { end + LINE ≤ LINES }
    ensures text { take result bytes.new ≡ take end bytes.old ++ ele_line (10 * front.now.tens + digit, a.now.number ∷ b.now.number ∷ c.now.number ∷ d.now.number ∷ []) }
    ensures end { result ≤ end + LINE }
{
    let end = front.put_digit(bytes, end, digit);
    let end = a.put(bytes, end);
    let end = b.put(bytes, end);
    let end = c.put(bytes, end);
    let end = d.put(bytes, end);
    bytes[end] = b'\n';
    end + 1
}

/// Puts the line of a tetrahedron, whose nodes are numbered from `first` on, into a buffer from `end` on, and answers
/// where it ends.
#[inline(always)]
pub fn put_line(
    bytes: &mut [u8; LINES],
    end: usize,
    front: &mut Front,
    texts: &mut Texts,
    number: u64,
    first: u32,
    nodes: [u32; 4],
) -> usize
    requires room { end + LINE ≤ LINES }
    requires nodes { All (λ n. first + n < 2 ^ 32) nodes }
    ensures text { take result bytes.new ≡ take end bytes.old ++ ele_line (number, renumbered first nodes) }
    ensures end { result ≤ LINES }
{
    let [a, b, c, d] = nodes;
    let a = texts.text(first + a);
    let b = texts.text(first + b);
    let c = texts.text(first + c);
    let d = texts.text(first + d);
    let digit = front.begin(number);
    put_texts(bytes, end, front, digit, &a, &b, &c, &d)
}

/// Puts the lines of the six tetrahedra round a vertex, by the texts of it and of seven others, into a buffer, and
/// answers where they end.
#[inline(always)]
pub fn put_star(
    bytes: &mut [u8; LINES],
    front: &mut Front,
    number: u64,
    own: &Text,
    others: &[Text; 7],
) -> usize
    requires { number + 6 ≤ 2 ^ 64 }
    ensures text { take result bytes.new ≡ ele_lines number (star_tets own.now.number (map (λ t. t.number) others.now)) }
    ensures end { result ≤ LINES }
{
    let [a, b, c, d, e, f, g] = others;
    let digit = front.begin(number);
    let end = put_texts(bytes, 0, front, digit, own, a, f, d);
    let digit = front.next(digit);
    let end = put_texts(bytes, end, front, digit, own, b, e, f);
    let digit = front.next(digit);
    let end = put_texts(bytes, end, front, digit, own, c, d, g);
    let digit = front.next(digit);
    let end = put_texts(bytes, end, front, digit, own, c, g, e);
    let digit = front.next(digit);
    let end = put_texts(bytes, end, front, digit, own, d, f, g);
    let digit = front.next(digit);
    put_texts(bytes, end, front, digit, own, e, g, f)
}

/// Puts the first bytes of a buffer behind a text.
#[inline(always)]
pub fn append(out: &mut Vec<u8>, bytes: &[u8; LINES], end: usize) -> Result<(), NoMemory>
    requires { end ≤ LINES }
    ensures { OnOk result (out.new.items ≡ out.old.items ++ take end bytes.now) }
{
    match out.extend_from_slice(&bytes[..end]) {
        Ok(()) => Ok(()),
        Err(_) => Err(NoMemory),
    }
}

/// Where the next line may begin in a buffer. If there is no room for one behind `end`, what is there goes to a text.
#[inline(always)]
pub fn make_room(out: &mut Vec<u8>, bytes: &[u8; LINES], end: usize) -> Result<usize, NoMemory>
    requires { end ≤ LINES }
    ensures text { IfOk result (λ at. out.new.items ++ take at bytes.now ≡ out.old.items ++ take end bytes.now) }
    ensures room { IfOk result (λ at. at + LINE ≤ LINES) }
{
    if end + LINE <= LINES {
        return Ok(end);
    }
    append(out, bytes, end)?;
    Ok(0)
}
