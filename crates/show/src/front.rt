//! What the moments of a picture begin with alike, and the digits that are left as their labels.

ghost use Rattle.std.specs.Prelude.{◌≡◌, ◌++◌, IfOk, OnOk, drop, map, string_bytes};
ghost use Rattle.std.specs.Fmt.{decimal};
ghost use Rattle.show.specs.Front.{common_digits, common_to_all, cut_of, equal_digits, front_among, front_line, front_of};

use intervals::Moment;
use std::alloc::{AllocError, Global};
use timeline::Mark;

/// How many digits moments have at least that have a front.
const LONG: usize = 8;

/// How many digits a front has at least.
const WORTH: usize = 4;

/// The digits that the moments of all marks begin with, and that their labels leave out; empty where it is not worth it.
pub fn front_of(alloc: Global, marks: &[Mark]) -> Result<String, AllocError>
    ensures { IfOk result (λ front. string_bytes front ≡ front_of (map (λ mark. decimal mark.moment.0) marks.now)) }
{
    match marks.first() {
        Some(mark) => front_among(alloc, mark.moment, marks),
        None => Ok(String::new(alloc)),
    }
}

/// The front of moments that one of them begins with.
fn front_among(alloc: Global, first: Moment, marks: &[Mark]) -> Result<String, AllocError>
    ensures { IfOk result (λ front. string_bytes front ≡ front_among (decimal first.0) (map (λ mark. decimal mark.moment.0) marks.now)) }
{
    let digits = digits_in(alloc, first)?;
    let common = common_to_all(alloc, &digits, marks)?;
    let mut front = String::new(alloc);
    front.push_str(&digits[..cut_of(digits.len(), common)])?;
    Ok(front)
}

/// How many digits all moments have in common with these.
fn common_to_all(alloc: Global, digits: &str, marks: &[Mark]) -> Result<usize, AllocError>
    ensures { IfOk result (λ common. common ≡ common_to_all digits.now (map (λ mark. decimal mark.moment.0) marks.now)) }
{
    let mut common = digits.len();
    for mark in marks {
        let other = digits_in(alloc, mark.moment)?;
        common = common.min(common_digits(digits.as_bytes(), other.as_bytes()));
    }
    Ok(common)
}

/// With how many digits two moments of as many digits both begin; 0 where one has more.
fn common_digits(one: &[u8], other: &[u8]) -> usize
    ensures { result ≡ common_digits one.now other.now }
{
    if one.len() == other.len() {
        equal_digits(one, other)
    } else {
        0
    }
}

/// With how many digits both begin.
fn equal_digits(one: &[u8], other: &[u8]) -> usize
    ensures { result ≡ equal_digits one.now other.now }
{
    let mut many = 0;
    while many < one.len() && many < other.len() && one[many] == other[many] {
        many += 1;
    }
    many
}

/// How many digits are left out of moments of so many that have so many in common: one is always left.
fn cut_of(digits: usize, common: usize) -> usize
    ensures { result ≡ cut_of digits common }
{
    if digits >= LONG && common >= WORTH {
        common.min(digits - 1)
    } else {
        0
    }
}

/// The label of each mark: what its moment has after the front.
pub fn moments_of(alloc: Global, marks: &[Mark], front: usize) -> Result<Vec<String>, AllocError>
    ensures { IfOk result (λ moments. map (λ moment. string_bytes moment) moments.items ≡ map (λ mark. drop front (decimal mark.moment.0)) marks.now) }
{
    let mut moments = Vec::new(alloc);
    for mark in marks {
        moments.push(digits_after(alloc, mark.moment, front)?)?;
    }
    Ok(moments)
}

fn digits_after(alloc: Global, moment: Moment, front: usize) -> Result<String, AllocError>
    ensures { IfOk result (λ digits. string_bytes digits ≡ drop front (decimal moment.0)) }
{
    let digits = digits_in(alloc, moment)?;
    let mut left = String::new(alloc);
    left.push_str(&digits[front.min(digits.len())..])?;
    Ok(left)
}

fn digits_in(alloc: Global, moment: Moment) -> Result<String, AllocError>
    ensures { IfOk result (λ digits. string_bytes digits ≡ decimal moment.0) }
{
    let mut digits = String::new(alloc);
    let number = moment.0;
    write!(digits, "{number}")?;
    Ok(digits)
}

/// Adds what the labels of the moments leave out, between an opening and a closing; nothing where they are whole.
pub fn push_front(
    text: &mut String,
    opening: &str,
    front: &str,
    closing: &str,
) -> Result<(), AllocError>
    ensures { OnOk result (string_bytes text.new ≡ string_bytes text.old ++ front_line opening.now front.now closing.now) }
{
    if front.is_empty() {
        return Ok(());
    }
    text.push_str(opening)?;
    text.push_str(front)?;
    text.push_str(closing)
}
