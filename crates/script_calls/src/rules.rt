// The integers of a line that adds a rule.
ghost use Rattle.std.specs.Prelude.{IfSome, length, ◌≤◌};

use lines::{number_at, number_list};

// A sum.
#[derive(Clone, Copy)]
pub struct Sum<'a> {
    pub op: u32,
    pub constant: i32,
    pub terms: &'a [i32],
}

// `linear OP CONSTANT [SETTING COEFFICIENT]..`: what follows the constant is one list, which may lack its last coefficient.
pub fn sum_of<'a>(nums: &[i64], terms: &'a mut [i32]) -> Option<Sum<'a>>
    ensures { IfSome result (λ s. length s.terms.now ≤ length terms.old) }
{
    let op = number_at(nums, 0)?;
    let constant = number_at(nums, 1)?;
    let n = number_list(nums.get(2..)?, terms)?;
    Some(Sum {
        op,
        constant,
        terms: &terms[..n],
    })
}

// A product.
#[derive(Clone, Copy)]
pub struct Product {
    pub x: u32,
    pub y: u32,
    pub m: u32,
}

// `mul X Y M`
pub fn product_of(nums: &[i64]) -> Option<Product> {
    if nums.len() != 3 {
        return None;
    }
    Some(Product {
        x: number_at(nums, 0)?,
        y: number_at(nums, 1)?,
        m: number_at(nums, 2)?,
    })
}
