// The plain book's settings and rules: definitions (specs/), and the operations of a sum in code.
#![tactic(auto)]

ghost use Rattle.std.specs.Prelude.{◌≡◌};
ghost use Rattle.norm_csp.specs.NormOp.{op_of};
ghost use Rattle.norm_csp.specs.Rules.{cmp_op_of};
ghost use Rattle.norm_csp.specs.Operations.{compared, normalized};

// The operations that a sum is turned to.
#[derive(Clone, Copy, PartialEq, Eq)]
pub enum NormOp {
    Eq,
    Ne,
    Ge,
}

// By its number, as `op_of` has it: each number is taken.
impl From<u32> for NormOp {
    ghost from_gives = { λ n op. normalized op ≡ op_of n };

    fn from(n: u32) -> NormOp {
        match n {
            0 => NormOp::Eq,
            1 => NormOp::Ne,
            _ => NormOp::Ge,
        }
    }
}

// All operations of a sum.
#[derive(Clone, Copy, PartialEq, Eq)]
pub enum CmpOp {
    Eq,
    Ne,
    Ge,
    Le,
    Lt,
    Gt,
}

// By its number, as `cmp_op_of` has it: each number is taken.
impl From<u32> for CmpOp {
    ghost from_gives = { λ n op. compared op ≡ cmp_op_of n };

    fn from(n: u32) -> CmpOp {
        match n {
            0 => CmpOp::Eq,
            1 => CmpOp::Ne,
            2 => CmpOp::Ge,
            3 => CmpOp::Le,
            4 => CmpOp::Lt,
            _ => CmpOp::Gt,
        }
    }
}
