// Variables and literals, after sat.rs. A variable number never stands where a literal number is due.
#![tactic(auto)]

ghost use Rattle.std.specs.Prelude.{◌≡◌, ◌<◌};
ghost use Rattle.sat.specs.Lit.{as_lit, var, is_negated, neg};

use std::ops::Not;

#[derive(Clone, Copy)]
pub struct Var(pub u32);

#[derive(Clone, Copy, Default)]
pub struct Lit(pub u32);

impl Var {
    pub fn as_lit(self, negated: bool) -> Lit
        requires { self.0 < 2147483648 }
        ensures { result.0 ≡ as_lit self.0 negated }
    {
        if negated {
            Lit(2 * self.0 + 1)
        } else {
            Lit(2 * self.0)
        }
    }
}

impl Lit {
    pub fn var(self) -> Var
        ensures { result.0 ≡ var self.0 }
    {
        Var(self.0 / 2)
    }

    pub fn is_negated(self) -> bool
        ensures { result ≡ is_negated self.0 }
    {
        self.0 % 2 == 1
    }
}

// The other literal of the same variable.
impl Not for Lit {
    type Output = Lit;

    ghost not_gives = { λ l r. r.0 ≡ neg l.0 };

    fn not(self) -> Lit {
        let n = self.0;
        if n % 2 == 0 { Lit(n + 1) } else { Lit(n - 1) }
    }
}
