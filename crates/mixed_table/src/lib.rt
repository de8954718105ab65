// The clauses that a table of thresholds tells (specs/Table), by the recursion of mixed.rs's `encode_sub`. A call that is lent no entries
// only counts.
#![tactic(auto)]

ghost use Rattle.std.specs.Prelude.{◌≡◌, [], ◌+◌, ◌<◌};
ghost use Rattle.clause_set.specs.Clause.{clause_lits};
ghost use Rattle.clause_set.specs.Stores.{Added, Fits};
ghost use Rattle.mixed_table.specs.Table.{SoundTable, empty_table, walk};

use clause_set::{Clause, ClauseSet};
use sat::Lit;

// A threshold before the last term: its literal, what missing it costs, how many terms are left, its own the first, and what all of them
// and the last term can lose.
#[derive(Clone, Copy, Default)]
pub struct Row {
    pub lit: Lit,
    pub cost: u32,
    pub terms: usize,
    pub loss: u32,
}

// By how many thresholds are left before the last term: the first of them, row 0 for the last term alone; the last term's literals by the
// slack; how many thresholds are left where so many terms are.
#[derive(Clone, Copy)]
pub struct Table {
    pub rows: [Row; 24],
    pub ends: [Lit; 24],
    pub tops: [usize; 24],
}

impl Table {
    // Of no term.
    pub fn empty() -> Table
        ensures { result ≡ empty_table }
    {
        Table {
            rows: [Row::default(); 24],
            ends: [Lit(0); 24],
            tops: [0; 24],
        }
    }
}

// The clauses of the `left` terms before the last, and of the last term, after the literals of the clause begun: going down through the
// terms left, and no further where the slack covers what they can lose. The loop goes through the thresholds of the terms left; where
// one is missed, the call goes on with one term less than are left there.
fn encode_sub(set: &mut ClauseSet<'_>, tab: &Table, clause: &mut Clause, left: usize, slack: u32)
    requires left_bound { clause.old.len + left < 24 }
    requires sound_table { SoundTable tab.now }
    requires fits { Fits set.old.base set.old.used (walk tab.now left slack (clause_lits clause.old)) }
    ensures added { Added set.old (walk tab.now left slack (clause_lits clause.old)) set.new }
    ensures same_clause { (clause_lits clause.new ≡ clause_lits clause.old) × (clause.new.len ≡ clause.old.len) }
{
    for below in (0..tab.tops[left]).rev() {
        let row = tab.rows[below + 1];
        if row.loss <= slack {
            return;
        }
        clause.push(row.lit);
        if slack < row.cost {
            set.push(clause.as_slice());
        } else {
            encode_sub(set, tab, clause, row.terms - 1, slack - row.cost);
        }
        clause.pop();
    }
    if slack < tab.rows[0].loss {
        clause.push(tab.ends[slack as usize]);
        set.push(clause.as_slice());
        clause.pop();
    }
}

// The clauses that a table tells, from the first of its `left` terms before the last.
pub fn encode_table(set: &mut ClauseSet<'_>, tab: &Table, left: usize, slack: u64)
    requires left_bound { left < 24 }
    requires sound_table { SoundTable tab.now }
    requires fits { Fits set.old.base set.old.used (walk tab.now left slack []) }
    ensures { Added set.old (walk tab.now left slack []) set.new }
{
    let top = tab.tops[left];
    if slack < u64::from(tab.rows[top].loss) {
        let mut clause = Clause::empty();
        encode_sub(set, tab, &mut clause, left, slack as u32);
    }
}
