// Two tallies joined in one pass over both; a result added to a tally, and two tallies merged. Every call checks every tally it is given.
#![tactic(auto)]

mod calls;

ghost use Rattle.std.specs.Prelude.{◌≡◌, ◌++◌, ◌+◌, ◌≤◌};
ghost use Rattle.tally.specs.Tallies.{tally_for, scores_in};
ghost use Rattle.merging.specs.Joins.{entry_at, higher_of, next_of, Joinable};

pub use calls::{add, merge};
use tally::{Entry, Tally};

// The entry to write next, and how many entries of the first and of the second tally it takes.
#[derive(Clone, Copy)]
struct Next {
    score: i16,
    count: u8,
    first: usize,
    second: usize,
}

// The entry at a place before `end`; from there on no result, of a score below every valid one.
fn entry_at(scores: &[i16; 128], counts: &[u8; 128], i: usize, end: usize) -> Entry
    requires { end ≤ 128 }
    ensures { result ≡ entry_at scores.now counts.now i end }
{
    if i < end {
        return Entry {
            score: scores[i],
            count: counts[i],
        };
    }
    Entry {
        score: -7601,
        count: 0,
    }
}

// The higher of two entries; of two with one score, both together.
fn higher(x: Entry, y: Entry) -> Next
    requires { x.count + y.count ≤ 128 }
    ensures { result ≡ higher_of x y }
{
    if x.score == y.score {
        return Next {
            score: x.score,
            count: x.count + y.count,
            first: 1,
            second: 1,
        };
    }
    if y.score < x.score {
        return Next {
            score: x.score,
            count: x.count,
            first: 1,
            second: 0,
        };
    }
    Next {
        score: y.score,
        count: y.count,
        first: 0,
        second: 1,
    }
}

// The entry after one that is taken; one that is not taken stays.
fn next_of(taken: usize, x: Entry, after: Entry) -> Entry
    ensures { result ≡ next_of taken x after }
{
    if taken == 0 { x } else { after }
}

// The results of two tallies in one, written into a tally without a result in a single pass over both. `n` and `m` are the ends of their entries. The entries
// after the two that are compared are read before the comparison, so that a turn does not wait for them.
fn joined(none: Tally, a: Tally, n: usize, b: Tally, m: usize) -> Tally
    requires { Joinable none a n b m }
    ensures { result ≡ tally_for none.board none.deal (scores_in a ++ scores_in b) }
{
    let mut u = none;
    let mut x = entry_at(&a.scores, &a.counts, 0, n);
    let mut y = entry_at(&b.scores, &b.counts, 0, m);
    let mut i: usize = 0;
    let mut j: usize = 0;
    for k in 0..128 {
        let p = entry_at(&a.scores, &a.counts, i + 1, n);
        let q = entry_at(&b.scores, &b.counts, j + 1, m);
        let e = higher(x, y);
        if e.count == 0 {
            return u;
        }
        u.scores[k] = e.score;
        u.counts[k] = e.count;
        x = next_of(e.first, x, p);
        y = next_of(e.second, y, q);
        i += e.first;
        j += e.second;
    }
    u
}
