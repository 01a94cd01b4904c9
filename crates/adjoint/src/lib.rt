// The adjoint of a record, and the Hermitian test.
#![tactic(auto)]

ghost use Rattle.std.specs.Prelude.{◌≡◌, Ok, map, ◌≤◌, length};
ghost use Rattle.record.specs.Operands.{read_as};
ghost use Rattle.modes.specs.Words.{bit};
ghost use Rattle.modes.specs.Counts.{count, pairs};
ghost use Rattle.modes.specs.Every.{Every};
ghost use Rattle.lent.specs.Outputs.{Gives, filled_output};
ghost use Rattle.record.specs.Terms.{Ascending};
ghost use Rattle.record.specs.Layout.{encode, terms_in};
ghost use Rattle.record.specs.Reading.{Holds};
ghost use Rattle.record.specs.Canonical.{Canonical};
ghost use Rattle.adjoint.specs.Adjoint.{Negatable, adjoint_term, adjoint_terms, adjointed};
ghost use Rattle.adjoint.specs.Hermitian.{Among, AdjointsAmong, Tells, hermitian_of};

use modes::{Refusal, Sign, Term, Written};
use record::Terms;

// The number of pairs of the word's modes.
fn pairs_in(word: u64) -> u32
    ensures { (result ≡ pairs (count 64 (bit word))) × (result ≤ 2048) }
{
    let n = u64::count_ones(word);
    if n == 0 {
        return 0;
    }
    n * (n - 1) / 2
}

// The words swapped, and the coefficient negated if the pairs are odd in number.
fn adjoint_term(t: Term) -> Term
    requires { Negatable t }
    ensures { result ≡ adjoint_term t }
{
    let sign = Sign::from_exchanges(pairs_in(t.cre) + pairs_in(t.ann));
    let coeff = products::signed_coeff(sign, t.coeff);
    Term {
        cre: t.ann,
        ann: t.cre,
        coeff,
    }
}

// The adjoint terms to the output, in the record's own order.
fn put_adjoint_terms(terms: &Terms, out: &mut [u8])
    requires { Holds out.old (length terms.now) × Every Negatable terms.now }
    ensures { terms_in out.new (length terms.now) ≡ map adjoint_term terms.now }
{
    let n = terms.len();
    for i in 0..n {
        let t = terms.get(i);
        let u = adjoint_term(t);
        record::put_term(out, n, i, u);
    }
}

// The adjoint's record, its terms sorted where they stand.
fn write_adjoint(terms: &Terms, m: u64, out: &mut [u8]) -> Written
    requires { Holds out.old (length terms.now) × Canonical m terms.now }
    ensures { Gives (filled_output (length out.old) 0 (encode m (adjoint_terms terms.now))) (Ok result) out.new }
{
    let n = terms.len();
    put_adjoint_terms(terms, out);
    quicksort::sort(out, record::column_places(n), n);
    record::finish(out, m, n, 0)
}

// The adjoint of a record, as a record.
pub fn adjoint(a: &[u8], out: &mut [u8]) -> Result<Written, Refusal>
    ensures { Gives (adjointed (length out.old) (read_as 1 a.now)) result out.new }
{
    let c = match record::check(a, 1) {
        Ok(c) => c,
        Err(refusal) => return lent::refuse(out, refusal),
    };
    if out.len() < record::length_of(c.terms) {
        return lent::refuse(out, Refusal::OUTPUT_TOO_SHORT);
    }
    let terms = Terms::of(a, c.terms);
    Ok(write_adjoint(&terms, c.modes, out))
}

// Is t one of the terms? It can only stand after those before it.
fn has_term(terms: &Terms, t: Term) -> bool
    requires { Ascending terms.now }
    ensures { Tells result (Among t terms.now) }
{
    let i = terms.count_before(t);
    if terms.len() <= i {
        return false;
    }
    let u = terms.get(i);
    t == u
}

// Is the adjoint of every term one of the terms?
fn has_adjoints(terms: &Terms) -> bool
    requires { Ascending terms.now × Every Negatable terms.now }
    ensures { Tells result (AdjointsAmong terms.now terms.now) }
{
    let n = terms.len();
    for i in 0..n {
        let t = terms.get(i);
        let u = adjoint_term(t);
        if !has_term(terms, u) {
            return false;
        }
    }
    true
}

// Are the adjoint's bytes the record's? No output is lent: they are if the adjoint of every term is among the terms.
pub fn is_hermitian(a: &[u8]) -> Result<bool, Refusal>
    ensures { result ≡ hermitian_of a.now }
{
    let c = record::check(a, 1)?;
    let terms = Terms::of(a, c.terms);
    Ok(has_adjoints(&terms))
}
